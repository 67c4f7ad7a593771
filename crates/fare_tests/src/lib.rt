//! The tests of the public calls of the uppermost crates: hubs over databases, what the program does for its words and how it
//! ends, stores and kept schemes in files of this machine, and lists of sessions, and bills, over stores that stop. They stand
//! here and in the crates of tests below, over what is proved, since a crate's own tests would prove that crate a second time.
//! It promises nothing else.
#![tactic(auto)]

#[cfg(test)]
mod bills_after_stops;
#[cfg(test)]
mod carrying;
#[cfg(test)]
mod checking;
#[cfg(test)]
mod databases;
#[cfg(test)]
mod disks;
#[cfg(test)]
mod endings;
#[cfg(test)]
mod hub_stops;
#[cfg(test)]
mod kept_schemes;
#[cfg(test)]
mod stores_in_files;
