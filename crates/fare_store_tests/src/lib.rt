//! The tests of the public calls of the stores, in memory and in tables, with what finds a store's tables in a database, of what
//! keeps a scheme beside a store, and of replays of whole traces. A crate's own tests would prove that crate a second time, so
//! they stand here and in the other crates of tests, over what is proved: values from outside (bytes of a format, worked
//! traces) that show that the contracts say what was meant, and each call that takes memory succeeding. There is a small store
//! of two formats, for the raising of one. It promises nothing else.
#![tactic(auto)]

#[cfg(test)]
mod batches;
#[cfg(test)]
mod beside;
#[cfg(test)]
mod chance;
#[cfg(test)]
mod checking;
#[cfg(test)]
mod disks;
#[cfg(test)]
mod failing;
#[cfg(test)]
mod files;
#[cfg(test)]
mod first_format;
#[cfg(test)]
mod keeping;
#[cfg(test)]
mod kept;
#[cfg(test)]
mod layout;
#[cfg(test)]
mod ledger_tables;
#[cfg(test)]
mod older_formats;
#[cfg(test)]
mod outbox_tables;
#[cfg(test)]
mod raising;
#[cfg(test)]
mod replay;
#[cfg(test)]
mod replay_sql;
#[cfg(test)]
mod schemes;
pub mod shelf;
#[cfg(test)]
mod stops;
#[cfg(test)]
mod stores;
#[cfg(test)]
mod texts;
#[cfg(test)]
mod traces;
#[cfg(test)]
mod traces_of_days;
#[cfg(test)]
mod traces_of_retired;
#[cfg(test)]
mod traces_of_routes;
#[cfg(test)]
mod worked;
