//! The tests of the public calls of the lower crates, and of the core's: bodies, frames, devices, schemes, decisions and
//! queues; bills and settlements, a world over stores in memory, the forwarder over a store, the lines of traces and
//! replies, a scheme as its lines and as lists, and what a later scheme contradicts. They need no databases. It promises
//! nothing.
#![tactic(auto)]

#[cfg(test)]
mod bills;
#[cfg(test)]
mod bodies;
#[cfg(test)]
mod buffer;
#[cfg(test)]
mod checking;
#[cfg(test)]
mod collector;
#[cfg(test)]
mod day;
#[cfg(test)]
mod device;
#[cfg(test)]
mod frame;
#[cfg(test)]
mod growth;
#[cfg(test)]
mod inbox_queue;
#[cfg(test)]
mod lane_queue;
#[cfg(test)]
mod lines;
#[cfg(test)]
mod link;
#[cfg(test)]
mod owner;
#[cfg(test)]
mod registers;
#[cfg(test)]
mod route;
#[cfg(test)]
mod routes;
#[cfg(test)]
mod scheme;
#[cfg(test)]
mod setting_up;
#[cfg(test)]
mod settlements;
#[cfg(test)]
mod supervisor;
#[cfg(test)]
mod windows;
#[cfg(test)]
mod world;
#[cfg(test)]
mod world_bills;
