//! The tests of sessions on threads, of an owner, of the stations and of lists of both on a hub, and of the public calls of
//! what serves and answers, over stores in memory: lines over sockets, rounds of serving and what is seen of them, what an
//! operator asks of a hub and orders, over HTTP too and in JSON, and the words of the command line. They need no
//! databases, and so are proved without the port of SQLite. It promises nothing.
#![tactic(auto)]

#[cfg(test)]
mod answers_in_json;
#[cfg(test)]
mod batches;
#[cfg(test)]
mod checking;
#[cfg(test)]
mod command_line;
#[cfg(test)]
mod desk;
#[cfg(test)]
mod given;
#[cfg(test)]
mod hub_sessions;
#[cfg(test)]
mod json_lines;
#[cfg(test)]
mod letting_go;
#[cfg(test)]
mod letting_go_by_order;
#[cfg(test)]
mod net;
#[cfg(test)]
mod page;
#[cfg(test)]
mod retired_lanes;
#[cfg(test)]
mod rounds;
#[cfg(test)]
mod serving;
#[cfg(test)]
mod sessions;
#[cfg(test)]
mod shifts;
#[cfg(test)]
mod stations;
#[cfg(test)]
mod watching;
