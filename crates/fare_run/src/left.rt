use fare_command::{Question, SchemeSource};
use fare_serve::Limits;

/// What serving has to be told.
#[derive(Clone, Copy, PartialEq, Eq, Debug)]
pub struct ServeOptions<'a> {
    /// The port of 127.0.0.1; with 0 the system chooses one.
    pub port: u16,
    /// The path of the outbox's database; owner O's ledger lies at this path, a dot and O.
    pub path: &'a str,
    /// Where its scheme comes from.
    pub scheme: SchemeSource<'a>,
    /// How often and how long it waits for others, how many rounds it serves, and how long the lines of one are read.
    pub limits: Limits,
    /// Where it is to end after the round in which a file is there, the file's path.
    pub until: Option<&'a str>,
    /// Where an operator is to be answered over HTTP between two rounds, the port of 127.0.0.1; with 0 the system chooses
    /// one.
    pub ask: Option<u16>,
}

/// What a question of the stores has to be told.
#[derive(Clone, Copy, PartialEq, Eq, Debug)]
pub struct AskOptions<'a> {
    /// The path of the outbox's database; owner O's ledger lies at this path, a dot and O.
    pub path: &'a str,
    /// Where its scheme comes from.
    pub scheme: SchemeSource<'a>,
    /// What is asked, or ordered.
    pub question: Question,
}

/// What is left to do after `run`, since it works on stores in files.
#[derive(Clone, Copy, PartialEq, Eq, Debug)]
pub enum Left<'a> {
    /// To be done with `serve`.
    Serve(ServeOptions<'a>),
    /// To be done with `ask`.
    Ask(AskOptions<'a>),
    /// To be done with `show_scheme`, at the path of the outbox's database.
    Scheme { path: &'a str },
}
