ghost use Rattle.std.specs.Prelude.{◌≡◌, ◌≢◌, ℕ, Bool, None, Option, IfOk, IfErr, MatchOption, map, option_map, codes};
ghost use Rattle.clap.specs.Words.{rows_of, found_of, first_of, subcommand_of, subcommand_rows_of};
ghost use Rattle.clap.specs.Values.{kind_of};
ghost use Rattle.fare_command.specs.CommandLine.{hub_app};
ghost use Rattle.fare_command.specs.Jobs.{IsAskPort, IsDayIn, IsDeviceIn, IsGiven, IsOwnerIn, IsPort, IsQuestion, IsSource, IsStore, JobIn, JobOf, RefusedFor, FailsOn, IsSound, Tells, asking_name, name_of, usual_rounds};
ghost use Rattle.fare_command.specs.declared.words.WordsFault.TheVariants.{Memory};

use crate::command::{MOST_MILLIS, MOST_PATIENCE, MOST_ROUNDS, MOST_TURNS, hub_command};
use clap::ArgMatches;
use clap::error::ErrorKind;
use fare_record::{Day, DeviceId, OwnerId};
use std::alloc::{AllocError, Global};
use thiserror::Error;

/// The port where no other is asked for.
const PORT: u16 = 7071;

/// How many turns where nothing else is asked for.
const TURNS: u32 = 2_000;

/// How many quiet reads where nothing else is asked for.
const PATIENCE: u32 = 2;

/// How many milliseconds a read of a line waits, a write, and how many the lines of a round are read at most, where
/// nothing else is asked for.
const READ_MILLIS: u32 = 5;

const WRITE_MILLIS: u32 = 1_000;

const ROUND_MILLIS: u32 = 1_000;

/// What an operator asks of the stores, or orders.
#[derive(Clone, Copy, PartialEq, Eq, Debug)]
pub enum Question {
    /// Close all days that can be closed.
    Close,
    /// An owner's bill of a day.
    Bill { owner: OwnerId, day: Day },
    /// What each operator gets of it.
    Settle { owner: OwnerId, day: Day },
    /// Where each device's lanes stand.
    Stand,
    /// End an owner's lane of a device, for good.
    Retire { owner: OwnerId, device: DeviceId },
    /// Let go what is of days before the week of this one, where they are closed.
    Forget { before: Day },
}

/// Where a run takes its scheme from.
#[derive(Clone, Copy, PartialEq, Eq, Debug)]
pub enum SchemeSource<'a> {
    /// Nothing is said: from standard input, or, where that is empty, what is kept beside the outbox.
    Unsaid,
    /// `-`: from standard input.
    Input,
    /// From a file at this path.
    File(&'a str),
}

/// What the program is asked to do.
#[derive(Debug, Drop)]
pub enum Job<'a> {
    /// Replay a trace from standard input to standard output, over lists or over tables.
    Replay {
        sql: bool,
    },
    /// Serve stations on a port of 127.0.0.1, for a number of turns, with the outbox's database at a path, for the scheme
    /// of a source; a read of a line and a write wait so many milliseconds. So many rounds, or up to the one in which a
    /// file is there; in each the lines are read until none has brought anything for so many reads, or so many
    /// milliseconds of the round have passed. An operator is answered over HTTP at another port of 127.0.0.1, if one is
    /// given.
    Serve {
        port: u16,
        turns: u32,
        path: &'a str,
        scheme: SchemeSource<'a>,
        read_millis: u32,
        write_millis: u32,
        rounds: u32,
        until: Option<&'a str>,
        patience: u32,
        round_millis: u32,
        ask: Option<u16>,
    },
    /// Ask something of the stores, the outbox's database of which lies at a path, for the scheme of a source.
    Ask {
        path: &'a str,
        scheme: SchemeSource<'a>,
        question: Question,
    },
    /// Write the scheme that is kept beside the outbox whose database lies at a path, as the lines that make it.
    Scheme {
        path: &'a str,
    },
}

/// A subcommand that asks something of the stores, or orders it.
#[derive(Clone, Copy)]
enum Asking {
    Close,
    Bill,
    Settle,
    Stand,
    Retire,
    Forget,
}

/// A subcommand of the program.
#[derive(Clone, Copy)]
enum Subcommand {
    Replay,
    Serve,
    Ask(Asking),
    Scheme,
}

/// Why there is no job.
#[derive(Debug, Drop, Error)]
pub enum WordsFault {
    /// The words ask for the program's help or version, which is this text.
    #[error("{0}")]
    Asked(String),
    /// The words are no job: this text says why.
    #[error("{0}")]
    Refused(String),
    /// There was no memory.
    #[error("no memory")]
    Memory,
}

impl From<AllocError> for WordsFault {
    ghost from_gives = { λ _ e. e ≡ Memory };

    fn from(_error: AllocError) -> WordsFault {
        WordsFault::Memory
    }
}

/// Why clap made nothing of the words: its text, or want of memory.
fn refusal(alloc: Global, error: &clap::Error) -> WordsFault
    ensures { Tells (kind_of error.now) result }
{
    match error.to_string(alloc) {
        Ok(text) => match error.kind() {
            ErrorKind::OutOfMemory => WordsFault::Memory,
            ErrorKind::DisplayHelp | ErrorKind::DisplayVersion => WordsFault::Asked(text),
            _ => WordsFault::Refused(text),
        },
        Err(_) => WordsFault::Memory,
    }
}

/// What clap makes of the words.
fn matches_of<'a>(alloc: Global, words: &'a [&'a str]) -> Result<ArgMatches<'a>, WordsFault>
    ensures ok { IfOk result (λ m. subcommand_rows_of m ≡ subcommand_of hub_app (map (λ word. word.now) words.now)) }
    ensures sound { IfOk result (λ _. IsSound (map (λ word. word.now) words.now)) }
    ensures err { IfErr result (FailsOn (map (λ word. word.now) words.now)) }
{
    match hub_command(alloc)?.try_get_matches_from(words) {
        Ok(matches) => Ok(matches),
        Err(error) => Err(refusal(alloc, &error)),
    }
}

/// The text of an option, if it was given.
fn text_of<'a>(matches: &ArgMatches<'a>, id: &str) -> Option<&'a str>
    ensures { option_map (λ text. text.now) result ≡ first_of id.now (rows_of (found_of matches.now)) }
{
    matches.get_str(id)
}

/// Whether the store is tables.
fn store_of(alloc: Global, matches: &ArgMatches<'_>) -> Result<bool, WordsFault>
    ensures ok { IfOk result (IsStore (first_of (codes "store") (rows_of (found_of matches.now)))) }
    ensures err { IfErr result (RefusedFor ((sql : Bool) → IsStore (first_of (codes "store") (rows_of (found_of matches.now))) sql → ⊥)) }
{
    match text_of(matches, "store") {
        None => Ok(false),
        Some("plain") => Ok(false),
        Some("sql") => Ok(true),
        Some(store) => Err(WordsFault::Refused(format!(in alloc;
            "error: invalid value '{store}' for '--store <STORE>'\n  [possible values: plain, sql]\n\nFor more information, try '--help'.\n"
        )?)),
    }
}

/// The port, or the usual one where it is not given.
fn port_of(alloc: Global, matches: &ArgMatches<'_>) -> Result<u16, WordsFault>
    ensures ok { IfOk result (IsPort (first_of (codes "port") (rows_of (found_of matches.now)))) }
    ensures err { IfErr result (RefusedFor ((n : ℕ) → IsPort (first_of (codes "port") (rows_of (found_of matches.now))) n → ⊥)) }
{
    let Some(text) = text_of(matches, "port") else {
        return Ok(PORT);
    };
    match text.parse::<u16>() {
        Ok(port) => Ok(port),
        Err(_) => {
            let text = "error: the port is a number from 0 to 65,535\n";
            Err(WordsFault::Refused(String::from_str(alloc, text)?))
        }
    }
}

/// The port at which an operator is answered, if one is given.
fn ask_of(alloc: Global, matches: &ArgMatches<'_>) -> Result<Option<u16>, WordsFault>
    ensures ok { IfOk result (IsAskPort (first_of (codes "ask") (rows_of (found_of matches.now)))) }
    ensures err { IfErr result (RefusedFor ((port : Option ℕ) → IsAskPort (first_of (codes "ask") (rows_of (found_of matches.now))) port → ⊥)) }
{
    let Some(text) = text_of(matches, "ask") else {
        return Ok(None);
    };
    match text.parse::<u16>() {
        Ok(port) => Ok(Some(port)),
        Err(_) => {
            let text = "error: the port that answers is a number from 0 to 65,535\n";
            Err(WordsFault::Refused(String::from_str(alloc, text)?))
        }
    }
}

/// The number of this option, or the default where it is not given.
fn given_of(
    alloc: Global,
    matches: &ArgMatches<'_>,
    option: &str,
    most: u32,
    default: u32,
) -> Result<u32, WordsFault>
    ensures ok { IfOk result (IsGiven most default (first_of option.now (rows_of (found_of matches.now)))) }
    ensures err { IfErr result (RefusedFor ((n : ℕ) → IsGiven most default (first_of option.now (rows_of (found_of matches.now))) n → ⊥)) }
{
    let Some(text) = text_of(matches, option) else {
        return Ok(default);
    };
    match text.parse::<u32>() {
        Ok(number) if number >= 1 && number <= most => Ok(number),
        _ => Err(WordsFault::Refused(format!(in alloc;
            "error: --{option} takes a number from 1 to {most}\n"
        )?)),
    }
}

/// The owner that is asked for, if the option says one.
fn owner_in(matches: &ArgMatches<'_>) -> Option<OwnerId>
    ensures { MatchOption result ((n : ℕ) → IsOwnerIn (rows_of (found_of matches.now)) n → ⊥) (IsOwnerIn (rows_of (found_of matches.now))) }
{
    let number = text_of(matches, "owner")?.parse::<u16>().ok()?;
    OwnerId::new(u64::from(number))
}

/// The owner that is asked for.
fn owner_of(alloc: Global, matches: &ArgMatches<'_>) -> Result<OwnerId, WordsFault>
    ensures ok { IfOk result (IsOwnerIn (rows_of (found_of matches.now))) }
    ensures err { IfErr result (RefusedFor ((n : ℕ) → IsOwnerIn (rows_of (found_of matches.now)) n → ⊥)) }
{
    match owner_in(matches) {
        Some(owner) => Ok(owner),
        None => {
            let text = "error: the owner is a number from 1 to 65,535\n";
            Err(WordsFault::Refused(String::from_str(alloc, text)?))
        }
    }
}

/// The day that an option gives, if it says one.
fn day_in(matches: &ArgMatches<'_>, option: &str) -> Option<Day>
    ensures { MatchOption result ((n : ℕ) → IsDayIn option.now (rows_of (found_of matches.now)) n → ⊥) (IsDayIn option.now (rows_of (found_of matches.now))) }
{
    let number = text_of(matches, option)?.parse::<u32>().ok()?;
    Day::new(u64::from(number))
}

/// The day that an option gives.
fn day_of(alloc: Global, matches: &ArgMatches<'_>, option: &str) -> Result<Day, WordsFault>
    ensures ok { IfOk result (IsDayIn option.now (rows_of (found_of matches.now))) }
    ensures err { IfErr result (RefusedFor ((n : ℕ) → IsDayIn option.now (rows_of (found_of matches.now)) n → ⊥)) }
{
    match day_in(matches, option) {
        Some(day) => Ok(day),
        None => {
            let text = "error: the day is a number from 0 to 100,000\n";
            Err(WordsFault::Refused(String::from_str(alloc, text)?))
        }
    }
}

/// The device that is named, if the option says one.
fn device_in(matches: &ArgMatches<'_>) -> Option<DeviceId>
    ensures { MatchOption result ((n : ℕ) → IsDeviceIn (rows_of (found_of matches.now)) n → ⊥) (IsDeviceIn (rows_of (found_of matches.now))) }
{
    let number = text_of(matches, "device")?.parse::<u32>().ok()?;
    DeviceId::new(u64::from(number))
}

/// The device that is named.
fn device_of(alloc: Global, matches: &ArgMatches<'_>) -> Result<DeviceId, WordsFault>
    ensures ok { IfOk result (IsDeviceIn (rows_of (found_of matches.now))) }
    ensures err { IfErr result (RefusedFor ((n : ℕ) → IsDeviceIn (rows_of (found_of matches.now)) n → ⊥)) }
{
    match device_in(matches) {
        Some(device) => Ok(device),
        None => {
            let text = "error: the device is a number from 1 to 4,294,967,295\n";
            Err(WordsFault::Refused(String::from_str(alloc, text)?))
        }
    }
}

/// The path of the outbox's database.
fn path_of<'a>(alloc: Global, matches: &ArgMatches<'a>) -> Result<&'a str, WordsFault>
    ensures ok { IfOk result (λ path. first_of (codes "outbox") (rows_of (found_of matches.now)) ≡ Some path.now) }
    ensures err { IfErr result (RefusedFor (first_of (codes "outbox") (rows_of (found_of matches.now)) ≡ None)) }
{
    match text_of(matches, "outbox") {
        Some(path) => Ok(path),
        None => {
            let text = "error: the outbox is the path of a database\n";
            Err(WordsFault::Refused(String::from_str(alloc, text)?))
        }
    }
}

/// Where the scheme comes from.
fn source_of<'a>(matches: &ArgMatches<'a>) -> SchemeSource<'a>
    ensures { IsSource (first_of (codes "scheme") (rows_of (found_of matches.now))) result }
{
    match text_of(matches, "scheme") {
        None => SchemeSource::Unsaid,
        Some("-") => SchemeSource::Input,
        Some(path) => SchemeSource::File(path),
    }
}

/// The job of `replay`.
fn replay_job<'a>(alloc: Global, matches: &ArgMatches<'a>) -> Result<Job<'a>, WordsFault>
    ensures ok { IfOk result (JobIn (codes "replay") (rows_of (found_of matches.now))) }
    ensures err { IfErr result (RefusedFor ((job : Job) → JobIn (codes "replay") (rows_of (found_of matches.now)) job → ⊥)) }
{
    let sql = store_of(alloc, matches)?;
    Ok(Job::Replay { sql })
}

/// How many rounds where no number is given.
fn usual_rounds(until: Option<&str>) -> u32
    ensures { result ≡ usual_rounds (option_map (λ file. file.now) until.entry) }
{
    if until.is_some() { MOST_ROUNDS } else { 1 }
}

/// The job of `serve`.
fn serve_job<'a>(alloc: Global, matches: &ArgMatches<'a>) -> Result<Job<'a>, WordsFault>
    ensures ok { IfOk result (JobIn (codes "serve") (rows_of (found_of matches.now))) }
    ensures err { IfErr result (RefusedFor ((job : Job) → JobIn (codes "serve") (rows_of (found_of matches.now)) job → ⊥)) }
{
    let port = port_of(alloc, matches)?;
    let turns = given_of(alloc, matches, "turns", MOST_TURNS, TURNS)?;
    let path = path_of(alloc, matches)?;
    let scheme = source_of(matches);
    let read_millis = given_of(alloc, matches, "read-ms", MOST_MILLIS, READ_MILLIS)?;
    let write_millis = given_of(alloc, matches, "write-ms", MOST_MILLIS, WRITE_MILLIS)?;
    let until = text_of(matches, "until");
    let usual = usual_rounds(until);
    let rounds = given_of(alloc, matches, "rounds", MOST_ROUNDS, usual)?;
    let patience = given_of(alloc, matches, "patience", MOST_PATIENCE, PATIENCE)?;
    let round_millis = given_of(alloc, matches, "round-ms", MOST_MILLIS, ROUND_MILLIS)?;
    let ask = ask_of(alloc, matches)?;
    Ok(Job::Serve {
        port,
        turns,
        path,
        scheme,
        read_millis,
        write_millis,
        rounds,
        until,
        patience,
        round_millis,
        ask,
    })
}

/// The owner and the day that a question is of.
fn bill_of(alloc: Global, matches: &ArgMatches<'_>) -> Result<(OwnerId, Day), WordsFault>
    ensures ok { IfOk result (λ said. IsOwnerIn (rows_of (found_of matches.now)) said.0 × IsDayIn (codes "day") (rows_of (found_of matches.now)) said.1) }
    ensures err { IfErr result (RefusedFor ((owner day : ℕ) → IsOwnerIn (rows_of (found_of matches.now)) owner → IsDayIn (codes "day") (rows_of (found_of matches.now)) day → ⊥)) }
{
    let owner = owner_of(alloc, matches)?;
    let day = day_of(alloc, matches, "day")?;
    Ok((owner, day))
}

/// The owner and the device that an order is of.
fn lane_of(alloc: Global, matches: &ArgMatches<'_>) -> Result<(OwnerId, DeviceId), WordsFault>
    ensures ok { IfOk result (λ said. IsOwnerIn (rows_of (found_of matches.now)) said.0 × IsDeviceIn (rows_of (found_of matches.now)) said.1) }
    ensures err { IfErr result (RefusedFor ((owner device : ℕ) → IsOwnerIn (rows_of (found_of matches.now)) owner → IsDeviceIn (rows_of (found_of matches.now)) device → ⊥)) }
{
    let owner = owner_of(alloc, matches)?;
    let device = device_of(alloc, matches)?;
    Ok((owner, device))
}

/// The question of a subcommand that asks one.
fn question_of(
    alloc: Global,
    asking: Asking,
    matches: &ArgMatches<'_>,
) -> Result<Question, WordsFault>
    ensures ok { IfOk result (IsQuestion (asking_name asking) (rows_of (found_of matches.now))) }
    ensures err { IfErr result (RefusedFor ((question : Question) → IsQuestion (asking_name asking) (rows_of (found_of matches.now)) question → ⊥)) }
{
    match asking {
        Asking::Close => Ok(Question::Close),
        Asking::Bill => {
            let (owner, day) = bill_of(alloc, matches)?;
            Ok(Question::Bill { owner, day })
        }
        Asking::Settle => {
            let (owner, day) = bill_of(alloc, matches)?;
            Ok(Question::Settle { owner, day })
        }
        Asking::Stand => Ok(Question::Stand),
        Asking::Retire => {
            let (owner, device) = lane_of(alloc, matches)?;
            Ok(Question::Retire { owner, device })
        }
        Asking::Forget => {
            let before = day_of(alloc, matches, "before")?;
            Ok(Question::Forget { before })
        }
    }
}

/// The job of a subcommand that asks something.
fn ask_job<'a>(
    alloc: Global,
    asking: Asking,
    matches: &ArgMatches<'a>,
) -> Result<Job<'a>, WordsFault>
    ensures ok { IfOk result (JobIn (asking_name asking) (rows_of (found_of matches.now))) }
    ensures err { IfErr result (RefusedFor ((job : Job) → JobIn (asking_name asking) (rows_of (found_of matches.now)) job → ⊥)) }
{
    let path = path_of(alloc, matches)?;
    let scheme = source_of(matches);
    let question = question_of(alloc, asking, matches)?;
    Ok(Job::Ask {
        path,
        scheme,
        question,
    })
}

/// The job of `scheme`.
fn scheme_job<'a>(alloc: Global, matches: &ArgMatches<'a>) -> Result<Job<'a>, WordsFault>
    ensures ok { IfOk result (JobIn (codes "scheme") (rows_of (found_of matches.now))) }
    ensures err { IfErr result (RefusedFor ((job : Job) → JobIn (codes "scheme") (rows_of (found_of matches.now)) job → ⊥)) }
{
    let path = path_of(alloc, matches)?;
    Ok(Job::Scheme { path })
}

/// The subcommand of this name.
fn subcommand_named(name: &str) -> Option<Subcommand>
    ensures { MatchOption result ((subcommand : Subcommand) → name.now ≢ name_of subcommand) (λ subcommand. name.now ≡ name_of subcommand) }
{
    match name {
        "replay" => Some(Subcommand::Replay),
        "serve" => Some(Subcommand::Serve),
        "close" => Some(Subcommand::Ask(Asking::Close)),
        "bill" => Some(Subcommand::Ask(Asking::Bill)),
        "settle" => Some(Subcommand::Ask(Asking::Settle)),
        "stand" => Some(Subcommand::Ask(Asking::Stand)),
        "retire" => Some(Subcommand::Ask(Asking::Retire)),
        "forget" => Some(Subcommand::Ask(Asking::Forget)),
        "scheme" => Some(Subcommand::Scheme),
        _ => None,
    }
}

/// The job of a subcommand.
fn job_of<'a>(
    alloc: Global,
    subcommand: Subcommand,
    matches: &ArgMatches<'a>,
) -> Result<Job<'a>, WordsFault>
    ensures ok { IfOk result (JobIn (name_of subcommand) (rows_of (found_of matches.now))) }
    ensures err { IfErr result (RefusedFor ((job : Job) → JobIn (name_of subcommand) (rows_of (found_of matches.now)) job → ⊥)) }
{
    match subcommand {
        Subcommand::Replay => replay_job(alloc, matches),
        Subcommand::Serve => serve_job(alloc, matches),
        Subcommand::Ask(asking) => ask_job(alloc, asking, matches),
        Subcommand::Scheme => scheme_job(alloc, matches),
    }
}

/// The subcommand that clap's matches name, and what they hold of it.
fn subcommand_in<'m, 'a>(matches: &'m ArgMatches<'a>) -> Option<(Subcommand, &'m ArgMatches<'a>)>
    ensures { MatchOption result ((job : Job) → JobOf (subcommand_rows_of matches.now) job → ⊥) (λ said. subcommand_rows_of matches.now ≡ Some (name_of said.0, rows_of (found_of said.1.now))) }
{
    let (name, inner) = matches.subcommand()?;
    let subcommand = subcommand_named(name)?;
    Some((subcommand, inner))
}

/// The job that clap's matches ask for.
fn job_in<'a>(alloc: Global, matches: &ArgMatches<'a>) -> Result<Job<'a>, WordsFault>
    ensures ok { IfOk result (JobOf (subcommand_rows_of matches.now)) }
    ensures err { IfErr result (RefusedFor ((job : Job) → JobOf (subcommand_rows_of matches.now) job → ⊥)) }
{
    let Some((subcommand, inner)) = subcommand_in(matches) else {
        let text =
            "error: the command is replay, serve, close, bill, settle, stand, retire, forget or scheme\n";
        return Err(WordsFault::Refused(String::from_str(alloc, text)?));
    };
    job_of(alloc, subcommand, inner)
}

/// The job that the words ask for, which are those after the program's name. `Asked` where they ask for help
/// or the version; `Refused` where clap does not take them, or a store or a number is none;
/// `Memory` where there was none.
pub fn read_words<'a>(alloc: Global, words: &'a [&'a str]) -> Result<Job<'a>, WordsFault>
    ensures job { IfOk result (JobOf (subcommand_of hub_app (map (λ word. word.now) words.now))) }
    ensures sound { IfOk result (λ _. IsSound (map (λ word. word.now) words.now)) }
    ensures fault { IfErr result (FailsOn (map (λ word. word.now) words.now)) }
{
    let matches = matches_of(alloc, words)?;
    job_in(alloc, &matches)
}
