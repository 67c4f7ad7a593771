ghost use Rattle.std.specs.Prelude.{◌≡◌, IfOk, codes};
ghost use Rattle.clap.specs.Words.{App, Rule, app_of, new_app, with_rule, with_subcommand};
ghost use Rattle.fare_command.specs.CommandLine.{IsMade, IsOption, ask_rule, asking_app, base_app, day_app, day_rule, device_rule, hub_app, days_app, lane_app, letting_app, ordering_app, lasting_serve_app, number_rule, option_rule, outbox_rule, owner_rule, patience_rule, plain_serve_app, port_number_rule, port_rule, read_rule, replay_app, round_rule, rounds_rule, running_app, scheme_app, scheme_rule, serve_app, standing_app, store_rule, stores_app, turns_rule, until_rule, waiting_serve_app, write_rule};

use clap::{Arg, ArgAction, Command};
use std::alloc::{AllocError, Global};

/// The most turns that may be asked for.
pub(crate) const MOST_TURNS: u32 = 1_000_000_000;

/// The most milliseconds that a read or a write of a line may wait, and that the lines of a round may be read.
pub(crate) const MOST_MILLIS: u32 = 60_000;

/// The most rounds that may be asked for.
pub(crate) const MOST_ROUNDS: u32 = 4_294_967_295;

/// The most quiet reads that may be asked for.
pub(crate) const MOST_PATIENCE: u32 = 1_000_000_000;

/// The highest number of an owner.
const MOST_OWNER: u32 = 65_535;

/// The highest number of a device.
const MOST_DEVICE: u32 = 4_294_967_295;

/// `--NAME VALUE`
fn option_arg<'a>(alloc: Global, name: &'a str, value: &'a str, help: &'a str) -> Arg<'a>
    ensures { IsOption (option_rule name.now) result }
{
    Arg::new(alloc, name)
        .long(name)
        .value_name(value)
        .action(ArgAction::Set)
        .help(help)
}

/// `--NAME VALUE`, a number from 1 to this one
fn number_arg<'a>(alloc: Global, name: &'a str, value: &'a str, help: &'a str, most: u32) -> Arg<'a>
    ensures { IsOption (number_rule name.now most) result }
{
    option_arg(alloc, name, value, help).value_parser(clap::value_parser!(u32).range(
        1..=i64::from(most),
    ))
}

/// `--NAME PORT`
fn port_number_arg<'a>(alloc: Global, name: &'a str, help: &'a str) -> Arg<'a>
    ensures { IsOption (port_number_rule name.now) result }
{
    option_arg(alloc, name, "PORT", help).value_parser(clap::value_parser!(u16))
}

/// `--store STORE`
fn store_arg<'a>(alloc: Global) -> Arg<'a>
    ensures { IsOption store_rule result }
{
    let help = "Where the records lie: plain (lists in memory, the default) or sql (tables)";
    option_arg(alloc, "store", "STORE", help)
}

/// `--port PORT`
fn port_arg<'a>(alloc: Global) -> Arg<'a>
    ensures { IsOption port_rule result }
{
    let help =
        "The port on 127.0.0.1, 0 to 65,535 (7071 if not given); with 0 the system chooses one";
    port_number_arg(alloc, "port", help)
}

/// `--turns TURNS`
fn turns_arg<'a>(alloc: Global) -> Arg<'a>
    ensures { IsOption turns_rule result }
{
    let help =
        "How often each part tries again before it gives up, 1 to 1,000,000,000 (2,000 if not given)";
    number_arg(alloc, "turns", "TURNS", help, MOST_TURNS)
}

/// `--outbox PATH`
fn outbox_arg<'a>(alloc: Global) -> Arg<'a>
    ensures { IsOption outbox_rule result }
{
    let help = "The database of the outbox; owner O's ledger lies at PATH.O";
    option_arg(alloc, "outbox", "PATH", help).required(true)
}

/// `--scheme FILE`
fn scheme_arg<'a>(alloc: Global) -> Arg<'a>
    ensures { IsOption scheme_rule result }
{
    let help =
        "The file of the scheme's lines, or - for standard input (if not given: standard input, or the kept scheme where that is empty)";
    option_arg(alloc, "scheme", "FILE", help)
}

/// `--read-ms MILLIS`
fn read_arg<'a>(alloc: Global) -> Arg<'a>
    ensures { IsOption read_rule result }
{
    let help = "How long a read of a line waits, 1 to 60,000 (5 if not given)";
    number_arg(alloc, "read-ms", "MILLIS", help, MOST_MILLIS)
}

/// `--write-ms MILLIS`
fn write_arg<'a>(alloc: Global) -> Arg<'a>
    ensures { IsOption write_rule result }
{
    let help = "How long a write to a line waits, 1 to 60,000 (1,000 if not given)";
    number_arg(alloc, "write-ms", "MILLIS", help, MOST_MILLIS)
}

/// `--rounds N`
fn rounds_arg<'a>(alloc: Global) -> Arg<'a>
    ensures { IsOption rounds_rule result }
{
    let help = "How many rounds it serves, 1 to 4,294,967,295 (1 if not given, all with --until)";
    number_arg(alloc, "rounds", "N", help, MOST_ROUNDS)
}

/// `--until FILE`
fn until_arg<'a>(alloc: Global) -> Arg<'a>
    ensures { IsOption until_rule result }
{
    let help = "It ends after the round in which this file is there";
    option_arg(alloc, "until", "FILE", help)
}

/// `--patience N`
fn patience_arg<'a>(alloc: Global) -> Arg<'a>
    ensures { IsOption patience_rule result }
{
    let help =
        "For how many reads no line may bring anything before the round goes on, 1 to 1,000,000,000 (2 if not given)";
    number_arg(alloc, "patience", "N", help, MOST_PATIENCE)
}

/// `--round-ms MILLIS`
fn round_arg<'a>(alloc: Global) -> Arg<'a>
    ensures { IsOption round_rule result }
{
    let help = "How long the lines of a round are read at most, 1 to 60,000 (1,000 if not given)";
    number_arg(alloc, "round-ms", "MILLIS", help, MOST_MILLIS)
}

/// `--ask PORT`
fn ask_arg<'a>(alloc: Global) -> Arg<'a>
    ensures { IsOption ask_rule result }
{
    let help =
        "A port on 127.0.0.1, 0 to 65,535, where it answers an operator over HTTP between two rounds (none if not given)";
    port_number_arg(alloc, "ask", help)
}

/// `--owner O`
fn owner_arg<'a>(alloc: Global) -> Arg<'a>
    ensures { IsOption owner_rule result }
{
    number_arg(alloc, "owner", "O", "The owner, 1 to 65,535", MOST_OWNER).required(true)
}

/// `--NAME D`, a day
fn day_arg<'a>(alloc: Global, name: &'a str, help: &'a str) -> Arg<'a>
    ensures { IsOption (day_rule name.now) result }
{
    option_arg(alloc, name, "D", help)
        .required(true)
        .value_parser(clap::value_parser!(u32).range(0..=100_000))
}

/// `--device D`
fn device_arg<'a>(alloc: Global) -> Arg<'a>
    ensures { IsOption device_rule result }
{
    let help = "The device, 1 to 4,294,967,295";
    number_arg(alloc, "device", "D", help, MOST_DEVICE).required(true)
}

/// A command with one option.
fn command_with<'a>(
    alloc: Global,
    name: &'a str,
    about: &'a str,
    option: Arg<'a>,
) -> Result<Command<'a>, AllocError>
    ensures { (rule : Rule) → IsOption rule option.entry → IfOk result (IsMade (with_rule (new_app name.now) rule)) }
{
    Command::new(alloc, name).about(about).arg(option)
}

/// A command with one more option, where there was memory for it.
fn with_option<'a>(
    command: Result<Command<'a>, AllocError>,
    option: Arg<'a>,
) -> Result<Command<'a>, AllocError>
    ensures { (app : App) (rule : Rule) → IfOk command.entry (IsMade app) → IsOption rule option.entry → IfOk result (IsMade (with_rule app rule)) }
{
    command?.arg(option)
}

fn replay_command<'a>(alloc: Global) -> Result<Command<'a>, AllocError>
    ensures { IfOk result (IsMade replay_app) }
{
    let about = "Reads a trace from standard input and writes the replies to its lines";
    command_with(alloc, "replay", about, store_arg(alloc))
}

/// `serve`, with where it listens, how often it tries, and where its stores and its scheme lie.
fn plain_serve_command<'a>(alloc: Global) -> Result<Command<'a>, AllocError>
    ensures { IfOk result (IsMade plain_serve_app) }
{
    let about = "Collects what the stations of a scheme send over sockets, and serves the owners";
    let command = command_with(alloc, "serve", about, port_arg(alloc));
    let command = with_option(command, turns_arg(alloc));
    let command = with_option(command, outbox_arg(alloc));
    with_option(command, scheme_arg(alloc))
}

/// `serve`, with how long it waits.
fn waiting_serve_command<'a>(alloc: Global) -> Result<Command<'a>, AllocError>
    ensures { IfOk result (IsMade waiting_serve_app) }
{
    let command = with_option(plain_serve_command(alloc), read_arg(alloc));
    with_option(command, write_arg(alloc))
}

/// `serve`, with how often it begins again.
fn lasting_serve_command<'a>(alloc: Global) -> Result<Command<'a>, AllocError>
    ensures { IfOk result (IsMade lasting_serve_app) }
{
    let command = with_option(waiting_serve_command(alloc), rounds_arg(alloc));
    let command = with_option(command, until_arg(alloc));
    let command = with_option(command, patience_arg(alloc));
    with_option(command, round_arg(alloc))
}

fn serve_command<'a>(alloc: Global) -> Result<Command<'a>, AllocError>
    ensures { IfOk result (IsMade serve_app) }
{
    with_option(lasting_serve_command(alloc), ask_arg(alloc))
}

/// A question of the stores at a path, for a scheme.
fn stores_command<'a>(
    alloc: Global,
    name: &'a str,
    about: &'a str,
) -> Result<Command<'a>, AllocError>
    ensures { IfOk result (IsMade (stores_app name.now)) }
{
    let command = command_with(alloc, name, about, outbox_arg(alloc));
    with_option(command, scheme_arg(alloc))
}

/// A question of an owner's day.
fn day_command<'a>(alloc: Global, name: &'a str, about: &'a str) -> Result<Command<'a>, AllocError>
    ensures { IfOk result (IsMade (day_app name.now)) }
{
    let help = "The traffic day, counted from 1970-01-01 = 0, up to 100,000";
    let command = with_option(stores_command(alloc, name, about), owner_arg(alloc));
    with_option(command, day_arg(alloc, "day", help))
}

/// An order of an owner's lane of a device.
fn lane_command<'a>(alloc: Global, name: &'a str, about: &'a str) -> Result<Command<'a>, AllocError>
    ensures { IfOk result (IsMade (lane_app name.now)) }
{
    let command = with_option(stores_command(alloc, name, about), owner_arg(alloc));
    with_option(command, device_arg(alloc))
}

/// An order of the days before one.
fn days_command<'a>(alloc: Global, name: &'a str, about: &'a str) -> Result<Command<'a>, AllocError>
    ensures { IfOk result (IsMade (days_app name.now)) }
{
    let help =
        "A day, counted from 1970-01-01 = 0, up to 100,000: its week stays, and so do later ones";
    with_option(
        stores_command(alloc, name, about),
        day_arg(alloc, "before", help),
    )
}

/// What is kept of a scheme beside an outbox.
fn scheme_command<'a>(alloc: Global) -> Result<Command<'a>, AllocError>
    ensures { IfOk result (IsMade scheme_app) }
{
    let about = "Writes the scheme that is kept beside an outbox, as the lines that make it";
    command_with(alloc, "scheme", about, outbox_arg(alloc))
}

/// The program, with no subcommand yet.
fn base_command<'a>(alloc: Global) -> Result<Command<'a>, AllocError>
    ensures { IfOk result (IsMade base_app) }
{
    Command::new(alloc, "fare_hub")
        .about("Collects fare transactions and forwards them to the owners of the products")
        .version("0.1.0")
        .no_binary_name(true)
        .subcommand_required(true)
        .bin_name("fare_hub")
}

/// A command with one more subcommand, where there was memory for both.
fn joined<'a>(
    command: Result<Command<'a>, AllocError>,
    subcommand: Result<Command<'a>, AllocError>,
) -> Result<Command<'a>, AllocError>
    ensures { (outer : App) (inner : App) → IfOk command.entry (IsMade outer) → IfOk subcommand.entry (IsMade inner) → IfOk result (IsMade (with_subcommand outer inner.top)) }
{
    let subcommand = subcommand?;
    command?.subcommand(subcommand)
}

/// The program, with `replay` alone.
fn with_replay<'a>(alloc: Global) -> Result<Command<'a>, AllocError>
    ensures { IfOk result (IsMade (with_subcommand base_app replay_app.top)) }
{
    joined(base_command(alloc), replay_command(alloc))
}

/// And with `serve`.
fn running_command<'a>(alloc: Global) -> Result<Command<'a>, AllocError>
    ensures { IfOk result (IsMade running_app) }
{
    joined(with_replay(alloc), serve_command(alloc))
}

/// And with `close`.
fn with_close<'a>(alloc: Global) -> Result<Command<'a>, AllocError>
    ensures { IfOk result (IsMade (with_subcommand running_app (stores_app (codes "close")).top)) }
{
    let about = "Closes all days of the owners' ledgers that can be closed";
    joined(
        running_command(alloc),
        stores_command(alloc, "close", about),
    )
}

/// And with `bill`.
fn asking_command<'a>(alloc: Global) -> Result<Command<'a>, AllocError>
    ensures { IfOk result (IsMade asking_app) }
{
    let about = "Writes an owner's bill of a day";
    joined(with_close(alloc), day_command(alloc, "bill", about))
}

/// And with `settle`.
fn with_settle<'a>(alloc: Global) -> Result<Command<'a>, AllocError>
    ensures { IfOk result (IsMade (with_subcommand asking_app (day_app (codes "settle")).top)) }
{
    let about = "Writes what each operator gets of an owner's bill of a day";
    joined(asking_command(alloc), day_command(alloc, "settle", about))
}

/// And with `stand`.
fn with_stand<'a>(alloc: Global) -> Result<Command<'a>, AllocError>
    ensures { IfOk result (IsMade standing_app) }
{
    let about = "Writes where each device's lanes stand";
    joined(with_settle(alloc), stores_command(alloc, "stand", about))
}

/// And with `retire`.
fn ordering_command<'a>(alloc: Global) -> Result<Command<'a>, AllocError>
    ensures { IfOk result (IsMade ordering_app) }
{
    let about = "Ends an owner's lane of a device, for good";
    joined(with_stand(alloc), lane_command(alloc, "retire", about))
}

/// And with `forget`.
fn letting_command<'a>(alloc: Global) -> Result<Command<'a>, AllocError>
    ensures { IfOk result (IsMade letting_app) }
{
    let about = "Lets go what the owners' ledgers hold of closed weeks before a day's";
    joined(
        ordering_command(alloc),
        days_command(alloc, "forget", about),
    )
}

/// The command line of the program: and with `scheme`.
pub fn hub_command<'a>(alloc: Global) -> Result<Command<'a>, AllocError>
    ensures { IfOk result (λ c. app_of c ≡ hub_app) }
{
    joined(letting_command(alloc), scheme_command(alloc))
}
