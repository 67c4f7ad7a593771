use crate::checking::{contains, same};
use fare_command::{Job, Question, SchemeSource, WordsFault, read_words};
use fare_record::{Day, DeviceId, OwnerId};
use std::test::Fail;

#[test]
fn reads_jobs(rt: HostRuntime) -> Result<(), Fail> {
    const CASES: [(&[&str], bool); 4] = [
        (&["replay"], false),
        (&["replay", "--store", "plain"], false),
        (&["replay", "--store", "sql"], true),
        (&["replay", "--store=sql"], true),
    ];
    for &(words, want) in &CASES {
        match read_words(rt.alloc(), words)? {
            Job::Replay { sql } => same(&rt, &sql, &want),
            _ => panic!(rt; "not a replay"),
        }
    }
    const WORDS: [&str; 13] = [
        "serve",
        "--port",
        "65535",
        "--turns",
        "1000000000",
        "--outbox",
        "out box",
        "--read-ms",
        "1",
        "--write-ms",
        "60000",
        "--round-ms",
        "1",
    ];
    // How many of the words there are, and the milliseconds of a read, a write and a round.
    for (count, read, write, round) in [
        (7, 5, 1_000, 1_000),
        (9, 1, 1_000, 1_000),
        (11, 1, 60_000, 1_000),
        (13, 1, 60_000, 1),
    ] {
        match read_words(rt.alloc(), &WORDS[..count])? {
            Job::Serve {
                port,
                turns,
                path,
                scheme,
                read_millis,
                write_millis,
                rounds,
                until,
                patience,
                round_millis,
                ask,
            } => {
                same(
                    &rt,
                    &(port, turns, path),
                    &(65535, 1_000_000_000, "out box"),
                );
                same(
                    &rt,
                    &(read_millis, write_millis, round_millis),
                    &(read, write, round),
                );
                same(&rt, &(rounds, until, patience), &(1, None, 2));
                same(&rt, &(scheme, ask), &(SchemeSource::Unsaid, None));
            }
            _ => panic!(rt; "not a server"),
        }
    }
    Ok(())
}

#[test]
fn serves_with_what_is_usual(rt: HostRuntime) -> Result<(), Fail> {
    // The words behind the outbox, the port, and the turns.
    const CASES: [(&[&str], (u16, u32)); 4] = [
        (&[], (7_071, 2_000)),
        (&["--turns", "1"], (7_071, 1)),
        (&["--port", "0"], (0, 2_000)),
        (&["--port=1", "--turns=1000000000"], (1, 1_000_000_000)),
    ];
    for &(options, want) in &CASES {
        let mut words = Vec::new(rt.alloc());
        words.extend_from_slice(&["serve", "--outbox", "x"])?;
        words.extend_from_slice(options)?;
        match read_words(rt.alloc(), &words)? {
            Job::Serve {
                port,
                turns,
                path,
                scheme,
                read_millis,
                write_millis,
                rounds,
                until,
                patience,
                round_millis,
                ask,
            } => {
                same(&rt, &((port, turns), path), &(want, "x"));
                same(
                    &rt,
                    &(read_millis, write_millis, round_millis),
                    &(5, 1_000, 1_000),
                );
                same(&rt, &(rounds, until, patience), &(1, None, 2));
                same(&rt, &(scheme, ask), &(SchemeSource::Unsaid, None));
            }
            _ => panic!(rt; "not a server"),
        }
    }
    Ok(())
}

#[test]
fn reads_how_long_to_serve(rt: HostRuntime) -> Result<(), Fail> {
    const ALL: u32 = 4_294_967_295;
    const CASES: [(&[&str], (u32, Option<&str>), (u32, u32)); 5] = [
        (&["--rounds", "4294967295"], (ALL, None), (2, 1_000)),
        (&["--until", "stop"], (ALL, Some("stop")), (2, 1_000)),
        (
            &["--until", "stop", "--rounds", "7"],
            (7, Some("stop")),
            (2, 1_000),
        ),
        (
            &["--patience", "1000000000"],
            (1, None),
            (1_000_000_000, 1_000),
        ),
        (&["--round-ms", "60000"], (1, None), (2, 60_000)),
    ];
    for &(options, want_rounds, want_length) in &CASES {
        let mut words = Vec::new(rt.alloc());
        words.extend_from_slice(&["serve", "--port", "0", "--turns", "1", "--outbox", "x"])?;
        words.extend_from_slice(options)?;
        match read_words(rt.alloc(), &words)? {
            Job::Serve {
                rounds,
                until,
                patience,
                round_millis,
                ..
            } => {
                same(
                    &rt,
                    &((rounds, until), (patience, round_millis)),
                    &(want_rounds, want_length),
                );
            }
            _ => panic!(rt; "not a server"),
        }
    }
    Ok(())
}

#[test]
fn reads_where_an_operator_is_answered(rt: HostRuntime) -> Result<(), Fail> {
    // The words behind the outbox, and the port.
    const CASES: [(&[&str], Option<u16>); 4] = [
        (&["--port", "1"], None),
        (&["--ask", "0"], Some(0)),
        (&["--ask=65535"], Some(65_535)),
        (&["--ask", "7072", "--until", "stop"], Some(7_072)),
    ];
    for &(options, want) in &CASES {
        let mut words = Vec::new(rt.alloc());
        words.extend_from_slice(&["serve", "--outbox", "x"])?;
        words.extend_from_slice(options)?;
        match read_words(rt.alloc(), &words)? {
            Job::Serve { port, ask, .. } => {
                let port_want = if want.is_some() { 7_071 } else { 1 };
                same(&rt, &(port, ask), &(port_want, want));
            }
            _ => panic!(rt; "not a server"),
        }
    }
    Ok(())
}

#[test]
fn reads_questions(rt: HostRuntime) -> Result<(), Fail> {
    let owner = OwnerId::new(65_535).expect(&rt, "owner");
    let day = Day::new(100_000).expect(&rt, "day");
    let device = DeviceId::new(4_294_967_295).expect(&rt, "device");
    let cases: [(&[&str], Question); 6] = [
        (&["close", "--outbox", "x"], Question::Close),
        (
            &[
                "bill", "--outbox", "x", "--owner", "65535", "--day", "100000",
            ],
            Question::Bill { owner, day },
        ),
        (
            &[
                "settle",
                "--day",
                "100000",
                "--owner=65535",
                "--outbox",
                "x",
            ],
            Question::Settle { owner, day },
        ),
        (&["stand", "--outbox", "x"], Question::Stand),
        (
            &[
                "retire",
                "--device",
                "4294967295",
                "--outbox",
                "x",
                "--owner",
                "65535",
            ],
            Question::Retire { owner, device },
        ),
        (
            &["forget", "--outbox", "x", "--before", "100000"],
            Question::Forget { before: day },
        ),
    ];
    for (words, want) in cases {
        match read_words(rt.alloc(), words)? {
            Job::Ask {
                path,
                scheme,
                question,
            } => same(
                &rt,
                &(path, scheme, question),
                &("x", SchemeSource::Unsaid, want),
            ),
            _ => panic!(rt; "not a question"),
        }
    }
    Ok(())
}

// The words of each job that a scheme is for, and where it comes from: `-` is the input, and any other word a file.
#[test]
fn reads_where_the_scheme_is(rt: HostRuntime) -> Result<(), Fail> {
    const SOURCES: [(&str, SchemeSource); 4] = [
        ("the lines", SchemeSource::File("the lines")),
        ("-", SchemeSource::Input),
        ("./-", SchemeSource::File("./-")),
        ("", SchemeSource::File("")),
    ];
    const CASES: [&[&str]; 7] = [
        &["serve"],
        &["close"],
        &["bill", "--owner", "1", "--day", "0"],
        &["settle", "--owner", "1", "--day", "0"],
        &["stand"],
        &["retire", "--owner", "1", "--device", "1"],
        &["forget", "--before", "0"],
    ];
    for &job in &CASES {
        let mut words = Vec::new(rt.alloc());
        words.extend_from_slice(job)?;
        words.extend_from_slice(&["--outbox=x", "--scheme"])?;
        for &(word, source) in &SOURCES {
            words.push(word)?;
            match read_words(rt.alloc(), &words)? {
                Job::Serve { path, scheme, .. } | Job::Ask { path, scheme, .. } => {
                    same(&rt, &(path, scheme), &("x", source));
                }
                _ => panic!(rt; "of no stores"),
            }
            words.pop();
        }
    }
    Ok(())
}

// The words that ask for the kept scheme.
#[test]
fn reads_where_a_scheme_is_kept(rt: HostRuntime) -> Result<(), Fail> {
    match read_words(rt.alloc(), &["scheme", "--outbox", "x"])? {
        Job::Scheme { path } => same(&rt, &path, &"x"),
        _ => panic!(rt; "not of a kept scheme"),
    }
    Ok(())
}

// An empty word is a file's name like any other, of the scheme as of the outbox: what opens it is refused.
#[test]
fn reads_empty_names(rt: HostRuntime) -> Result<(), Fail> {
    match read_words(rt.alloc(), &["stand", "--outbox", "", "--scheme", ""])? {
        Job::Ask { path, scheme, .. } => same(&rt, &(path, scheme), &("", SchemeSource::File(""))),
        _ => panic!(rt; "not a question"),
    }
    Ok(())
}

// Words of a question that lacks something, or has a number out of its range.
#[test]
fn refuses_questions(rt: HostRuntime) -> Result<(), Fail> {
    const CASES: [(&[&str], &str); 9] = [
        (&["forget", "--outbox", "x"], "--before <D>"),
        (
            &["forget", "--outbox", "x", "--before", "100001"],
            "100001 is not in 0..=100000",
        ),
        (&["retire", "--outbox", "x", "--owner", "1"], "--device <D>"),
        (
            &["retire", "--outbox", "x", "--owner", "1", "--device", "0"],
            "0 is not in 1..=4294967295",
        ),
        (&["close"], "--outbox <PATH>"),
        (&["bill", "--outbox", "x", "--owner", "1"], "--day <D>"),
        (&["settle", "--outbox", "x", "--day", "1"], "--owner <O>"),
        (
            &["bill", "--outbox", "x", "--owner", "0", "--day", "1"],
            "0 is not in 1..=65535",
        ),
        (
            &["settle", "--outbox", "x", "--owner", "1", "--day", "100001"],
            "100001 is not in 0..=100000",
        ),
    ];
    for &(words, want) in &CASES {
        match read_words(rt.alloc(), words) {
            Err(WordsFault::Refused(text)) => contains(&rt, text.as_str(), want),
            _ => panic!(rt; "not refused: {want}"),
        }
    }
    Ok(())
}

#[test]
fn refuses_words(rt: HostRuntime) -> Result<(), Fail> {
    const CASES: [(&[&str], &str); 19] = [
        (&["scheme"], "--outbox <PATH>"),
        (
            &["scheme", "--outbox", "x", "--scheme", "y"],
            "unexpected argument '--scheme' found",
        ),
        (&[], "requires a subcommand"),
        (&["play"], "unrecognized subcommand 'play'"),
        (&["replay", "now"], "unexpected argument 'now' found"),
        (
            &["replay", "--store"],
            "a value is required for '--store <STORE>'",
        ),
        (
            &["replay", "--store", "disk"],
            "invalid value 'disk' for '--store <STORE>'",
        ),
        (
            &["replay", "--store", "sql", "--store", "sql"],
            "cannot be used multiple times",
        ),
        (&["serve", "--port", "1", "--turns", "1"], "--outbox <PATH>"),
        (&["serve"], "--outbox <PATH>"),
        (
            &["replay", "--scheme", "y"],
            "unexpected argument '--scheme' found",
        ),
        (
            &["serve", "--outbox", "x", "--scheme"],
            "a value is required for '--scheme <FILE>'",
        ),
        (
            &["stand", "--outbox", "x", "--scheme=y", "--scheme=y"],
            "cannot be used multiple times",
        ),
        (
            &["serve", "--port", "1", "--outbox", "x", "--turns"],
            "a value is required for '--turns <TURNS>'",
        ),
        (
            &["serve", "--port", "65536", "--turns", "1", "--outbox", "x"],
            "65536 is not in 0..=65535",
        ),
        (
            &["serve", "--port", "1", "--turns", "0", "--outbox", "x"],
            "0 is not in 1..=1000000000",
        ),
        (
            &[
                "serve",
                "--port",
                "1",
                "--turns",
                "1000000001",
                "--outbox",
                "x",
            ],
            "1000000001 is not in 1..=1000000000",
        ),
        (
            &[
                "serve",
                "--port",
                "1",
                "--turns",
                "1",
                "--outbox",
                "x",
                "--read-ms",
                "0",
            ],
            "0 is not in 1..=60000",
        ),
        (
            &[
                "serve",
                "--port",
                "1",
                "--turns",
                "1",
                "--outbox",
                "x",
                "--write-ms",
                "60001",
            ],
            "60001 is not in 1..=60000",
        ),
    ];
    for &(words, want) in &CASES {
        match read_words(rt.alloc(), words) {
            Err(WordsFault::Refused(text)) => {
                same(
                    &rt,
                    &(text.starts_with("error: "), text.ends_with("\n")),
                    &(true, true),
                );
                contains(&rt, text.as_str(), want);
            }
            _ => panic!(rt; "not refused: {want}"),
        }
    }
    Ok(())
}

// Ports at which an operator would be answered that are none.
#[test]
fn refuses_ports_that_answer(rt: HostRuntime) -> Result<(), Fail> {
    const CASES: [(&str, &str); 2] = [
        ("65536", "65536 is not in 0..=65535"),
        ("http", "invalid value 'http' for '--ask <PORT>'"),
    ];
    for &(port, want) in &CASES {
        match read_words(rt.alloc(), &["serve", "--outbox", "x", "--ask", port]) {
            Err(WordsFault::Refused(text)) => contains(&rt, text.as_str(), want),
            _ => panic!(rt; "not refused: {want}"),
        }
    }
    Ok(())
}

// Lengths of a round that are out of their range, or no number.
#[test]
fn refuses_lengths_of_a_round(rt: HostRuntime) -> Result<(), Fail> {
    const CASES: [(&str, &str); 3] = [
        ("0", "0 is not in 1..=60000"),
        ("60001", "60001 is not in 1..=60000"),
        ("long", "invalid value 'long' for '--round-ms <MILLIS>'"),
    ];
    for &(millis, want) in &CASES {
        let words = [
            "serve",
            "--port",
            "1",
            "--turns",
            "1",
            "--outbox",
            "x",
            "--round-ms",
            millis,
        ];
        match read_words(rt.alloc(), &words) {
            Err(WordsFault::Refused(text)) => contains(&rt, text.as_str(), want),
            _ => panic!(rt; "not refused: {want}"),
        }
    }
    Ok(())
}

#[test]
fn shows_help_and_version(rt: HostRuntime) -> Result<(), Fail> {
    const CASES: [(&[&str], &str); 5] = [
        (&["--help"], "Usage: fare_hub <COMMAND>"),
        (&["--version"], "fare_hub 0.1.0\n"),
        (&["replay", "--help"], "Usage: fare_hub replay [OPTIONS]"),
        (
            &["help", "serve"],
            "Usage: fare_hub serve [OPTIONS] --outbox <PATH>",
        ),
        (&["help", "serve"], "--round-ms <MILLIS>"),
    ];
    for &(words, want) in &CASES {
        match read_words(rt.alloc(), words) {
            Err(WordsFault::Asked(text)) => contains(&rt, text.as_str(), want),
            _ => panic!(rt; "not shown: {want}"),
        }
    }
    Ok(())
}
