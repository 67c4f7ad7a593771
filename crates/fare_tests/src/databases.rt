//! The databases of a scheme's stores: a hub that is opened in them and closed, and questions of what they hold.
use crate::checking::same;
use fare_command::Question;
use fare_databases::{Databases, OpenHub, close_hub, open_hub};
use fare_desk::DeskFault;
use fare_record::{Day, DeviceId, OwnerId};
use fare_run::{AskFailure, ServeFailure, ask_databases, read_scheme};
use fare_samples::{FIRST, record};
use fare_scheme::Scheme;
use fare_store::{Fault, Outbox};
use sqlite::{Alter, Connection, MemStore};
use std::alloc::Global;

// A scheme of two owners and one device.
const LINES: &[u8] =
    b"owner 1 4\nowner 2 4\noperator 1\nstation 1 1\nproduct 1 1 175\ndevice 1 1 4\nzone GMT0BST,M3.5.0/1,M10.5.0\nstart 19723\nseal\n";

fn scheme(alloc: Global) -> Option<Scheme> {
    let mut lines = LINES;
    Some(read_scheme(alloc, &mut lines).ok()?.scheme)
}

fn in_memory(alloc: Global) -> Option<Connection<MemStore>> {
    Connection::open_in_memory(alloc).ok()
}

fn empty(alloc: Global) -> Option<Databases<MemStore>> {
    let ledgers = [in_memory(alloc)?, in_memory(alloc)?];
    Some(Databases {
        outbox: in_memory(alloc)?,
        ledgers: Vec::from_array(alloc, ledgers).ok()?,
    })
}

// What comes of opening the scheme's stores in these databases.
fn opened(
    alloc: Global,
    databases: Databases<MemStore>,
) -> Option<Result<OpenHub<MemStore>, (Databases<MemStore>, Fault)>> {
    let scheme = scheme(alloc)?;
    if databases.ledgers.len() != scheme.owner_count() {
        return None;
    }
    Some(open_hub(alloc, scheme, databases))
}

// The databases in which a tap of device 1 was stored.
fn with_tap(alloc: Global) -> Option<Databases<MemStore>> {
    let scheme = scheme(alloc)?;
    let databases = empty(alloc)?;
    if databases.ledgers.len() != scheme.owner_count() {
        return None;
    }
    let mut opened = open_hub(alloc, scheme, databases).ok()?;
    opened.hub.outbox.store(&record(FIRST)?).ok()?;
    Some(close_hub(opened))
}

// How many taps of device 1 the outbox in these databases has had.
fn had(alloc: Global, databases: Databases<MemStore>) -> Option<u64> {
    let mut opened = opened(alloc, databases)?.ok()?;
    opened.hub.outbox.upto(DeviceId::new(1)?).ok()
}

// The fault of opening the stores where the ledgers' databases stand the other way round, and the databases as they were.
fn turned(alloc: Global) -> Option<(Fault, Databases<MemStore>)> {
    let mut databases = with_tap(alloc)?;
    databases.ledgers.reverse();
    let (mut databases, fault) = opened(alloc, databases)?.err()?;
    databases.ledgers.reverse();
    Some((fault, databases))
}

// What is answered to a question of these databases, what is written, and the databases again.
fn asked(
    alloc: Global,
    databases: Databases<MemStore>,
    question: Question,
) -> Option<(Result<(), AskFailure>, Vec<u8>, Databases<MemStore>)> {
    asked_of(alloc, scheme(alloc)?, databases, question)
}

// The same of the databases of a scheme, of any kind.
pub(crate) fn asked_of<S: Alter + Drop>(
    alloc: Global,
    scheme: Scheme,
    databases: Databases<S>,
    question: Question,
) -> Option<(Result<(), AskFailure>, Vec<u8>, Databases<S>)> {
    if databases.ledgers.len() != scheme.owner_count() {
        return None;
    }
    let mut output = Vec::new(alloc);
    let (databases, answered) = ask_databases(alloc, scheme, databases, question, &mut output);
    Some((answered, output, databases))
}

fn first_bill() -> Option<Question> {
    Some(Question::Bill {
        owner: OwnerId::new(1)?,
        day: Day::new(FIRST.day)?,
    })
}

#[test]
fn a_closed_hub_is_its_databases_again(rt: HostRuntime) {
    let databases = with_tap(rt.alloc()).expect(&rt, "a hub");
    same(&rt, &had(rt.alloc(), databases), &Some(1));
}

#[test]
fn ledgers_of_other_owners_are_refused_and_all_databases_come_back(rt: HostRuntime) {
    let (fault, databases) = turned(rt.alloc()).expect(&rt, "databases");
    same(&rt, &fault, &Fault::Store);
    same(&rt, &databases.ledgers.len(), &2);
    same(&rt, &had(rt.alloc(), databases), &Some(1));
}

#[test]
fn questions_hand_databases_back(rt: HostRuntime) {
    let databases = with_tap(rt.alloc()).expect(&rt, "a hub");
    let (answered, output, databases) = asked(rt.alloc(), databases, Question::Stand).expect(
        &rt,
        "an answer",
    );
    same(&rt, &answered, &Ok(()));
    assert!(rt; output.starts_with(b"upto 1 1\n"));
    let bill = first_bill().expect(&rt, "a question");
    let (answered, output, databases) = asked(rt.alloc(), databases, bill).expect(&rt, "an answer");
    let device = DeviceId::new(1).expect(&rt, "a device");
    same(
        &rt,
        &answered,
        &Err(AskFailure::Desk(DeskFault::NotClosed { device })),
    );
    same(&rt, &output.len(), &0);
    same(&rt, &had(rt.alloc(), databases), &Some(1));
}

#[test]
fn a_question_of_other_owners_ledgers_fails(rt: HostRuntime) {
    let mut databases = with_tap(rt.alloc()).expect(&rt, "a hub");
    databases.ledgers.reverse();
    let (answered, _, mut databases) = asked(rt.alloc(), databases, Question::Stand).expect(
        &rt,
        "an answer",
    );
    same(
        &rt,
        &answered,
        &Err(AskFailure::Stores(ServeFailure::Store)),
    );
    databases.ledgers.reverse();
    same(&rt, &had(rt.alloc(), databases), &Some(1));
}
