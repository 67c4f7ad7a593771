ghost use Rattle.std.specs.Prelude.{◌<◌};

use crate::checking::same;
use fare_record::{
    Ack, Day, DayAck, DeviceId, Hello, LAST_NUMBER, Pence, Record, RecordFault, Statement,
};
use std::test::Fail;

const RECORD: [u8; 46] = [
    0, 0, 0, 1, 0, 0, 0, 0, 0, 0, 0, 1, 0, 1, 0, 0, 0, 0, 0, 0, 0, 1, 0, 0, 0, 1, 0, 0, 0, 0, 0, 0,
    0, 0x4d, 0, 0, 0, 0, 0x65, 0x92, 0x80, 0xa0, 0, 0, 0x4d, 0x0b,
];

const STATEMENT: [u8; 18] = [0, 0, 0, 1, 0, 0, 0x4d, 0x0b, 0, 1, 0, 0, 0, 0, 0, 0, 0, 3];

#[test]
fn a_record_is_spelled_and_read(rt: HostRuntime) -> Result<(), Fail> {
    let record = Record::decode(&RECORD)?;
    let tap = record.tap();
    let ids = (record.device().get(), record.owner().get());
    let numbers = (record.link(), record.lane());
    same(
        &rt,
        &(ids, numbers, record.encode()),
        &((1, 1), (1, 1), RECORD),
    );
    let account = (tap.product().get(), tap.token().get());
    let time = (tap.moment().get(), tap.day().get());
    same(&rt, &(account, time), &((1, 77), (1_704_100_000, 19_723)));
    // Its link is not its lane number.
    let second = record_with(11, 2);
    let record = Record::decode(&second)?;
    let numbers = (record.link(), record.lane());
    same(&rt, &(numbers, record.encode()), &((2, 1), second));
    Ok(())
}

const ROUTED: [u8; 48] = [
    0, 0, 0, 1, 0, 0, 0, 0, 0, 0, 0, 1, 0, 1, 0, 0, 0, 0, 0, 0, 0, 1, 0, 0, 0, 1, 0, 0, 0, 0, 0, 0,
    0, 0x4d, 0, 0, 0, 0, 0x65, 0x92, 0x80, 0xa0, 0, 0, 0x4d, 0x0b, 0, 7,
];

#[test]
fn a_record_with_a_route_is_spelled_and_read(rt: HostRuntime) -> Result<(), Fail> {
    let record = Record::decode_routed(&ROUTED)?;
    let tap = record.tap();
    let read = (
        record.link(),
        tap.token().get(),
        tap.day().get(),
        tap.route(),
    );
    same(
        &rt,
        &(read, record.encode_routed()),
        &((1, 77, 19_723, 7), ROUTED),
    );
    // Without a route; and with a link of 0 as well.
    let mut unknown = ROUTED;
    unknown[47] = 0;
    let mut neither = unknown;
    neither[11] = 0;
    let faults = [
        Record::decode_routed(&unknown).err(),
        Record::decode_routed(&neither).err(),
    ];
    same(
        &rt,
        &faults,
        &[Some(RecordFault::ZeroRoute), Some(RecordFault::NumberRange)],
    );
    Ok(())
}

#[test]
fn a_statement_is_spelled_and_read(rt: HostRuntime) -> Result<(), Fail> {
    let statement = Statement::decode(&STATEMENT)?;
    let ids = (statement.device().get(), statement.owner().get());
    let numbers = (statement.day().get(), statement.count());
    same(
        &rt,
        &(ids, numbers, statement.encode()),
        &((1, 1), (19_723, 3), STATEMENT),
    );
    Ok(())
}

const ACK: [u8; 12] = [0, 0, 0, 1, 0, 0, 0, 0, 0, 0, 0, 1];

const DAY_ACK: [u8; 8] = [0, 0, 0, 1, 0, 0, 0x4d, 0x0b];

const HELLO: [u8; 6] = [0, 0, 0, 1, 0, 1];

#[test]
fn acknowledgements_and_greetings_are_spelled_and_read(rt: HostRuntime) -> Result<(), Fail> {
    let ack = Ack::decode(&ACK)?;
    same(
        &rt,
        &(ack.device().get(), ack.upto(), ack.encode()),
        &(1, 1, ACK),
    );
    let day_ack = DayAck::decode(&DAY_ACK)?;
    let day = (day_ack.device().get(), day_ack.day().get());
    same(&rt, &(day, day_ack.encode()), &((1, 19_723), DAY_ACK));
    let hello = Hello::decode(&HELLO)?;
    let version = (hello.device().get(), hello.version());
    same(&rt, &(version, hello.encode()), &((1, 1), HELLO));
    Ok(())
}

// A record's body with this byte in that place.
fn record_with(place: usize, byte: u8) -> [u8; 46]
    requires { place < 46 }
{
    let mut bytes = RECORD;
    bytes[place] = byte;
    bytes
}

fn statement_with(place: usize, byte: u8) -> [u8; 18]
    requires { place < 18 }
{
    let mut bytes = STATEMENT;
    bytes[place] = byte;
    bytes
}

#[test]
fn the_first_fault_is_answered(rt: HostRuntime) {
    // A link of 0; an owner of 0 as well.
    let no_link = record_with(11, 0);
    let mut nothing = no_link;
    nothing[13] = 0;
    let records = [
        Record::decode(&no_link).err(),
        Record::decode(&nothing).err(),
    ];
    same(
        &rt,
        &records,
        &[Some(RecordFault::NumberRange), Some(RecordFault::ZeroId)],
    );
    // A day of 2^31 and more; a count of 2^40 as well.
    let no_day = statement_with(4, 0x80);
    let mut neither = no_day;
    neither[12] = 1;
    let statements = [
        Statement::decode(&no_day).err(),
        Statement::decode(&neither).err(),
    ];
    same(
        &rt,
        &statements,
        &[Some(RecordFault::DayRange), Some(RecordFault::NumberRange)],
    );
}

#[test]
fn numbers_end_at_their_limits(rt: HostRuntime) {
    // An acknowledged link of 2^40 - 1, and of 2^40.
    let last = Ack::decode(&[0, 0, 0, 1, 0, 0, 0, 0xff, 0xff, 0xff, 0xff, 0xff]);
    let over = Ack::decode(&[0, 0, 0, 1, 0, 0, 1, 0, 0, 0, 0, 0]);
    let links = [last.map(Ack::upto), over.map(Ack::upto)];
    same(
        &rt,
        &links,
        &[Ok(LAST_NUMBER), Err(RecordFault::NumberRange)],
    );
    let nobody = Hello::decode(&[0, 0, 0, 0, 0, 1]);
    same(&rt, &nobody.err(), &Some(RecordFault::ZeroId));
    let days = [Day::new(100_000).is_some(), Day::new(100_001).is_some()];
    let devices = [DeviceId::new(0).is_some(), DeviceId::new(1).is_some()];
    same(&rt, &(days, devices), &([true, false], [false, true]));
}

#[test]
fn an_amount_is_any_number_of_pence(rt: HostRuntime) {
    for number in [0, 175, u64::MAX] {
        same(&rt, &Pence::new(number).get(), &number);
    }
}
