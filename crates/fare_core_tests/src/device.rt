ghost use Rattle.std.specs.Prelude.{◌≡◌, length, IfSome};

use crate::checking::same;
use fare_day::Zone;
use fare_device::{Device, DeviceFault, NumbersFault, TapRefusal, TurnRefusal};
use fare_record::{Day, DeviceId, LAST_NUMBER, Moment, OwnerId, ProductId, Record, Token};
use fare_scheme::{DemoSize, Draft, Scheme};
use std::alloc::Global;
use std::process::Abort;

/// A call on a device.
#[derive(Clone, Copy)]
enum Call {
    /// A tap of a product on a day.
    Tap(u64, u64),
    /// The next tap is sent.
    Send,
    /// It sends again what is not acknowledged.
    Rewind,
    /// It starts again.
    Restart,
    /// It hears that links are acknowledged.
    Hear(u64),
    /// The open day is turned.
    Turn,
    /// A day is stated for an owner.
    State(u64, u64),
    /// It hears that a day is acknowledged.
    HearDay(u64),
}

/// What it answers.
#[derive(Clone, Copy, PartialEq, Eq, Debug)]
enum Answer {
    /// The link and the lane number of a tap.
    Numbered(u64, u64),
    /// Why a tap was refused.
    Refused(TapRefusal),
    /// The link of the tap that was sent, if one was.
    Sent(Option<u64>),
    /// It went back.
    Back,
    /// How many taps were dropped, or nothing where none such was numbered.
    Dropped(Option<u64>),
    /// The new open day.
    Open(u32),
    /// Why the day was not turned.
    Unturned(TurnRefusal),
    /// The count of a statement, or nothing where none waits.
    Stated(Option<u64>),
    /// Whether the day waited.
    Heard(bool),
}

// The demonstration scheme of one device with room for two taps.
fn small_scheme(alloc: Global) -> Option<Scheme> {
    Scheme::demo(alloc, DemoSize::OneDevice, 2, 4, 4).ok()
}

// A new device.
fn new_device(alloc: Global, scheme: &Scheme) -> Option<Device>
    ensures { IfSome result (λ device. length device.lanes ≡ length scheme.now.owners) }
{
    Device::new(alloc, DeviceId::new(1)?, scheme).ok()
}

// One that takes numbers over, with this open day.
fn old_device(alloc: Global, scheme: &Scheme, day: u64, last: u64, lanes: &[u64]) -> Option<Device>
    ensures { IfSome result (λ device. length device.lanes ≡ length scheme.now.owners) }
{
    let (id, day) = (DeviceId::new(1)?, Day::new(day)?);
    Device::with_numbers(alloc, id, scheme, day, last, lanes).ok()
}

/// Device 1 of a scheme.
#[derive(Drop)]
struct Stand {
    scheme: Scheme,
    device: Device,
    ghost fits: { length device.lanes ≡ length scheme.owners },
}

impl Stand {
    // What a tap on a route is answered.
    fn tap_on(&mut self, product: u64, day: u64, route: u16) -> Option<Result<Record, TapRefusal>> {
        let moment = Moment::new(1_704_100_000)?;
        let (product, token) = (ProductId::new(product)?, Token::new(77)?);
        let day = Day::new(day)?;
        Some(
            self.device
                .tap(&self.scheme, product, token, moment, day, route),
        )
    }

    fn tap(&mut self, product: u64, day: u64) -> Option<Answer> {
        Some(match self.tap_on(product, day, 0)? {
            Ok(record) => Answer::Numbered(record.link(), record.lane()),
            Err(refusal) => Answer::Refused(refusal),
        })
    }

    // The routes of the record that a tap on a route is answered with, and of the one that is sent.
    fn routes(&mut self, route: u16) -> Option<(u16, u16)> {
        let numbered = self.tap_on(1, 19_723, route)?.ok()?;
        let sent = self.device.next_frame()?.tapped()?;
        Some((numbered.tap().route(), sent.tap().route()))
    }

    // The link of the tap that is sent next.
    fn send(&mut self) -> Option<u64> {
        let record = self.device.next_frame()?.tapped()?;
        Some(record.link())
    }

    fn turn(&mut self) -> Answer {
        match self.device.turn_day() {
            Ok(day) => Answer::Open(day.get()),
            Err(refusal) => Answer::Unturned(refusal),
        }
    }

    fn count(&self, day: u64, owner: u64) -> Option<u64> {
        let (day, owner) = (Day::new(day)?, OwnerId::new(owner)?);
        Some(self.device.statement(day, owner).ok()?.stated()?.count())
    }

    fn answer_to(&mut self, call: Call) -> Option<Answer> {
        match call {
            Call::Tap(product, day) => return self.tap(product, day),
            Call::Send => return Some(Answer::Sent(self.send())),
            Call::Hear(upto) => return Some(Answer::Dropped(self.device.hear_ack(upto).ok())),
            Call::Turn => return Some(self.turn()),
            Call::State(day, owner) => return Some(Answer::Stated(self.count(day, owner))),
            Call::HearDay(day) => {
                return Some(Answer::Heard(self.device.hear_day_ack(Day::new(day)?)));
            }
            Call::Rewind => self.device.rewind(),
            Call::Restart => self.device.restart(),
        }
        Some(Answer::Back)
    }

    // The calls are answered so, one after the other.
    fn answers(&mut self, rt: &impl Abort, calls: &[(Call, Answer)]) {
        for (call, want) in calls {
            same(rt, &self.answer_to(*call), &Some(*want));
        }
    }
}

// Device 1 of the small scheme: a new one, or one that takes so many numbers over.
fn small_device(alloc: Global, last: u64) -> Option<Stand> {
    let scheme = small_scheme(alloc)?;
    let device = if last == 0 {
        new_device(alloc, &scheme)?
    } else {
        old_device(alloc, &scheme, 19_723, last, &[last])?
    };
    Some(Stand { scheme, device })
}

#[test]
fn a_tap_keeps_its_route(rt: HostRuntime) {
    for route in [0, 7, 65_535] {
        let mut stand = small_device(rt.alloc(), 0).expect(&rt, "device");
        same(&rt, &stand.routes(route), &Some((route, route)));
    }
}

// A tap of the first day.
const TAP: Call = Call::Tap(1, 19_723);

#[test]
fn a_device_numbers_sends_and_refuses(rt: HostRuntime) {
    const CALLS: [(Call, Answer); 5] = [
        (TAP, Answer::Numbered(1, 1)),
        (Call::Send, Answer::Sent(Some(1))),
        (Call::Send, Answer::Sent(None)),
        (TAP, Answer::Numbered(2, 2)),
        (TAP, Answer::Refused(TapRefusal::BufferFull)),
    ];
    let mut stand = small_device(rt.alloc(), 0).expect(&rt, "device");
    stand.answers(&rt, &CALLS);
}

#[test]
fn a_device_takes_numbers_over(rt: HostRuntime) {
    const CALLS: [(Call, Answer); 3] = [
        (Call::Send, Answer::Sent(None)),
        (TAP, Answer::Numbered(8, 8)),
        (Call::Send, Answer::Sent(Some(8))),
    ];
    let mut stand = small_device(rt.alloc(), 7).expect(&rt, "device");
    stand.answers(&rt, &CALLS);
}

#[test]
fn numbers_are_spent(rt: HostRuntime) {
    const CALLS: [(Call, Answer); 1] = [(TAP, Answer::Refused(TapRefusal::NumbersSpent))];
    let mut stand = small_device(rt.alloc(), LAST_NUMBER).expect(&rt, "device");
    stand.answers(&rt, &CALLS);
}

#[test]
fn what_is_not_acknowledged_is_sent_again(rt: HostRuntime) {
    const CALLS: [(Call, Answer); 14] = [
        (Call::Hear(1), Answer::Dropped(None)),
        (TAP, Answer::Numbered(1, 1)),
        (TAP, Answer::Numbered(2, 2)),
        (Call::Send, Answer::Sent(Some(1))),
        (Call::Send, Answer::Sent(Some(2))),
        (Call::Rewind, Answer::Back),
        (Call::Send, Answer::Sent(Some(1))),
        (Call::Hear(1), Answer::Dropped(Some(1))),
        (Call::Hear(1), Answer::Dropped(Some(0))),
        (Call::Restart, Answer::Back),
        (TAP, Answer::Numbered(3, 3)),
        (Call::Send, Answer::Sent(Some(2))),
        (Call::Hear(4), Answer::Dropped(None)),
        (Call::Hear(3), Answer::Dropped(Some(2))),
    ];
    let mut stand = small_device(rt.alloc(), 0).expect(&rt, "device");
    stand.answers(&rt, &CALLS);
}

// Why there is no new device of this number.
fn fault_of_new(alloc: Global, number: u64) -> Option<DeviceFault> {
    let scheme = small_scheme(alloc)?;
    Device::new(alloc, DeviceId::new(number)?, &scheme).err()
}

// Why a device of this number takes no such numbers over.
fn fault_of_numbers(alloc: Global, number: u64, last: u64, lanes: &[u64]) -> Option<NumbersFault> {
    let scheme = small_scheme(alloc)?;
    let id = DeviceId::new(number)?;
    Device::with_numbers(alloc, id, &scheme, Day::new(19_723)?, last, lanes).err()
}

#[test]
fn numbers_that_do_not_add_up_are_out_of_range(rt: HostRuntime) {
    let unknown = fault_of_new(rt.alloc(), 9);
    same(&rt, &unknown, &Some(DeviceFault::UnknownDevice));
    const RANGE: Option<NumbersFault> = Some(NumbersFault::Range);
    const CASES: [(u64, u64, &[u64], Option<NumbersFault>); 5] = [
        (9, 0, &[0], Some(NumbersFault::UnknownDevice)),
        (1, 7, &[8], RANGE),
        (1, 8, &[7], RANGE),
        (1, 7, &[7, 0], RANGE),
        (1, LAST_NUMBER + 1, &[LAST_NUMBER + 1], RANGE),
    ];
    for &(number, last, lanes, want) in &CASES {
        same(
            &rt,
            &fault_of_numbers(rt.alloc(), number, last, lanes),
            &want,
        );
    }
}

#[test]
fn eight_turned_days_wait(rt: HostRuntime) {
    const CALLS: [(Call, Answer); 17] = [
        (Call::Turn, Answer::Open(19_724)),
        (Call::Turn, Answer::Open(19_725)),
        (Call::Turn, Answer::Open(19_726)),
        (Call::Turn, Answer::Open(19_727)),
        (Call::Turn, Answer::Open(19_728)),
        (Call::Turn, Answer::Open(19_729)),
        (Call::Turn, Answer::Open(19_730)),
        (Call::Turn, Answer::Open(19_731)),
        (Call::Turn, Answer::Unturned(TurnRefusal::StatementsFull)),
        (Call::HearDay(19_726), Answer::Heard(true)),
        (Call::HearDay(19_723), Answer::Heard(true)),
        (Call::HearDay(19_726), Answer::Heard(false)),
        (Call::State(19_726, 1), Answer::Stated(None)),
        (Call::State(19_730, 1), Answer::Stated(Some(0))),
        (Call::Turn, Answer::Open(19_732)),
        (Call::Turn, Answer::Open(19_733)),
        (Call::Turn, Answer::Unturned(TurnRefusal::StatementsFull)),
    ];
    let mut stand = small_device(rt.alloc(), 0).expect(&rt, "device");
    stand.answers(&rt, &CALLS);
}

#[test]
fn the_last_day_is_not_turned(rt: HostRuntime) {
    let scheme = small_scheme(rt.alloc()).expect(&rt, "scheme");
    let device = old_device(rt.alloc(), &scheme, 100_000, 3, &[3]).expect(&rt, "device");
    let mut stand = Stand { scheme, device };
    const CALLS: [(Call, Answer); 1] = [(Call::Turn, Answer::Unturned(TurnRefusal::LastDay))];
    stand.answers(&rt, &CALLS);
}

// Two owners, each with the product of its number, and device 1 with room for eight taps.
fn two_owners(rt: &impl Abort, alloc: Global) -> Scheme {
    let zone = Zone::read("GMT0BST,M3.5.0/1,M10.5.0").expect(rt, "zone");
    let mut draft = Draft::new(alloc);
    draft.add_owner(1, 4).expect(rt, "owner");
    draft.add_owner(2, 4).expect(rt, "owner");
    draft.add_operator(1).expect(rt, "operator");
    draft.add_station(1, 1).expect(rt, "station");
    draft.add_product(1, 1, 175).expect(rt, "product");
    draft.add_product(2, 2, 175).expect(rt, "product");
    draft.add_device(1, 1, 8).expect(rt, "device");
    draft.set_start(19_723).expect(rt, "start");
    draft.set_zone(zone);
    draft.seal().ok().expect(rt, "scheme")
}

#[test]
fn days_are_counted_for_each_owner(rt: HostRuntime) {
    let scheme = two_owners(&rt, rt.alloc());
    let device = old_device(rt.alloc(), &scheme, 19_723, 5, &[3, 2]).expect(&rt, "device");
    let mut stand = Stand { scheme, device };
    const CALLS: [(Call, Answer); 20] = [
        (Call::Tap(1, 19_723), Answer::Numbered(6, 4)),
        (Call::Tap(2, 19_723), Answer::Numbered(7, 3)),
        (Call::Tap(1, 19_723), Answer::Numbered(8, 5)),
        (Call::State(19_723, 1), Answer::Stated(None)),
        (Call::Turn, Answer::Open(19_724)),
        (Call::State(19_723, 1), Answer::Stated(Some(2))),
        (Call::State(19_723, 2), Answer::Stated(Some(1))),
        (Call::State(19_723, 3), Answer::Stated(None)),
        (Call::State(19_724, 1), Answer::Stated(None)),
        (Call::Tap(1, 19_723), Answer::Refused(TapRefusal::DayClosed)),
        (Call::Tap(2, 19_724), Answer::Numbered(9, 4)),
        (Call::Restart, Answer::Back),
        (Call::Turn, Answer::Open(19_725)),
        (Call::State(19_724, 1), Answer::Stated(Some(0))),
        (Call::State(19_724, 2), Answer::Stated(Some(1))),
        (Call::State(19_723, 1), Answer::Stated(Some(2))),
        (Call::HearDay(19_723), Answer::Heard(true)),
        (Call::HearDay(19_725), Answer::Heard(false)),
        (Call::State(19_723, 1), Answer::Stated(None)),
        (Call::State(19_724, 2), Answer::Stated(Some(1))),
    ];
    stand.answers(&rt, &CALLS);
}
