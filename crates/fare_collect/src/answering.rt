//! The last acknowledgements of a session.
ghost use Rattle.std.specs.Prelude.{◌≡◌, ◌∷◌, [], is_some, true, IsSome};
ghost use Rattle.fare_history.specs.Gathering.{device_answered};
ghost use Rattle.fare_scheme.specs.Words.{station_of, position_of_device};
ghost use Rattle.fare_collect.specs.Ending.{last_acks, last_answers, AreSent, HaveSent, HaveLast};
ghost use Rattle.fare_collect.specs.Noting.{day_acks, AreNoted};
ghost use Rattle.fare_collect.specs.Resuming.{AreStations};

use crate::ending::hand;
use crate::placing::place_of_station;
use crate::station::Station;
use fare_record::{Ack, AckItem, Day, DayAck, DeviceId};
use fare_route::are_stated;
use fare_scheme::Scheme;
use fare_source::Source;
use fare_store::{Fault, Outbox};
use std::collections::BTreeSet;

// Hands an answer to the station of a registered device, if the session has that station.
fn send<S: Source>(scheme: &Scheme, device: DeviceId, item: &AckItem, stations: &mut [Station<S>])
    requires order { AreStations scheme.now stations.old }
    requires known { IsSome (position_of_device scheme.now device) }
    requires to { device_answered item.now ≡ device }
    ensures sent { AreSent scheme.now S.talk (item.now ∷ []) stations.old stations.new }
    ensures known { is_some (station_of scheme.now device) ≡ true }
{
    let place = place_of_station(scheme, device);
    if place < stations.len() {
        hand(item, &mut stations[place]);
    }
}

// One acknowledgement for each of these days of which the outbox holds the statements of all owners.
fn last_days<S: Source, O: Outbox>(
    scheme: &Scheme,
    days: &BTreeSet<(usize, DeviceId, Day)>,
    outbox: &mut O,
    stations: &mut [Station<S>],
) -> Result<(), Fault>
    requires order { AreStations scheme.now stations.old }
    requires noted { AreNoted scheme.now days.now.keys }
    ensures { HaveSent scheme.now S.talk (O.standing outbox.old) (O.standing outbox.new) stations.old stations.new (λ x. day_acks scheme.now x days.now.keys) result }
{
    for (_, device, day) in days {
        let held = are_stated(scheme, outbox, *device, *day)?;
        if held {
            let item = AckItem::Day(DayAck::new(*device, *day));
            send(scheme, *device, &item, stations);
        }
    }
    Ok(())
}

// One acknowledgement of each device.
fn last_all<S: Source, O: Outbox>(
    scheme: &Scheme,
    outbox: &mut O,
    stations: &mut [Station<S>],
) -> Result<(), Fault>
    requires { AreStations scheme.now stations.old }
    ensures { HaveLast scheme.now S.talk (O.standing outbox.old) (O.standing outbox.new) stations.old stations.new (last_acks scheme.now) result }
{
    for device in scheme.devices() {
        let upto = outbox.upto(*device)?;
        let item = AckItem::Upto(Ack::new(*device, upto));
        send(scheme, *device, &item, stations);
    }
    Ok(())
}

// The last acknowledgements: first those of days, then those of devices.
pub(crate) fn answer_last<S: Source, O: Outbox>(
    scheme: &Scheme,
    days: &BTreeSet<(usize, DeviceId, Day)>,
    outbox: &mut O,
    stations: &mut [Station<S>],
) -> Result<(), Fault>
    requires order { AreStations scheme.now stations.old }
    requires noted { AreNoted scheme.now days.now.keys }
    ensures { HaveLast scheme.now S.talk (O.standing outbox.old) (O.standing outbox.new) stations.old stations.new (last_answers scheme.now days.now.keys) result }
{
    last_days(scheme, days, outbox, stations)?;
    last_all(scheme, outbox, stations)
}
