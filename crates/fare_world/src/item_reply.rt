ghost use Rattle.std.specs.Prelude.{◌≡◌};
ghost use Rattle.fare_world.specs.ItemReplies.{drawn_item, forwarded_item, fetched_item};

use fare_event::Reply;
use fare_record::Item;

// The reply where the writer drew this item.
pub(crate) fn drawn(item: &Item) -> Reply
    ensures { result ≡ drawn_item item.now }
{
    match item {
        Item::Tap(row) => Reply::Drawn {
            device: row.device(),
            link: row.link(),
        },
        Item::Stated(statement) => Reply::DrawnDay {
            device: statement.device(),
            day: statement.day(),
            owner: statement.owner(),
        },
    }
}

// The reply where the lane queue gained this item.
pub(crate) fn forwarded(item: &Item) -> Reply
    ensures { result ≡ forwarded_item item.now }
{
    match item {
        Item::Tap(row) => Reply::Forwarded { lane: row.lane() },
        Item::Stated(statement) => Reply::ForwardedDay {
            day: statement.day(),
        },
    }
}

// The reply where the owner fetched this item.
pub(crate) fn fetched(item: &Item) -> Reply
    ensures { result ≡ fetched_item item.now }
{
    match item {
        Item::Tap(row) => Reply::Fetched {
            device: row.device(),
            lane: row.lane(),
        },
        Item::Stated(statement) => Reply::FetchedDay {
            device: statement.device(),
            day: statement.day(),
        },
    }
}
