ghost use Rattle.std.specs.Prelude.{◌≡◌, IfOk};
ghost use Rattle.fare_cap.specs.Order.{in_order as ordered_list};

use fare_record::Record;
use std::alloc::{AllocError, Global};

/// The records in the order in which taps are charged: by moment, then device, then lane number; those that tie
/// keep their places. The one error is want of memory.
pub fn in_order(alloc: Global, records: &[Record]) -> Result<Vec<Record>, AllocError>
    ensures { IfOk result (λ ordered. ordered.items ≡ ordered_list records.now) }
{
    let mut ordered = records.to_vec(alloc)?;
    ordered.sort_by_key(|r| (r.tap().moment(), r.device(), r.lane()))?;
    Ok(ordered)
}
