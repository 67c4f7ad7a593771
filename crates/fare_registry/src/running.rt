ghost use Rattle.std.specs.Prelude.{◌≡◌, Some, None, Err, true, false, IsTrue, IfOk, IfErr, IfSome, OnOk, MatchOption};
ghost use Rattle.sqlite.specs.State.{HasCleanDisk};
ghost use Rattle.sqlite.specs.Held.{state};
ghost use Rattle.fare_day.specs.Clock.{HasRule};
ghost use Rattle.fare_tables.specs.Asking.{IsLive, SameRows};
ghost use Rattle.fare_outbox_rows.specs.Statements.{outbox_parts};
ghost use Rattle.fare_keeping.specs.Keeping.{IsLawful, IsRefusal, Keeps, KeepsJust, KeepsNone, MayFollow, SaysNoScheme, SaysOf};
ghost use Rattle.fare_keeping.specs.Leaving.{HasNoRoom};
ghost use Rattle.fare_registry.specs.Still.{HoldsStill};

use crate::registering::{register_scheme, registered_scheme};
use fare_keeping::KeepFault;
use fare_trace::ZonedScheme;
use sqlite::{Alter, Connection};
use std::alloc::Global;

/// The scheme that a run over the stores beside an outbox is over, with the rule by which its clock goes: the one that is given,
/// which is kept from then on; where none is given the kept one, if something is kept. So a run is over the scheme that was kept,
/// or over one that adds to it, if anything was kept.
///
/// Where one is given the faults are those of `register_scheme`, else those of `registered_scheme`. The outbox holds what it held,
/// whatever came of it.
pub fn scheme_of_run<S: Alter>(
    alloc: Global,
    conn: &mut Connection<S>,
    given: Option<ZonedScheme>,
) -> Result<Option<ZonedScheme>, KeepFault>
    ensures given { IfOk result (λ found. IfSome given (λ zoned. found ≡ Some zoned)) }
    ensures rule { given ≡ None → IfOk result (λ found. IfSome found (λ kept. HasRule kept.scheme.zone kept.zone)) }
    ensures follows { IsLive (state S.Store conn.new) → IsLawful (state S.Store conn.old).now → IfOk result (λ found. IfSome found (λ taken. MayFollow (state S.Store conn.old).now taken.scheme)) }
    ensures kept { IsLive (state S.Store conn.new) → IsLawful (state S.Store conn.old).now → IfOk result (λ found. IfSome given (λ zoned. KeepsJust (state S.Store conn.new).now zoned.scheme zoned.zone × IsLawful (state S.Store conn.new).now)) }
    ensures told { given ≡ None → HasCleanDisk (state S.Store conn.new) → IsLawful (state S.Store conn.old).now → IfOk result (λ found. MatchOption found (KeepsNone (state S.Store conn.old).now) (λ kept. Keeps (state S.Store conn.old).now kept.scheme)) }
    ensures says { IsLive (state S.Store conn.new) → IsLawful (state S.Store conn.old).now → IfErr result (λ fault. IfSome given (λ zoned. SaysOf (state S.Store conn.old).now zoned.scheme fault)) }
    ensures untold { given ≡ None → HasCleanDisk (state S.Store conn.new) → IsLawful (state S.Store conn.old).now → IfErr result (SaysNoScheme (state S.Store conn.old).now) }
    ensures refused { IsLive (state S.Store conn.new) → IsLawful (state S.Store conn.old).now → IfErr result (λ fault. IfSome given (λ zoned. IsRefusal fault → SameRows (state S.Store conn.old) (state S.Store conn.new))) }
    ensures foreign { HasCleanDisk (state S.Store conn.new) → IfErr result (λ fault. IfSome given (λ zoned. fault ≡ KeepFault.Foreign → HasNoRoom outbox_parts (state S.Store conn.old))) }
    ensures read { HasCleanDisk (state S.Store conn.new) → given ≡ None → OnOk result (SameRows (state S.Store conn.old) (state S.Store conn.new)) }
    ensures still { HoldsStill (state S.Store conn.old) (state S.Store conn.new) }
    ensures live { IsLive (state S.Store conn.new) → IsLive (state S.Store conn.old) }
    ensures up { HasCleanDisk (state S.Store conn.new) → IsTrue (state S.Store conn.old).is_open → OnOk result (IsTrue (state S.Store conn.new).is_open) }
    ensures inside { conn.old.in_transaction ≡ true → (result ≡ Err KeepFault.Store) × (conn.new ≡ conn.old) }
    ensures idle { conn.old.in_transaction ≡ false → conn.new.in_transaction ≡ false }
{
    match given {
        Some(zoned) => {
            register_scheme(alloc, conn, &zoned.scheme, &zoned.zone)?;
            Ok(Some(zoned))
        }
        None => registered_scheme(alloc, conn),
    }
}
