ghost use Rattle.std.specs.Prelude.{◌≡◌, Err, true, false, IsTrue, IfOk, IfErr, IfSome, OnOk, MatchOption};
ghost use Rattle.sqlite.specs.State.{HasCleanDisk};
ghost use Rattle.sqlite.specs.Held.{state};
ghost use Rattle.fare_day.specs.Clock.{HasRule};
ghost use Rattle.fare_tables.specs.Asking.{IsLive, SameRows};
ghost use Rattle.fare_outbox_rows.specs.Statements.{outbox_parts};
ghost use Rattle.fare_keeping.specs.Keeping.{IsLawful, IsRefusal, Keeps, KeepsJust, KeepsNone, MayFollow, SaysNoScheme, SaysOf};
ghost use Rattle.fare_keeping.specs.Leaving.{HasNoRoom};
ghost use Rattle.fare_registry.specs.Still.{HoldsStill};

use fare_keeping::{KeepFault, keep_scheme, kept_scheme};
use fare_lines::ZoneText;
use fare_outbox::OutboxDesign;
use fare_scheme::Scheme;
use fare_trace::ZonedScheme;
use sqlite::{Alter, Connection};
use std::alloc::Global;

/// Keeps a scheme with the rule by which its clock goes in the database of an outbox, which may be there already or not yet,
/// where nothing is kept or the scheme adds to the kept one. Each fault comes as `keep_scheme` says. The outbox holds what it
/// held, whatever came of it.
pub fn register_scheme<S: Alter>(
    alloc: Global,
    conn: &mut Connection<S>,
    scheme: &Scheme,
    zone: &ZoneText,
) -> Result<(), KeepFault>
    ensures kept { IsLive (state S.Store conn.new) → IsLawful (state S.Store conn.old).now → OnOk result (KeepsJust (state S.Store conn.new).now scheme.now zone.now × IsLawful (state S.Store conn.new).now) }
    ensures follows { IsLive (state S.Store conn.new) → IsLawful (state S.Store conn.old).now → OnOk result (MayFollow (state S.Store conn.old).now scheme.now) }
    ensures says { IsLive (state S.Store conn.new) → IsLawful (state S.Store conn.old).now → IfErr result (SaysOf (state S.Store conn.old).now scheme.now) }
    ensures refused { IsLive (state S.Store conn.new) → IsLawful (state S.Store conn.old).now → IfErr result (λ fault. IsRefusal fault → SameRows (state S.Store conn.old) (state S.Store conn.new)) }
    ensures foreign { HasCleanDisk (state S.Store conn.new) → IfErr result (λ fault. fault ≡ KeepFault.Foreign → HasNoRoom outbox_parts (state S.Store conn.old)) }
    ensures still { HoldsStill (state S.Store conn.old) (state S.Store conn.new) }
    ensures live { IsLive (state S.Store conn.new) → IsLive (state S.Store conn.old) }
    ensures up { HasCleanDisk (state S.Store conn.new) → IsTrue (state S.Store conn.old).is_open → OnOk result (IsTrue (state S.Store conn.new).is_open) }
    ensures inside { conn.old.in_transaction ≡ true → (result ≡ Err KeepFault.Store) × (conn.new ≡ conn.old) }
    ensures idle { conn.old.in_transaction ≡ false → conn.new.in_transaction ≡ false }
{
    keep_scheme::<OutboxDesign, S>(alloc, conn, scheme, zone)
}

/// The scheme that is kept in the database of an outbox, with the rule by which its clock goes, if something is kept. Nothing is
/// made; each fault comes as `fare_keeping::kept_scheme` says, and `Store` also of a connection inside a transaction, of which
/// nothing is asked then. The outbox holds what it held, whatever came of it.
pub fn registered_scheme<S: Alter>(
    alloc: Global,
    conn: &mut Connection<S>,
) -> Result<Option<ZonedScheme>, KeepFault>
    ensures kept { HasCleanDisk (state S.Store conn.new) → IsLawful (state S.Store conn.old).now → IfOk result (λ found. MatchOption found (KeepsNone (state S.Store conn.old).now) (λ kept. Keeps (state S.Store conn.old).now kept.scheme)) }
    ensures rule { IfOk result (λ found. IfSome found (λ kept. HasRule kept.scheme.zone kept.zone)) }
    ensures says { HasCleanDisk (state S.Store conn.new) → IsLawful (state S.Store conn.old).now → IfErr result (SaysNoScheme (state S.Store conn.old).now) }
    ensures read { HasCleanDisk (state S.Store conn.new) → OnOk result (SameRows (state S.Store conn.old) (state S.Store conn.new)) }
    ensures still { HoldsStill (state S.Store conn.old) (state S.Store conn.new) }
    ensures live { IsLive (state S.Store conn.new) → IsLive (state S.Store conn.old) }
    ensures up { HasCleanDisk (state S.Store conn.new) → IsTrue (state S.Store conn.old).is_open → OnOk result (IsTrue (state S.Store conn.new).is_open) }
    ensures inside { conn.old.in_transaction ≡ true → (result ≡ Err KeepFault.Store) × (conn.new ≡ conn.old) }
    ensures idle { conn.old.in_transaction ≡ false → conn.new.in_transaction ≡ false }
{
    if conn.is_autocommit() {
        kept_scheme(alloc, conn)
    } else {
        Err(KeepFault::Store)
    }
}
