ghost use Rattle.std.specs.Prelude.{◌≡◌, None, IfOk, IfSome};
ghost use Rattle.fare_opening.specs.declared.site.Site.{Site};
ghost use Rattle.fare_opening.specs.Parts.{OlderParts, IsOlder, IsTold};
ghost use Rattle.fare_opening.specs.Raising.{Rises};
ghost use Rattle.fare_opening.specs.Sites.{IsSite};

use crate::looking::{find_site, grown_site};
use crate::{Design, Older, Site};
use fare_layout::{go_on, has_none};
use fare_store::Fault;
use sqlite_schema::schema::Schema;
use std::alloc::Global;

// Where the tables of an older format stand, and where those of the newest would.
#[derive(Drop)]
pub(crate) struct Ascent {
    pub(crate) from: Site,
    pub(crate) to: Site,
}

// Where they stand in a schema and would stand, if the tables of the older format are there and those that it lacks
// can be made.
pub(crate) fn ascent_in<D: Design>(
    alloc: Global,
    schema: &Schema,
    older: &Older,
) -> Result<Option<Ascent>, Fault>
    ensures found { IfOk result (λ found. IfSome found (λ it. (o : OlderParts) → IsOlder D.parts o → IsTold older.now o → Rises D.parts o schema.now it.from it.to)) }
    ensures site { IfOk result (λ found. IfSome found (λ it. IsSite D.parts it.to)) }
    ensures at { IfOk result (λ found. IfSome found (λ it. schema.now ≡ it.from.schema)) }
    ensures lacks { IfOk result (λ found. found ≡ None → (o : OlderParts) → IsOlder D.parts o → IsTold older.now o → (v w : Site) → ¬ Rises D.parts o schema.now v w) }
{
    D::sound();
    let Some(from) = find_site(alloc, schema, older.tables, older.texts)? else {
        return Ok(None);
    };
    if !has_none(schema, older.missing) {
        return Ok(None);
    }
    let Some(to) = grown_site::<D>(alloc, schema, older.missing)? else {
        return Ok(None);
    };
    if go_on(schema, from.places.all.as_slice(), to.places.all.as_slice()) {
        Ok(Some(Ascent { from, to }))
    } else {
        Ok(None)
    }
}
