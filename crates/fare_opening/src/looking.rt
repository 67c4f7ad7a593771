ghost use Rattle.std.specs.Prelude.{◌≡◌, ◌≢◌, None, IfOk, IfSome, map};
ghost use Rattle.fare_layout.specs.Growing.{CanMakeAll, GrowsBy};
ghost use Rattle.fare_tables.specs.Making.{no_schema};
ghost use Rattle.fare_opening.specs.declared.site.Site.{Site};
ghost use Rattle.fare_opening.specs.Parts.{Parts, IsDesign};
ghost use Rattle.fare_opening.specs.Sites.{IsSite};
ghost use Rattle.fare_opening.specs.Making.{Makes, MayGrow};
ghost use Rattle.fare_opening.specs.Opening.{Sees};

use crate::{Design, Site};
use fare_layout::{Places, TableNumber, are_last, find_places, grow_by, has_none};
use fare_store::Fault;
use sqlite_schema::schema::Schema;
use std::alloc::Global;

// What a database holds.
#[derive(Drop)]
pub(crate) enum Seen {
    // The store's tables, which stand here.
    Ours(Site),
    // Nothing that has a name of its tables, which would stand here.
    Vacant(Site),
    // Anything else.
    Other,
}

// A schema and the places in it.
fn site_at(alloc: Global, schema: &Schema, places: Places) -> Result<Site, Fault>
    ensures schema { IfOk result (λ site. site.schema ≡ schema.now) }
    ensures places { IfOk result (λ site. site.places ≡ places) }
{
    match schema.copy(alloc) {
        Ok(schema) => Ok(Site { schema, places }),
        Err(_) => Err(Fault::Memory),
    }
}

// Where tables stand in a schema, if they do: those that these texts make, with these statements.
pub(crate) fn find_site(
    alloc: Global,
    schema: &Schema,
    tables: &[(&str, &str)],
    texts: &[(TableNumber, &str)],
) -> Result<Option<Site>, Fault>
    ensures found { IfOk result (λ found. IfSome found (λ site. (p : Parts) → IsDesign p → map (λ t. (t.0.now, t.1.now)) tables.now ≡ p.tables → map (λ t. (t.0, t.1.now)) texts.now ≡ p.texts → IsSite p site × (schema.now ≡ site.schema))) }
    ensures at { IfOk result (λ found. IfSome found (λ site. schema.now ≡ site.schema)) }
    ensures lacks { IfOk result (λ found. found ≡ None → (p : Parts) → IsDesign p → map (λ t. (t.0.now, t.1.now)) tables.now ≡ p.tables → map (λ t. (t.0, t.1.now)) texts.now ≡ p.texts → (w : Site) → IsSite p w → schema.now ≢ w.schema) }
{
    let Some(own) = grow_by(alloc, &Schema::new(alloc), tables)? else {
        return Ok(None);
    };
    let places = find_places(alloc, &own, schema, texts);
    drop(own);
    match places? {
        Some(places) => Ok(Some(site_at(alloc, schema, places)?)),
        None => Ok(None),
    }
}

// Where the store's tables stand in a schema, if they do.
pub(crate) fn site_in<D: Design>(alloc: Global, schema: &Schema) -> Result<Option<Site>, Fault>
    ensures found { IfOk result (λ found. IfSome found (λ site. IsSite D.parts site × (schema.now ≡ site.schema))) }
    ensures lacks { IfOk result (λ found. found ≡ None → (w : Site) → IsSite D.parts w → schema.now ≢ w.schema) }
{
    D::sound();
    find_site(alloc, schema, D::tables(), D::texts())
}

// Where the store's tables would stand if these were made in a schema, if they would.
pub(crate) fn grown_site<D: Design>(
    alloc: Global,
    schema: &Schema,
    tables: &[(&str, &str)],
) -> Result<Option<Site>, Fault>
    ensures found { IfOk result (λ found. IfSome found (λ w. IsSite D.parts w × GrowsBy schema.now (map (λ t. (t.0.now, t.1.now)) tables.now) w.schema)) }
    ensures lacks { IfOk result (λ found. found ≡ None → CanMakeAll schema.now (map (λ t. (t.0.now, t.1.now)) tables.now) → (w : Site) → IsSite D.parts w → ¬ GrowsBy schema.now (map (λ t. (t.0.now, t.1.now)) tables.now) w.schema) }
{
    match grow_by(alloc, schema, tables)? {
        Some(grown) => site_in::<D>(alloc, &grown),
        None => Ok(None),
    }
}

// Where the tables would stand if they were made in a schema, if that can be.
fn site_after<D: Design>(alloc: Global, schema: &Schema) -> Result<Option<Site>, Fault>
    ensures found { IfOk result (λ found. IfSome found (Makes D.parts schema.now)) }
    ensures lacks { IfOk result (λ found. found ≡ None → schema.now ≢ no_schema) }
    ensures vacant { IfOk result (λ found. found ≡ None → ¬ MayGrow D.parts schema.now) }
{
    D::sound();
    let Some(site) = grown_site::<D>(alloc, schema, D::tables())? else {
        return Ok(None);
    };
    if are_last(schema, site.places.all.as_slice()) {
        Ok(Some(site))
    } else {
        Ok(None)
    }
}

// What a schema holds.
pub(crate) fn look_at<D: Design>(schema: &Schema, alloc: Global) -> Result<Seen, Fault>
    ensures { IfOk result (Sees D.parts schema.now) }
{
    if let Some(site) = site_in::<D>(alloc, schema)? {
        return Ok(Seen::Ours(site));
    }
    if !has_none(schema, D::tables()) {
        return Ok(Seen::Other);
    }
    match site_after::<D>(alloc, schema)? {
        Some(site) => Ok(Seen::Vacant(site)),
        None => Ok(Seen::Other),
    }
}
