ghost use Rattle.std.specs.Prelude.{◌≡◌, ◌∷◌, [], ℕ, map};
ghost use Rattle.fare_layout.specs.declared.place.TableNumber.{TableNumber};
ghost use Rattle.fare_lists.specs.Lists.{AreListed};
ghost use Rattle.fare_kept.specs.Statements.{Setting, Zone, Owner, Operator, Station, Product, Device, kept_parts};

use crate::statements::LISTS;
use fare_lists::ListTable;

/// The tables of a kept scheme that hold its entries, in this order: the first traffic day with the capacity of the
/// inbox, the bytes of the zone's rule, the owners, the operators, the stations, the products and the devices, each kind
/// in the order of registration.
pub fn kept_lists() -> &'static [ListTable]
    ensures listed { AreListed kept_parts result.now }
    ensures columns { map {B = TableNumber × ℕ} (λ t. (t.number, t.columns)) result.now ≡ (Setting, 2) ∷ (Zone, 1) ∷ (Owner, 2) ∷ (Operator, 1) ∷ (Station, 2) ∷ (Product, 6) ∷ (Device, 3) ∷ [] }
{
    &LISTS
}
