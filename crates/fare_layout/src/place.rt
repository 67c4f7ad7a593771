ghost use Rattle.std.specs.Prelude.{◌≡◌, ◌↔◌, IsTrue};
ghost use Rattle.std.specs.List.{AllByRecursion};
ghost use Rattle.fare_layout.specs.Places.{all_of, place_of, IsApartFrom, AreApart};

use sqlite_items::Items;

/// A table of a store: which of the store's tables it is, in the order in which the store makes them, from 0 on.
#[derive(Clone, Copy, PartialEq, Eq, Debug)]
pub struct TableNumber {
    pub number: usize,
}

/// Where a table stands in a database: its place among the tables of the schema, and the tree of its rows.
#[derive(Clone, Copy, PartialEq, Eq, Debug)]
pub struct Place {
    pub at: usize,
    pub tree: u32,
}

/// Where the tables of a store stand, in the order in which it makes them.
#[derive(Drop)]
pub struct Places {
    pub all: Items<Place>,
}

// A place where nothing stands.
const NOWHERE: Place = Place { at: 0, tree: 0 };

impl Places {
    /// Where a table stands.
    pub fn of(&self, table: TableNumber) -> Place
        ensures { result ≡ place_of self.now table }
    {
        match self.all.get(table.number) {
            Some(place) => *place,
            None => NOWHERE,
        }
    }
}

/// Whether none of the places has this tree.
pub fn is_apart(tree: u32, places: &[Place]) -> bool
    ensures { IsTrue result ↔ IsApartFrom tree places.now }
{
    match places {
        [] => true,
        [first, rest @ ..] => tree != first.tree && is_apart(tree, rest),
    }
}

// Whether each place has a tree of its own.
pub(crate) fn are_apart(places: &[Place]) -> bool
    ensures { IsTrue result ↔ AreApart places.now }
{
    match places {
        [] => true,
        [first, rest @ ..] => is_apart(first.tree, rest) && are_apart(rest),
    }
}
