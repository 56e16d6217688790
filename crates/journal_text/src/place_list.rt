ghost use Rattle.std.specs.Prelude.{◌≡◌, ◌+◌, ◌<◌, ◌≤◌, [], ◌∷◌, ◌++◌, length};

use std::marker::Model;
use task_types::Place;

/// At most four places, in order, kept without memory.
#[derive(Drop)]
pub(crate) struct PlaceList {
    places: [Place; 4],
    count: usize,
}

impl Model for PlaceList {
    ghost use Rattle.std.specs.Prelude.{List, take, ◌≤◌};
    ghost use Rattle.task_types.specs.declared.outcome.Place.{Place};

    ghost Value = { List Place };

    ghost view = { λ list. take list.count list.places };

    ghost invariant = { λ list. list.count ≤ 4 };
}

impl PlaceList {
    /// No places.
    pub(crate) fn new() -> PlaceList
        ensures { result ≡ [] }
    {
        PlaceList {
            places: [Place::Null; 4],
            count: 0,
        }
    }

    /// How many places there are.
    pub(crate) fn len(&self) -> usize
        ensures { result ≡ length self.now }
    {
        self.as_slice().len()
    }

    /// Adds a place for which there is room.
    pub(crate) fn push(&mut self, place: Place)
        requires { length self.old < 4 }
        ensures { self.new ≡ self.old ++ place ∷ [] }
    {
        self.places[self.count] = place;
        self.count += 1;
    }

    /// The places.
    pub(crate) fn as_slice(&self) -> &[Place]
        ensures { result.now ≡ self.now }
    {
        &self.places[..self.count]
    }
}
