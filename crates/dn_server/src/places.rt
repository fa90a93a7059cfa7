ghost use Rattle.std.specs.Prelude.{◌≡◌, ◌++◌, ◌∷◌, [], ◌↔◌, Contains, IsTrue, IfOk, OnOk};

use dn_memory::NoMemory;
use dn_wire::Round;
use std::alloc::Global;
use std::marker::Model;

/// A place of the output of a round.
#[derive(Clone, Copy, Debug, PartialEq, Eq)]
pub struct Place {
    pub r: Round,
    pub k: u32,
}

/// Places, in the order in which they were put in.
#[derive(Drop)]
pub struct Places {
    places: Vec<Place>,
}

impl Model for Places {
    ghost use Rattle.std.specs.Prelude.{List};
    ghost use Rattle.dn_server.specs.declared.places.Place.{Place};

    ghost Value = { List Place };

    ghost view = { λ p. p.places.items };
}

impl Places {
    /// No place.
    pub fn none(alloc: Global) -> Places
        ensures { result ≡ [] }
    {
        Places {
            places: Vec::new(alloc),
        }
    }

    /// An equal list.
    pub fn copy(&self, alloc: Global) -> Result<Places, NoMemory>
        ensures { IfOk result (λ p. p ≡ self.now) }
    {
        Ok(Places {
            places: Vec::from_slice(alloc, &self.places)?,
        })
    }

    /// The places, in their order.
    pub fn get(&self) -> &[Place]
        ensures { result.now ≡ self.now }
    {
        &self.places
    }

    /// Puts in one more.
    pub fn push(&mut self, place: Place) -> Result<(), NoMemory>
        ensures { OnOk result (self.new ≡ self.old ++ place ∷ []) }
    {
        self.places.push(place)?;
        Ok(())
    }
}
