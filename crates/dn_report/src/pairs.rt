ghost use Rattle.std.specs.Prelude.{◌≡◌, ◌↔◌, IfOk, IsTrue};

use dn_memory::NoMemory;
use dn_wire::{ClientId, ServerId};
use std::alloc::Global;
use std::marker::Model;

/// A client that counts in a round, and the server that it is assigned to.
#[derive(Clone, Copy, Debug, PartialEq, Eq)]
pub struct ListedPair {
    pub client: ClientId,
    pub server: ServerId,
}

/// A list of such pairs.
#[derive(Drop)]
pub struct ListedPairs {
    pairs: Vec<ListedPair>,
}

impl Model for ListedPairs {
    ghost use Rattle.std.specs.Prelude.{List};
    ghost use Rattle.dn_report.specs.declared.pairs.ListedPair.{ListedPair};

    ghost Value = { List ListedPair };

    ghost view = { λ l. l.pairs.items };
}

impl ListedPairs {
    /// The list of these pairs.
    pub fn of(pairs: Vec<ListedPair>) -> ListedPairs
        ensures { result ≡ pairs.items }
    {
        ListedPairs { pairs }
    }

    /// The pairs, in their order.
    pub fn get(&self) -> &[ListedPair]
        ensures { result.now ≡ self.now }
    {
        &self.pairs
    }

    /// A second list of the same pairs.
    pub fn copy(&self, alloc: Global) -> Result<ListedPairs, NoMemory>
        ensures { IfOk result (λ l. l ≡ self.now) }
    {
        Ok(ListedPairs {
            pairs: Vec::from_slice(alloc, &self.pairs)?,
        })
    }

    /// Whether the lists are one.
    pub fn equals(&self, other: &ListedPairs) -> bool
        ensures { IsTrue result ↔ (self.now ≡ other.now) }
    {
        self.get() == other.get()
    }
}
