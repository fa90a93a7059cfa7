ghost use Rattle.std.specs.Prelude.{◌≡◌, ◌↔◌, IfOk, IsTrue};

use crate::sequence::{Listable, Sequence};
use dn_memory::NoMemory;
use dn_wire::{Bytes, ClientId, Round};
use std::alloc::Global;

/// A client's submission as a server holds it.
#[derive(Drop)]
pub struct Entry {
    pub client: ClientId,
    /// The digest of the ciphertext.
    pub digest: [u8; 32],
    /// The client's signature of the submission.
    pub signature: Bytes,
}

/// A list of entries.
pub type Entries = Sequence<Entry>;

/// The submissions of round `r` after round `prev` that a server holds.
#[derive(Drop)]
pub struct Inventory {
    pub r: Round,
    pub prev: Round,
    pub entries: Entries,
}

impl Entry {
    /// An equal entry.
    pub fn copy(&self, alloc: Global) -> Result<Entry, NoMemory>
        ensures { IfOk result (λ x. x ≡ self.now) }
    {
        Ok(Entry {
            client: self.client,
            digest: self.digest,
            signature: self.signature.copy(alloc)?,
        })
    }

    /// Whether the two are one.
    pub fn equals(&self, other: &Entry) -> bool
        ensures { IsTrue result ↔ (self.now ≡ other.now) }
    {
        self.client == other.client
            && self.digest == other.digest
            && self.signature.equals(&other.signature)
    }
}

impl Listable for Entry {
    fn copied(&self, alloc: Global) -> Result<Self, NoMemory> {
        self.copy(alloc)
    }

    fn is_same(&self, other: &Self) -> bool {
        self.equals(other)
    }
}

impl Inventory {
    /// An equal inventory.
    pub fn copy(&self, alloc: Global) -> Result<Inventory, NoMemory>
        ensures { IfOk result (λ x. x ≡ self.now) }
    {
        Ok(Inventory {
            r: self.r,
            prev: self.prev,
            entries: self.entries.copy(alloc)?,
        })
    }

    /// Whether the two are one.
    pub fn equals(&self, other: &Inventory) -> bool
        ensures { IsTrue result ↔ (self.now ≡ other.now) }
    {
        self.r == other.r && self.prev == other.prev && self.entries.equals(&other.entries)
    }
}
