ghost use Rattle.std.specs.Prelude.{◌≡◌, ◌↔◌, IfOk, IsTrue};

use crate::sequence::{Listable, Sequence};
use dn_bits::Bits;
use dn_memory::NoMemory;
use dn_wire::{ClientId, Round, ServerId};
use std::alloc::Global;

/// A client that counts in a round, and the server that it is assigned to.
#[derive(Clone, Copy, Debug, PartialEq, Eq)]
pub struct Listed {
    pub client: ClientId,
    pub server: ServerId,
    /// The digest of the client's ciphertext.
    pub digest: [u8; 32],
}

/// A list of clients that count.
pub type Rows = Sequence<Listed>;

/// A list of digests.
pub type Digests = Sequence<[u8; 32]>;

/// The outcome of round `r` after round `prev`.
#[derive(Drop)]
pub struct Body {
    /// The version of the group, which is 1 or 2.
    pub version: u8,
    pub r: Round,
    pub prev: Round,
    /// Whether too few clients took part, so that there are no digests and no output. In version 1 it is false.
    pub thin: bool,
    /// The clients that count, in ascending order.
    pub listed: Rows,
    /// The digest of each server's ciphertext, by server.
    pub digests: Digests,
    /// The output of the round.
    pub out: Bits,
}

impl Body {
    /// An equal body.
    pub fn copy(&self, alloc: Global) -> Result<Body, NoMemory>
        ensures { IfOk result (λ x. x ≡ self.now) }
    {
        Ok(Body {
            version: self.version,
            r: self.r,
            prev: self.prev,
            thin: self.thin,
            listed: self.listed.copy(alloc)?,
            digests: self.digests.copy(alloc)?,
            out: self.out.copy(alloc)?,
        })
    }

    /// Whether the two are one.
    pub fn equals(&self, other: &Body) -> bool
        ensures { IsTrue result ↔ (self.now ≡ other.now) }
    {
        self.version == other.version
            && self.r == other.r
            && self.prev == other.prev
            && self.thin == other.thin
            && self.listed.equals(&other.listed)
            && self.digests.equals(&other.digests)
            && self.out.equals(&other.out)
    }
}

impl Listable for Listed {
    fn copied(&self, _alloc: Global) -> Result<Self, NoMemory> {
        Ok(*self)
    }

    fn is_same(&self, other: &Self) -> bool {
        self.client == other.client && self.server == other.server && self.digest == other.digest
    }
}

impl Listable for [u8; 32] {
    fn copied(&self, _alloc: Global) -> Result<Self, NoMemory> {
        Ok(*self)
    }

    fn is_same(&self, other: &Self) -> bool {
        self == other
    }
}
