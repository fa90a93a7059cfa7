ghost use Rattle.std.specs.Prelude.{◌≡◌, ◌↔◌, IfOk, IsTrue};

use crate::sequence::{Listable, Sequence};
use dn_bits::Bits;
use dn_memory::NoMemory;
use dn_wire::ClientId;
use std::alloc::Global;

/// A client's ciphertext.
#[derive(Drop)]
pub struct ShownCipher {
    pub client: ClientId,
    pub cipher: Bits,
}

/// A list of clients' ciphertexts.
pub type Shows = Sequence<ShownCipher>;

impl ShownCipher {
    /// An equal ciphertext.
    pub fn copy(&self, alloc: Global) -> Result<ShownCipher, NoMemory>
        ensures { IfOk result (λ x. x ≡ self.now) }
    {
        Ok(ShownCipher {
            client: self.client,
            cipher: self.cipher.copy(alloc)?,
        })
    }

    /// Whether the two are one.
    pub fn equals(&self, other: &ShownCipher) -> bool
        ensures { IsTrue result ↔ (self.now ≡ other.now) }
    {
        self.client == other.client && self.cipher.equals(&other.cipher)
    }
}

impl Listable for ShownCipher {
    fn copied(&self, alloc: Global) -> Result<Self, NoMemory> {
        self.copy(alloc)
    }

    fn is_same(&self, other: &Self) -> bool {
        self.equals(other)
    }
}
