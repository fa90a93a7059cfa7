ghost use Rattle.std.specs.Prelude.{◌≡◌, ◌↔◌, ◌⊎◌, [], ℕ, List, Contains, IsTrue, OnOk};

use dn_memory::NoMemory;
use std::alloc::Global;
use std::collections::HashSet;
use std::marker::Model;

/// All that keys of honest members signed, as the bytes that were signed.
#[derive(Drop)]
pub struct Signings {
    signed: HashSet<Vec<u8>>,
}

impl Model for Signings {
    ghost use Rattle.std.specs.Prelude.{ℕ, List, map};

    ghost Value = { List (List ℕ) };

    ghost view = { λ s. map (λ k. k.items) s.signed.keys };
}

impl Signings {
    /// Nothing.
    pub fn none(alloc: Global) -> Signings
        ensures { result ≡ [] }
    {
        Signings {
            signed: HashSet::new(alloc),
        }
    }

    /// Adds bytes that were signed.
    pub fn add(&mut self, bytes: Vec<u8>) -> Result<(), NoMemory>
        ensures { OnOk result ((x : List ℕ) → Contains self.new x ↔ (Contains self.old x ⊎ (x ≡ bytes.items))) }
    {
        self.signed.insert(bytes)?;
        Ok(())
    }

    /// Whether these bytes were signed.
    pub fn has(&self, bytes: &Vec<u8>) -> bool
        ensures { IsTrue result ↔ Contains self.now bytes.now.items }
    {
        self.signed.contains(bytes)
    }
}
