ghost use Rattle.std.specs.Prelude.{◌≡◌, ◌↔◌, ◌++◌, ◌∷◌, [], IsTrue, List, OnOk};
ghost use Rattle.dn_audit.specs.Strings.{Hashed, Tells};

use dn_memory::NoMemory;
use std::alloc::Global;
use std::collections::HashMap;
use std::marker::Model;

/// Strings by their digests: the first that had each, and whether no other one has had it since.
#[derive(Drop)]
pub struct Strings {
    first: HashMap<[u8; 32], Vec<u8>>,
    differ: bool,
}

impl Model for Strings {
    ghost use Rattle.std.specs.Prelude.{map};
    ghost use Rattle.dn_audit.specs.Strings.{StringsView};

    ghost Value = { StringsView };

    ghost view = { λ s. record { first = map (λ e. record { digest = e.0; string = e.1.items }) s.first.entries; differ = s.differ } };
}

fn are_same(a: &Vec<u8>, b: &Vec<u8>) -> bool
    ensures { IsTrue result ↔ (a.now.items ≡ b.now.items) }
{
    *a == *b
}

impl Strings {
    /// No strings.
    pub fn none(alloc: Global) -> Strings
        ensures { Tells result [] }
    {
        Strings {
            first: HashMap::new(alloc),
            differ: true,
        }
    }

    /// Whether no two different strings had one digest.
    pub fn differ(&self) -> bool
        ensures { result ≡ self.now.differ }
    {
        self.differ
    }

    /// Adds a string with its digest.
    pub fn add(&mut self, digest: [u8; 32], string: Vec<u8>) -> Result<(), NoMemory>
        ensures { OnOk result ((strings : List Hashed) → Tells self.old strings
            → Tells self.new (strings ++ record { digest = digest; string = string.items } ∷ [])) }
    {
        match self.first.get(&digest) {
            Some(first) => {
                let same = are_same(first, &string);
                self.differ = self.differ && same;
                Ok(())
            }
            None => {
                self.first.insert(digest, string)?;
                Ok(())
            }
        }
    }
}
