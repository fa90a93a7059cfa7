ghost use Rattle.std.specs.Prelude.{◌≡◌, ℕ, false, OnOk};

use dn_memory::NoMemory;
use std::alloc::Global;
use std::collections::BTreeSet;

/// A set of numbers, of payloads or of rounds.
#[derive(Drop)]
pub struct Marks {
    keys: BTreeSet<u64>,
}

impl Marks {
    ghost use Rattle.dn_verify.specs.Kept.{has_mark};
    ghost use Rattle.dn_verify.specs.Telling.{with_number};

    pub fn new(alloc: Global) -> Marks
        ensures { (n : ℕ) → has_mark result n ≡ false }
    {
        Marks {
            keys: BTreeSet::new(alloc),
        }
    }

    pub fn has(&self, number: u64) -> bool
        ensures { result ≡ has_mark self.now number }
    {
        self.keys.contains(&number)
    }

    /// The number joins the set.
    pub fn note(&mut self, number: u64) -> Result<(), NoMemory>
        ensures { OnOk result (has_mark self.new ≡ with_number number (has_mark self.old)) }
    {
        self.keys.insert(number)?;
        Ok(())
    }
}
