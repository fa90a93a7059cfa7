ghost use Rattle.std.specs.Prelude.{◌≡◌, ℕ, ◌≤◌, List, [], ◌∷◌, ◌++◌, OnOk};

use dn_memory::NoMemory;

/// What a lock keeps: a list of entries, each under the number of the pass that gave it. It only grows.
pub trait Log {
    type Entry;

    /// Plain data that stays as it was when the lock was made.
    type Base;

    ghost list: { Self → List (ℕ × Self.Entry) };

    // How many entries can be added without memory.
    ghost spare: { Self → ℕ };

    ghost base: { Self → Self.Base };

    // Which pair of number and entry may come next, after these.
    ghost fits: { Self.Base → List (ℕ × Self.Entry) → ℕ × Self.Entry → Type 0 };

    /// Makes room for one more entry.
    fn room(&mut self) -> Result<(), NoMemory>
        ensures list { list self.new ≡ list self.old }
        ensures base { base self.new ≡ base self.old }
        ensures spare { OnOk result (1 ≤ spare self.new) };

    /// Adds the entry at the end, under this number.
    fn add(&mut self, number: u32, entry: Self::Entry)
        requires spare { 1 ≤ spare self.old }
        requires fits { fits (base self.old) (list self.old) (number, entry) }
        ensures list { list self.new ≡ list self.old ++ (number, entry) ∷ [] }
        ensures base { base self.new ≡ base self.old };
}
