use super::log::Log;
use dn_memory::NoMemory;

/// A log of plain values that takes any of them.
#[derive(Drop)]
pub struct Entries<E: Copy> {
    /// The number of the pass that gave it, and the value.
    pub pairs: Vec<(u32, E)>,
}

impl<E: Copy> Log for Entries<E> {
    type Entry = E;

    type Base = ();

    ghost use Rattle.std.specs.Prelude.{◌-◌, vec_len, vec_capacity};

    ghost list = { λ s. s.pairs.items };

    ghost spare = { λ s. vec_capacity s.pairs - vec_len s.pairs };

    ghost base = { λ _. tt };

    ghost fits = { λ _ _ _. Unit {0} };

    fn room(&mut self) -> Result<(), NoMemory> {
        self.pairs.reserve(1)?;
        Ok(())
    }

    fn add(&mut self, number: u32, entry: E) {
        self.pairs.push_reserved((number, entry));
    }
}
