// A closing.
ghost use Rattle.std.specs.Prelude.{◌≡◌};

use super::pass::SeatOf;
use std::marker::Model;

/// What the one call of `close` that closed the gate was given, and what `collect` takes. Contracts see its gate and its count.
#[derive(Drop)]
pub struct Closing<T: Drop> {
    pub(crate) count: u32,
    // The right to take values: no other seat has it.
    pub(crate) right: SeatOf<T>,
}

impl<T: Drop> Model for Closing<T> {
    ghost use Rattle.dn_gate.specs.Pass.{ClosingView, gate_of, IsRight};

    ghost Value = { ClosingView };

    ghost view = { λ c. record { gate = gate_of c.right.table_id c.right.me.0; count = c.count } };

    ghost invariant = { λ c. IsRight c.right.me };
}

impl<T: Drop> Closing<T> {
    /// The number of draws before the gate was closed: of clients that are included.
    pub fn count(&self) -> u32
        ensures { result ≡ self.now.count }
    {
        self.count
    }
}
