// A pass.
ghost use Rattle.std.specs.Prelude.{◌≡◌};
ghost use Rattle.dn_counts.specs.Numbers.{least};

use super::view::View;
use atomic_table::Seat;
use std::marker::Model;

pub(crate) type SeatOf<T> = Seat<Option<T>, View<T>>;

/// What one thread submits with. Contracts see its gate, the numbers of the passes that it stands for, and what these did.
#[derive(Drop)]
pub struct GatePass<T: Drop> {
    pub(crate) seat: SeatOf<T>,
    pub(crate) number: u32,
}

impl<T: Drop> Model for GatePass<T> {
    ghost use Rattle.dn_gate.specs.Pass.{PassView, pass_view, IsPass};

    ghost Value = { PassView T };

    ghost view = { λ p. pass_view p.seat.table_id p.seat.id p.seat.me };

    ghost invariant = { λ p. IsPass p.seat.me p.number };
}

impl<T: Drop> GatePass<T> {
    /// The least number of the passes that it stands for.
    pub fn number(&self) -> u32
        ensures { result ≡ least self.now.numbers }
    {
        self.number
    }
}
