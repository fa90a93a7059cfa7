ghost use Rattle.std.specs.Prelude.{◌≡◌, IfOk};

use dn_memory::NoMemory;
use std::alloc::Global;
use std::marker::Model;

/// What stands in the order of a race.
#[derive(Clone, Copy, Debug, PartialEq, Eq)]
pub enum Ordered {
    /// The submission with this number.
    Submit(u64),
    /// The closing of the gate.
    Close,
}

/// The order of a race. Contracts see it as the list of what stands in it.
#[derive(Drop)]
pub struct Order {
    held: Vec<Ordered>,
}

impl Model for Order {
    ghost use Rattle.std.specs.Prelude.{List};
    ghost use Rattle.dn_crew.specs.declared.order.Ordered.{Ordered};

    ghost Value = { List Ordered };

    ghost view = { λ o. o.held.items };
}

impl Order {
    /// The order of these.
    pub fn of(held: Vec<Ordered>) -> Order
        ensures { result ≡ held.items }
    {
        Order { held }
    }

    /// What stands in it.
    pub fn get(&self) -> &[Ordered]
        ensures { result.now ≡ self.now }
    {
        &self.held
    }

    /// The same order once more.
    pub fn copy(&self, alloc: Global) -> Result<Order, NoMemory>
        ensures { IfOk result (λ o. o ≡ self.now) }
    {
        Ok(Order {
            held: Vec::from_slice(alloc, &self.held)?,
        })
    }
}
