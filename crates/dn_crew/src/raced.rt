use crate::order::Order;
use crate::placed::Placed;
use dn_gate::GatePass;

/// What came of a race: a pass that stands for all, the order that the gate's history has, and what was collected.
#[derive(Drop)]
pub struct Raced {
    pub pass: GatePass<u64>,
    pub order: Order,
    pub placed: Placed,
}
