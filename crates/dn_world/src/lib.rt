//! A run of a whole group: its state, and the history of events with their outcomes.
#![tactic(auto)]

mod step;
mod world;

pub use dn_state::Audit;
pub use step::{Outcomes, Step};
pub use world::World;
