//! The messages in flight.
//!
//! A `Flight` is seen as the list of its messages, in order of their numbers, and the number that the next message gets.
#![tactic(auto)]

mod arena;
mod flight;
mod heads;
mod links;
mod msg;
mod side;
#[cfg(test)]
mod tests;

pub use flight::{Flight, PutFault};
pub use msg::Msg;
