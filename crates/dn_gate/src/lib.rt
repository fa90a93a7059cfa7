//! The gate: threads submit a value for a client while another closes, with no lock and no waiting, and every answer is the one
//! that a single thread would have got in one order that the gate can show.
//!
//! A `Gate` is seen as which gate it is: its number of clients and passes, and who was there before. A `GatePass` is seen as
//! what it did: its draws by place, the values that it put, its repeats and its closing. Passes that were joined into one know
//! what all of them did, and the one that stands for all knows the gate's history.
//!
//! The gate stands on a table of words and slots: a control word, which counts the draws in its low half and has the bit 2^32
//! where the gate is closed; for each client a word (0 free, 1 claimed, 3 marked); and for each client a slot for its value.
#![tactic(auto)]

mod already_closed;
mod closing;
mod collect;
mod gate;
mod not_yet;
mod pass;
mod rule;
pub mod steps;
#[cfg(test)]
mod tests;
mod told;
mod view;

pub use already_closed::AlreadyClosed;
pub use closing::Closing;
pub use gate::Gate;
pub use not_yet::NotYet;
pub use pass::GatePass;
pub use told::Told;
