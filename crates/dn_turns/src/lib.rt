//! A lock whose holders take turns by ticket, round a log that only grows.
//!
//! A `Turns` keeps two shared words, the tickets drawn and the ticket that is served, and the log. Each thread takes its
//! turns with a `TurnPass` of its own, which contracts see with the log that it has seen: every log that it meets later
//! begins with that one, and has no further entry under the pass's own numbers. A `Turn` lends the log and ends by `give`,
//! which adds one entry, or by `leave`, which adds none.
#![tactic(auto)]

mod entries;
mod log;
mod rule;
#[cfg(test)]
mod tests;
mod turns;
mod view;

pub use entries::Entries;
pub use log::Log;
pub use turns::{TakeFault, Turn, TurnPass, Turns};
