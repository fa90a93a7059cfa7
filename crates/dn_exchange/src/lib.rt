//! One server of a group: the rounds that it opens, the submissions that it takes, the statements of the other servers that it hears,
//! and what it says to them.
//!
//! Contracts see a server as a `ServerView`. `specs/` has a relation for each call, which gives the answer and the server after it.
#![tactic(auto)]

mod closing;
mod ending;
mod hearing;
mod laws;
mod listening;
mod making;
mod opening;
mod server_core;
mod signing;
mod submitting;

pub use laws::{chains_stay, seats_stay};
pub use server_core::ServerCore;
