//! The threads' work of races and live runs.
//!
//! A race lets workers submit to a gate while another closes it, and gives the `Order` that the gate's history has: seen as a list of
//! submissions by number, with the closing among them. A live run lets a worker for each server's core take turns on a board, and gives the
//! `Posts`: each has the letters that the core made of those that its worker had read in earlier turns. A `Crew` does both, and keeps what it
//! gave; a `ThreadCrew` does them by threads.
#![tactic(auto)]

mod crew;
mod delivering;
mod gathering;
mod given;
mod live;
mod lived;
mod meeting;
mod order;
mod placed;
mod posts;
mod race;
mod raced;
mod reading;
mod sharing;
mod spelling;
mod thread_crew;
mod working;

pub use crew::Crew;
pub use given::{Given, Reads};
pub use live::live_on;
pub use lived::Lived;
pub use order::{Order, Ordered};
pub use placed::Placed;
pub use posts::Posts;
pub use race::race_on;
pub use raced::Raced;
pub use thread_crew::ThreadCrew;

#[cfg(test)]
mod live_tests;
#[cfg(test)]
mod tests;
