//! Gives out the leaves of a one-time signature key, so that no leaf is given twice, over any number of threads.
//!
//! A `Drawer` keeps one shared word, the number of draws so far; a draw adds one to it and takes the number that it
//! found. Each thread draws with a `LeafPass` of its own, which contracts see as the list of the numbers that it drew.
//! What two passes drew is compared where they meet, in `Drawer::join`.
#![tactic(auto)]

mod drawer;
mod rule;
#[cfg(test)]
mod tests;
mod view;

pub use drawer::{Drawer, Exhausted, LeafPass};
