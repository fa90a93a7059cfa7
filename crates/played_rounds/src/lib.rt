//! Rounds that are played by hand, for tests and measures of verdicts. No part of the product.
//!
//! A `Played` is a round of a dealt group with the strings of its members and its body. `Spelled` statements are written field by field,
//! so that nothing here rests on the product's writers.
#![tactic(auto)]

mod fault;
mod judging;
mod playing;
mod spelled;

pub use fault::PlayFault;
pub use judging::{judged, opened, repeated};
pub use playing::{Jam, Played, group, play};
pub use spelled::{
    commit, concede, inventory, pad_bits, rebuttal, receipt, reveal, sealed, shown, sign,
    submission,
};
