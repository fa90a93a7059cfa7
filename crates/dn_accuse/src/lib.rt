//! Whether accusations hold, and whether rebuttals are good, by the rules of the protocol: `Judging` implements these rules, and `valid`
//! and `rebuttal_good` go by what was said.
#![tactic(auto)]

mod judging;
mod said;

pub use judging::Judging;
pub use said::{rebuttal_good, valid};

#[cfg(test)]
mod tests;
