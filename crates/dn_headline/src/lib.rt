//! Runs of a group, and what holds of each of them: the product's main promises, as laws.
//!
//! A run is seen as `RunView` of `specs/Run.antt`: its group, its events with their outcomes, and the strings that honest members made in
//! it. `specs/Headline.antt` has the promises, one definition each, and the files beside it what they speak of. `specs/Invariant.antt`
//! says what each call of a core keeps, and `specs/Step.antt` what a call adds by the rules. The laws: the promises follow from the
//! invariant and, but for the last, from a clean audit (`specs/Clean.antt`); the invariant holds at the beginning; and what is added by
//! the rules keeps it. Nothing here runs.
#![tactic(auto)]

mod auditing;
mod promises;
mod running;

pub use auditing::{
    audits_are_decided, each_run_has_its_signatures, each_run_has_its_strings,
    each_run_has_one_chain,
};
pub use promises::{
    answered_blame_somebody, blocks_stand, certified_are_in_chain, delivered_are_certified,
    honest_clients_add_their_text, honest_servers_add_nothing, included_count_once,
    late_never_count, lengths_are_sound, one_body_per_round, only_corrupt_are_blamed,
    output_is_theirs, strings_stand_behind,
};
pub use running::{
    calls_keep_the_invariant, histories_grow, messages_have_their_fate, the_invariant_begins,
    ticks_grow,
};
