//! The audit of a run: whether each signature in what was put is of a statement that its key had signed by then, and whether no two
//! different strings of the run have one digest.
#![tactic(auto)]

mod auditor;
mod envelopes;
mod group;
mod signings;
mod strings;

pub use auditor::Auditor;
pub use group::Group;
