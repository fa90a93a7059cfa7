//! The report of a run, written line by line from what the world kept of it.
//!
//! Contracts see a run that was played as all that its report tells (`specs/Report.antt`): the group and its roster, the corrupt members,
//! the events with what came of them, what is shown in which order, and the audit's words. Its text is `report_text`.
#![tactic(auto)]

mod head;
mod played;
mod shown;
mod step_lines;

pub use played::Played;
pub use shown::Shown;
