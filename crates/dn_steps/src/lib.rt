//! What ties a world's parts to its run, and that it stays from step to step.
//!
//! `specs/Tied.antt` says how the parts of a world and a run hang together (`IsTied`); with it the invariant of runs holds. The laws: it holds
//! of a world as it is made; and each step goes on in the run, by calls of cores as `dn_links` has them, and keeps it. And the audit of a
//! world knows of its run (`IsAudited` of `specs/Audited.antt`, by `dn_auditing`): as the world is made, and after each step; so what it
//! says is so. Nothing here runs.
#![tactic(auto)]

mod auditing;
mod laws;

pub use auditing::{audits_say_clean, audits_say_right, runs_go_along, the_audit_begins};
pub use laws::{steps_stay_tied, the_tie_begins};
