//! What ties the cores of honest members to a run: how each call of a core shows in the run, and that what cores promise keeps the rules
//! by which runs go on.
//!
//! `specs/Link.antt` says how a server's core and the run hang together (`IsLinked`), and what a step of a run has to know of the calls of
//! its servers (`ServersCalled`, `RoundsCalled`); `specs/ClientLink.antt`, `specs/MessageLink.antt` and `specs/Judging.antt` say the same
//! of clients, of messages and of the judge, and `specs/Call.antt` has it all (`IsCall`). The laws: a call that is so keeps the invariant
//! of `dn_headline`, and the ties stay. Nothing here runs.
#![tactic(auto)]

mod laws;

pub use laws::{
    calls_follow_the_rules, calls_keep_runs, clients_stay_linked, cores_stay_linked,
    going_on_moves, messages_stay_linked, records_fit_runs, settled_cores_have_gone_on,
    texts_come_in_order, the_links_begin, verdicts_follow_the_rules,
};
