//! Who is blamed for a bit of a slot that came out as 1 where the slot's owner says that it sent a 0.
//!
//! `judge` takes the body of a round, an accusation that holds against it, and what was said: the envelopes that servers put and those
//! of clients and slots that reached a server. Its verdict names each member that what was said shows to be at fault, with the first
//! reason of ten, and the members that owe an answer and are silent. `specs/Reasons.antt` has a definition for each reason, and
//! `specs/Verdict.antt` says what a verdict is. The laws are public functions: a verdict that leaves nobody silent blames somebody, and
//! no member is blamed that signed what the protocol asks of it.
#![tactic(auto)]

mod answers;
mod blames;
mod carried;
mod case;
mod challenging;
mod doubles;
mod entries;
mod fault;
mod flags;
mod judging;
mod laws;
mod openings;
mod own_faults;
mod seeing;
mod showing;
mod twice;

pub use blames::Blames;
pub use fault::Fault;
pub use judging::{Verdict, judge};
pub use laws::{no_honest_client_is_blamed, no_honest_server_is_blamed, somebody_is_blamed};
