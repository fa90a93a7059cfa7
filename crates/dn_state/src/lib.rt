//! The state of a run of a whole group: all honest clients and servers, the messages in flight between members, the payloads that were put,
//! and what the audit knows. Corrupt members act from outside, by what they inject.
//!
//! Contracts see its parts (`specs/Parts.antt`). `specs/Steps.antt` says exactly what each event makes of them, and which lines are told;
//! `specs/Beginning.antt` what they are as it is made; `specs/Auditing.antt` what its audit says.
#![tactic(auto)]

mod acting;
mod calling;
mod delivering;
mod judging;
mod making;
mod putting;
mod reading;
mod round_lines;
mod state;
mod stepping;
mod words;

pub use reading::Audit;
pub use state::State;
