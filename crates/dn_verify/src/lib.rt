//! Reports, judged by who trusts nobody: `verify_report` reads the report of a run and accepts it, or tells the first line that breaks a
//! rule. The lines are taken one by one; what they say so far stands in a `Fold`: which payloads were posted and by whom they were put,
//! which messages are in flight, what was heard, the chain of the run's certificates, and which lines are due next. Payloads are opened
//! against the report's own roster, each once.
#![tactic(auto)]

mod content;
mod course;
mod due;
mod events;
mod fold;
mod header;
mod hearing;
mod honesty;
mod judging;
mod key_of;
mod mail;
mod marks;
mod opening;
mod outcomes;
mod puts;
mod receipts;
mod report_judging;
mod report_lines;
mod round_lines;
mod scene;
mod sizes;
mod stop;
mod telling;
mod told;
mod verifying;
mod words;

pub use verifying::verify_report;

#[cfg(test)]
mod tests;
