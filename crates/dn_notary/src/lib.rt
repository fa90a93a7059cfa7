//! A notary with a key of two levels: `notary` reads a list of entries, such as digests of reports, and writes them with a signature of
//! each, and `notarized` checks what it wrote, or tells the first line that breaks a rule.
//!
//! The list is read as scripts are (`specs/Entries.antt`); what is written is a text of lines that each have one spelling
//! (`specs/Signed.antt`). The three rules of such a text are in `specs/Notarized.antt`.
#![tactic(auto)]

mod entries;
mod judging;
mod laws;
mod limits;
mod list_line;
mod notarizing;
mod sign_line;
mod signing;
#[cfg(test)]
mod tests;
mod verdict;

pub use laws::{a_text_has_one_verdict, what_notary_writes_is_notarized};
pub use limits::{MAX_ENTRIES, MAX_ENTRY};
pub use notarizing::{notarized, notary};
