//! Reports: events of a run and their outcomes as data, one variant per form of line, and the lines of a report, printed and read.
//! Contracts see the lists among their fields as lists. Each line has one spelling: its fields with one blank between them, and a line
//! feed at its end.
#![tactic(auto)]

mod event;
mod line;
mod outcome;
mod pairs;
mod putting_events;
mod putting_lines;
mod putting_lists;
mod putting_outcomes;
mod reading_events;
mod reading_lines;
mod reading_lists;
mod reading_outcomes;
mod report_text;
mod word_text;
mod words;

pub use dn_lines::LineFault;
pub use event::Event;
pub use line::{EventLine, ReportLine};
pub use outcome::Outcome;
pub use pairs::{ListedPair, ListedPairs};
pub use report_text::{print_line, read_line};
pub use words::{BlameWord, IgnoredWord, SpoilWord, UnopenedWord};

#[cfg(test)]
mod tests;
