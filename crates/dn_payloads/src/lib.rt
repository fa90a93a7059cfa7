//! The payloads of a run, by number. Payloads are numbered from 0 in the order in which they were first put; equal bytes have one number.
//! Each is opened once, when it is first put.
//!
//! Contracts see the store as the roster under which payloads open and the list of payloads by number, each as its bytes and what they
//! open to.
#![tactic(auto)]

mod content;
mod payloads;

pub use content::Content;
pub use payloads::{Numbered, Payloads};

#[cfg(test)]
mod tests;
