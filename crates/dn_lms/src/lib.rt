//! LMS, the many-time signatures of RFC 8554 section 5, with SHA-256 and 32 bytes, for the heights
//! 5, 10 and 15 (type codes 5 to 7). A `KeyPair` is seen as its type codes, its identifier I and its
//! seed, from which all else follows; it keeps its tree, so that signing makes one one-time
//! signature and copies a path.
#![tactic(auto)]

mod key;
mod laws;
mod nodes;
mod pair;
#[cfg(test)]
mod tests;
mod tree;
mod verifier;

pub use key::SigKey;
pub use laws::{lengths_go_by_codes, what_verifies_is_short};
pub use pair::{KeyFault, KeyPair};
pub use verifier::verify;
