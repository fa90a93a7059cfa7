//! HSS with two levels (RFC 8554 section 6): a top tree signs the public keys of second trees, which sign messages, so that a key signs
//! as many messages as the square of a tree's leaves and is made in the time of one tree. An `HssKey` is seen as its type codes and its
//! seed, from which all else follows; it keeps each second tree that it has made, so that a tree is made once. `hss_verify` verifies
//! signatures, and `hss_leaves` tells the leaf numbers in one.
#![tactic(auto)]

mod key;
mod laws;
mod origin;
mod second;
#[cfg(test)]
mod tests;
mod verifier;

pub use key::HssKey;
pub use laws::{hss_lengths_go_by_codes, one_string_a_leaf, what_is_signed_verifies};
pub use verifier::{hss_leaves, hss_verify};
