//! LM-OTS, the one-time signatures of RFC 8554 section 4, with SHA-256 and 32 bytes, for the type
//! codes 1 to 4. A private key is derived from a seed (Appendix A): a key is its type code, its
//! identifier I of 16 bytes, the number q of its leaf and the seed. Contracts see keys and
//! signatures as lists of bytes.
#![tactic(auto)]

mod block;
mod candidates;
mod digits;
mod four;
mod hashers;
mod parameters;
mod public_keys;
mod signatures;
#[cfg(test)]
mod tests;

pub use candidates::candidate;
pub use parameters::{Params, UnknownType};
pub use public_keys::{ots_public, ots_public_four};
pub use signatures::{append_signature, ots_sign};
