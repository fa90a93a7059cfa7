//! Signed statements: the dealing of a group's keys, signers that draw their leaves, and envelopes that unseal to their
//! statement.
//!
//! `deal` makes all keys and seeds of a group from its one seed, as `specs/Dealt.antt` has it. A `Signer` seals
//! statements with its key, each at a leaf of its own; a `SigningKey` does so alone, and keeps what it signed. `unseal` opens an envelope against a roster, and
//! `unseal_known` one whose signature is known to verify; the `Said` that they
//! give keeps that the signature verified, and under which group's digest and which key.
#![tactic(auto)]

mod challenge;
mod dealt;
mod laws;
mod said;
mod signer;
mod signing_key;
#[cfg(test)]
mod tests;
mod unopened;

pub use challenge::Challenge;
pub use dealt::{Dealt, deal};
pub use laws::{
    bytes_say_one_thing, members_have_their_keys, pairs_have_their_seeds, sealed_bytes_unseal,
    statements_fit,
};
pub use said::{Said, unseal, unseal_known};
pub use signer::{SealFault, Signer};
pub use signing_key::SigningKey;
pub use unopened::Unopened;
