//! Pads: the bits that both members of a pair add, from the seed that they share.
//!
//! The pad of a pair in a round is the front of the ChaCha20 keystream (RFC 8439, with a stream number of 64 bits in
//! place of the nonce) with the pair's seed as its key and the round's number as its stream, from the stream's start
//! on. The words of the keystream are little-endian, and a byte's highest bit comes first.
#![tactic(auto)]

mod keystream;
mod laws;
mod pads;

pub use keystream::Seed;
pub use laws::pad_laws;
pub use pads::{add_pad, pad, pad_bit};
