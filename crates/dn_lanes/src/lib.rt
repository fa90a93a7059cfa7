//! SHA-256 (FIPS 180-4) of four messages side by side, one in each lane of a vector of words. A
//! message has 55 bytes, the most that one block holds.
#![tactic(auto)]

mod compression;
mod digest;
mod functions;
mod rounds;
mod vectors;

pub use digest::digest4;
