//! Sums of many bit strings: a server's ciphertext, from its pads and the ciphertexts that it holds, and the output of a round, from the
//! servers' ciphertexts. Both are the one sum of `dn_bits`.
#![tactic(auto)]

mod combining;

pub use combining::{combine, server_sum};

#[cfg(test)]
mod tests;
