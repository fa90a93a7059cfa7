// The sum of many pads: what a server adds in a round.

use anyhow::{Result, bail};
use dn_bits::Bits;
use dn_memory::NoMemory;
use dn_pads::{Seed, add_pad};
use dn_wire::Round;
use sha2::{Digest, Sha256};
use std::alloc::Global;

/// The seed with this number in its last eight bytes.
fn seed_of(number: u64) -> Seed {
    let mut seed = [0; 32];
    seed[24..].copy_from_slice(&number.to_be_bytes());
    seed
}

/// Adds the pads of a round for so many seeds.
fn add_round(sum: &mut Bits, clients: u32, r: Round) {
    for i in 0..clients {
        add_pad(sum, &seed_of(u64::from(i)), r);
    }
}

/// The bytes of the sum of the pads of so many seeds in each of so many rounds.
fn sum(
    alloc: Global,
    clients: u32,
    bits: u32,
    rounds: u32,
) -> std::result::Result<Vec<u8>, NoMemory> {
    let mut sum = Bits::zeros(alloc, bits)?;
    for r in 0..rounds {
        add_round(&mut sum, clients, Round(u64::from(r)));
    }
    let mut bytes = Vec::new(alloc);
    sum.write_bytes(alloc, &mut bytes)?;
    Ok(bytes)
}

/// The digest of the sum of the pads of so many seeds in each of so many rounds.
pub fn line(alloc: Global, clients: u32, bits: u32, rounds: u32) -> Result<String> {
    let Ok(bytes) = sum(alloc, clients, bits, rounds) else {
        bail!("no memory");
    };
    Ok(hex::encode(alloc, Sha256::digest(&bytes))?)
}
