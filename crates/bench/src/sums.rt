// A server's sum by several workers.
ghost use Rattle.std.specs.Prelude.{◌≤◌};

use anyhow::{Context, Result, bail, ensure};
use dn_bits::Bits;
use dn_combine::server_sum;
use dn_memory::NoMemory;
use dn_pads::Seed;
use dn_wire::Round;
use sha2::{Digest, Sha256};
use std::alloc::Global;
use std::rt::Clock;
use std::thread::Threads;
use std::time::Instant;

/// So many seeds, each with its number in its last eight bytes.
fn seeds(alloc: Global, count: u32) -> std::result::Result<Vec<Seed>, NoMemory> {
    let mut seeds = Vec::new(alloc);
    for number in 0..count {
        let mut seed = [0; 32];
        seed[24..].copy_from_slice(&u64::from(number).to_be_bytes());
        seeds.push(seed)?;
    }
    Ok(seeds)
}

/// The bytes of a sum.
fn bytes_of(alloc: Global, bits: &Bits) -> std::result::Result<Vec<u8>, NoMemory> {
    let mut bytes = Vec::new(alloc);
    bits.write_bytes(alloc, &mut bytes)?;
    Ok(bytes)
}

/// The sum of the pads of so many seeds, `bits` of each, by so many workers, again in each of so many rounds. The line has the digest of
/// the last sum. The seconds of one sum, the least of all, are written to standard error.
pub fn line<R: Threads + Clock + Eprint + Sync>(
    rt: &R,
    alloc: Global,
    count: u32,
    bits: u32,
    workers: u32,
    rounds: u32,
) -> Result<String> {
    ensure!(1 <= workers && workers <= 16, "1 to 16 workers");
    let Ok(seeds) = seeds(alloc, count) else {
        bail!("no memory");
    };
    let mut least = f64::INFINITY;
    let mut digest = None;
    for r in 0..rounds {
        let start = Instant::now(rt)?;
        let Ok(sum) = server_sum(rt, alloc, &seeds, Round(u64::from(r)), bits, &[], workers) else {
            bail!("no memory");
        };
        least = least.min(start.elapsed(rt)?.as_secs_f64());
        let Ok(bytes) = bytes_of(alloc, &sum) else {
            bail!("no memory");
        };
        digest = Some(Sha256::digest(&bytes));
    }
    eprintln!(rt; "sum {least:.6}")?;
    Ok(hex::encode(alloc, digest.context("no rounds")?)?)
}
