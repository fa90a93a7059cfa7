// A key of LMS, its signatures and their verification.

use anyhow::{Result, bail, ensure};
use dn_lms::{KeyPair, SigKey, verify};
use dn_memory::NoMemory;
use sha2::{Digest, Sha256};
use std::alloc::Global;
use std::rt::Clock;
use std::time::Instant;

/// The key with these type codes of LMS and LM-OTS.
fn key_of(alloc: Global, lms: u32, ots: u32) -> Result<KeyPair> {
    let mut seed = [0; 32];
    seed[31] = 77;
    match KeyPair::make(alloc, lms, ots, [9; 16], seed) {
        Ok(key) => Ok(key),
        Err(fault) => bail!("no key: {fault:?}"),
    }
}

/// So many signatures, the q-th of q's four bytes. The leaves come again where they don't suffice.
fn signatures(
    alloc: Global,
    key: &KeyPair,
    count: u32,
) -> std::result::Result<Vec<Vec<u8>>, NoMemory> {
    let leaves = key.leaves();
    let mut signatures = Vec::new(alloc);
    for q in 0..count {
        if leaves == 0 {
            break;
        }
        signatures.push(key.sign_at(alloc, q % leaves, &q.to_be_bytes())?)?;
    }
    Ok(signatures)
}

/// How many of the signatures verify.
fn verified(public: &[u8], signatures: &[Vec<u8>], count: u32) -> usize {
    signatures
        .iter()
        .zip(0..count)
        .filter(|(signature, q)| verify(public, &q.to_be_bytes(), signature))
        .count()
}

/// Makes a key, then so many signatures, then verifies each. Two lines: the public key with the number of signatures
/// that verify, and the last signature's digest. The seconds that each took, a signature and a verification alone, are
/// written to standard error.
pub fn lines(
    rt: &(impl Clock + Eprint),
    alloc: Global,
    lms: u32,
    ots: u32,
    count: u32,
) -> Result<String> {
    ensure!(count != 0, "no signatures");
    let start = Instant::now(rt)?;
    let key = key_of(alloc, lms, ots)?;
    let make = start.elapsed(rt)?.as_secs_f64();

    let start = Instant::now(rt)?;
    let Ok(signatures) = signatures(alloc, &key, count) else {
        bail!("no memory");
    };
    let sign = start.elapsed(rt)?.as_secs_f64() / f64::from(count);

    let Ok(public) = key.public(alloc) else {
        bail!("no memory");
    };
    let start = Instant::now(rt)?;
    let good = verified(&public, &signatures, count);
    let check = start.elapsed(rt)?.as_secs_f64() / f64::from(count);

    eprintln!(rt; "make {make:.4} sign {sign:.6} verify {check:.6}")?;
    let public = hex::encode(alloc, &public)?;
    let last = signatures.last().map_or(&[][..], |last| last.as_slice());
    let digest = hex::encode(alloc, Sha256::digest(last))?;
    Ok(format!(in alloc; "{public} {good}\n{digest}")?)
}
