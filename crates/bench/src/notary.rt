// The notary of a list of entries, beside the trees and signatures that it takes.

use anyhow::{Result, bail};
use dn_io::{Status, SureSink, SureSource};
use dn_lines::put_hex;
use dn_lms::{KeyPair, SigKey};
use dn_memory::NoMemory;
use dn_notary::notary;
use sha2::{Digest, Sha256};
use std::alloc::Global;
use std::rt::Clock;
use std::time::Instant;

/// The bytes that go in and out in a call.
const PIECE: usize = 65_536;

/// A list of so many entries, the digests of their numbers.
fn list_of(alloc: Global, count: u32) -> std::result::Result<Vec<u8>, NoMemory> {
    let mut list = Vec::new(alloc);
    for q in 0..count {
        list.extend_from_slice(b"entry ")?;
        put_hex(&mut list, &Sha256::digest(&q.to_be_bytes()))?;
        list.extend_from_slice(b"\n")?;
    }
    list.extend_from_slice(b"end\n")?;
    Ok(list)
}

/// The tree of this number, of the codes of the notary's key.
fn tree(alloc: Global, number: u32) -> Result<KeyPair> {
    let mut seed = [0; 32];
    seed[28..].copy_from_slice(&number.to_be_bytes());
    match KeyPair::make(alloc, 5, 3, [9; 16], seed) {
        Ok(tree) => Ok(tree),
        Err(fault) => bail!("no tree: {fault:?}"),
    }
}

/// Makes a tree for each 32 signatures and one more, and two signatures for each; how many bytes they have.
fn trees_and_signatures(alloc: Global, count: u32) -> Result<usize> {
    let mut bytes = 0usize;
    for number in 0..count / 32 {
        let tree = tree(alloc, number)?;
        let leaves = tree.leaves();
        for q in 0..64u32 {
            if leaves == 0 {
                break;
            }
            let Ok(signature) = tree.sign_at(alloc, q % leaves, &q.to_be_bytes()) else {
                bail!("no memory");
            };
            bytes = bytes.wrapping_add(signature.len());
        }
    }
    let last = tree(alloc, count)?;
    Ok(bytes.wrapping_add(last.leaves() as usize))
}

/// Signs a list of so many entries, and then makes as many trees and signatures as that takes. One line: the digest of what was written.
/// The seconds of both are written to standard error.
pub fn line(rt: &(impl Clock + Eprint), alloc: Global, num: u64, count: u32) -> Result<String> {
    let Ok(list) = list_of(alloc, count) else {
        bail!("no memory");
    };
    let mut input = SureSource::make(list, PIECE);
    let Ok(mut output) = SureSink::make(alloc, PIECE) else {
        bail!("no memory");
    };
    let start = Instant::now(rt)?;
    let status = notary(alloc, num, &mut input, &mut output);
    let notary = start.elapsed(rt)?.as_secs_f64();
    if status != Status::Ok {
        bail!("not signed: {status}");
    }
    let start = Instant::now(rt)?;
    let bytes = trees_and_signatures(alloc, count)?;
    let parts = start.elapsed(rt)?.as_secs_f64();
    eprintln!(rt; "notary {notary:.4} parts {parts:.4}")?;
    let digest = hex::encode(alloc, Sha256::digest(output.bytes()))?;
    Ok(format!(in alloc; "{digest} {bytes}")?)
}
