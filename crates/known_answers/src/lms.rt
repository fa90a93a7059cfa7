// Lines of LMS keys and signatures (RFC 8554), in which LMS and OTS are type codes and Q is a leaf:
// `key LMS OTS ID SEED PUBLIC`, `sig PUBLIC Q MESSAGE SIGNATURE` for a signature that verifies,
// `no PUBLIC MESSAGE SIGNATURE` for one that is refused, and `lms LMS OTS ID SEED Q MESSAGE PUBLIC SIGNATURE`.

use crate::fields::{array_at, bytes_at, end_at, ends_in, number_at};
use crate::memory::given;
use anyhow::{Result, bail, ensure};
use dn_lms::{KeyPair, SigKey, verify};
use std::alloc::Global;

/// The key that the first four fields tell.
fn key_of(alloc: Global, fields: &[&str]) -> Result<KeyPair> {
    let id = array_at(fields, 2)?;
    let seed = array_at(fields, 3)?;
    match KeyPair::make(
        alloc,
        number_at(fields, 0)?,
        number_at(fields, 1)?,
        id,
        seed,
    ) {
        Ok(key) => Ok(key),
        Err(fault) => bail!("no key: {fault:?}"),
    }
}

/// Whether the key's public key is the one of the line.
fn makes(alloc: Global, fields: &[&str]) -> Result<bool> {
    let public = given(key_of(alloc, fields)?.public(alloc))?;
    ends_in(alloc, fields, 4, &public)
}

/// Whether the signature is one at the line's leaf and verifies.
fn accepts(alloc: Global, fields: &[&str]) -> Result<bool> {
    end_at(fields, 4)?;
    let public = bytes_at(alloc, fields, 0)?;
    let q: u32 = number_at(fields, 1)?;
    let message = bytes_at(alloc, fields, 2)?;
    let signature = bytes_at(alloc, fields, 3)?;
    Ok(signature.starts_with(&q.to_be_bytes()) && verify(&public, &message, &signature))
}

/// Whether the signature is refused.
fn refuses(alloc: Global, fields: &[&str]) -> Result<bool> {
    end_at(fields, 3)?;
    let public = bytes_at(alloc, fields, 0)?;
    let message = bytes_at(alloc, fields, 1)?;
    Ok(!verify(&public, &message, &bytes_at(alloc, fields, 2)?))
}

/// Whether the key's public key and its signature are those of the line.
fn signs(alloc: Global, fields: &[&str]) -> Result<bool> {
    let key = key_of(alloc, fields)?;
    let q = number_at(fields, 4)?;
    ensure!(q < key.leaves(), "no leaf {q}");
    let signature = given(key.sign_at(alloc, q, &bytes_at(alloc, fields, 5)?))?;
    let public = given(key.public(alloc))?;
    Ok(
        bytes_at(alloc, fields, 6)?.as_slice() == public.as_slice()
            && ends_in(alloc, fields, 7, &signature)?,
    )
}

/// Whether what the word names comes out as the line says.
pub fn passes(alloc: Global, word: &str, fields: &[&str]) -> Result<bool> {
    match word {
        "key" => makes(alloc, fields),
        "sig" => accepts(alloc, fields),
        "no" => refuses(alloc, fields),
        "lms" => signs(alloc, fields),
        _ => bail!("no such line of signatures: {word}"),
    }
}
