// Statements that corrupt members make, and those that bytes say.
ghost use Rattle.std.specs.Prelude.{◌≡◌, ◌≤◌, length, IfOk, IfSome};
ghost use Rattle.dn_wire.specs.declared.limits.TheConstants.{MAX_BITS};
ghost use Rattle.dn_bits.specs.Bits.{bytes_of};
ghost use Rattle.dn_hash.specs.Digests.{cipher_digest_of};
ghost use Rattle.dn_puppets.specs.Statements.{IsSignable, IsStatedIn, IsPlainlyStatedIn, turned_at, turned_where};

use dn_bits::Bits;
use dn_hash::cipher_digest;
use dn_memory::NoMemory;
use dn_records::{Payload, RecordFault, Statement, decode_envelope, decode_payload};
use dn_wire::{ClientId, Round, SlotId};
use std::alloc::Global;

/// A copy of a string with bit `k` turned; an equal one where it has no such bit.
pub fn turned(alloc: Global, bits: &Bits, k: u32) -> Result<Bits, NoMemory>
    ensures { IfOk result (λ b. b ≡ turned_at bits.now k) }
{
    let mut copy = bits.copy(alloc)?;
    if k < copy.len() {
        copy.flip(k);
    }
    Ok(copy)
}

/// A string with a bit turned, where one is asked for.
pub fn turned_where(alloc: Global, bits: Bits, at: Option<u32>) -> Result<Bits, NoMemory>
    ensures { IfOk result (λ b. b ≡ turned_where at bits) }
{
    match at {
        Some(k) => turned(alloc, &bits, k),
        None => Ok(bits),
    }
}

/// A client's submission.
fn submission(r: u64, prev: u64, client: u32, digest: [u8; 32]) -> Statement
    ensures value { result ≡ Statement.Submission record { 0 = r } record { 0 = prev } record { 0 = client } digest }
    ensures signable { IsSignable result }
{
    Statement::Submission {
        r: Round(r),
        prev: Round(prev),
        client: ClientId(client),
        digest,
    }
}

/// A server's Reveal.
pub fn reveal(r: u64, s: Bits) -> Statement
    requires { length s ≤ MAX_BITS }
    ensures value { result ≡ Statement.Reveal record { 0 = r } s }
    ensures signable { IsSignable result }
{
    Statement::Reveal { r: Round(r), s }
}

/// A server's bits of place `k`.
pub fn pad_bits(r: u64, k: u32, bits: Bits) -> Statement
    requires { length bits ≤ MAX_BITS }
    ensures value { result ≡ Statement.PadBits record { 0 = r } k bits }
    ensures signable { IsSignable result }
{
    Statement::PadBits {
        r: Round(r),
        k,
        bits,
    }
}

/// The accusation of a slot at place `k`.
pub fn accusation(r: u64, slot: u32, k: u32) -> Statement
    ensures value { result ≡ Statement.Accusation record { 0 = r } record { 0 = slot } k }
    ensures signable { IsSignable result }
{
    Statement::Accusation {
        r: Round(r),
        slot: SlotId(slot),
        k,
    }
}

/// The concession of place `k`.
pub fn concession(r: u64, k: u32) -> Statement
    ensures value { result ≡ Statement.Concede record { 0 = r } k }
    ensures signable { IsSignable result }
{
    Statement::Concede { r: Round(r), k }
}

/// The digest of a client's ciphertext of round `r`.
fn digest_of(alloc: Global, r: Round, client: ClientId, cipher: &Bits) -> Result<[u8; 32], NoMemory>
    ensures { IfOk result (λ digest. digest ≡ cipher_digest_of r.0 client.0 (bytes_of cipher.now)) }
{
    let mut bytes = Vec::new(alloc);
    cipher.write_bytes(alloc, &mut bytes)?;
    Ok(cipher_digest(r.0, client.0, &bytes))
}

/// The statement that says that a client's ciphertext of round `r` after round `prev` is this one.
pub fn submission_of(
    alloc: Global,
    r: Round,
    prev: Round,
    client: ClientId,
    cipher: &Bits,
) -> Result<Statement, NoMemory>
    ensures value { IfOk result (λ s. s ≡ Statement.Submission r prev client (cipher_digest_of r.0 client.0 (bytes_of cipher.now))) }
    ensures signable { IfOk result IsSignable }
{
    let digest = digest_of(alloc, r, client, cipher)?;
    Ok(submission(r.0, prev.0, client.0, digest))
}

/// The statement of an envelope; nothing where the bytes are none.
pub fn stated(alloc: Global, envelope: &[u8]) -> Result<Option<Statement>, NoMemory>
    ensures { IfOk result (λ s. IfSome s (IsStatedIn envelope.now)) }
{
    match decode_envelope(alloc, envelope) {
        Ok(envelope) => Ok(Some(envelope.statement)),
        Err(RecordFault::NoMemory) => Err(NoMemory),
        Err(_) => Ok(None),
    }
}

/// The statement of the envelope in a plain payload; nothing in other payloads.
pub fn plainly_stated(alloc: Global, payload: &[u8]) -> Result<Option<Statement>, NoMemory>
    ensures { IfOk result (λ s. IfSome s (IsPlainlyStatedIn payload.now)) }
{
    match decode_payload(alloc, payload) {
        Ok(Payload::Plain { envelope }) => stated(alloc, envelope.get()),
        Ok(_) => Ok(None),
        Err(RecordFault::NoMemory) => Err(NoMemory),
        Err(_) => Ok(None),
    }
}
