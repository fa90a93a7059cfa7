// What servers show.
ghost use Rattle.std.specs.Prelude.{◌≡◌, ◌<◌, ◌↔◌, ◌&&◌, List, Bool, map, length, find, slice_get, Some, IfOk, IsTrue};
ghost use Rattle.dn_hash.specs.Digests.{server_digest_of};
ghost use Rattle.std.specs.Option.{option_copied};
ghost use Rattle.dn_bits.specs.Bits.{bytes_of};
ghost use Rattle.dn_trace.specs.Reasons.{IsRight, ShowsWrong, row_of, is_server, is_shown};
ghost use Rattle.dn_layout.specs.Layout.{bits_of};
ghost use Rattle.dn_trace.specs.Evidence.{SaysWrong, AreListed};
ghost use Rattle.dn_trace.specs.Trial.{round_of, servers_of};

use crate::case::Case;
use crate::seeing::{is_server, is_shown};
use dn_bits::Bits;
use dn_hash::{cipher_digest, server_digest};
use dn_memory::NoMemory;
use dn_records::{Listed, ShownCipher, Statement};
use dn_seal::Said;
use dn_wire::ServerId;
use std::alloc::Global;

/// The bytes of a string.
pub fn bytes_of(alloc: Global, bits: &Bits) -> Result<Vec<u8>, NoMemory>
    ensures { IfOk result (λ v. v.items ≡ bytes_of bits.now) }
{
    let mut bytes = Vec::new(alloc);
    bits.write_bytes(alloc, &mut bytes)?;
    Ok(bytes)
}

/// Whether a ciphertext is the one that the body lists in this row.
fn is_listed(
    alloc: Global,
    case: &Case,
    row: &Listed,
    shown: &ShownCipher,
) -> Result<bool, NoMemory>
    ensures { IfOk result (λ b. IsTrue b ↔ ((row_of (round_of case.now) row.now.server.0 shown.now ≡ row.now) × (length shown.now.cipher ≡ bits_of case.now.layout))) }
{
    if shown.client != row.client || shown.cipher.len() != case.bits() {
        return Ok(false);
    }
    let bytes = bytes_of(alloc, &shown.cipher)?;
    Ok(cipher_digest(case.round().0, row.client.0, &bytes) == row.digest)
}

/// Whether the clients shown are exactly those that the body gives to the server, with ciphertexts as the body lists them.
fn are_listed(
    alloc: Global,
    case: &Case,
    j: ServerId,
    shown: &[ShownCipher],
) -> Result<bool, NoMemory>
    ensures { IfOk result (λ b. IsTrue b ↔ AreListed case.now j.0 shown.now) }
{
    let mut at = 0;
    for row in case.body().listed.get() {
        if row.server != j {
            continue;
        }
        if at == shown.len() || !is_listed(alloc, case, row, &shown[at])? {
            return Ok(false);
        }
        at += 1;
    }
    Ok(at == shown.len())
}

/// Whether the body has the digest of these bytes for the server.
fn has_digest(case: &Case, j: ServerId, bytes: &[u8]) -> bool
    requires { j.0 < servers_of case.now }
    ensures { IsTrue result ↔ (slice_get case.now.body.digests j.0 ≡ Some (server_digest_of (round_of case.now).0 j.0 bytes.now)) }
{
    let body = case.body();
    server_digest(case.round().0, j.0, bytes) == body.digests.get()[j.0 as usize]
}

/// Whether what the server shows is right.
fn is_right(
    alloc: Global,
    case: &Case,
    j: ServerId,
    s: &Bits,
    shown: &[ShownCipher],
) -> Result<bool, NoMemory>
    requires { j.0 < servers_of case.now }
    ensures { IfOk result (λ b. IsTrue b ↔ IsRight case.now j.0 s.now shown.now) }
{
    if s.len() != case.bits() {
        return Ok(false);
    }
    let bytes = bytes_of(alloc, s)?;
    if !has_digest(case, j, &bytes) {
        return Ok(false);
    }
    are_listed(alloc, case, j, shown)
}

/// Whether the server shows wrong in this.
fn says_wrong(alloc: Global, case: &Case, j: ServerId, said: &Said) -> Result<bool, NoMemory>
    requires { j.0 < servers_of case.now }
    ensures { IfOk result (λ b. IsTrue b ↔ SaysWrong case.now j.0 said.now) }
{
    if !is_server(j, said.signer()) {
        return Ok(false);
    }
    match said.statement() {
        Statement::Shown { r, s, shown } if *r == case.round() => {
            Ok(!is_right(alloc, case, j, s, shown.get())?)
        }
        _ => Ok(false),
    }
}

/// Whether the server shows wrong anywhere.
pub fn shows_wrong(alloc: Global, case: &Case, j: ServerId) -> Result<bool, NoMemory>
    requires { j.0 < servers_of case.now }
    ensures { IfOk result (λ b. IsTrue b ↔ ShowsWrong case.now j.0) }
{
    for said in case.given() {
        if says_wrong(alloc, case, j, said)? {
            return Ok(true);
        }
    }
    Ok(false)
}

/// The first that the server shows.
pub fn first_shown<'a>(case: &Case<'a>, j: ServerId) -> Option<&'a Said>
    ensures { option_copied result ≡ find (λ x. is_server j.0 x.signer && is_shown (round_of case.now) x.statement) case.now.given }
{
    let r = case.round();
    case.given().iter().find(|said| is_server(j, said.signer()) && is_shown(r, said.statement()))
}
