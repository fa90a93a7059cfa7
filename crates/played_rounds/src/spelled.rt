// Statements and envelopes, field by field.

use crate::fault::PlayFault;
use crate::playing::{Played, bytes_of, seed, server_of};
use dn_bits::Bits;
use dn_lms::{KeyPair, SigKey};
use dn_pads::pad_bit;
use dn_seal::Dealt;
use dn_wire::{ClientId, ServerId, SignerId, SlotId, put_bytes, put_u8, put_u16, put_u32, put_u64};
use std::alloc::Global;

/// The front of a statement: its kind and its round.
fn front(alloc: Global, kind: u8, played: &Played) -> Result<Vec<u8>, PlayFault> {
    let mut out = Vec::new(alloc);
    put_u8(&mut out, kind)?;
    put_u64(&mut out, played.body.r.0)?;
    Ok(out)
}

fn put_bits(alloc: Global, out: &mut Vec<u8>, bits: &Bits) -> Result<(), PlayFault> {
    put_u32(out, bits.len())?;
    Ok(bits.write_bytes(alloc, out)?)
}

fn put_count(out: &mut Vec<u8>, count: usize) -> Result<(), PlayFault> {
    let count = u32::try_from(count).map_err(|_| PlayFault::Unfit)?;
    Ok(put_u32(out, count)?)
}

pub fn submission(
    alloc: Global,
    played: &Played,
    i: u32,
    digest: [u8; 32],
) -> Result<Vec<u8>, PlayFault> {
    let mut out = front(alloc, 1, played)?;
    put_u64(&mut out, played.body.prev.0)?;
    put_u32(&mut out, i)?;
    put_bytes(&mut out, &digest)?;
    Ok(out)
}

/// A receipt that tells Included, or Late.
pub fn receipt(alloc: Global, played: &Played, i: u32, late: bool) -> Result<Vec<u8>, PlayFault> {
    let mut out = front(alloc, 2, played)?;
    put_u32(&mut out, i)?;
    put_bytes(&mut out, &[1; 32])?;
    put_u8(&mut out, if late { 2 } else { 1 })?;
    Ok(out)
}

/// An inventory of entries: a client, a digest and a signature each.
pub fn inventory(
    alloc: Global,
    played: &Played,
    entries: &[(u32, [u8; 32], Vec<u8>)],
) -> Result<Vec<u8>, PlayFault> {
    let mut out = front(alloc, 3, played)?;
    put_u64(&mut out, played.body.prev.0)?;
    put_count(&mut out, entries.len())?;
    for entry in entries {
        put_u32(&mut out, entry.0)?;
        put_bytes(&mut out, &entry.1)?;
        put_u16(
            &mut out,
            u16::try_from(entry.2.len()).map_err(|_| PlayFault::Unfit)?,
        )?;
        put_bytes(&mut out, &entry.2)?;
    }
    Ok(out)
}

pub fn commit(alloc: Global, played: &Played, digest: [u8; 32]) -> Result<Vec<u8>, PlayFault> {
    let mut out = front(alloc, 4, played)?;
    put_bytes(&mut out, &digest)?;
    Ok(out)
}

pub fn reveal(alloc: Global, played: &Played, s: &Bits) -> Result<Vec<u8>, PlayFault> {
    let mut out = front(alloc, 5, played)?;
    put_bits(alloc, &mut out, s)?;
    Ok(out)
}

/// The Sign of the played body.
pub fn sign(alloc: Global, played: &Played) -> Result<Vec<u8>, PlayFault> {
    let mut out = Vec::new(alloc);
    put_u8(&mut out, 6)?;
    put_u8(&mut out, played.body.version)?;
    put_u64(&mut out, played.body.r.0)?;
    put_u64(&mut out, played.body.prev.0)?;
    put_count(&mut out, played.body.listed.get().len())?;
    for row in played.body.listed.get() {
        put_u32(&mut out, row.client.0)?;
        put_u32(&mut out, row.server.0)?;
        put_bytes(&mut out, &row.digest)?;
    }
    put_count(&mut out, played.body.digests.get().len())?;
    for digest in played.body.digests.get() {
        put_bytes(&mut out, digest)?;
    }
    put_bits(alloc, &mut out, &played.body.out)?;
    Ok(out)
}

/// The pad bits of server j, with those of the clients `framed` turned.
pub fn pad_bits(
    alloc: Global,
    played: &Played,
    j: u32,
    framed: &[u32],
) -> Result<Vec<u8>, PlayFault> {
    let n = played.dealt.roster.clients();
    let mut bits = Bits::zeros(alloc, n)?;
    for i in 0..n {
        let pad = pad_bit(&seed(&played.dealt, i, j)?, played.body.r, played.k);
        if pad != framed.contains(&i) && i < bits.len() {
            bits.flip(i);
        }
    }
    let mut out = front(alloc, 7, played)?;
    put_u32(&mut out, played.k)?;
    put_bits(alloc, &mut out, &bits)?;
    Ok(out)
}

/// What server j shows: its ciphertext, and those of its clients.
pub fn shown(alloc: Global, played: &Played, j: u32) -> Result<Vec<u8>, PlayFault> {
    let mut out = front(alloc, 8, played)?;
    let sum = played.sums.get(j as usize).ok_or(PlayFault::Unfit)?;
    put_bits(alloc, &mut out, sum)?;
    let mut own = Vec::new(alloc);
    for i in 0..played.dealt.roster.clients() {
        if server_of(&played.dealt, i) == j {
            own.push(i)?;
        }
    }
    put_count(&mut out, own.len())?;
    for i in &own {
        put_u32(&mut out, *i)?;
        let cipher = played.ciphers.get(*i as usize).ok_or(PlayFault::Unfit)?;
        put_bits(alloc, &mut out, cipher)?;
    }
    Ok(out)
}

/// A rebuttal of client i against server j, with the true seed and this envelope.
pub fn rebuttal(
    alloc: Global,
    played: &Played,
    i: u32,
    j: u32,
    envelope: &[u8],
) -> Result<Vec<u8>, PlayFault> {
    let mut out = front(alloc, 10, played)?;
    put_u32(&mut out, played.k)?;
    put_u32(&mut out, j)?;
    put_bytes(&mut out, &seed(&played.dealt, i, j)?)?;
    put_count(&mut out, envelope.len())?;
    put_bytes(&mut out, envelope)?;
    Ok(out)
}

pub fn concede(alloc: Global, played: &Played) -> Result<Vec<u8>, PlayFault> {
    let mut out = front(alloc, 11, played)?;
    put_u32(&mut out, played.k)?;
    Ok(out)
}

/// The key of a member.
fn key(dealt: &Dealt, who: SignerId) -> Option<&KeyPair> {
    match who {
        SignerId::Client(ClientId(i)) => dealt.client_keys.get(i as usize),
        SignerId::Server(ServerId(j)) => dealt.server_keys.get(j as usize),
        SignerId::Slot(SlotId(s)) => dealt.slot_keys.get(s as usize),
    }
}

/// The envelope of a statement, which is signed at leaf 0.
pub fn sealed(
    alloc: Global,
    dealt: &Dealt,
    who: SignerId,
    statement: &[u8],
) -> Result<Vec<u8>, PlayFault> {
    let key = key(dealt, who).ok_or(PlayFault::Unfit)?;
    if key.leaves() == 0 || statement.len() > 16_777_216 {
        return Err(PlayFault::Unfit);
    }
    let signed = dealt.roster.signed_bytes(alloc, who, statement)?;
    let signature = key.sign_at(alloc, 0, &signed)?;
    let (tag, number) = match who {
        SignerId::Client(i) => (1, i.0),
        SignerId::Server(j) => (2, j.0),
        SignerId::Slot(s) => (3, s.0),
    };
    let mut out = Vec::new(alloc);
    put_u8(&mut out, tag)?;
    put_u32(&mut out, number)?;
    put_count(&mut out, statement.len())?;
    put_bytes(&mut out, statement)?;
    put_bytes(&mut out, &signature)?;
    Ok(out)
}
