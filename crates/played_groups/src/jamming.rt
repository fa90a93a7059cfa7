// Round 2 of a group, in which client 1 jams the slot of client 0.
use crate::delivering::{Letter, plain_payload};
use crate::playing::submits;
use dn_bits::Bits;
use dn_client::{Client, Submission};
use dn_hash::cipher_digest;
use dn_records::{Payload, encode_payload};
use dn_seal::Dealt;
use dn_wire::{Bytes, ClientId, Round, SignerId, put_bytes, put_u8, put_u32, put_u64};
use played_rounds::{PlayFault, sealed};
use std::alloc::Global;

/// The client that jams.
const JAMMER: u32 = 1;

/// The statement of a submission of round 2 after round 1, by its bytes.
fn submission_bytes(alloc: Global, i: u32, digest: &[u8; 32]) -> Result<Vec<u8>, PlayFault> {
    let mut bytes = Vec::new(alloc);
    put_u8(&mut bytes, 1)?;
    put_u64(&mut bytes, 2)?;
    put_u64(&mut bytes, 1)?;
    put_u32(&mut bytes, i)?;
    put_bytes(&mut bytes, digest)?;
    Ok(bytes)
}

/// The digest of a client's ciphertext of round 2.
fn digest_of(alloc: Global, i: u32, cipher: &Bits) -> Result<[u8; 32], PlayFault> {
    let mut bytes = Vec::new(alloc);
    cipher.write_bytes(alloc, &mut bytes)?;
    Ok(cipher_digest(2, i, &bytes))
}

/// The payload of the jammer's submission of this ciphertext for round 2.
fn jammed_payload(alloc: Global, dealt: &Dealt, cipher: Bits) -> Result<Bytes, PlayFault> {
    if 65_536 < cipher.len() {
        return Err(PlayFault::Unfit);
    }
    let digest = digest_of(alloc, JAMMER, &cipher)?;
    let statement = submission_bytes(alloc, JAMMER, &digest)?;
    let envelope = sealed(alloc, dealt, SignerId::Client(ClientId(JAMMER)), &statement)?;
    let envelope = Bytes::of(envelope);
    let bytes = encode_payload(alloc, &Payload::Submission { cipher, envelope })?;
    Ok(Bytes::of(bytes))
}

/// What the jammer submits for round 2: its ciphertext with the bit at place `k` turned.
fn jams(alloc: Global, dealt: &Dealt, jammer: &mut Client, k: u32) -> Result<Bytes, PlayFault> {
    let Ok(submission) = jammer.submission(Round(2)) else {
        return Err(PlayFault::Unfit);
    };
    let Submission { cipher, .. } = submission;
    let mut cipher = cipher;
    if cipher.len() <= k {
        return Err(PlayFault::Unfit);
    }
    cipher.flip(k);
    jammed_payload(alloc, dealt, cipher)
}

/// The first place of the talker's slot in round 2 at which it sends a 0.
fn silent_place(talker: &Client) -> Option<u32> {
    let (first, past) = talker.slot_range(Round(2))?;
    let plain = talker.plain(Round(2))?;
    for k in first..past {
        if !plain.get_or_zero(k) {
            return Some(k);
        }
    }
    None
}

/// The submissions of round 2 of both clients, of which the second jams the slot of the first.
pub fn jammed_letters(
    alloc: Global,
    dealt: &Dealt,
    clients: &mut [Client],
) -> Result<Vec<Letter>, PlayFault> {
    let mut letters = Vec::new(alloc);
    let talker = clients.get_mut(0).ok_or(PlayFault::Unfit)?;
    let payload = submits(alloc, talker, 2)?;
    letters.push(Letter { to: 0, payload })?;
    let k = silent_place(talker).ok_or(PlayFault::Unfit)?;
    let jammer = clients.get_mut(JAMMER as usize).ok_or(PlayFault::Unfit)?;
    let payload = jams(alloc, dealt, jammer, k)?;
    letters.push(Letter { to: 1, payload })?;
    Ok(letters)
}

/// A client's accusation at the first place that was jammed in round 2, as a payload.
pub fn accusation(alloc: Global, talker: &mut Client) -> Result<Bytes, PlayFault> {
    let k = talker.first_jammed(Round(2)).ok_or(PlayFault::Unfit)?;
    let Ok(envelope) = talker.accuse(Round(2), k) else {
        return Err(PlayFault::Unfit);
    };
    plain_payload(alloc, envelope)
}
