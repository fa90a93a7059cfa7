// What payloads of each kind open to, in a dealt group of three clients and two servers.
use crate::opened::Opened;
use crate::opening::open_payload;
use crate::payload_fault::PayloadFault;
use crate::tests::{EIGHT, first, group, payload, signature, statement};
use dn_seal::Dealt;
use dn_wire::{ClientId, SignerId};
use std::alloc::Global;
use std::test::Fail;

/// A submission: its kind is 1, and so is each byte of its fields.
const SUBMISSION: &[u8] = &[1; 53];

/// A concession: its kind, a round and a place.
const CONCESSION: &[u8] = &[11, 0, 0, 0, 0, 0, 0, 0, 1, 0, 0, 0, 0];

/// What stands before the envelope of a plain payload, of a ciphertext without bits, and of the one envelope of a challenge.
const PLAIN: &[u8] = &[2];

const CIPHER: &[u8] = &[1, 0, 0, 0, 0];

const CHALLENGE: &[u8] = &[4, 0, 0, 0, 0, 0, 0, 0, 1, 0, 0, 0, 0, 0, 0, 0, 1];

/// The envelope of a statement that client 0 signs, and that names client `who`.
fn envelope(alloc: Global, dealt: &Dealt, statement: &[u8], who: u32) -> Result<Vec<u8>, Fail> {
    let key = dealt.client_keys.get(0).ok_or("no key")?;
    let signer = SignerId::Client(ClientId(0));
    let signed = signature(alloc, &dealt.roster, signer, key, statement)?;
    let long = u32::try_from(statement.len())
        .ok()
        .ok_or("a long statement")?;
    let mut bytes = vec![in alloc; 1]?;
    bytes.extend_from_slice(&who.to_be_bytes())?;
    bytes.extend_from_slice(&long.to_be_bytes())?;
    bytes.extend_from_slice(statement)?;
    bytes.extend_from_slice(&signed)?;
    Ok(bytes)
}

/// The tag of what the bytes open to, or why they don't.
fn opened(alloc: Global, dealt: &Dealt, bytes: &[u8]) -> Result<u8, PayloadFault> {
    match open_payload(alloc, &dealt.roster, bytes)? {
        Opened::Submission { .. } => Ok(1),
        Opened::Plain { .. } => Ok(2),
        Opened::Certificate { .. } => Ok(3),
        Opened::Challenge { .. } => Ok(4),
    }
}

/// What a front and an envelope open to.
fn with_envelope(
    alloc: Global,
    dealt: &Dealt,
    front: &[u8],
    envelope: &[u8],
) -> Result<Result<u8, PayloadFault>, Fail> {
    let mut bytes = Vec::from_slice(alloc, front)?;
    bytes.extend_from_slice(envelope)?;
    Ok(opened(alloc, dealt, &bytes))
}

#[test]
fn payloads_open_whole(rt: HostRuntime) -> Result<(), Fail> {
    let alloc = rt.alloc();
    let dealt = group(alloc, 1)?;
    let concession = envelope(alloc, &dealt, CONCESSION, 0)?;
    let submission = envelope(alloc, &dealt, SUBMISSION, 0)?;
    let mut shown = Vec::from_slice(alloc, CHALLENGE)?;
    let long = u32::try_from(concession.len())
        .ok()
        .ok_or("a long envelope")?;
    shown.extend_from_slice(&long.to_be_bytes())?;
    let statement = statement(alloc, first(1, 0, EIGHT))?;
    let certificate = payload(alloc, &dealt, &statement, 2)?;
    let opened = [
        with_envelope(alloc, &dealt, CIPHER, &submission)?,
        with_envelope(alloc, &dealt, PLAIN, &concession)?,
        opened(alloc, &dealt, &certificate),
        with_envelope(alloc, &dealt, &shown, &concession)?,
    ];
    assert_eq!(rt; opened, [Ok(1), Ok(2), Ok(3), Ok(4)]);
    Ok(())
}

#[test]
fn payloads_are_refused_by_their_first_fault(rt: HostRuntime) -> Result<(), Fail> {
    let alloc = rt.alloc();
    let dealt = group(alloc, 1)?;
    let concession = envelope(alloc, &dealt, CONCESSION, 0)?;
    let stranger = envelope(alloc, &dealt, CONCESSION, 3)?;
    let of_another = envelope(alloc, &dealt, CONCESSION, 1)?;
    let statement = statement(alloc, first(1, 0, EIGHT))?;
    let refused = [
        opened(alloc, &dealt, &[]),
        with_envelope(alloc, &dealt, CIPHER, &concession)?,
        opened(alloc, &dealt, &payload(alloc, &dealt, &statement, 1)?),
        with_envelope(alloc, &dealt, CIPHER, &stranger)?,
        with_envelope(alloc, &dealt, PLAIN, &of_another)?,
    ];
    let wanted = [
        Err(PayloadFault::Form),
        Err(PayloadFault::Form),
        Err(PayloadFault::Form),
        Err(PayloadFault::Stranger),
        Err(PayloadFault::Signature),
    ];
    assert_eq!(rt; refused, wanted);
    Ok(())
}
