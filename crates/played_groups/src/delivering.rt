ghost use Rattle.std.specs.Prelude.{IfOk};
ghost use Rattle.played_groups.specs.Delivered.{IsDelivered};

use dn_accuse::Judging;
use dn_cert::{Certificate, Opened, open_payload};
use dn_exchange::ServerCore;
use dn_records::{Payload, encode_payload};
use dn_roster::Roster;
use dn_server::{Act, Answer};
use dn_wire::{Bytes, Member};
use played_rounds::PlayFault;
use std::alloc::Global;
use std::thread::Threads;

/// A payload for a server.
#[derive(Drop)]
pub struct Letter {
    pub to: u32,
    pub payload: Bytes,
}

/// Whether these are the same letters, in the same order.
pub fn same_letters(letters: &[Letter], others: &[Letter]) -> bool {
    if letters.len() != others.len() {
        return false;
    }
    for (letter, other) in letters.iter().zip(others) {
        if letter.to != other.to || !letter.payload.equals(&other.payload) {
            return false;
        }
    }
    true
}

/// What a payload carries, in the group of a roster.
pub fn opened(alloc: Global, roster: &Roster, payload: &[u8]) -> Result<Opened, PlayFault>
    ensures { IfOk result (IsDelivered roster.now) }
{
    match open_payload(alloc, roster, payload) {
        Ok(opened) => Ok(opened),
        Err(_) => Err(PlayFault::Unfit),
    }
}

/// What a server answers to a payload that reaches it.
pub fn deliver<R: Threads + Sync>(
    rt: &R,
    alloc: Global,
    core: &mut ServerCore,
    payload: &[u8],
) -> Result<Answer, PlayFault> {
    match opened(alloc, core.roster(), payload)? {
        Opened::Submission { cipher, said } => Ok(core.submitted(&said, &cipher)?),
        Opened::Plain { said } => Ok(core.hear(rt, &Judging, &said)?),
        Opened::Certificate { certificate } => Ok(core.hold(&certificate)?),
        Opened::Challenge { .. } => Err(PlayFault::Unfit),
    }
}

/// The payload of an envelope.
pub fn plain_payload(alloc: Global, envelope: Vec<u8>) -> Result<Bytes, PlayFault> {
    let envelope = Bytes::of(envelope);
    let bytes = encode_payload(alloc, &Payload::Plain { envelope })?;
    Ok(Bytes::of(bytes))
}

/// Appends a letter for each server among these members.
fn put_copies(
    alloc: Global,
    letters: &mut Vec<Letter>,
    to: &[Member],
    payload: &Bytes,
) -> Result<(), PlayFault> {
    for member in to {
        if let Member::Server(j) = member {
            letters.push(Letter {
                to: j.0,
                payload: payload.copy(alloc)?,
            })?;
        }
    }
    Ok(())
}

/// Appends what an answer puts to servers.
pub fn put_letters(
    alloc: Global,
    letters: &mut Vec<Letter>,
    answer: &Answer,
) -> Result<(), PlayFault> {
    let Answer::Acts(acts) = answer else {
        return Ok(());
    };
    for act in acts.get() {
        if let Act::Post { to, payload } = act {
            put_copies(alloc, letters, to.get(), payload)?;
        }
    }
    Ok(())
}

/// The first certificate of an answer.
fn certificate_of(alloc: Global, answer: &Answer) -> Result<Option<Certificate>, PlayFault> {
    let Answer::Acts(acts) = answer else {
        return Ok(None);
    };
    for act in acts.get() {
        if let Act::Certified(certificate) = act {
            return Ok(Some(certificate.copy(alloc)?));
        }
    }
    Ok(None)
}

/// Delivers the letter at a place, if there is one: what the server answers.
fn deliver_at<R: Threads + Sync>(
    rt: &R,
    alloc: Global,
    servers: &mut [ServerCore],
    letters: &[Letter],
    at: usize,
) -> Result<Option<Answer>, PlayFault> {
    let Some(letter) = letters.get(at) else {
        return Ok(None);
    };
    let core = servers.get_mut(letter.to as usize).ok_or(PlayFault::Unfit)?;
    Ok(Some(deliver(rt, alloc, core, letter.payload.get())?))
}

/// Delivers letters in their order, and behind them those that follow, which are appended: the certificates that were made.
pub fn deliver_all<R: Threads + Sync>(
    rt: &R,
    alloc: Global,
    servers: &mut [ServerCore],
    letters: &mut Vec<Letter>,
) -> Result<Vec<Certificate>, PlayFault> {
    let mut certificates = Vec::new(alloc);
    for at in 0..10_000usize {
        let Some(answer) = deliver_at(rt, alloc, servers, letters, at)? else {
            return Ok(certificates);
        };
        put_letters(alloc, letters, &answer)?;
        if let Some(certificate) = certificate_of(alloc, &answer)? {
            certificates.push(certificate)?;
        }
    }
    Err(PlayFault::Unfit)
}
