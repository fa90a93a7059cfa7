use crate::delivering::{Letter, deliver_all, put_letters};
use crate::members::Members;
use dn_cert::Certificate;
use dn_client::{Client, Submission};
use dn_exchange::ServerCore;
use dn_records::{Payload, encode_payload};
use dn_wire::{Bytes, Round};
use played_rounds::PlayFault;
use std::alloc::Global;
use std::thread::Threads;

/// The payload of what a client submits for round `r`.
pub fn submits(alloc: Global, client: &mut Client, r: u64) -> Result<Bytes, PlayFault> {
    if r == 0 {
        return Err(PlayFault::Unfit);
    }
    let Ok(submission) = client.submission(Round(r)) else {
        return Err(PlayFault::Unfit);
    };
    let Submission { envelope, cipher } = submission;
    if 65_536 < cipher.len() {
        return Err(PlayFault::Unfit);
    }
    let bytes = encode_payload(alloc, &Payload::Submission { cipher, envelope })?;
    Ok(Bytes::of(bytes))
}

/// What all clients submit for round `r`, each to the server with which it is.
pub fn submission_letters(
    alloc: Global,
    members: &mut Members,
    r: u64,
) -> Result<Vec<Letter>, PlayFault> {
    let Ok(servers) = u32::try_from(members.servers.len()) else {
        return Err(PlayFault::Unfit);
    };
    let mut letters = Vec::new(alloc);
    let mut i = 0u32;
    for client in members.clients.iter_mut() {
        let payload = submits(alloc, client, r)?;
        let to = i.checked_rem(servers).unwrap_or(0);
        letters.push(Letter { to, payload })?;
        i = i.saturating_add(1);
    }
    Ok(letters)
}

/// The servers open round `r`.
pub fn open_all(servers: &mut [ServerCore], r: u64) -> Result<(), PlayFault> {
    for core in servers.iter_mut() {
        let _opened = core.open_round(Round(r))?;
    }
    Ok(())
}

/// The windows of all servers close: what they put to each other.
pub fn close_all<R: Threads + Sync>(
    rt: &R,
    alloc: Global,
    servers: &mut [ServerCore],
) -> Result<Vec<Letter>, PlayFault> {
    let mut letters = Vec::new(alloc);
    for core in servers.iter_mut() {
        let answer = core.close(rt)?;
        put_letters(alloc, &mut letters, &answer)?;
    }
    Ok(letters)
}

/// The clients hold a certificate.
fn hold_all(clients: &mut [Client], certificate: &Certificate) -> Result<(), PlayFault> {
    for client in clients.iter_mut() {
        if client.hold(certificate).is_err() {
            return Err(PlayFault::Unfit);
        }
    }
    Ok(())
}

/// Round `r` is played, with these submissions, and each client holds its certificate: all certificates that were made.
pub fn play<R: Threads + Sync>(
    rt: &R,
    alloc: Global,
    members: &mut Members,
    r: u64,
    mut submissions: Vec<Letter>,
) -> Result<Vec<Certificate>, PlayFault> {
    open_all(&mut members.servers, r)?;
    let _none = deliver_all(rt, alloc, &mut members.servers, &mut submissions)?;
    let mut letters = close_all(rt, alloc, &mut members.servers)?;
    let certificates = deliver_all(rt, alloc, &mut members.servers, &mut letters)?;
    if let Some(certificate) = certificates.first() {
        hold_all(&mut members.clients, certificate)?;
    }
    Ok(certificates)
}
