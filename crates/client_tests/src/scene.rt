// A group of one client and two servers, and what its servers sign, field by field.
use dn_bits::Bits;
use dn_cert::{Certificate, check};
use dn_client::Client;
use dn_lms::SigKey;
use dn_pads::pad_bit;
use dn_roster::{GroupSpec, pair_seed};
use dn_seal::{Challenge, Dealt, Said, deal, unseal};
use dn_wire::{ClientId, Round, ServerId, SignerId};
use played_rounds::sealed;
use std::alloc::Global;
use std::test::Fail;

/// The client.
pub const ME: ClientId = ClientId(0);

/// One client and two servers, with the shortest keys.
pub const GROUP: GroupSpec = GroupSpec {
    version: 1,
    clients: 1,
    servers: 2,
    ots: 2,
    client_lms: 5,
    server_lms: 5,
    seed: [0; 32],
};

/// What a server shows of the client.
#[derive(Clone, Copy)]
pub enum Shows {
    True,
    False,
    /// No bit at all.
    Nothing,
}

pub fn dealt(alloc: Global) -> Result<Dealt, Fail> {
    Ok(deal(alloc, &GROUP)?)
}

/// The client, which has done nothing yet.
pub fn client(alloc: Global, dealt: &Dealt) -> Result<Client, Fail> {
    if dealt.spec.clients == 0 {
        return Err(Fail::from("no client"));
    }
    Ok(Client::make(alloc, dealt, ME)?)
}

/// Appends a string behind its length.
fn put_bits(alloc: Global, out: &mut Vec<u8>, bits: &Bits) -> Result<(), Fail> {
    out.extend_from_slice(&bits.len().to_be_bytes())?;
    Ok(bits.write_bytes(alloc, out)?)
}

/// The statement that signs the body of round `r` after round `prev`. It lists the client with this digest at server 0, or nobody.
fn statement(
    alloc: Global,
    r: u64,
    prev: u64,
    listed: Option<[u8; 32]>,
    out: &Bits,
) -> Result<Vec<u8>, Fail> {
    let mut bytes = vec![in alloc; 6, 1]?;
    bytes.extend_from_slice(&r.to_be_bytes())?;
    bytes.extend_from_slice(&prev.to_be_bytes())?;
    match listed {
        Some(digest) => {
            bytes.extend_from_slice(&[0, 0, 0, 1, 0, 0, 0, 0, 0, 0, 0, 0])?;
            bytes.extend_from_slice(&digest)?;
        }
        None => bytes.extend_from_slice(&[0; 4])?,
    }
    bytes.extend_from_slice(&[0, 0, 0, 2])?;
    bytes.extend_from_slice(&[6; 64])?;
    put_bits(alloc, &mut bytes, out)?;
    Ok(bytes)
}

/// Appends server j's signature of a statement, behind its length.
fn put_signature(
    alloc: Global,
    dealt: &Dealt,
    j: u32,
    statement: &[u8],
    out: &mut Vec<u8>,
) -> Result<(), Fail> {
    let key = dealt.server_keys.get(j as usize).ok_or("no key")?;
    if key.leaves() == 0 {
        return Err(Fail::from("no leaf"));
    }
    let who = SignerId::Server(ServerId(j));
    let signed = dealt.roster.signed_bytes(alloc, who, statement)?;
    let signature = key.sign_at(alloc, 0, &signed)?;
    let long = u16::try_from(signature.len())?;
    out.extend_from_slice(&long.to_be_bytes())?;
    out.extend_from_slice(&signature)?;
    Ok(())
}

/// The certificate of round `r` after round `prev` with this output. It lists the client with this digest, or nobody.
pub fn certificate(
    alloc: Global,
    dealt: &Dealt,
    r: u64,
    prev: u64,
    listed: Option<[u8; 32]>,
    out: &Bits,
) -> Result<Certificate, Fail> {
    let statement = statement(alloc, r, prev, listed, out)?;
    let body = statement.get(1..).ok_or("no body")?;
    let long = u32::try_from(body.len())?;
    let mut bytes = vec![in alloc; 3]?;
    bytes.extend_from_slice(&long.to_be_bytes())?;
    bytes.extend_from_slice(body)?;
    bytes.extend_from_slice(&[0, 0, 0, 2])?;
    for j in 0..2 {
        put_signature(alloc, dealt, j, &statement, &mut bytes)?;
    }
    Ok(check(alloc, &dealt.roster, &bytes)?)
}

/// The bit of the client's pad with server j.
pub fn true_bit(j: u32, r: u64, k: u32) -> bool {
    pad_bit(&pair_seed(&GROUP, ME, ServerId(j)), Round(r), k)
}

/// What server j says when it opens place k of round r.
fn opening(
    alloc: Global,
    dealt: &Dealt,
    j: u32,
    r: u64,
    k: u32,
    shows: Shows,
) -> Result<Said, Fail> {
    let mut statement = vec![in alloc; 7]?;
    statement.extend_from_slice(&r.to_be_bytes())?;
    statement.extend_from_slice(&k.to_be_bytes())?;
    match (shows, true_bit(j, r, k)) {
        (Shows::True, true) | (Shows::False, false) => {
            statement.extend_from_slice(&[0, 0, 0, 1, 0x80])?
        }
        (Shows::True, false) | (Shows::False, true) => {
            statement.extend_from_slice(&[0, 0, 0, 1, 0])?
        }
        (Shows::Nothing, _) => statement.extend_from_slice(&[0; 4])?,
    }
    let envelope = sealed(alloc, dealt, SignerId::Server(ServerId(j)), &statement)?;
    Ok(unseal(alloc, &dealt.roster, &envelope)?)
}

/// A challenge at place k of round r, in which server j shows what the j-th of these says.
pub fn challenge(
    alloc: Global,
    dealt: &Dealt,
    r: u64,
    k: u32,
    servers: &[Shows],
) -> Result<Challenge, Fail> {
    let mut shown = Vec::new(alloc);
    for (j, shows) in (0..2).zip(servers) {
        shown.push(opening(alloc, dealt, j, r, k, *shows)?)?;
    }
    Ok(Challenge {
        r: Round(r),
        k,
        shown,
    })
}
