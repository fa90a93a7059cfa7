// Certificates, entries and chains of dealt groups of three clients and two servers.
ghost use Rattle.std.specs.Prelude.{◌≤◌};

use crate::certificate::Certificate;
use crate::chain::Chain;
use crate::checking::check;
use crate::entry::entry_verifies;
use crate::fault::CertFault;
use crate::floor::is_due_thin;
use crate::hold_fault::HoldFault;
use dn_lms::{KeyPair, SigKey};
use dn_records::{Entry, RecordFault};
use dn_roster::{GroupSpec, Roster};
use dn_seal::{Dealt, deal};
use dn_wire::{Bytes, ClientId, Round, ServerId, SignerId};
use std::alloc::Global;
use std::test::Fail;

/// No output, eight zeros, nine zeros, and eight bits of which the first asks for slot 0.
const NONE: &[u8] = &[0, 0, 0, 0];

pub const EIGHT: &[u8] = &[0, 0, 0, 8, 0];

const NINE: &[u8] = &[0, 0, 0, 9, 0, 0];

const ASKED: &[u8] = &[0, 0, 0, 8, 0x80];

/// What a body of round `r` after round `prev` is made of: it lists client 2 and, where `listed` is more, those before it, all at server
/// 1, and has so many digests. Where `thin` is `None` it is of version 1.
#[derive(Clone, Copy)]
pub struct Outcome {
    r: u64,
    prev: u64,
    thin: Option<bool>,
    listed: u32,
    digests: u32,
    out: &'static [u8],
}

/// A body of version 1 with one client.
pub const fn first(r: u64, prev: u64, out: &'static [u8]) -> Outcome {
    Outcome {
        r,
        prev,
        thin: None,
        listed: 1,
        digests: 2,
        out,
    }
}

/// A body of version 2 with so many clients and an output.
const fn second(r: u64, prev: u64, listed: u32, out: &'static [u8]) -> Outcome {
    Outcome {
        r,
        prev,
        thin: Some(false),
        listed,
        digests: 2,
        out,
    }
}

/// A thin body with so many clients.
const fn thin(r: u64, prev: u64, listed: u32) -> Outcome {
    Outcome {
        r,
        prev,
        thin: Some(true),
        listed,
        digests: 0,
        out: NONE,
    }
}

pub fn group(alloc: Global, version: u8) -> Result<Dealt, Fail>
    requires { (1 ≤ version) × (version ≤ 2) }
{
    let spec = GroupSpec {
        version,
        clients: 3,
        servers: 2,
        ots: 2,
        client_lms: 5,
        server_lms: 5,
        seed: [9; 32],
    };
    Ok(deal(alloc, &spec)?)
}

/// The key's first signature of a statement of `who`.
pub fn signature(
    alloc: Global,
    roster: &Roster,
    who: SignerId,
    key: &KeyPair,
    statement: &[u8],
) -> Result<Vec<u8>, Fail> {
    if key.leaves() == 0 {
        return Err(Fail::from("no leaf"));
    }
    let signed = roster.signed_bytes(alloc, who, statement)?;
    Ok(key.sign_at(alloc, 0, &signed)?)
}

/// Appends what a statement that signs the body has before the list.
fn put_front(out: &mut Vec<u8>, body: Outcome) -> Result<(), Fail> {
    out.extend_from_slice(&[6, if body.thin.is_some() { 2 } else { 1 }])?;
    out.extend_from_slice(&body.r.to_be_bytes())?;
    out.extend_from_slice(&body.prev.to_be_bytes())?;
    if let Some(thin) = body.thin {
        out.push(u8::from(thin))?;
    }
    Ok(())
}

/// The bytes of a server's statement that signs the body.
pub fn statement(alloc: Global, body: Outcome) -> Result<Vec<u8>, Fail> {
    let mut bytes = Vec::new(alloc);
    put_front(&mut bytes, body)?;
    let listed = body.listed.min(3);
    bytes.extend_from_slice(&listed.to_be_bytes())?;
    for client in 3 - listed..3 {
        bytes.extend_from_slice(&client.to_be_bytes())?;
        bytes.extend_from_slice(&[0, 0, 0, 1])?;
        bytes.extend_from_slice(&[5; 32])?;
    }
    bytes.extend_from_slice(&body.digests.to_be_bytes())?;
    for _ in 0..body.digests {
        bytes.extend_from_slice(&[6; 32])?;
    }
    bytes.extend_from_slice(body.out)?;
    Ok(bytes)
}

/// Appends server j's signature of the statement, behind its length.
fn put_signature(
    alloc: Global,
    dealt: &Dealt,
    j: u32,
    statement: &[u8],
    out: &mut Vec<u8>,
) -> Result<(), Fail> {
    let key = dealt.server_keys.get(j as usize).ok_or("no key")?;
    let who = SignerId::Server(ServerId(j));
    let signed = signature(alloc, &dealt.roster, who, key, statement)?;
    let long = u16::try_from(signed.len()).ok().ok_or("a long signature")?;
    out.extend_from_slice(&long.to_be_bytes())?;
    out.extend_from_slice(&signed)?;
    Ok(())
}

/// The payload of the statement's body with the signatures of the first servers.
pub fn payload(
    alloc: Global,
    dealt: &Dealt,
    statement: &[u8],
    servers: u32,
) -> Result<Vec<u8>, Fail> {
    let body = statement.get(1..).ok_or("no body")?;
    let long = u32::try_from(body.len()).ok().ok_or("a long body")?;
    let mut bytes = vec![in alloc; 3]?;
    bytes.extend_from_slice(&long.to_be_bytes())?;
    bytes.extend_from_slice(body)?;
    bytes.extend_from_slice(&servers.to_be_bytes())?;
    for j in 0..servers {
        put_signature(alloc, dealt, j, statement, &mut bytes)?;
    }
    Ok(bytes)
}

/// What `check` answers to the payload of a body with so many signatures, its last byte turned by `turn`.
fn refusal(
    alloc: Global,
    dealt: &Dealt,
    body: Outcome,
    servers: u32,
    turn: u8,
) -> Result<Option<CertFault>, Fail> {
    let statement = statement(alloc, body)?;
    let mut bytes = payload(alloc, dealt, &statement, servers)?;
    if let Some(last) = bytes.last_mut() {
        *last ^= turn;
    }
    Ok(check(alloc, &dealt.roster, &bytes).err())
}

/// The certificate of a body.
fn certificate(alloc: Global, dealt: &Dealt, body: Outcome) -> Result<Certificate, Fail> {
    let statement = statement(alloc, body)?;
    let bytes = payload(alloc, dealt, &statement, 2)?;
    let certificate = check(alloc, &dealt.roster, &bytes)?;
    if certificate.bytes() != bytes.as_slice() {
        return Err(Fail::from("other bytes"));
    }
    Ok(certificate)
}

#[test]
fn what_every_server_signed_is_accepted(rt: HostRuntime) -> Result<(), Fail> {
    let alloc = rt.alloc();
    let dealt = group(alloc, 1)?;
    let accepted = [
        refusal(alloc, &dealt, first(1, 0, EIGHT), 2, 0)?,
        refusal(alloc, &dealt, first(1, 0, EIGHT), 2, 1)?,
        refusal(alloc, &dealt, first(1, 0, EIGHT), 1, 0)?,
        refusal(alloc, &dealt, first(1, 1, EIGHT), 2, 0)?,
        check(alloc, &dealt.roster, &[]).err(),
        check(alloc, &dealt.roster, &[1, 0, 0, 0, 0]).err(),
    ];
    let wanted = [
        None,
        Some(CertFault::Signature {
            server: ServerId(1),
        }),
        Some(CertFault::Missing {
            server: ServerId(1),
        }),
        Some(CertFault::Body {
            server: ServerId(0),
        }),
        Some(CertFault::Form(RecordFault::Cut { at: 0 })),
        Some(CertFault::Form(RecordFault::Kind { byte: 1 })),
    ];
    assert_eq!(rt; accepted, wanted);
    Ok(())
}

/// What `check` answers to the payload of a body that both servers signed.
fn answer(alloc: Global, dealt: &Dealt, body: Outcome) -> Result<Option<CertFault>, Fail> {
    refusal(alloc, dealt, body, 2, 0)
}

#[test]
fn bodies_of_version_2(rt: HostRuntime) -> Result<(), Fail> {
    let alloc = rt.alloc();
    let dealt = group(alloc, 2)?;
    let full = Outcome {
        digests: 2,
        ..thin(1, 0, 1)
    };
    let accepted = [
        answer(alloc, &dealt, first(1, 0, EIGHT))?,
        answer(alloc, &dealt, second(1, 0, 1, EIGHT))?,
        answer(alloc, &dealt, thin(1, 0, 1))?,
        answer(alloc, &dealt, full)?,
    ];
    let body = Some(CertFault::Body {
        server: ServerId(0),
    });
    assert_eq!(rt; accepted, [body, None, None, body]);
    Ok(())
}

#[test]
fn version_1_has_bodies_of_its_own(rt: HostRuntime) -> Result<(), Fail> {
    let alloc = rt.alloc();
    let dealt = group(alloc, 1)?;
    let fault = answer(alloc, &dealt, second(1, 0, 1, EIGHT))?;
    let server = ServerId(0);
    assert_eq!(rt; fault, Some(CertFault::Body { server }));
    Ok(())
}

/// What `hold` answers to the certificate of a body.
fn held(
    alloc: Global,
    dealt: &Dealt,
    chain: &mut Chain,
    body: Outcome,
) -> Result<Option<HoldFault>, Fail> {
    let c = certificate(alloc, dealt, body)?.copy(alloc)?;
    Ok(chain.hold(alloc, c).err())
}

/// The chain of round 1, and what `hold` answered on the way.
fn chain_of_one(alloc: Global, dealt: &Dealt) -> Result<(Chain, [Option<HoldFault>; 4]), Fail> {
    let mut chain = Chain::make(alloc, 3)?;
    let answers = [
        held(alloc, dealt, &mut chain, first(6, 5, EIGHT))?,
        held(alloc, dealt, &mut chain, first(1, 0, EIGHT))?,
        held(alloc, dealt, &mut chain, first(1, 0, EIGHT))?,
        held(alloc, dealt, &mut chain, first(2, 1, NINE))?,
    ];
    Ok((chain, answers))
}

#[test]
fn a_chain_holds_what_follows(rt: HostRuntime) -> Result<(), Fail> {
    let alloc = rt.alloc();
    let dealt = group(alloc, 1)?;
    let (chain, answers) = chain_of_one(alloc, &dealt)?;
    let wanted = [
        Some(HoldFault::NoPrev { prev: Round(5) }),
        None,
        Some(HoldFault::Known { r: Round(1) }),
        Some(HoldFault::Length { have: 9, need: 8 }),
    ];
    assert_eq!(rt; answers, wanted);
    let latest = [chain.latest_below(Round(1)), chain.latest_below(Round(2))];
    assert_eq!(rt; latest, [Round(0), Round(1)]);
    let rounds = [1, 2].map(|r| chain.body(Round(r)).map(|b| (b.r, b.prev)));
    assert_eq!(rt; rounds, [Some((Round(1), Round(0))), None]);
    let bits = [0, 1, 2].map(|r| chain.layout(Round(r)).map(|l| l.bits()));
    assert_eq!(rt; bits, [Some(8), Some(8), None]);
    let counts = [0, 1, 2].map(|r| chain.count(Round(r)));
    assert_eq!(rt; counts, [0, 1, 0]);
    Ok(())
}

#[test]
fn the_floor_is_95_of_100(rt: HostRuntime) {
    let rounds = [
        (18, 20),
        (19, 20),
        (0, 20),
        (18, 18),
        (0, 0),
        (0, 1),
        (94, 99),
    ];
    let due = rounds.map(|(count, last)| is_due_thin(2, count, last));
    assert_eq!(rt; due, [true, false, true, false, false, true, true]);
    assert!(rt;
        rounds
            .iter()
            .all(|(count, last)| !is_due_thin(1, *count, *last))
    );
}

/// A chain of version 2 with rounds 1, 2 and 3, of which the second is thin, and what `hold` answered on the way.
fn chain_with_thin(alloc: Global, dealt: &Dealt) -> Result<(Chain, [Option<HoldFault>; 7]), Fail> {
    let mut chain = Chain::make(alloc, 3)?;
    let full = Outcome {
        out: EIGHT,
        ..thin(2, 1, 2)
    };
    let answers = [
        held(alloc, dealt, &mut chain, thin(1, 0, 0))?,
        held(alloc, dealt, &mut chain, second(1, 0, 3, ASKED))?,
        held(alloc, dealt, &mut chain, second(2, 1, 2, NINE))?,
        held(alloc, dealt, &mut chain, full)?,
        held(alloc, dealt, &mut chain, thin(2, 1, 2))?,
        held(alloc, dealt, &mut chain, thin(3, 2, 2))?,
        held(alloc, dealt, &mut chain, second(3, 2, 2, EIGHT))?,
    ];
    Ok((chain, answers))
}

#[test]
fn a_thin_round_leaves_the_layout(rt: HostRuntime) -> Result<(), Fail> {
    let alloc = rt.alloc();
    let dealt = group(alloc, 2)?;
    let (chain, answers) = chain_with_thin(alloc, &dealt)?;
    let wanted = [
        Some(HoldFault::Floor { count: 0, last: 0 }),
        None,
        Some(HoldFault::Floor { count: 2, last: 3 }),
        Some(HoldFault::Length { have: 8, need: 0 }),
        None,
        Some(HoldFault::Floor { count: 2, last: 2 }),
        Some(HoldFault::Length { have: 8, need: 520 }),
    ];
    assert_eq!(rt; answers, wanted);
    let bits = [0, 1, 2].map(|r| chain.layout(Round(r)).map(|l| l.bits()));
    assert_eq!(rt; bits, [Some(8), Some(520), Some(520)]);
    let counts = [0, 1, 2, 3].map(|r| chain.count(Round(r)));
    assert_eq!(rt; counts, [0, 3, 2, 0]);
    Ok(())
}

/// An entry of client 2, signed for round 4 after round 3.
fn entry(alloc: Global, dealt: &Dealt) -> Result<Entry, Fail> {
    let mut submission = vec![in alloc; 1]?;
    submission.extend_from_slice(&4u64.to_be_bytes())?;
    submission.extend_from_slice(&3u64.to_be_bytes())?;
    submission.extend_from_slice(&2u32.to_be_bytes())?;
    submission.extend_from_slice(&[7; 32])?;
    let client = ClientId(2);
    let key = dealt.client_keys.get(2).ok_or("no key")?;
    let signed = signature(
        alloc,
        &dealt.roster,
        SignerId::Client(client),
        key,
        &submission,
    )?;
    Ok(Entry {
        client,
        digest: [7; 32],
        signature: Bytes::of(signed),
    })
}

#[test]
fn an_entry_verifies_in_its_round(rt: HostRuntime) -> Result<(), Fail> {
    let alloc = rt.alloc();
    let dealt = group(alloc, 1)?;
    let entry = entry(alloc, &dealt)?;
    let in_its_round = entry_verifies(alloc, &dealt.roster, Round(4), Round(3), &entry)?;
    let in_another = entry_verifies(alloc, &dealt.roster, Round(5), Round(3), &entry)?;
    assert_eq!(rt; (in_its_round, in_another), (true, false));
    Ok(())
}
