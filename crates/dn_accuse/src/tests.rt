ghost use Rattle.std.specs.Prelude.{◌<◌, ◌^◌, length, IfOk};
ghost use Rattle.dn_seal.specs.Dealt.{slot};
ghost use Rattle.dn_seal.specs.Said.{IsUnder};
ghost use Rattle.dn_seal.specs.Signer.{CanSign};

use crate::{Judging, rebuttal_good, valid};
use dn_bits::Bits;
use dn_cert::{Invalid, Rules, Valid};
use dn_layout::Layout;
use dn_lms::SigKey;
use dn_memory::NoMemory;
use dn_pads::pad_bit;
use dn_records::{Body, Digests, Rows, Statement};
use dn_roster::{GroupSpec, Roster, pair_seed};
use dn_seal::{Dealt, Said, SigningKey, deal, unseal};
use dn_wire::{Bytes, ClientId, Round, ServerId, SignerId, SlotId, put_bytes, put_u8, put_u32};
use std::alloc::Global;
use std::process::Abort;
use std::test::Fail;

const GROUP: GroupSpec = GroupSpec {
    version: 1,
    clients: 3,
    servers: 2,
    ots: 2,
    client_lms: 5,
    server_lms: 5,
    seed: [7; 32],
};

/// The bytes of pad bits of round 1 and this place: `count` of them, from the front of a byte.
fn pad_bits(k: u8, count: u8, bits: u8) -> [u8; 18] {
    [7, 0, 0, 0, 0, 0, 0, 0, 1, 0, 0, 0, k, 0, 0, 0, count, bits]
}

/// The envelope of a statement's bytes that server 1 signs.
fn signed_by_server_1(
    rt: &impl Abort,
    alloc: Global,
    dealt: &Dealt,
    statement: &[u8],
) -> Result<Vec<u8>, NoMemory>
    requires { length statement.now < 2 ^ 32 }
{
    let who = SignerId::Server(ServerId(1));
    let signed = dealt.roster.signed_bytes(alloc, who, statement)?;
    let key = dealt.server_keys.get(1).expect(rt, "two servers");
    assert_eq!(rt; key.leaves(), 32);
    let signature = key.sign_at(alloc, 0, &signed)?;
    let mut envelope = Vec::new(alloc);
    put_u8(&mut envelope, 2)?;
    put_u32(&mut envelope, 1)?;
    put_u32(&mut envelope, statement.len() as u32)?;
    put_bytes(&mut envelope, statement)?;
    put_bytes(&mut envelope, &signature)?;
    Ok(envelope)
}

/// Whether client 0's rebuttal of this place against a server is good, with the envelope of these pad bits of server 1.
fn is_good(
    rt: &impl Abort,
    alloc: Global,
    dealt: &Dealt,
    k: u32,
    server: u32,
    seed: [u8; 32],
    statement: &[u8],
) -> Result<bool, NoMemory>
    requires { length statement.now < 2 ^ 32 }
{
    let envelope = signed_by_server_1(rt, alloc, dealt, statement)?;
    let rebuttal = Statement::Rebuttal {
        r: Round(1),
        k,
        server: ServerId(server),
        seed,
        envelope: Bytes::of(envelope),
    };
    assert_eq!(rt; dealt.roster.clients(), 3);
    Judging.rebuttal_good(alloc, &dealt.roster, ClientId(0), &rebuttal)
}

#[test]
fn rebuttals_are_good_where_the_bits_differ(rt: HostRuntime) -> Result<(), Fail> {
    let alloc = rt.alloc();
    let dealt = deal(alloc, &GROUP)?;
    let seed = pair_seed(&GROUP, ClientId(0), ServerId(1));
    assert!(rt; pad_bit(&seed, Round(1), 5));
    assert!(rt; !pad_bit(&seed, Round(1), 7));
    // The bit of client 0 is the first.
    assert!(rt; is_good(&rt, alloc, &dealt, 5, 1, seed, &pad_bits(5, 3, 0x60))?);
    assert!(rt; !is_good(&rt, alloc, &dealt, 5, 1, seed, &pad_bits(5, 3, 0xe0))?);
    assert!(rt; is_good(&rt, alloc, &dealt, 7, 1, seed, &pad_bits(7, 3, 0x80))?);
    // Without bits each client is shown a zero.
    assert!(rt; is_good(&rt, alloc, &dealt, 5, 1, seed, &pad_bits(5, 0, 0)[..17])?);
    assert!(rt; !is_good(&rt, alloc, &dealt, 7, 1, seed, &pad_bits(7, 0, 0)[..17])?);
    // Pad bits of another place, another server, and another client's seed.
    assert!(rt; !is_good(&rt, alloc, &dealt, 5, 1, seed, &pad_bits(6, 3, 0x60))?);
    assert!(rt; !is_good(&rt, alloc, &dealt, 5, 0, seed, &pad_bits(5, 3, 0x60))?);
    let others = pair_seed(&GROUP, ClientId(1), ServerId(1));
    assert!(rt; !is_good(&rt, alloc, &dealt, 5, 1, others, &pad_bits(5, 3, 0x60))?);
    Ok(())
}

/// A roster of one client and one server.
fn small_roster(alloc: Global) -> Result<Roster, NoMemory> {
    Ok(Roster::make(
        1,
        2,
        5,
        5,
        vec![in alloc; [1; 56]]?,
        vec![in alloc; [2; 56]]?,
        vec![in alloc; [3; 56]]?,
        vec![in alloc; [4; 32]]?,
    ))
}

/// The body of round 2 whose output has a 1 at place 100 alone.
fn body_with_one(alloc: Global) -> Result<Body, NoMemory> {
    let mut out = Bits::zeros(alloc, 520)?;
    out.flip(100);
    Ok(Body {
        version: 1,
        r: Round(2),
        prev: Round(1),
        thin: false,
        listed: Rows::of(Vec::new(alloc)),
        digests: Digests::of(Vec::new(alloc)),
        out,
    })
}

/// A thin body of round 2 that has that output all the same.
fn thin_body(alloc: Global) -> Result<Body, NoMemory> {
    let body = body_with_one(alloc)?;
    Ok(Body {
        version: 2,
        thin: true,
        ..body
    })
}

/// What is said of an accusation against a body, where slot 0 has the places 8 to 519 and the other slots are closed.
fn judged(
    alloc: Global,
    body: &Body,
    who: SignerId,
    r: u64,
    slot: u32,
    k: u32,
) -> Result<Result<Valid, Invalid>, Fail> {
    let roster = small_roster(alloc)?;
    let layout = Layout::of(vec![in alloc; 64, 0, 0]?).ok_or("a layout")?;
    let accusation = Statement::Accusation {
        r: Round(r),
        slot: SlotId(slot),
        k,
    };
    Ok(Judging.valid(&roster, &layout, body, who, &accusation))
}

#[test]
fn accusations_hold_or_are_refused(rt: HostRuntime) -> Result<(), Fail> {
    let alloc = rt.alloc();
    let slot_0 = SignerId::Slot(SlotId(0));
    let slot_1 = SignerId::Slot(SlotId(1));
    let client_0 = SignerId::Client(ClientId(0));
    let body = body_with_one(alloc)?;
    let valid = Valid {
        r: Round(2),
        slot: SlotId(0),
        k: 100,
    };
    assert_eq!(rt; judged(alloc, &body, slot_0, 2, 0, 100)?, Ok(valid));
    assert_eq!(rt; judged(alloc, &body, slot_1, 2, 0, 100)?, Err(Invalid::Key));
    assert_eq!(rt;
        judged(alloc, &body, client_0, 2, 0, 100)?,
        Err(Invalid::Key)
    );
    assert_eq!(rt; judged(alloc, &body, slot_0, 1, 0, 100)?, Err(Invalid::Key));
    assert_eq!(rt; judged(alloc, &body, slot_0, 2, 0, 7)?, Err(Invalid::Place));
    assert_eq!(rt;
        judged(alloc, &body, slot_0, 2, 0, 520)?,
        Err(Invalid::Place)
    );
    assert_eq!(rt;
        judged(alloc, &body, slot_1, 2, 1, 100)?,
        Err(Invalid::Place)
    );
    assert_eq!(rt;
        judged(alloc, &body, slot_0, 2, 0, 101)?,
        Err(Invalid::Zero)
    );
    let thin = thin_body(alloc)?;
    assert_eq!(rt;
        judged(alloc, &thin, slot_0, 2, 0, 100)?,
        Err(Invalid::Zero)
    );
    Ok(())
}

/// Slot 0 accuses at this place of round 2.
fn accusation(k: u32) -> Statement
    ensures { CanSign (slot 0) result }
{
    Statement::Accusation {
        r: Round(2),
        slot: SlotId(0),
        k,
    }
}

/// A rebuttal whose envelope is empty.
fn empty_rebuttal(alloc: Global) -> Statement
    ensures { CanSign (slot 0) result }
{
    Statement::Rebuttal {
        r: Round(2),
        k: 100,
        server: ServerId(1),
        seed: [7; 32],
        envelope: Bytes::of(Vec::new(alloc)),
    }
}

/// What slot 0 says, with a key that has signed nothing.
fn said_by_slot_0(rt: &impl Abort, alloc: Global, dealt: &Dealt, s: Statement) -> Result<Said, Fail>
    requires { CanSign (slot 0) s }
    ensures { IfOk result (IsUnder dealt.now.roster) }
{
    let key = dealt
        .slot_keys
        .get(0)
        .expect(rt, "three slots")
        .copy(alloc)?;
    let who = SignerId::Slot(SlotId(0));
    let mut key = SigningKey::make(alloc, key, dealt.roster.digest(), who)?;
    assert!(rt; 0 < key.left());
    let bytes = key.seal(alloc, s)?;
    match unseal(alloc, &dealt.roster, &bytes) {
        Ok(said) => Ok(said),
        Err(_) => Err(Fail::new("it unseals")),
    }
}

/// What an accusation that was said is told against a body.
fn told(
    roster: &Roster,
    layout: &Layout,
    body: &Body,
    said: &Said,
) -> Option<Result<Valid, Invalid>>
    requires { IsUnder roster.now said.now }
{
    match said.statement() {
        Statement::Accusation { .. } => Some(valid(roster, layout, body, said)),
        _ => None,
    }
}

/// Whether a rebuttal of client 0 that was said is good.
fn found_good(alloc: Global, roster: &Roster, said: &Said) -> Result<Option<bool>, NoMemory>
    requires { IsUnder roster.now said.now }
{
    if roster.clients() == 0 {
        return Ok(None);
    }
    match said.statement() {
        Statement::Rebuttal { .. } => Ok(Some(rebuttal_good(alloc, roster, ClientId(0), said)?)),
        _ => Ok(None),
    }
}

#[test]
fn what_was_said_is_judged(rt: HostRuntime) -> Result<(), Fail> {
    let alloc = rt.alloc();
    let dealt = deal(alloc, &GROUP)?;
    let layout = Layout::of(vec![in alloc; 64, 0, 0]?).ok_or("a layout")?;
    let body = body_with_one(alloc)?;
    let said = said_by_slot_0(&rt, alloc, &dealt, accusation(100))?;
    let valid = Valid {
        r: Round(2),
        slot: SlotId(0),
        k: 100,
    };
    assert_eq!(rt; told(&dealt.roster, &layout, &body, &said), Some(Ok(valid)));
    assert_eq!(rt; found_good(alloc, &dealt.roster, &said)?, None);
    let said = said_by_slot_0(&rt, alloc, &dealt, empty_rebuttal(alloc))?;
    assert_eq!(rt; found_good(alloc, &dealt.roster, &said)?, Some(false));
    Ok(())
}
