// How a server hears what servers say of a round.
ghost use Rattle.std.specs.Prelude.{◌≡◌, ◌≢◌, ◌<◌, ◌≤◌, ◌↔◌, ◌++◌, ◌∷◌, [], List, Some, None, true, IfOk, OnOk, IsTrue, MatchOption, length};
ghost use Rattle.std.specs.Int.{w64, to_be_bytes};
ghost use Rattle.dn_record_types.specs.declared.statement.Statement.TheVariants as kinds;
ghost use Rattle.dn_server.specs.declared.act.Act.{Act as ActOf};
ghost use Rattle.dn_server.specs.Justified.{digest_by};
ghost use Rattle.dn_server.specs.Server.{course_of, kept_of};
ghost use Rattle.dn_server.specs.Parts.{live, at_end};
ghost use Rattle.dn_records.specs.Records.{body_bytes, kind_byte, IsBody};
ghost use Rattle.dn_rounds.specs.Going.{spoiled_twice};
ghost use Rattle.dn_server.specs.Server.{ended};
ghost use Rattle.dn_server.specs.Keeping.{AreOfRound, byte_for, round_of};
ghost use Rattle.dn_cert.specs.Signed.{EntryVerifies};
ghost use Rattle.dn_exchange.specs.Hearing.{number_bytes, IsFirstFalse, IsOwnCommitted, FaultFound, DiffersFrom, AllVerify, KeepsHeard, HearsRound};
ghost use Rattle.dn_exchange.specs.Invariant.{AreClaims, IsOfClaim};
ghost use Rattle.dn_exchange.specs.Ready.{CanHear};

use dn_bits::Bits;
use dn_cert::entry_verifies;
use dn_hash::server_digest;
use dn_memory::NoMemory;
use dn_records::{Body, Entry, Inventory, Statement, encode, encode_body};
use dn_rounds::{body_by, digest_by, go_on, string_by};
use dn_seal::Said;
use dn_server::{Act, Acts, Answer, Parts, Reason, RoundKind, Run, SpoilReason, Stage, spoil};
use dn_wire::{Round, ServerId};
use std::alloc::Global;
use std::thread::Threads;

/// What was kept, or due, and what came.
#[derive(Drop)]
pub struct Found {
    pub reason: SpoilReason,
    pub kept: Vec<u8>,
    pub came: Vec<u8>,
}

/// A number, as a fault tells it.
fn number_bytes(alloc: Global, n: u64) -> Result<Vec<u8>, NoMemory>
    ensures { IfOk result (λ v. v.items ≡ number_bytes n) }
{
    Ok(Vec::from_slice(alloc, &n.to_be_bytes())?)
}

/// Two numbers that differ.
fn numbers(alloc: Global, reason: SpoilReason, kept: u64, came: u64) -> Result<Found, NoMemory>
    ensures { IfOk result (λ d. (d.reason ≡ reason) × (d.kept.items ≡ number_bytes kept) × (d.came.items ≡ number_bytes came)) }
{
    Ok(Found {
        reason,
        kept: number_bytes(alloc, kept)?,
        came: number_bytes(alloc, came)?,
    })
}

/// Whether an entry is that of a claim.
fn is_of_claim(run: &Run, entry: &Entry) -> bool
    ensures { IsTrue result → IsOfClaim run.now entry.now }
{
    match run.claims.get(entry.client) {
        Some(claim) => claim.digest == entry.digest && claim.signature.equals(&entry.signature),
        None => false,
    }
}

/// Whether an entry of an inventory of the round verifies. The signatures of claims were verified as they came, and aren't again.
fn verifies(parts: &Parts, inventory: &Inventory, entry: &Entry) -> Result<bool, NoMemory>
    requires round { inventory.now.r ≡ parts.now.run.r }
    requires prev { inventory.now.prev ≡ parts.now.run.prev }
    requires claims { AreClaims (live parts.now).seat (live parts.now).run }
    ensures { IfOk result (λ b. IsTrue b ↔ EntryVerifies parts.now.identity.roster inventory.now.r inventory.now.prev entry.now) }
{
    if is_of_claim(&parts.run, entry) {
        return Ok(true);
    }
    let roster = parts.identity.roster();
    entry_verifies(parts.alloc, roster, inventory.r, inventory.prev, entry)
}

/// The place of the first entry of an inventory of the round that doesn't verify.
fn first_false(parts: &Parts, inventory: &Inventory) -> Result<Option<u32>, NoMemory>
    requires few { length inventory.now.entries ≤ 512 }
    requires round { inventory.now.r ≡ parts.now.run.r }
    requires prev { inventory.now.prev ≡ parts.now.run.prev }
    requires claims { AreClaims (live parts.now).seat (live parts.now).run }
    ensures { IfOk result (λ o. MatchOption o (AllVerify (live parts.now) inventory.now) (λ at. IsFirstFalse (live parts.now) inventory.now at)) }
{
    for (at, entry) in inventory.entries.get().iter().enumerate() {
        if !verifies(parts, inventory, entry)? {
            return Ok(Some(at as u32));
        }
    }
    Ok(None)
}

/// The fault of an inventory.
fn inventory_fault(
    parts: &Parts,
    j: ServerId,
    inventory: &Inventory,
) -> Result<Option<Found>, NoMemory>
    requires few { length inventory.now.entries ≤ 512 }
    requires round { inventory.now.r ≡ parts.now.run.r }
    requires claims { AreClaims (live parts.now).seat (live parts.now).run }
    ensures { IfOk result (FaultFound (live parts.now) j.0 (kinds.Inventory inventory.now)) }
{
    let alloc = parts.alloc;
    if inventory.prev != parts.run.prev {
        let fault = numbers(alloc, SpoilReason::Prev, parts.run.prev.0, inventory.prev.0)?;
        return Ok(Some(fault));
    }
    let Some(at) = first_false(parts, inventory)? else {
        return Ok(None);
    };
    let count = inventory.entries.get().len() as u64;
    let fault = numbers(alloc, SpoilReason::Entry, u64::from(at), count)?;
    Ok(Some(fault))
}

/// The digest of server `j`'s ciphertext in the round.
fn digest_in(alloc: Global, run: &Run, j: ServerId, s: &Bits) -> Result<[u8; 32], NoMemory>
    ensures { IfOk result (λ d. d ≡ digest_by (course_of run.now) j.0 s.now) }
{
    let mut bytes = Vec::new(alloc);
    s.write_bytes(alloc, &mut bytes)?;
    Ok(server_digest(run.r.0, j.0, &bytes))
}

/// How server `j`'s ciphertext differs from what it committed to.
fn against_commit(
    alloc: Global,
    run: &Run,
    j: ServerId,
    committed: [u8; 32],
    s: &Bits,
) -> Result<Option<Found>, NoMemory>
    ensures { IfOk result (DiffersFrom run.now j.0 committed s.now) }
{
    let digest = digest_in(alloc, run, j, s)?;
    if committed == digest {
        return Ok(None);
    }
    Ok(Some(Found {
        reason: SpoilReason::Commit,
        kept: Vec::from_slice(alloc, &committed)?,
        came: Vec::from_slice(alloc, &digest)?,
    }))
}

/// The fault of a commitment.
fn commit_fault(
    parts: &Parts,
    j: ServerId,
    r: Round,
    digest: [u8; 32],
) -> Result<Option<Found>, NoMemory>
    requires round { AreOfRound r parts.now.run.kept }
    ensures { IfOk result (FaultFound (live parts.now) j.0 (kinds.Commit r digest)) }
{
    if parts.run.kept.of(RoundKind::Reveal, j).is_none() {
        return Ok(None);
    }
    let s = string_by(&parts.run.kept, r, j);
    against_commit(parts.alloc, &parts.run, j, digest, s)
}

/// The fault of a ciphertext of the round's length.
fn string_fault(parts: &Parts, j: ServerId, r: Round, s: &Bits) -> Result<Option<Found>, NoMemory>
    requires round { AreOfRound r parts.now.run.kept }
    requires long { length s.now ≡ parts.now.run.bits }
    ensures { IfOk result (FaultFound (live parts.now) j.0 (kinds.Reveal r s.now)) }
{
    if j == parts.identity.number() && parts.run.stage == Stage::Committed {
        return Ok(None);
    }
    if parts.run.kept.of(RoundKind::Commit, j).is_none() {
        return Ok(None);
    }
    let committed = digest_by(&parts.run.kept, r, j);
    against_commit(parts.alloc, &parts.run, j, committed, s)
}

/// The fault of a ciphertext.
fn reveal_fault(parts: &Parts, j: ServerId, r: Round, s: &Bits) -> Result<Option<Found>, NoMemory>
    requires { AreOfRound r parts.now.run.kept }
    ensures { IfOk result (FaultFound (live parts.now) j.0 (kinds.Reveal r s.now)) }
{
    let (due, given) = (parts.run.bits, s.len());
    if given != due {
        let fault = numbers(
            parts.alloc,
            SpoilReason::Length,
            u64::from(due),
            u64::from(given),
        )?;
        return Ok(Some(fault));
    }
    string_fault(parts, j, r, s)
}

/// How a body differs from the server's own.
fn against_body(alloc: Global, own: &Body, body: &Body) -> Result<Option<Found>, NoMemory>
    requires own { IsBody own.now }
    requires body { IsBody body.now }
    ensures { IfOk result (λ o. MatchOption o (body.now ≡ own.now) (λ d. (body.now ≢ own.now) × (d.reason ≡ SpoilReason.Body) × (d.kept.items ≡ body_bytes own.now) × (d.came.items ≡ body_bytes body.now))) }
{
    if body.equals(own) {
        return Ok(None);
    }
    Ok(Some(Found {
        reason: SpoilReason::Body,
        kept: encode_body(alloc, own)?,
        came: encode_body(alloc, body)?,
    }))
}

/// The fault of a signed body.
fn sign_fault(parts: &Parts, j: ServerId, body: &Body) -> Result<Option<Found>, NoMemory>
    requires { IsBody body.now }
    ensures { IfOk result (FaultFound (live parts.now) j.0 (kinds.Sign body.now)) }
{
    let _ = j;
    let own = parts.identity.number();
    if parts.run.stage != Stage::Signed || parts.run.kept.of(RoundKind::Sign, own).is_none() {
        return Ok(None);
    }
    against_body(parts.alloc, body_by(&parts.run.kept, own), body)
}

/// The fault of a statement that server `j` made of round `r`.
fn fault(parts: &Parts, j: ServerId, _r: Round, said: &Said) -> Result<Option<Found>, NoMemory>
    requires round { AreOfRound _r parts.now.run.kept }
    requires runs { _r ≡ parts.now.run.r }
    requires same { round_of said.now.statement ≡ Some _r }
    requires claims { AreClaims (live parts.now).seat (live parts.now).run }
    ensures { IfOk result (FaultFound (live parts.now) j.0 said.now.statement) }
{
    match said.statement() {
        Statement::Inventory(inventory) => inventory_fault(parts, j, inventory),
        Statement::Commit { r, digest } => commit_fault(parts, j, *r, *digest),
        Statement::Reveal { r, s } => reveal_fault(parts, j, *r, s),
        Statement::Sign(body) => sign_fault(parts, j, body),
        _ => unreachable!(),
    }
}

/// The kind of a statement that servers make of a round.
fn kind_of(s: &Statement, _r: Round) -> RoundKind
    requires { round_of s.now ≡ Some _r }
    ensures { byte_for result ≡ kind_byte s.now }
{
    match s {
        Statement::Inventory(_) => RoundKind::Inventory,
        Statement::Commit { .. } => RoundKind::Commit,
        Statement::Reveal { .. } => RoundKind::Reveal,
        Statement::Sign(_) => RoundKind::Sign,
        _ => unreachable!(),
    }
}

/// Keeps a statement that is new, and goes on, unless it has a fault.
fn keep<R: Threads + Sync>(
    rt: &R,
    parts: &mut Parts,
    j: ServerId,
    r: Round,
    said: &Said,
) -> Result<Answer, NoMemory>
    requires round { r ≡ parts.old.run.r }
    requires same { round_of said.now.statement ≡ Some r }
    requires runs { parts.old.run.is_running ≡ true }
    requires new { kept_of parts.old.run.kept (kind_byte said.now.statement) j.0 ≡ None }
    requires can { CanHear parts.old j.0 said.now }
    ensures { IfOk result (λ a. KeepsHeard (live parts.old) j.0 said.now a (live parts.new)) }
{
    let alloc = parts.alloc;
    let found = fault(parts, j, r, said)?;
    parts.run.kept.push(said.copy(alloc)?)?;
    let mut acts = Vec::new(alloc);
    match found {
        Some(fault) => spoil(parts, &mut acts, j, fault.reason, fault.kept, fault.came)?,
        None => go_on(rt, parts, &mut acts)?,
    }
    Ok(Answer::Acts(Acts::of(acts)))
}

/// The run ends: server `j` made two different statements of one kind.
fn spoil_twice(
    parts: &mut Parts,
    j: ServerId,
    kept: Vec<u8>,
    came: Vec<u8>,
) -> Result<Answer, NoMemory>
    ensures after { OnOk result (parts.new ≡ at_end parts.old) }
    ensures told { IfOk result (λ a. a ≡ Answer.Acts (Act.Spoiled j SpoilReason.Twice kept.items came.items ∷ [])) }
{
    let mut acts = Vec::new(parts.alloc);
    spoil(parts, &mut acts, j, SpoilReason::Twice, kept, came)?;
    Ok(Answer::Acts(Acts::of(acts)))
}

/// Hears a statement that server `j` made of round `r`.
pub(crate) fn hear_round<R: Threads + Sync>(
    rt: &R,
    parts: &mut Parts,
    j: ServerId,
    r: Round,
    said: &Said,
) -> Result<Answer, NoMemory>
    requires same { round_of said.now.statement ≡ Some r }
    requires can { r ≡ parts.old.run.r → CanHear parts.old j.0 said.now }
    ensures { IfOk result (λ a. HearsRound (live parts.old) j.0 r said.now a (live parts.new)) }
{
    if parts.run.r.0 < r.0 {
        return Ok(Answer::Early);
    }
    if r.0 < parts.run.r.0 {
        return Ok(Answer::Ignored(Reason::Old));
    }
    if !parts.run.is_running {
        return Ok(Answer::Ignored(Reason::Idle));
    }
    let Some(kept) = parts.run.kept.of(kind_of(said.statement(), r), j) else {
        return keep(rt, parts, j, r, said);
    };
    if kept.statement().equals(said.statement()) {
        return Ok(Answer::Ignored(Reason::Repeat));
    }
    let first = encode(parts.alloc, kept.statement())?;
    let second = encode(parts.alloc, said.statement())?;
    spoil_twice(parts, j, first, second)
}
