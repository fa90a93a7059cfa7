// How a server goes on in the round that it runs.
ghost use Rattle.std.specs.Prelude.{◌≡◌, ◌≢◌, ◌<◌, ◌≤◌, true, length, IfOk, IfSome, MatchOption, OnOk, Some};
ghost use Rattle.dn_record_types.specs.declared.statement.Statement.TheVariants as kinds;
ghost use Rattle.dn_server.specs.declared.run.Sum.{Sum};
ghost use Rattle.dn_lms.specs.Key.{leaf_count};
ghost use Rattle.dn_records.specs.Records.{kind_byte, IsStatement};
ghost use Rattle.dn_server.specs.Keeping.{byte_for, AreOfRound};
ghost use Rattle.dn_rounds.specs.Going.{IsFree, Conflicts};
ghost use Rattle.dn_server.specs.Parts.{live};
ghost use Rattle.dn_rounds.specs.Sound.{IsSeated, AreSound, StringsFit, HasSum, Stepped, Opposed, Became, IsSayable, has_moved};
ghost use Rattle.dn_seal.specs.Dealt.{server};
ghost use Rattle.dn_seal.specs.Signer.{CanSign};

use crate::saying::say;
use dn_bits::Bits;
use dn_memory::NoMemory;
use dn_records::{Statement, encode};
use dn_server::{Act, Parts, RoundKind, SpoilReason, Stage, spoil};
use dn_wire::Round;

/// A different statement of the kind that is kept under the server's own number.
pub fn conflict<'a>(parts: &'a Parts, kind: RoundKind, s: &Statement) -> Option<&'a Statement>
    requires { kind_byte s.now ≡ byte_for kind }
    ensures other { MatchOption result (IsFree (live parts.now) s.now) (λ o. Conflicts (live parts.now) s.now o.now) }
    ensures fits { IfSome result (λ o. IsStatement o.now) }
{
    let said = parts.run.kept.of(kind, parts.identity.number())?;
    if said.statement().equals(s) {
        None
    } else {
        Some(said.statement())
    }
}

/// The run ends where a different statement than the one that is due is kept under the server's own number.
fn spoil_itself(
    parts: &mut Parts,
    acts: &mut Vec<Act>,
    kind: RoundKind,
    s: &Statement,
) -> Result<bool, NoMemory>
    requires kind { kind_byte s.now ≡ byte_for kind }
    requires fits { IsStatement s.now }
    ensures { IfOk result (Opposed s.now parts.old parts.new acts.old.items acts.new.items) }
{
    let Some(other) = conflict(parts, kind, s) else {
        return Ok(false);
    };
    let kept = encode(parts.alloc, other)?;
    let came = encode(parts.alloc, s)?;
    let own = parts.identity.number();
    spoil(parts, acts, own, SpoilReason::Twice, kept, came)?;
    Ok(true)
}

/// What became of a statement that is due.
#[derive(Clone, Copy, Debug, PartialEq, Eq)]
pub enum Due {
    /// Another one is kept under the server's own number, and the run has ended.
    Opposed,
    Said,
    /// No leaf is left.
    Stuck,
}

pub(crate) fn has_moved(due: Due) -> bool
    ensures { result ≡ has_moved due }
{
    match due {
        Due::Opposed | Due::Said => true,
        Due::Stuck => false,
    }
}

/// Says a statement that is due, unless another one of its kind is kept under the server's own number.
pub fn say_due(
    parts: &mut Parts,
    acts: &mut Vec<Act>,
    kind: RoundKind,
    s: Statement,
    stage: Stage,
) -> Result<Due, NoMemory>
    requires kind { kind_byte s ≡ byte_for kind }
    requires fits { IsSayable parts.old s }
    ensures { IfOk result (Became s stage parts.old parts.new acts.old.items acts.new.items) }
{
    if spoil_itself(parts, acts, kind, &s)? {
        return Ok(Due::Opposed);
    }
    if parts.identity.left() == 0 {
        return Ok(Due::Stuck);
    }
    say(parts, acts, kind, s, stage)?;
    Ok(Due::Said)
}

/// The statement of server `own` that its ciphertext of round `r` is `s`.
fn reveal_of(_own: u32, r: u64, s: Bits) -> Statement
    requires { length s ≤ 65536 }
    ensures value { result ≡ kinds.Reveal record { 0 = r } s }
    ensures fits { CanSign (server _own) result }
{
    Statement::Reveal { r: Round(r), s }
}

/// The server's ciphertext, as a statement.
fn revealed(parts: &Parts) -> Result<Statement, NoMemory>
    requires sum { HasSum parts.now.run }
    requires bits { parts.now.run.bits ≤ 65536 }
    ensures fits { IfOk result (IsSayable parts.now) }
    ensures value { IfOk result (λ s. (sum : Sum) × (parts.now.run.sum ≡ Some sum) × (s ≡ kinds.Reveal parts.now.run.r sum.s)) }
{
    let Some(sum) = &parts.run.sum else {
        unreachable!()
    };
    let s = sum.s.copy(parts.alloc)?;
    Ok(reveal_of(parts.identity.number().0, parts.run.r.0, s))
}

/// With a commitment of each server, the server reveals its ciphertext.
pub(crate) fn reveal(parts: &mut Parts, acts: &mut Vec<Act>) -> Result<bool, NoMemory>
    requires stage { parts.old.run.stage ≡ Stage.Committed }
    requires sum { HasSum parts.old.run }
    requires bits { parts.old.run.bits ≤ 65536 }
    requires sound { AreSound (live parts.old) parts.old.run.kept }
    ensures { IfOk result (Stepped parts.old parts.new acts.old.items acts.new.items) }
{
    let n = parts.identity.roster().servers();
    if !parts.run.kept.is_full(RoundKind::Commit, n) {
        return Ok(false);
    }
    let s = revealed(parts)?;
    let due = say_due(parts, acts, RoundKind::Reveal, s, Stage::Revealed)?;
    Ok(has_moved(due))
}
