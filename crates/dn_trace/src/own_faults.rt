// The faults of servers that their own statements show.
ghost use Rattle.std.specs.Prelude.{◌≡◌, ◌<◌, ◌↔◌, List, Bool, ℕ, MatchOption, IfOk, IsTrue};
ghost use Rattle.dn_record_types.specs.declared.statement.Statement.TheVariants.{Reveal, Commit};
ghost use Rattle.dn_seal.specs.Dealt.{server};
ghost use Rattle.dn_trace.specs.Trial.{Says, round_of, servers_of};
ghost use Rattle.dn_trace.specs.Reasons.{IsTwice, HasFalseEntry, HasFalseCommit, ShowsWrong, HasFalseOutput, IsFirstShown};
ghost use Rattle.dn_trace.specs.Challenged.{IsOpened};
ghost use Rattle.dn_trace.specs.Evidence.{AreCarried, IsOpening, HasOwn, Tells};

use crate::case::Case;
use crate::fault::Fault;
use crate::openings::{Opening, has_false_sum};
use crate::seeing::is_server;
use crate::showing::{bytes_of, first_shown};
use crate::twice::is_twice;
use dn_bits::Bits;
use dn_hash::server_digest;
use dn_memory::NoMemory;
use dn_records::Statement;
use dn_seal::Said;
use dn_wire::{Round, ServerId};
use std::alloc::Global;

/// The ciphertext that the server reveals in this round, where this is such.
fn revealed_in<'a>(said: &'a Said, j: ServerId, r: Round) -> Option<&'a Bits>
    ensures { MatchOption result ((s : List Bool) → said.now.signer ≡ server j.0 → ¬ (said.now.statement ≡ Reveal r s)) (λ s. (said.now.signer ≡ server j.0) × (said.now.statement ≡ Reveal r s.now)) }
{
    if !is_server(j, said.signer()) {
        return None;
    }
    match said.statement() {
        Statement::Reveal { r: round, s } if *round == r => Some(s),
        _ => None,
    }
}

/// The first ciphertext that the server revealed.
fn first_revealed<'a>(said: &'a [Said], j: ServerId, r: Round) -> Option<&'a Bits>
    ensures { MatchOption result ((s : List Bool) → ¬ Says said.now (server j.0) (Reveal r s)) (λ s. Says said.now (server j.0) (Reveal r s.now)) }
{
    for x in said {
        if let Some(s) = revealed_in(x, j, r) {
            return Some(s);
        }
    }
    None
}

/// The digest that the server commits to in this round, where this is such.
fn committed_in(said: &Said, j: ServerId, r: Round) -> Option<[u8; 32]>
    ensures { MatchOption result ((d : List ℕ) → said.now.signer ≡ server j.0 → ¬ (said.now.statement ≡ Commit r d)) (λ d. (said.now.signer ≡ server j.0) × (said.now.statement ≡ Commit r d)) }
{
    if !is_server(j, said.signer()) {
        return None;
    }
    match said.statement() {
        Statement::Commit { r: round, digest } if *round == r => Some(*digest),
        _ => None,
    }
}

/// The first digest that the server committed to.
fn first_committed(said: &[Said], j: ServerId, r: Round) -> Option<[u8; 32]>
    ensures { MatchOption result ((d : List ℕ) → ¬ Says said.now (server j.0) (Commit r d)) (λ d. Says said.now (server j.0) (Commit r d)) }
{
    for x in said {
        if let Some(digest) = committed_in(x, j, r) {
            return Some(digest);
        }
    }
    None
}

/// Whether the server revealed another ciphertext than it committed to, where it made one statement for each place.
fn has_false_commit(alloc: Global, case: &Case, j: ServerId) -> Result<bool, NoMemory>
    requires { ¬ IsTwice case.now j.0 }
    ensures { IfOk result (λ b. IsTrue b ↔ HasFalseCommit case.now j.0) }
{
    let Some(s) = first_revealed(case.given(), j, case.round()) else {
        return Ok(false);
    };
    let Some(digest) = first_committed(case.given(), j, case.round()) else {
        return Ok(false);
    };
    let bytes = bytes_of(alloc, s)?;
    Ok(server_digest(case.round().0, j.0, &bytes) != digest)
}

/// The first fault of the server that its own statements show.
pub fn own_fault(
    alloc: Global,
    case: &Case,
    carried: &[Said],
    j: ServerId,
    enters_false: bool,
    shows_wrong: bool,
    opening: Option<&Opening>,
) -> Result<Option<Fault>, NoMemory>
    requires carried { AreCarried case.now carried.now }
    requires entry { IsTrue enters_false ↔ HasFalseEntry case.now j.0 }
    requires shown { IsTrue shows_wrong ↔ ShowsWrong case.now j.0 }
    requires opening { MatchOption opening (¬ IsOpened case.now j.0) (λ o. IsOpening case.now j.0 o.now.s.now o.now.shown.now o.now.pad.now) }
    ensures { IfOk result (λ o. HasOwn case.now j.0 o) }
{
    if is_twice(alloc, case, carried, j)? {
        return Ok(Some(Fault::Twice));
    }
    if enters_false {
        return Ok(Some(Fault::Entry));
    }
    if has_false_commit(alloc, case, j)? {
        return Ok(Some(Fault::Commit));
    }
    if shows_wrong {
        return Ok(Some(Fault::Shown));
    }
    match opening {
        Some(opening) => {
            if has_false_sum(case, opening) {
                Ok(Some(Fault::Sum))
            } else {
                Ok(None)
            }
        }
        None => Ok(None),
    }
}

/// The ciphertext that the server shows first.
fn first_string<'a>(case: &Case<'a>, j: ServerId) -> Option<&'a Bits>
    ensures { MatchOption result ((s : List Bool) → ¬ IsFirstShown case.now j.0 s) (λ s. IsFirstShown case.now j.0 s.now) }
{
    let Some(first) = first_shown(case, j) else {
        return None;
    };
    let Statement::Shown { s, .. } = first.statement() else {
        return None;
    };
    Some(s)
}

/// Whether every server shows, none shows wrong, and the output isn't the sum of what they show first.
pub fn has_false_output(alloc: Global, case: &Case, show_wrong: &[bool]) -> Result<bool, NoMemory>
    requires { Tells show_wrong.now (servers_of case.now) (ShowsWrong case.now) }
    ensures { IfOk result (λ b. IsTrue b ↔ HasFalseOutput case.now) }
{
    let mut sum = Bits::zeros(alloc, case.bits())?;
    for j in 0..case.servers() {
        if show_wrong[j as usize] {
            return Ok(false);
        }
        let Some(s) = first_string(case, ServerId(j)) else {
            return Ok(false);
        };
        if s.len() != sum.len() {
            return Ok(false);
        }
        sum.xor_into(s);
    }
    let body = case.body();
    Ok(!sum.equals(&body.out))
}
