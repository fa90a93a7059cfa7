// What a server answers to openings of servers, and to what clients answer to challenges.
ghost use Rattle.std.specs.Prelude.{◌≡◌, ◌<◌, ℕ, List, Some, None, Contains, filter, map, IsPermutation, IsSorted, IfOk, OnOk};
ghost use Rattle.std.specs.Ordering.{nat_cmp};
ghost use Rattle.dn_seal.specs.Said.{IsUnder};
ghost use Rattle.dn_server.specs.Parts.{live};
ghost use Rattle.dn_openings.specs.Evidence.{is_opening};
ghost use Rattle.dn_openings.specs.Challenging.{CanLook, LooksOnAll};
ghost use Rattle.dn_openings.specs.Hearing.{round_opened, HearsOpening, HearsAnswer};
ghost use Rattle.dn_openings.specs.Open.{CanOpen};

use crate::keeping::{is_kept, is_opening};
use crate::looking::look_at;
use dn_cert::Rules;
use dn_memory::NoMemory;
use dn_records::Statement;
use dn_seal::Said;
use dn_server::{Act, Acts, Answer, Parts, Place, Places, Reason};
use dn_wire::Round;
use std::alloc::Global;

/// The round that a statement opens a place of, or all places; nothing for other statements.
pub(crate) fn round_opened(s: &Statement) -> Option<Round>
    ensures { result ≡ round_opened s.now }
{
    match s {
        Statement::PadBits { r, .. } => Some(*r),
        Statement::Shown { r, .. } => Some(*r),
        _ => None,
    }
}

/// The numbers of those places that the statement opens too.
fn touched(alloc: Global, places: &[Place], s: &Statement) -> Result<Vec<u32>, NoMemory>
    ensures { IfOk result (λ v. v.items ≡ map (λ p. p.k) (filter (λ p. is_opening p.r p.k s.now) places.now)) }
{
    Ok(
        places
            .iter()
            .filter(|place| is_opening(s, **place))
            .map(|place| place.k)
            .collect(alloc)?,
    )
}

/// The numbers of those places that the statement opens too, in ascending order.
fn touched_numbers(alloc: Global, places: &Places, s: &Statement) -> Result<Vec<u32>, NoMemory>
    ensures are { IfOk result (λ v. IsPermutation (map (λ p. p.k) (filter (λ p. is_opening p.r p.k s.now) places.now)) v.items) }
    ensures sorted { IfOk result (λ v. IsSorted nat_cmp v.items) }
{
    let mut numbers = touched(alloc, places.get(), s)?;
    numbers.sort()?;
    Ok(numbers)
}

/// Looks for clients to challenge at these places of round `r`, one after the other.
fn look_at_all<R: Rules>(
    rules: &R,
    parts: &mut Parts,
    acts: &mut Vec<Act>,
    r: Round,
    numbers: &[u32],
) -> Result<(), NoMemory>
    requires { (k : ℕ) → Contains numbers.now k → CanLook (live parts.old) record { r = r; k = k } }
    ensures { OnOk result (LooksOnAll (live parts.old) (map (λ k. record { r = r; k = k }) numbers.now) acts.old.items acts.new.items (live parts.new)) }
{
    for k in numbers {
        look_at(rules, parts, acts, Place { r, k: *k })?;
    }
    Ok(())
}

/// Hears a server's pad bits or ciphertexts of round `r`.
pub(crate) fn hear_opening<R: Rules>(
    rules: &R,
    parts: &mut Parts,
    r: Round,
    said: &Said,
) -> Result<Answer, NoMemory>
    requires can { CanOpen (live parts.old) }
    requires under { IsUnder parts.old.identity.roster said.now }
    requires opening { round_opened said.now.statement ≡ Some r }
    ensures { IfOk result (λ answer. HearsOpening (live parts.old) r said.now answer (live parts.new)) }
{
    let alloc = parts.alloc;
    let Some(_body) = parts.chain.body(r) else {
        return Ok(Answer::Ignored(Reason::Body));
    };
    if is_kept(&parts.evidence, said) {
        return Ok(Answer::Ignored(Reason::Repeat));
    }
    let numbers = touched_numbers(alloc, &parts.opened, said.statement())?;
    parts.evidence.push(said.copy(alloc)?)?;
    let mut acts = Vec::new(alloc);
    look_at_all(rules, parts, &mut acts, r, &numbers)?;
    Ok(Answer::Acts(Acts::of(acts)))
}

/// Hears what a client answers to a challenge.
pub(crate) fn hear_answer(parts: &mut Parts, said: &Said) -> Result<Answer, NoMemory>
    ensures { IfOk result (λ answer. HearsAnswer (live parts.old) said.now answer (live parts.new)) }
{
    let alloc = parts.alloc;
    if is_kept(&parts.evidence, said) {
        return Ok(Answer::Ignored(Reason::Repeat));
    }
    parts.evidence.push(said.copy(alloc)?)?;
    Ok(Answer::Acts(Acts::of(Vec::new(alloc))))
}
