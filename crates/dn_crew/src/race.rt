ghost use Rattle.std.specs.Prelude.{◌≡◌, ℕ, ◌+◌, ◌<◌, ◌≤◌, ◌∷◌, [], None, Some, All, IfOk, IfSome, IsSome, MatchOption, Option, count_by, ◌==◌, length, map, slice_get, vec_len};
ghost use Rattle.dn_told.specs.Window.{is_submit_of, is_close};
ghost use Rattle.dn_counts.specs.Counts.{times};
ghost use Rattle.dn_gate.specs.Pass.{IsReady, IsFresh};
ghost use Rattle.dn_gate.specs.History.{IsHistory, history};
ghost use Rattle.dn_gate.specs.Order.{in_order};
ghost use Rattle.dn_gate.specs.Collected.{named};
ghost use Rattle.dn_crew.specs.Race.{numbers_of, event_of, submitted, in_time};
ghost use Rattle.dn_crew.specs.Shares.{IsShare, IsCloser, IsGathered, CanSubmit, AreShares};

use crate::gathering::gather;
use crate::placed::Placed;
use crate::raced::Raced;
use crate::sharing::{Share, submit_share};
use crate::spelling::spell;
use dn_gate::{Closing, Gate, GatePass};
use dn_io::Hold;
use dn_memory::NoMemory;
use dn_wire::ClientId;
use std::alloc::Global;
use std::sync::Wait;
use std::thread::{Threads, join, map_vec};

/// The place at which the closer is before it closes.
const CLOSER: u32 = 65535;

/// Closes the gate; no closing where it was found closed.
fn close_gate<H: Hold>(
    gate: &Gate<u64>,
    mut pass: GatePass<u64>,
    hold: &H,
) -> (GatePass<u64>, Option<Closing<u64>>)
    requires fresh { (w : ℕ) × IsFresh gate.now w pass }
    ensures closer { IsCloser gate.now result.0.closing result.0.refused result.0 }
    ensures closed { MatchOption result.1 ((result.0.closing ≡ None) × ((found : ℕ) × (result.0.refused ≡ found ∷ []))) (λ c. (c.gate ≡ gate.now) × (result.0.closing ≡ Some c.count)) }
{
    hold.reached(CLOSER);
    match gate.close(&mut pass) {
        Ok(closing) => (pass, Some(closing)),
        Err(_) => (pass, None),
    }
}

/// What is told of a race whose passes have met.
fn finish(
    alloc: Global,
    gate: &Gate<u64>,
    mut all: Share,
    closing: Option<Closing<u64>>,
    _list: &[(ClientId, u64)],
    _workers: u32,
) -> Result<Raced, NoMemory>
    requires some { 1 ≤ _workers }
    requires passes { gate.now.passes ≡ _workers + 1 }
    requires clients { All (λ m. m.0.0 < gate.now.clients) _list.now }
    requires differ { (n : ℕ) → times n (numbers_of _list.now) ≤ 1 }
    requires gathered { IsGathered gate.now _list.now _workers _workers all.pass.closing all.pass.refused all.pass all.draws.items all.repeats.items }
    requires closed { MatchOption closing ((all.pass.closing ≡ None) × ((found : ℕ) × (all.pass.refused ≡ found ∷ []))) (λ c. (c.gate ≡ gate.now) × (all.pass.closing ≡ Some c.count)) }
    ensures pass { IfOk result (λ r. (r.pass.gate ≡ gate.now) × (length r.pass.numbers ≡ gate.now.passes) × IsReady r.pass) }
    ensures history { IfOk result (λ r. IsHistory r.pass × IsSome r.pass.closing) }
    ensures order { IfOk result (λ r. map (event_of _list.now) r.order ≡ history r.pass) }
    ensures once { IfOk result (λ r. (n : ℕ) → times n (submitted r.order) ≡ times n (numbers_of _list.now)) }
    ensures placed { IfOk result (λ r. r.placed ≡ map named (in_order gate.now.clients r.pass.values)) }
    // Placed are the submissions that stand before the closing.
    ensures in_time { IfOk result (λ r. (n : ℕ) → times n (numbers_of r.placed) ≡ times n (in_time r.order)) }
    // The history has one Submit of its client for each of the list, one Close, and no more.
    ensures each { IfOk result (λ r. (i : ℕ) → count_by (is_submit_of i) (history r.pass) ≡ count_by (λ m. m.0.0 == i) _list.now) }
    ensures one_close { IfOk result (λ r. count_by is_close (history r.pass) ≡ 1) }
{
    gate.settle(&mut all.pass);
    let Some(closing) = closing else {
        unreachable!()
    };
    let Share {
        mut pass,
        mut draws,
        repeats,
    } = all;
    draws.sort_by_key(|draw| draw.place)?;
    let order = spell(alloc, &draws, closing.count(), &repeats)?;
    let Ok(placed) = gate.collect(alloc, &mut pass, closing) else {
        return Err(NoMemory);
    };
    Ok(Raced {
        pass,
        order,
        placed: Placed::of(placed),
    })
}

/// Lets each pass submit its part of the list.
fn submit_all<R: Threads + Sync, H: Hold>(
    rt: &R,
    alloc: Global,
    gate: &Gate<u64>,
    passes: Vec<GatePass<u64>>,
    list: &[(ClientId, u64)],
    hold: &H,
) -> Result<Vec<Result<Share, NoMemory>>, NoMemory>
    requires { CanSubmit gate.now passes.items list.now }
    ensures each { IfOk result (λ v. vec_len v ≡ vec_len passes) }
    ensures shares { IfOk result (λ v. AreShares gate.now list.now (vec_len passes) v.items) }
{
    let workers = passes.len() as u32;
    let submit = |pass: GatePass<u64>| -> Result<Share, NoMemory>
        requires workers { (1 ≤ workers) × (workers ≤ 16) }
        requires fresh { (w : ℕ) × (w < workers) × IsFresh gate.now w pass }
        requires few { length list.now ≤ 512 }
        requires clients { All (λ m. m.0.0 < gate.now.clients) list.now }
        requires differ { (n : ℕ) → times n (numbers_of list.now) ≤ 1 }
        ensures { IfOk result (λ s. (w : ℕ) → IsFresh gate.entry.now w pass → IsShare gate.entry.now list.entry.now workers w s.pass s.draws.items s.repeats.items) }
    { submit_share(alloc, gate, pass, list, workers, hold) };
    let shares = map_vec(rt, passes, &submit)?;
    Ok(shares)
}

/// Lets each pass but the last submit its part of the list, and the last close the gate meanwhile. The list has clients, each with a
/// number of its own. With W passes that submit, pass w takes each W-th of the list, beginning with place w. Each calls `reached` with a
/// submission's place in the list before it makes it, and the closer calls it with 65535. Where a thread can't be started, its work is
/// done by another.
///
/// The order is the history of the gate, with each number of the list once.
pub fn race_on<R: Threads + Wait + Sync, H: Hold>(
    rt: &R,
    alloc: Global,
    gate: &Gate<u64>,
    mut passes: Vec<GatePass<u64>>,
    list: &[(ClientId, u64)],
    hold: &H,
) -> Result<Raced, NoMemory>
    requires workers { (2 ≤ gate.now.passes) × (gate.now.passes ≤ 17) }
    requires passes { vec_len passes ≡ gate.now.passes }
    requires fresh { (w : ℕ) → IfSome (slice_get passes.items w) (IsFresh gate.now w) }
    requires few { length list.now ≤ 512 }
    requires clients { All (λ m. m.0.0 < gate.now.clients) list.now }
    requires differ { (n : ℕ) → times n (numbers_of list.now) ≤ 1 }
    ensures pass { IfOk result (λ r. (r.pass.gate ≡ gate.now) × (length r.pass.numbers ≡ gate.now.passes) × IsReady r.pass) }
    ensures history { IfOk result (λ r. IsHistory r.pass × IsSome r.pass.closing) }
    ensures order { IfOk result (λ r. map (event_of list.now) r.order ≡ history r.pass) }
    ensures once { IfOk result (λ r. (n : ℕ) → times n (submitted r.order) ≡ times n (numbers_of list.now)) }
    ensures placed { IfOk result (λ r. r.placed ≡ map named (in_order gate.now.clients r.pass.values)) }
    // Placed are the submissions that stand before the closing.
    ensures in_time { IfOk result (λ r. (n : ℕ) → times n (numbers_of r.placed) ≡ times n (in_time r.order)) }
    // The history has one Submit of its client for each of the list, one Close, and no more.
    ensures each { IfOk result (λ r. (i : ℕ) → count_by (is_submit_of i) (history r.pass) ≡ count_by (λ m. m.0.0 == i) list.now) }
    ensures one_close { IfOk result (λ r. count_by is_close (history r.pass) ≡ 1) }
{
    let workers = passes.len() as u32 - 1;
    let Some(last) = passes.pop() else {
        unreachable!()
    };
    let submit = move || -> Result<Vec<Result<Share, NoMemory>>, NoMemory>
        requires { CanSubmit gate.now passes.items list.now }
        ensures each { IfOk result (λ v. vec_len v ≡ vec_len passes) }
        ensures shares { IfOk result (λ v. AreShares gate.entry.now list.entry.now (vec_len passes) v.items) }
    { submit_all(rt, alloc, gate, passes, list, hold) };
    let close = move || -> (GatePass<u64>, Option<Closing<u64>>)
        requires { (w : ℕ) × IsFresh gate.now w last }
        ensures closer { IsCloser gate.entry.now result.0.closing result.0.refused result.0 }
        ensures closed { MatchOption result.1 ((result.0.closing ≡ None) × ((found : ℕ) × (result.0.refused ≡ found ∷ []))) (λ c. (c.gate ≡ gate.entry.now) × (result.0.closing ≡ Some c.count)) }
    { close_gate(gate, last, hold) };
    let (closed, shares) = join(rt, close, submit);
    let (closer, closing) = closed;
    let all = gather(alloc, gate, closer, shares?, list, workers)?;
    finish(alloc, gate, all, closing, list, workers)
}
