// The workers of a live run begin, work and meet.
ghost use Rattle.std.specs.Prelude.{◌≡◌, ℕ, ◌+◌, ◌-◌, ◌<◌, ◌≤◌, List, [], Some, All, map, length, vec_len, slice_get, IfOk, IfSome};
ghost use Rattle.dn_board.specs.declared.letters.Letter.{Letter};
ghost use Rattle.dn_server.specs.Server.{ServerView};
ghost use Rattle.dn_turns.specs.Turns.{IsFresh};
ghost use Rattle.dn_crew.specs.Live.{server_of};
ghost use Rattle.dn_crew.specs.Workers.{IsAt, IsWorker, IsMet, ArePaired, CanBegin, AreDone};

use crate::working::{Worker, take_turns};
use dn_board::Board;
use dn_exchange::ServerCore;
use dn_io::Hold;
use dn_memory::NoMemory;
use dn_roster::Roster;
use dn_turns::{TurnPass, Turns};
use dn_wire::ServerId;
use std::alloc::Global;
use std::sync::Wait;
use std::thread::{Threads, map_vec};

/// The servers of these cores.
pub(crate) fn servers_of(alloc: Global, cores: &[ServerCore]) -> Result<Vec<ServerId>, NoMemory>
    ensures { IfOk result (λ v. v.items ≡ map server_of cores.now) }
{
    let mut servers = Vec::new(alloc);
    for core in cores {
        servers.push(core.number())?;
    }
    Ok(servers)
}

/// A worker for each pass and core of one place; the last are the first worker's.
pub(crate) fn pair_up(
    alloc: Global,
    mut passes: Vec<TurnPass<Board>>,
    mut cores: Vec<ServerCore>,
) -> Result<Vec<Worker>, NoMemory>
    requires { vec_len passes ≡ vec_len cores }
    ensures each { IfOk result (λ v. vec_len v ≡ vec_len cores) }
    ensures paired { IfOk result (λ v. ArePaired passes.items cores.items (vec_len cores) v.items) }
{
    let count = passes.len();
    let mut workers = Vec::new(alloc);
    for k in 0..count {
        let _ = k;
        let Some(pass) = passes.pop() else {
            unreachable!()
        };
        let Some(core) = cores.pop() else {
            unreachable!()
        };
        let inbox = Vec::new(alloc);
        workers.push(Worker { pass, core, inbox })?;
    }
    Ok(workers)
}

/// Lets each worker take so many turns.
pub(crate) fn work_all<R: Threads + Wait + Sync, H: Hold>(
    rt: &R,
    alloc: Global,
    lock: &Turns<Board>,
    roster: &Roster,
    servers: &[ServerId],
    workers: Vec<Worker>,
    t: u32,
    hold: &H,
) -> Result<Vec<Result<Worker, NoMemory>>, NoMemory>
    requires turns { t ≤ 64 }
    requires begin { (first : List Letter) × (cores : List ServerView) × CanBegin lock.now roster.now servers.now first cores workers.items }
    requires group { All (λ x. x.core.seat.roster ≡ roster.now) workers.items }
    ensures each { IfOk result (λ v. vec_len v ≡ vec_len workers) }
    ensures done { IfOk result (λ v. (first : List Letter) (cores : List ServerView) → CanBegin lock.now roster.now servers.now first cores workers.items
        → (k : ℕ) → IfSome (slice_get v.items k) (λ r. IfOk r (IsWorker lock.now roster.now servers.now first cores t k))) }
{
    let turns = |worker: Worker| -> Result<Worker, NoMemory>
        requires turns { t ≤ 64 }
        requires begins { (first : List Letter) × (w : ℕ) × IsAt lock.now roster.now servers.now first w worker.core 0 worker.pass worker.core worker.inbox.items }
        requires core { worker.core.seat.roster ≡ roster.now }
        ensures { IfOk result (λ x. (first : List Letter) (w : ℕ) → IsAt lock.entry.now roster.entry.now servers.entry.now first w worker.core 0 worker.pass worker.core worker.inbox.items
            → IsAt lock.entry.now roster.entry.now servers.entry.now first w worker.core t x.pass x.core x.inbox.items) }
    { take_turns(rt, alloc, lock, roster, servers, worker, t, hold) };
    let done = map_vec(rt, workers, &turns)?;
    Ok(done)
}

/// All passes as one.
pub(crate) fn meet_all(
    lock: &Turns<Board>,
    mut done: Vec<Result<Worker, NoMemory>>,
    _roster: &Roster,
    _servers: &[ServerId],
    _t: u32,
) -> Result<TurnPass<Board>, NoMemory>
    requires { (first : List Letter) × (cores : List ServerView) × AreDone lock.now _roster.now _servers.now first cores _t done.items }
    ensures { IfOk result (λ p. (first : List Letter) (cores : List ServerView) → AreDone lock.now _roster.now _servers.now first cores _t done.items
        → IsMet lock.now _roster.now _servers.now first cores _t (vec_len done - 1) p) }
{
    let Some(last) = done.pop() else {
        unreachable!()
    };
    let Worker {
        pass: mut met,
        core: _core,
        inbox: _inbox,
    } = last?;
    for worker in done {
        let Worker { pass, core, inbox } = worker?;
        drop(core);
        drop(inbox);
        lock.join(&mut met, pass);
    }
    Ok(met)
}
