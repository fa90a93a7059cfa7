ghost use Rattle.std.specs.Prelude.{◌≡◌, ℕ, ◌-◌, ◌<◌, ◌≤◌, List, [], None, Some, All, map, length, vec_len, slice_get, IfOk, IfSome, OnOk};
ghost use Rattle.dn_board.specs.declared.letters.Letter.{Letter};
ghost use Rattle.dn_board.specs.Reads.{AreReads};
ghost use Rattle.dn_turns.specs.Logs.{Follows, GrowsBelow};
ghost use Rattle.dn_turns.specs.Rule.{limit};
ghost use Rattle.dn_crew.specs.Live.{server_of, posts_under, Gives, AreFresh};
ghost use Rattle.dn_crew.specs.Workers.{AllBy, IsMet};

use crate::lived::Lived;
use crate::meeting::{meet_all, pair_up, servers_of, work_all};
use crate::posts::Posts;
use dn_board::Board;
use dn_exchange::ServerCore;
use dn_io::Hold;
use dn_memory::NoMemory;
use dn_roster::Roster;
use dn_turns::{TakeFault, TurnPass, Turns};
use std::alloc::Global;
use std::sync::Wait;
use std::thread::Threads;

/// What a pass that stands for all finds on the board.
fn read_log<R: Wait>(
    rt: &R,
    alloc: Global,
    lock: &Turns<Board>,
    mut pass: TurnPass<Board>,
) -> Result<Lived, NoMemory>
    requires lock { (pass.lock ≡ lock.now) × (pass.turn ≡ None) }
    requires all { length pass.numbers ≡ lock.now.passes }
    requires few { (pass.full ≡ None) × (pass.drawn < limit) }
    ensures pass { IfOk result (λ r. (r.pass.lock ≡ pass.lock) × (r.pass.numbers ≡ pass.numbers) × (r.pass.base ≡ pass.base) × (r.pass.turn ≡ None)) }
    ensures log { IfOk result (λ r. r.pass.seen ≡ r.posts) }
    ensures follows { IfOk result (λ r. Follows pass.numbers pass.seen r.posts × GrowsBelow lock.now.passes pass.seen r.posts) }
    ensures first { IfOk result (λ r. IfSome r.pass.base (λ letters. r.first ≡ length letters)) }
    ensures reads { IfOk result (λ r. AreReads r.posts) }
{
    match lock.take(rt, &mut pass) {
        Ok(turn) => {
            let first = turn.log().first().len() as u64;
            let posts = Posts::of(alloc, turn.log().posts());
            turn.log().reads();
            lock.leave(&mut pass, turn);
            let posts = posts?;
            Ok(Lived { pass, first, posts })
        }
        Err(TakeFault::Full { tickets: _ }) => unreachable!(),
        Err(TakeFault::NoMemory) => Err(NoMemory),
    }
}

/// Lets the workers take their turns, until all passes have met.
fn meet_workers<R: Threads + Wait + Sync, H: Hold>(
    rt: &R,
    alloc: Global,
    lock: &Turns<Board>,
    passes: Vec<TurnPass<Board>>,
    roster: &Roster,
    cores: Vec<ServerCore>,
    t: u32,
    hold: &H,
) -> Result<TurnPass<Board>, NoMemory>
    requires turns { t ≤ 64 }
    requires cores { (1 ≤ vec_len cores) × (vec_len cores ≤ 16) }
    requires passes { (lock.now.passes ≡ vec_len cores) × (vec_len passes ≡ vec_len cores) }
    requires fresh { (first : List Letter) × AreFresh lock.now first passes.items }
    requires group { All (λ v. v.seat.roster ≡ roster.now) cores.items }
    ensures { IfOk result (λ p. (first : List Letter) → AreFresh lock.now first passes.items → IsMet lock.now roster.now (map server_of cores.items) first cores.items t (vec_len cores - 1) p) }
{
    let each = servers_of(alloc, &cores)?;
    let servers = each.as_slice();
    let workers = pair_up(alloc, passes, cores)?;
    let done = work_all(rt, alloc, lock, roster, servers, workers, t, hold)?;
    let pass = meet_all(lock, done, roster, servers, t)?;
    Ok(pass)
}

/// Lets a worker for each core take `t` turns on the board. Pass i works with core i. In a turn a worker reads the entries that it hasn't
/// read yet, and gives a post with the letters that its core made of those that it had read in its earlier turns. The core works outside
/// the turns; a message for which it is early is handed to it no second time. Each worker calls `reached` with 65536 and the number of its
/// server before its first turn. Where a thread can't be started, its work is done by another.
///
/// The letters of a post are those to the cores' servers.
pub fn live_on<R: Threads + Wait + Sync, H: Hold>(
    rt: &R,
    alloc: Global,
    lock: &Turns<Board>,
    passes: Vec<TurnPass<Board>>,
    roster: &Roster,
    cores: Vec<ServerCore>,
    t: u32,
    hold: &H,
) -> Result<Lived, NoMemory>
    requires turns { (1 ≤ t) × (t ≤ 64) }
    requires cores { (1 ≤ vec_len cores) × (vec_len cores ≤ 16) }
    requires passes { (lock.now.passes ≡ vec_len cores) × (vec_len passes ≡ vec_len cores) }
    requires fresh { (first : List Letter) × AreFresh lock.now first passes.items }
    requires group { All (λ v. v.seat.roster ≡ roster.now) cores.items }
    ensures pass { IfOk result (λ r. (r.pass.lock ≡ lock.now) × (length r.pass.numbers ≡ lock.now.passes) × (r.pass.turn ≡ None)) }
    ensures first { IfOk result (λ r. (first : List Letter) → AreFresh lock.now first passes.items → (r.pass.base ≡ Some first) × (r.first ≡ length first)) }
    ensures log { IfOk result (λ r. r.pass.seen ≡ r.posts) }

    // The log has so many posts under each pass's number, which are its server's, and no others.
    ensures turns { IfOk result (λ r. (i : ℕ) → IfSome (slice_get cores.items i) (λ v. length (posts_under i r.posts) ≡ t)) }
    ensures author { IfOk result (λ r. (i : ℕ) → IfSome (slice_get cores.items i) (λ v. AllBy (server_of v) (posts_under i r.posts))) }
    ensures others { IfOk result (λ r. GrowsBelow lock.now.passes [] r.posts) }

    // Each post has the letters that its core makes of those to it in the entries from what it had read last to below what it has read.
    ensures letters { IfOk result (λ r. (first : List Letter) → AreFresh lock.now first passes.items
        → (i : ℕ) → IfSome (slice_get cores.items i) (λ v. Gives roster.now (map server_of cores.items) first r.posts v (posts_under i r.posts))) }
    ensures reads { IfOk result (λ r. AreReads r.posts) }
{
    let pass = meet_workers(rt, alloc, lock, passes, roster, cores, t, hold)?;
    let lived = read_log(rt, alloc, lock, pass)?;
    Ok(lived)
}
