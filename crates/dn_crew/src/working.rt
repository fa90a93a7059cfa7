// What one worker of a live run does.
ghost use Rattle.std.specs.Prelude.{◌≡◌, ℕ, ◌+◌, ◌<◌, ◌≤◌, ◌++◌, ◌∷◌, [], List, Some, None, length, IfOk, OnOk};
ghost use Rattle.dn_counts.specs.Numbers.{least};
ghost use Rattle.dn_turns.specs.Turns.{IsSamePass, IsTurnOf};
ghost use Rattle.dn_board.specs.Reads.{last_place};
ghost use Rattle.dn_board.specs.declared.letters.Letter.{Letter as LetterOf};
ghost use Rattle.dn_server.specs.Server.{ServerView};
ghost use Rattle.dn_crew.specs.Live.{letters_between, payloads_of};
ghost use Rattle.dn_crew.specs.Workers.{post_of, IsAt};

use crate::delivering::work;
use crate::reading::read_from;
use dn_board::{Board, Letter, Letters, Post};
use dn_exchange::ServerCore;
use dn_io::Hold;
use dn_memory::NoMemory;
use dn_roster::Roster;
use dn_turns::{TakeFault, Turn, TurnPass, Turns};
use dn_wire::{Bytes, ServerId};
use std::alloc::Global;
use std::sync::Wait;
use std::thread::Threads;

/// The place at which the worker of server 0 is before its first turn; those of the others follow.
const FIRST: u32 = 65536;

/// A worker: its pass, its server's core, and the payloads that it read in its last turn and hasn't handed to the core.
#[derive(Drop)]
pub(crate) struct Worker {
    pub pass: TurnPass<Board>,
    pub core: ServerCore,
    pub inbox: Vec<Bytes>,
}

/// Reads what is new, and gives a post with these letters.
fn post(
    alloc: Global,
    lock: &Turns<Board>,
    worker: &mut Worker,
    turn: Turn<Board>,
    made: Vec<Letter>,
) -> Result<(), NoMemory>
    requires turn { (worker.old.pass.lock ≡ lock.now) × (worker.old.pass.turn ≡ Some turn.log.posts) × (turn.lock ≡ worker.old.pass.lock) × (turn.seat ≡ worker.old.pass.seat) × (worker.old.pass.base ≡ Some turn.log.first) }
    ensures pass { OnOk result (IsSamePass worker.old.pass worker.new.pass × (worker.new.pass.drawn ≡ worker.old.pass.drawn) × (worker.new.pass.full ≡ worker.old.pass.full) × (worker.new.pass.turn ≡ None)) }
    ensures core { OnOk result (worker.new.core ≡ worker.old.core) }
    ensures seen { OnOk result (worker.new.pass.seen ≡ turn.log.posts ++ (least worker.old.pass.numbers, post_of worker.old.core (least worker.old.pass.numbers) turn.log.posts made.items) ∷ []) }
    ensures inbox { OnOk result (worker.new.inbox.items ≡ payloads_of (letters_between turn.log.first turn.log.posts worker.old.core.seat.number (last_place (least worker.old.pass.numbers) turn.log.posts) (length turn.log.posts + 1))) }
{
    let author = worker.core.number();
    let read = turn.log().last(worker.pass.number());
    let found = read_from(alloc, turn.log(), author, read);
    let letters = Letters::of(made);
    lock.give(
        &mut worker.pass,
        turn,
        Post {
            author,
            read,
            letters,
        },
    );
    worker.inbox = found?;
    Ok(())
}

/// Hands the core what was read in the turn before, and takes a turn, in which it gives what the core made.
fn take_turn<R: Threads + Wait + Sync>(
    rt: &R,
    alloc: Global,
    lock: &Turns<Board>,
    roster: &Roster,
    servers: &[ServerId],
    worker: &mut Worker,
) -> Result<(), NoMemory>
    requires pass { (worker.old.pass.lock ≡ lock.now) × (worker.old.pass.turn ≡ None) }
    requires core { worker.old.core.seat.roster ≡ roster.now }
    ensures { OnOk result ((first : List LetterOf) (w : ℕ) (v : ServerView) (turns : ℕ) → turns < 64
        → IsAt lock.now roster.now servers.now first w v turns worker.old.pass worker.old.core worker.old.inbox.items
        → IsAt lock.now roster.now servers.now first w v (turns + 1) worker.new.pass worker.new.core worker.new.inbox.items) }
{
    let made = work(rt, alloc, roster, servers, &mut worker.core, &worker.inbox)?;
    match lock.take(rt, &mut worker.pass) {
        Ok(turn) => {
            post(alloc, lock, worker, turn, made)?;
            Ok(())
        }
        Err(TakeFault::Full { tickets: _ }) => Ok(()),
        Err(TakeFault::NoMemory) => Err(NoMemory),
    }
}

/// Takes so many turns.
pub(crate) fn take_turns<R: Threads + Wait + Sync, H: Hold>(
    rt: &R,
    alloc: Global,
    lock: &Turns<Board>,
    roster: &Roster,
    servers: &[ServerId],
    mut worker: Worker,
    t: u32,
    hold: &H,
) -> Result<Worker, NoMemory>
    requires turns { t ≤ 64 }
    requires begins { (first : List LetterOf) × (w : ℕ) × IsAt lock.now roster.now servers.now first w worker.core 0 worker.pass worker.core worker.inbox.items }
    requires core { worker.core.seat.roster ≡ roster.now }
    ensures { IfOk result (λ x. (first : List LetterOf) (w : ℕ) → IsAt lock.now roster.now servers.now first w worker.core 0 worker.pass worker.core worker.inbox.items
        → IsAt lock.now roster.now servers.now first w worker.core t x.pass x.core x.inbox.items) }
{
    hold.reached(FIRST.saturating_add(worker.core.number().0));
    for turn in 0..t {
        let _ = turn;
        take_turn(rt, alloc, lock, roster, servers, &mut worker)?;
    }
    Ok(worker)
}
