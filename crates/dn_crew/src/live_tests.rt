// A live run of two servers of a small group.
ghost use Rattle.std.specs.Prelude.{◌≡◌, ℕ, ◌<◌, ◌≤◌, List, [], All, length, IfOk, IfSome, vec_len, slice_get};
ghost use Rattle.dn_board.specs.declared.letters.Letter.{Letter as LetterOf};
ghost use Rattle.dn_roster.specs.Group.{IsWithinLimits};
ghost use Rattle.dn_crew.specs.Live.{AreFresh};

use crate::delivering::put_answer;
use crate::tests::Meeting;
use crate::{Lived, live_on};
use dn_board::{Board, Letter, Post};
use dn_exchange::ServerCore;
use dn_memory::NoMemory;
use dn_roster::GroupSpec;
use dn_seal::{Dealt, deal};
use dn_turns::{TurnPass, Turns};
use dn_wire::{Round, ServerId};
use std::alloc::Global;
use std::sync::atomic::Ordering::SeqCst;
use std::test::Fail;
use std::thread::Threads;

/// A group of one client and two servers, with the shortest keys.
fn group() -> GroupSpec
    ensures { IsWithinLimits result × (result.servers ≡ 2) }
{
    GroupSpec {
        version: 1,
        clients: 1,
        servers: 2,
        ots: 2,
        client_lms: 5,
        server_lms: 5,
        seed: [7; 32],
    }
}

/// A server that closed the window of round 1, and its inventory as a letter to the other.
fn closed<R: Threads + Sync>(
    rt: &R,
    alloc: Global,
    dealt: &Dealt,
    j: ServerId,
    first: &mut Vec<Letter>,
) -> Result<ServerCore, NoMemory>
    requires { (dealt.now.spec.servers ≡ 2) × (j.0 < 2) }
    ensures { IfOk result (λ core. core.seat.roster ≡ dealt.now.roster) }
{
    let mut core = ServerCore::make(alloc, dealt, j, 1)?;
    core.open_round(Round(1))?;
    let answer = core.close(rt)?;
    put_answer(alloc, &[ServerId(0), ServerId(1)], j, &answer, first)?;
    Ok(core)
}

/// The two servers of a group, and their inventories.
fn both_closed<R: Threads + Sync>(
    rt: &R,
    alloc: Global,
    dealt: &Dealt,
) -> Result<(Vec<ServerCore>, Vec<Letter>), NoMemory>
    requires { dealt.now.spec.servers ≡ 2 }
    ensures two { IfOk result (λ r. vec_len r.0 ≡ 2) }
    ensures group { IfOk result (λ r. All (λ v. v.seat.roster ≡ dealt.now.roster) r.0.items) }
{
    let mut first = Vec::new(alloc);
    let mut cores = Vec::new(alloc);
    for j in 0..2 {
        let core = closed(rt, alloc, dealt, ServerId(j), &mut first)?;
        cores.push(core)?;
    }
    Ok((cores, first))
}

/// The lock of a board with these letters, and its two passes.
fn board_of(
    alloc: Global,
    first: Vec<Letter>,
) -> Result<(Turns<Board>, Vec<TurnPass<Board>>), NoMemory>
    ensures lock { IfOk result (λ r. (r.0.passes ≡ 2) × (vec_len r.1 ≡ 2)) }
    ensures fresh { IfOk result (λ r. AreFresh r.0 first.items r.1.items) }
{
    let board = Board::make(alloc, first)?;
    Turns::make(alloc, board, 2)
}

/// The letters of a server's second post, which are what it made of entry 0; nothing where it has fewer posts.
fn second<'a>(posts: &'a [(u32, Post)], number: u32) -> Option<&'a [Letter]> {
    let mut count = 0u32;
    for (by, post) in posts {
        if *by == number {
            count = count.saturating_add(1);
            if count == 2 {
                return Some(post.letters.get());
            }
        }
    }
    None
}

/// How many posts had read more than the entries before them.
fn too_far(posts: &[(u32, Post)]) -> u32 {
    let mut count = 0u32;
    for (at, (_, post)) in posts.iter().enumerate() {
        if post.read > at as u64 {
            count = count.saturating_add(1);
        }
    }
    count
}

#[test]
fn two_servers_of_a_live_run_wait_for_each_other(rt: HostRuntime) -> Result<(), Fail> {
    let alloc: Global = rt.alloc();
    let dealt = deal(alloc, &group())?;
    let (cores, first) = both_closed(&rt, alloc, &dealt)?;
    assert_eq!(rt; first.len(), 2);
    let (lock, passes) = board_of(alloc, first)?;
    let hold = Meeting::both_ways(65536, 65537);
    let lived = live_on(&rt, alloc, &lock, passes, &dealt.roster, cores, 12, &hold)?;
    let Lived {
        pass: _pass,
        first,
        posts,
    } = lived;
    assert_eq!(rt; hold.missed.load(SeqCst), 0);
    assert_eq!(rt; (first, posts.get().len()), (2, 24));
    assert_eq!(rt; too_far(posts.get()), 0);
    // Each has the other's inventory from entry 0, and commits; it reveals besides where it has the other's commitment too by then.
    assert!(rt; !second(posts.get(), 0).ok_or("12 posts")?.is_empty());
    assert!(rt; !second(posts.get(), 1).ok_or("12 posts")?.is_empty());
    Ok(())
}
