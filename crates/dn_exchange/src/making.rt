// How a server is made.
ghost use Rattle.std.specs.Prelude.{◌≡◌, ◌<◌, ◌≤◌, ◌+◌, ◌*◌, [], true, map, length, IfOk, Some};
ghost use Rattle.dn_bits.specs.Bits.{below};
ghost use Rattle.dn_lms.specs.Key.{IsKey};
ghost use Rattle.dn_lms.specs.Signature.{public_key};
ghost use Rattle.dn_roster.specs.Roster.{key_of};
ghost use Rattle.dn_seal.specs.Dealt.{server, key_dealt_to, seed_dealt_to};
ghost use Rattle.dn_window.specs.Window.{opened};
ghost use Rattle.dn_server.specs.Parts.{live};
ghost use Rattle.dn_exchange.specs.Making.{IsGroup, first_run, first_server};

use crate::opening::expected_at;
use dn_cert::Chain;
use dn_layout::Layout;
use dn_memory::NoMemory;
use dn_pads::Seed;
use dn_seal::{Dealt, members_have_their_keys, pairs_have_their_seeds};
use dn_server::{Claims, Identity, Kept, Parts, Pasts, Places, Run, Stage};
use dn_window::Window;
use dn_wire::{Round, ServerId};
use std::alloc::Global;

/// The seeds that server `j` of a dealt group shares with the clients, by client.
fn seeds_of(alloc: Global, dealt: &Dealt, j: u32) -> Result<Vec<Seed>, NoMemory>
    requires { j < dealt.now.spec.servers }
    ensures { IfOk result (λ v. v.items ≡ map (λ i. seed_dealt_to dealt.now.spec i j) (below dealt.now.spec.clients)) }
{
    let mut seeds = Vec::with_capacity(alloc, dealt.spec.clients as usize)?;
    for i in 0..dealt.spec.clients {
        seeds.push(seed_of(dealt, i, j))?;
    }
    Ok(seeds)
}

/// The numbers of clients and servers of a dealt group.
fn numbers(dealt: &Dealt) -> (u32, u32)
    ensures clients { result.0 ≡ dealt.now.spec.clients }
    ensures servers { result.1 ≡ dealt.now.spec.servers }
    ensures group { IsGroup dealt.now.spec dealt.now.roster }
{
    (dealt.roster.clients(), dealt.roster.servers())
}

/// The seed that client `i` of a dealt group shares with server `j`.
fn seed_of(dealt: &Dealt, i: u32, j: u32) -> Seed
    requires client { i < dealt.now.spec.clients }
    requires server { j < dealt.now.spec.servers }
    ensures { result ≡ seed_dealt_to dealt.now.spec i j }
{
    pairs_have_their_seeds(dealt);
    dealt.seeds[i as usize * dealt.spec.servers as usize + j as usize]
}

/// A window that was never open.
fn shut_window(alloc: Global, clients: u32, expected: u32) -> Result<Window, NoMemory>
    ensures { IfOk result (λ w. w ≡ record (opened clients expected) { closed = true }) }
{
    let mut window = Window::start(alloc, clients, expected)?;
    window.close();
    Ok(window)
}

/// The record of round 0, which doesn't run.
fn no_run(alloc: Global, clients: u32, expected: u32) -> Result<Run, NoMemory>
    requires low { 1 ≤ clients }
    requires high { clients ≤ 512 }
    ensures { IfOk result (λ run. run ≡ first_run clients expected) }
{
    Ok(Run {
        r: Round(0),
        prev: Round(0),
        bits: Layout::first(alloc, clients)?.bits(),
        is_running: false,
        stage: Stage::Collecting,
        window: shut_window(alloc, clients, expected)?,
        claims: Claims::none(alloc, clients)?,
        kept: Kept::none(alloc),
        sum: None,
    })
}

/// Server `j` of a dealt group in it, with the key that is dealt to it.
fn identity_of(alloc: Global, dealt: &Dealt, j: ServerId) -> Result<Identity, NoMemory>
    requires { j.0 < dealt.now.spec.servers }
    ensures value { IfOk result (λ d. d ≡ record { roster = dealt.now.roster; number = j.0; key = key_dealt_to dealt.now.spec (server j.0); signed = [] }) }
    ensures key { IfOk result (λ d. IsKey d.key) }
{
    members_have_their_keys(dealt);
    let roster = dealt.roster.copy(alloc)?;
    let key = dealt.server_keys[j.0 as usize].copy(alloc)?;
    let identity = Identity::make(alloc, roster, j, key)?;
    let _leaves = identity.left();
    Ok(identity)
}

/// The parts of server `j` of a dealt group, before it has done anything.
pub(crate) fn make(
    alloc: Global,
    dealt: &Dealt,
    j: ServerId,
    workers: u32,
) -> Result<Parts, NoMemory>
    requires { j.0 < dealt.now.spec.servers }
    ensures value { IfOk result (λ p. live p ≡ first_server dealt.now.spec dealt.now.roster j.0 workers) }
    ensures group { IsGroup dealt.now.spec dealt.now.roster }
    ensures member { key_of dealt.now.roster (server j.0) ≡ Some (public_key (key_dealt_to dealt.now.spec (server j.0))) }
    ensures key { IfOk result (λ _. IsKey (key_dealt_to dealt.now.spec (server j.0))) }
{
    members_have_their_keys(dealt);
    let (clients, servers) = numbers(dealt);
    let expected = expected_at(clients, servers, j.0);
    Ok(Parts {
        alloc,
        workers,
        identity: identity_of(alloc, dealt, j)?,
        seeds: seeds_of(alloc, dealt, j.0)?,
        chain: Chain::make(alloc, clients)?,
        run: no_run(alloc, clients, expected)?,
        pasts: Pasts::none(alloc),
        opened: Places::none(alloc),
        evidence: Kept::none(alloc),
        challenged: Places::none(alloc),
        aside: 0,
        bend: None,
        bent: false,
    })
}
