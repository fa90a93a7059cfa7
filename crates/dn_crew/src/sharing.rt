// What one worker of a race does.
ghost use Rattle.std.specs.Prelude.{◌≡◌, ℕ, ◌+◌, ◌<◌, ◌≤◌, ◌∷◌, [], None, IfOk, OnOk, All, length};
ghost use Rattle.dn_counts.specs.Counts.{times};
ghost use Rattle.dn_gate.specs.Pass.{IsReady, IsFresh};
ghost use Rattle.dn_crew.specs.Race.{numbers_of, client_of};
ghost use Rattle.dn_crew.specs.Shares.{IsRecorded, IsShare, counted};

use dn_gate::{Gate, GatePass, Told};
use dn_io::Hold;
use dn_memory::NoMemory;
use dn_told::WindowTold;
use dn_wire::ClientId;
use std::alloc::Global;

/// The control word of a gate that was closed before any draw.
const CLOSED: u64 = 1 << 32;

/// A draw: its place, the number that was submitted, and what it was told.
#[derive(Clone, Copy)]
pub(crate) struct Drawn {
    pub place: u64,
    pub number: u64,
    pub told: WindowTold,
}

/// What passes did: their draws, and the numbers of their repeats.
#[derive(Drop)]
pub(crate) struct Share {
    pub pass: GatePass<u64>,
    pub draws: Vec<Drawn>,
    pub repeats: Vec<u64>,
}

/// Submits a member of the list.
fn submit_one(
    gate: &Gate<u64>,
    share: &mut Share,
    member: (ClientId, u64),
    _list: &[(ClientId, u64)],
    _worker: u32,
) -> Result<(), NoMemory>
    requires gate { (share.old.pass.gate ≡ gate.now) × (member.0.0 < gate.now.clients) }
    requires ready { IsReady share.old.pass × (share.old.pass.numbers ≡ _worker ∷ []) }
    requires member { client_of _list.now member.1 ≡ member.0.0 }
    requires recorded { IsRecorded _list.now _worker share.old.pass share.old.draws.items share.old.repeats.items }
    ensures pass { (share.new.pass.gate ≡ share.old.pass.gate) × IsReady share.new.pass × (share.new.pass.numbers ≡ share.old.pass.numbers) }
    ensures open { (share.new.pass.closing ≡ share.old.pass.closing) × (share.new.pass.refused ≡ share.old.pass.refused) }
    ensures recorded { OnOk result (IsRecorded _list.now _worker share.new.pass share.new.draws.items share.new.repeats.items) }
    ensures counted { OnOk result ((h : ℕ → ℕ) → counted h share.new.draws.items share.new.repeats.items ≡ counted h share.old.draws.items share.old.repeats.items + h member.1) }
{
    let (client, number) = member;
    match gate.submit(&mut share.pass, client, number) {
        Told::Included { place } => {
            share.draws.push(Drawn {
                place: u64::from(place),
                number,
                told: WindowTold::Included,
            })?;
            Ok(())
        }
        Told::Late { seen, back: _ } => {
            share.draws.push(Drawn {
                place: seen - CLOSED,
                number,
                told: WindowTold::Late,
            })?;
            Ok(())
        }
        Told::Repeat { back: _ } => {
            share.repeats.push(number)?;
            Ok(())
        }
    }
}

/// Submits each member whose place in the list leaves the worker's number over the number of workers.
pub(crate) fn submit_share<H: Hold>(
    alloc: Global,
    gate: &Gate<u64>,
    pass: GatePass<u64>,
    list: &[(ClientId, u64)],
    workers: u32,
    hold: &H,
) -> Result<Share, NoMemory>
    requires workers { (1 ≤ workers) × (workers ≤ 16) }
    requires fresh { (w : ℕ) × (w < workers) × IsFresh gate.now w pass }
    requires few { length list.now ≤ 512 }
    requires clients { All (λ m. m.0.0 < gate.now.clients) list.now }
    requires differ { (n : ℕ) → times n (numbers_of list.now) ≤ 1 }
    ensures { IfOk result (λ s. (w : ℕ) → IsFresh gate.now w pass → IsShare gate.now list.now workers w s.pass s.draws.items s.repeats.items) }
{
    let worker = pass.number();
    let mut share = Share {
        pass,
        draws: Vec::new(alloc),
        repeats: Vec::new(alloc),
    };
    for at in 0..list.len() {
        if at as u32 % workers == worker {
            hold.reached(at as u32);
            submit_one(gate, &mut share, list[at], list, worker)?;
        }
    }
    Ok(share)
}
