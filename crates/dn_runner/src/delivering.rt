// Messages that arrive, and messages that are lost.
ghost use Rattle.std.specs.Prelude.{◌≡◌};

use crate::run::Run;
use dn_memory::NoMemory;
use dn_report::Event;
use dn_wire::{MAX_FLIGHT, Member};
use dn_world::World;
use std::alloc::Global;
use std::thread::Threads;

/// The numbers of all messages in flight, in order.
pub fn in_flight(alloc: Global, world: &World) -> Result<Vec<u64>, NoMemory> {
    let flight = world.flight();
    let mut ids = Vec::new(alloc);
    let mut next = flight.first();
    for _ in 0..MAX_FLIGHT {
        match next {
            Some(id) => {
                ids.push(id)?;
                next = flight.after(id);
            }
            None => break,
        }
    }
    Ok(ids)
}

/// Delivers a message, and has a corrupt member that it reaches do what it does then.
pub fn deliver<R: Threads + Sync>(rt: &R, run: &mut Run, id: u64) -> Result<(), NoMemory>
    ensures { run.new.group ≡ run.old.group }
{
    let found = run.world.flight().get(id);
    run.step(rt, Event::Deliver { id })?;
    let Some(msg) = found else {
        return Ok(());
    };
    let mut posts = Vec::new(run.alloc);
    run.puppets
        .reach(rt, &run.world, msg.to, msg.payload, &mut posts)?;
    run.inject(rt, posts)
}

/// Delivers each message in flight, by number, but those that would be early.
pub fn flow<R: Threads + Sync>(rt: &R, run: &mut Run) -> Result<(), NoMemory>
    ensures { run.new.group ≡ run.old.group }
{
    let ids = in_flight(run.alloc, &run.world)?;
    for id in &ids {
        if !run.world.is_early(*id) {
            deliver(rt, run, *id)?;
        }
    }
    Ok(())
}

/// Whether a message in flight goes from one member to another.
fn is_between(world: &World, id: u64, from: Member, to: Member) -> bool {
    match world.flight().get(id) {
        Some(msg) => msg.from == from && msg.to == to,
        None => false,
    }
}

/// Loses each message in flight from one member to another, by number.
pub fn cut<R: Threads + Sync>(
    rt: &R,
    run: &mut Run,
    from: Member,
    to: Member,
) -> Result<(), NoMemory>
    ensures { run.new.group ≡ run.old.group }
{
    let ids = in_flight(run.alloc, &run.world)?;
    for id in &ids {
        if is_between(&run.world, *id, from, to) {
            run.step(rt, Event::Lose { id: *id })?;
        }
    }
    Ok(())
}
