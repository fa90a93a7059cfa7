// What members do on a script's lines: an honest one by an event, a corrupt one as its puppet does.
ghost use Rattle.std.specs.Prelude.{◌≡◌};

use crate::run::Run;
use dn_memory::NoMemory;
use dn_puppets::ServerCall;
use dn_report::Event;
use dn_wire::{Bytes, ClientId, MAX_TEXT, Member, Round, ServerId};
use dn_world::World;
use std::thread::Threads;

/// A text joins a client's queue.
pub fn say<R: Threads + Sync>(
    rt: &R,
    run: &mut Run,
    client: ClientId,
    text: &Bytes,
) -> Result<(), NoMemory>
    ensures { run.new.group ≡ run.old.group }
{
    if !run.is_corrupt(Member::Client(client)) {
        let text = text.copy(run.alloc)?;
        return run.step(rt, Event::Say { client, text });
    }
    if text.get().len() <= MAX_TEXT as usize {
        run.puppets.say(client, text.get())?;
    }
    Ok(())
}

/// A client submits for a round to a server.
pub fn submit<R: Threads + Sync>(
    rt: &R,
    run: &mut Run,
    client: ClientId,
    server: ServerId,
    r: Round,
) -> Result<(), NoMemory>
    ensures { run.new.group ≡ run.old.group }
{
    if !run.is_corrupt(Member::Client(client)) {
        return run.step(rt, Event::Submit { client, server, r });
    }
    let mut posts = Vec::new(run.alloc);
    run.puppets
        .submit(&run.world, client, server, r, &mut posts)?;
    run.inject(rt, posts)
}

/// A client leaves. The messages of a corrupt one are dropped too.
pub fn leave<R: Threads + Sync>(rt: &R, run: &mut Run, client: ClientId) -> Result<(), NoMemory>
    ensures { run.new.group ≡ run.old.group }
{
    run.step(rt, Event::Leave { client })?;
    run.puppets.leave(client);
    Ok(())
}

/// The event of a call of an honest server.
fn event_of(server: ServerId, call: ServerCall) -> Event {
    match call {
        ServerCall::Open(r) => Event::OpenRound { server, r },
        ServerCall::Close => Event::Close { server },
        ServerCall::Abandon => Event::Abandon { server },
        ServerCall::Tick => Event::Tick,
    }
}

/// A server is called.
pub fn call<R: Threads + Sync>(
    rt: &R,
    run: &mut Run,
    server: ServerId,
    call: ServerCall,
) -> Result<(), NoMemory>
    ensures { run.new.group ≡ run.old.group }
{
    if !run.is_corrupt(Member::Server(server)) {
        return run.step(rt, event_of(server, call));
    }
    let mut posts = Vec::new(run.alloc);
    run.puppets.call(rt, &run.world, server, call, &mut posts)?;
    run.inject(rt, posts)
}

/// A unit of time passes at the honest servers, and then at the corrupt ones.
pub fn tick<R: Threads + Sync>(rt: &R, run: &mut Run) -> Result<(), NoMemory>
    ensures { run.new.group ≡ run.old.group }
{
    run.step(rt, Event::Tick)?;
    let mut posts = Vec::new(run.alloc);
    run.puppets.tick(rt, &run.world, &mut posts)?;
    run.inject(rt, posts)
}

/// The place at which an honest client accuses first: the least jammed bit, or else the first place of its slot, or else 0.
fn first_place(world: &World, client: ClientId, r: Round) -> u32 {
    match world.client(client) {
        Some(core) => match core.first_jammed(r) {
            Some(k) => k,
            None => core.slot_start(r).unwrap_or(0),
        },
        None => 0,
    }
}

/// A client accuses at place `k` of a round, or at the first place that it has.
pub fn accuse<R: Threads + Sync>(
    rt: &R,
    run: &mut Run,
    client: ClientId,
    r: Round,
    k: Option<u32>,
) -> Result<(), NoMemory>
    ensures { run.new.group ≡ run.old.group }
{
    if run.is_corrupt(Member::Client(client)) {
        let mut posts = Vec::new(run.alloc);
        run.puppets.accuse(&run.world, client, r, k, &mut posts)?;
        return run.inject(rt, posts);
    }
    let k = match k {
        Some(k) => k,
        None => first_place(&run.world, client, r),
    };
    run.step(rt, Event::Accuse { client, r, k })
}

/// A place is judged: `k`, or that of the last accusation of the round, or else 0.
pub fn judge<R: Threads + Sync>(
    rt: &R,
    run: &mut Run,
    r: Round,
    k: Option<u32>,
) -> Result<(), NoMemory>
    ensures { run.new.group ≡ run.old.group }
{
    let k = match k {
        Some(k) => k,
        None => run.world.last_accused(r).unwrap_or(0),
    };
    run.step(rt, Event::Judge { r, k })
}
