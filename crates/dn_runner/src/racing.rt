// Races: clients submit in threads to a server's window while it closes.
ghost use Rattle.std.specs.Prelude.{◌≡◌, ◌<◌, ◌≤◌, ◌==◌, All, IfOk, OnOk};
ghost use Rattle.std.specs.List.{list_any};
ghost use Rattle.dn_wire.specs.declared.limits.TheConstants.{MAX_RACE_WORKERS};
ghost use Rattle.dn_runner.specs.Racing.{CanRace};

use crate::run::Run;
use dn_crew::{Crew, Order, Ordered, Raced};
use dn_gate::Gate;
use dn_memory::NoMemory;
use dn_report::{Event, IgnoredWord, Outcome};
use dn_run_report::Shown;
use dn_wire::{ClientId, MAX_RACE_LIST, MAX_RACE_WORKERS, Member, Round, ServerId};
use dn_world::World;
use std::alloc::Global;
use std::sync::Wait;
use std::thread::Threads;

/// The round whose window is open at an honest server.
fn open_round(world: &World, server: ServerId) -> Option<Round> {
    let core = world.server(server)?;
    if core.is_open() {
        Some(core.last_opened())
    } else {
        None
    }
}

/// The number of the message that an outcome sends.
fn sent_in(outcome: &Outcome) -> Option<u64> {
    match outcome {
        Outcome::Sent { id, .. } => Some(*id),
        _ => None,
    }
}

/// The number of the message that the last event sent; none where it sent none, or the flight was full.
fn last_sent(world: &World) -> Option<u64> {
    let step = world.history().last()?;
    step.outcomes.get().iter().find_map(sent_in)
}

/// Whether a message's number is in the list of a race.
fn has_number(list: &[(ClientId, u64)], id: u64) -> bool
    ensures { result ≡ list_any (λ m. m.1 == id) list.now }
{
    list.iter().any(|each| each.1 == id)
}

/// Adds a client with its message's number to the list of a race. The line of a race names members of the group, at most 512 of them, and
/// each message has a number of its own.
fn add(
    list: &mut Vec<(ClientId, u64)>,
    clients: u32,
    client: ClientId,
    id: u64,
) -> Result<(), NoMemory>
    requires { CanRace clients list.old.items }
    ensures { OnOk result (CanRace clients list.new.items) }
{
    if !has_number(list, id) && client.0 < clients && list.len() < MAX_RACE_LIST as usize {
        list.push((client, id))?;
    }
    Ok(())
}

/// A client submits to a server, and joins the list if its submission is then in flight.
fn submit<R: Threads + Sync>(
    rt: &R,
    run: &mut Run,
    client: ClientId,
    server: ServerId,
    r: Round,
    list: &mut Vec<(ClientId, u64)>,
) -> Result<(), NoMemory>
    requires { CanRace run.old.group.spec.clients list.old.items }
    ensures group { run.new.group ≡ run.old.group }
    ensures list { OnOk result (CanRace run.old.group.spec.clients list.new.items) }
{
    run.step(rt, Event::Submit { client, server, r })?;
    match last_sent(&run.world) {
        Some(id) => add(list, run.group.clients, client, id),
        None => Ok(()),
    }
}

/// The clients submit to a server for a round, in their order. Gives those whose submissions are then in flight, each with its message's
/// number.
fn submit_all<R: Threads + Sync>(
    rt: &R,
    run: &mut Run,
    server: ServerId,
    r: Round,
    clients: &[Member],
) -> Result<Vec<(ClientId, u64)>, NoMemory>
    ensures group { run.new.group ≡ run.old.group }
    ensures list { IfOk result (λ list. CanRace run.old.group.spec.clients list.items) }
{
    let mut list = Vec::new(run.alloc);
    for member in clients {
        if let Member::Client(client) = member {
            submit(rt, run, *client, server, r, &mut list)?;
        }
    }
    Ok(list)
}

/// The clients that have a claim at a server already.
fn claimed(run: &Run, server: ServerId) -> Result<Vec<ClientId>, NoMemory>
    ensures { IfOk result (λ v. All (λ c. c.0 < run.now.group.spec.clients) v.items) }
{
    let mut claimed = Vec::new(run.alloc);
    let Some(core) = run.world.server(server) else {
        return Ok(claimed);
    };
    for i in 0..run.group.clients {
        if core.has(ClientId(i)) {
            claimed.push(ClientId(i))?;
        }
    }
    Ok(claimed)
}

/// The order in which workers of the crew submit to the server's gate while one closes it.
fn order_of<R: Threads + Wait + Sync, C: Crew>(
    rt: &R,
    run: &Run,
    crew: &mut C,
    server: ServerId,
    workers: u32,
    list: &[(ClientId, u64)],
) -> Result<Order, NoMemory>
    requires list { CanRace run.now.group.spec.clients list.now }
    requires workers { (1 ≤ workers) × (workers ≤ MAX_RACE_WORKERS) }
{
    let before = claimed(run, server)?;
    let (gate, passes) = Gate::make(run.alloc, run.group.clients, &before, workers + 1)?;
    let Raced { order, .. } = crew.race(rt, run.alloc, &gate, passes, list)?;
    Ok(order)
}

/// The submissions are delivered and the server closes its window, in an order.
fn follow<R: Threads + Sync>(
    rt: &R,
    run: &mut Run,
    server: ServerId,
    order: &[Ordered],
) -> Result<(), NoMemory>
    ensures { run.new.group ≡ run.old.group }
{
    for ordered in order {
        let event = match *ordered {
            Ordered::Submit(id) => Event::Deliver { id },
            Ordered::Close => Event::Close { server },
        };
        run.step(rt, event)?;
    }
    Ok(())
}

/// Clients race for a server's window in so many workers, while one more closes it.
pub fn race<R: Threads + Wait + Sync, C: Crew>(
    rt: &R,
    run: &mut Run,
    crew: &mut C,
    server: ServerId,
    workers: u32,
    clients: &[Member],
) -> Result<(), NoMemory>
    ensures { run.new.group ≡ run.old.group }
{
    // The line of a race has so many.
    if workers < 1 || MAX_RACE_WORKERS < workers {
        return Ok(());
    }
    run.mark(Shown::Race { server, workers })?;
    let Some(r) = open_round(&run.world, server) else {
        return run.mark(Shown::Ignored(IgnoredWord::Shut));
    };
    let list = submit_all(rt, run, server, r, clients)?;
    let order = order_of(rt, run, crew, server, workers, &list)?;
    follow(rt, run, server, order.get())
}
