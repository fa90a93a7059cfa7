// How the window of a server's round closes.
ghost use Rattle.std.specs.Prelude.{◌≡◌, ◌<◌, ◌≤◌, ◌++◌, ◌∷◌, [], List, IfOk, OnOk, false, length};
ghost use Rattle.std.specs.List.{filter_map};
ghost use Rattle.dn_record_types.specs.declared.statement.Statement.TheVariants as kinds;
ghost use Rattle.dn_server.specs.declared.act.Act.{Act as ActOf};
ghost use Rattle.dn_server.specs.Parts.{live};
ghost use Rattle.dn_exchange.specs.Ready.{CanList, CanClose};
ghost use Rattle.dn_exchange.specs.Closing.{entry_at, entries_of, inventory_of, Closes, Ticks, Shuts};

use dn_memory::NoMemory;
use dn_records::{Entries, Entry, Inventory, Statement, WordTold};
use dn_rounds::{Due, go_on, say_due};
use dn_server::{Act, Acts, Answer, Claims, Parts, Reason, RoundKind, Run, Stage};
use dn_wire::ClientId;
use std::alloc::Global;
use std::thread::Threads;

/// Appends the entry of client `i`, where it has a claim that was told Included.
fn put_entry(
    entries: &mut Vec<Entry>,
    alloc: Global,
    claims: &Claims,
    i: u32,
) -> Result<(), NoMemory>
    ensures { OnOk result (entries.new.items ≡ entries.old.items ++ filter_map (entry_at claims.now) (i ∷ [])) }
{
    let client = ClientId(i);
    let Some(claim) = claims.get(client) else {
        return Ok(());
    };
    if claim.told == WordTold::Late {
        return Ok(());
    }
    let signature = claim.signature.copy(alloc)?;
    entries.push(Entry {
        client,
        digest: claim.digest,
        signature,
    })?;
    Ok(())
}

/// The entries of the submissions of `n` clients that were told Included, in order of clients.
fn entries(alloc: Global, claims: &Claims, n: u32) -> Result<Vec<Entry>, NoMemory>
    requires { n ≡ length claims.now }
    ensures { IfOk result (λ v. v.items ≡ entries_of claims.now) }
{
    let mut entries = Vec::new(alloc);
    for i in 0..n {
        put_entry(&mut entries, alloc, claims, i)?;
    }
    Ok(entries)
}

/// The server's inventory of its round.
fn inventory(alloc: Global, run: &Run, n: u32) -> Result<Inventory, NoMemory>
    requires { n ≡ length run.now.claims }
    ensures { IfOk result (λ v. v ≡ inventory_of run.now) }
{
    Ok(Inventory {
        r: run.r,
        prev: run.prev,
        entries: Entries::of(entries(alloc, &run.claims, n)?),
    })
}

/// The window is closed: the server posts its inventory, and goes on.
fn close_out<R: Threads + Sync>(rt: &R, parts: &mut Parts) -> Result<Answer, NoMemory>
    requires { CanList parts.old }
    ensures { IfOk result (λ a. (did : List ActOf) × Closes (live parts.old) did (live parts.new) × (a ≡ Answer.Acts did)) }
{
    let alloc = parts.alloc;
    let inventory = inventory(alloc, &parts.run, parts.identity.roster().clients())?;
    let mut acts = Vec::new(alloc);
    acts.push(Act::Closed {
        r: parts.run.r,
        count: parts.run.window.count(),
    })?;
    let s = Statement::Inventory(inventory);
    let due = say_due(parts, &mut acts, RoundKind::Inventory, s, Stage::Listed)?;
    match due {
        Due::Opposed => {}
        Due::Stuck => {}
        Due::Said => go_on(rt, parts, &mut acts)?,
    }
    Ok(Answer::Acts(Acts::of(acts)))
}

/// Counts a tick of time, which may close the window.
pub(crate) fn tick<R: Threads + Sync>(rt: &R, parts: &mut Parts) -> Result<Answer, NoMemory>
    requires { CanClose parts.old }
    ensures { IfOk result (λ a. Ticks (live parts.old) a (live parts.new)) }
{
    if !parts.run.window.tick() {
        return Ok(Answer::Acts(Acts::of(Vec::new(parts.alloc))));
    }
    close_out(rt, parts)
}

/// Closes the window.
pub(crate) fn close<R: Threads + Sync>(rt: &R, parts: &mut Parts) -> Result<Answer, NoMemory>
    requires { CanClose parts.old }
    ensures { IfOk result (λ a. Shuts (live parts.old) a (live parts.new)) }
{
    if !parts.run.window.close() {
        return Ok(Answer::Ignored(Reason::Shut));
    }
    close_out(rt, parts)
}
