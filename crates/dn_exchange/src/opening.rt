// How a server opens a round.
ghost use Rattle.std.specs.Prelude.{◌≡◌, ◌<◌, ◌≤◌, ◌+◌, ◌↔◌, ◌⊎◌, ◌^◌, false, length, IfOk, IsTrue};
ghost use Rattle.dn_lms.specs.Key.{leaf_count};
ghost use Rattle.dn_exchange.specs.Opening.{Opens, IsOld, fresh_run, expected_at, IsSmall};
ghost use Rattle.dn_server.specs.Parts.{live};

use dn_memory::NoMemory;
use dn_server::{Act, Answer, Claims, Kept, Parts, Reason, Run, Stage, does_one};
use dn_window::Window;
use dn_wire::Round;
use std::alloc::Global;

/// How many of so many clients send to server `j`, of so many servers.
pub(crate) fn expected_at(clients: u32, servers: u32, j: u32) -> u32
    requires { 1 ≤ servers }
    ensures count { result ≡ expected_at clients servers j }
    ensures few { result ≤ clients }
{
    let mut count = 0;
    for i in 0..clients {
        if i % servers == j {
            count += 1;
        }
    }
    count
}

/// Whether a round was opened before, or a certificate of it is held.
fn is_old(parts: &Parts, r: Round) -> bool
    ensures { IsTrue result ↔ IsOld (live parts.now) r }
{
    r.0 <= parts.run.r.0 || parts.chain.body(r).is_some()
}

/// The record of a round that is opened now.
fn opened_run(
    alloc: Global,
    clients: u32,
    expected: u32,
    r: u64,
    prev: Round,
    bits: u32,
) -> Result<Run, NoMemory>
    ensures value { IfOk result (λ run. run ≡ fresh_run clients expected record { 0 = r } prev bits) }
    ensures small { IfOk result (λ run. run.r.0 < 2 ^ 64) }
{
    Ok(Run {
        r: Round(r),
        prev,
        bits,
        is_running: true,
        stage: Stage::Collecting,
        window: Window::start(alloc, clients, expected)?,
        claims: Claims::none(alloc, clients)?,
        kept: Kept::none(alloc),
        sum: None,
    })
}

/// Opens a round on the greatest round below it that is held.
fn open(parts: &mut Parts, r: Round) -> Result<Answer, NoMemory>
    requires new { ¬ IsOld (live parts.old) r }
    requires idle { parts.old.run.is_running ≡ false }
    requires leaves { 4 + length parts.old.identity.signed ≤ leaf_count parts.old.identity.key }
    ensures opens { IfOk result (λ a. Opens (live parts.old) r a (live parts.new)) }
    ensures few { IfOk result (λ _. IsSmall parts.new.run) }
{
    let prev = parts.chain.latest_below(r);
    let Some(layout) = parts.chain.layout(prev) else {
        unreachable!()
    };
    let roster = parts.identity.roster();
    let (clients, servers) = (roster.clients(), roster.servers());
    let expected = expected_at(clients, servers, parts.identity.number().0);
    parts.run = opened_run(parts.alloc, clients, expected, r.0, prev, layout.bits())?;
    parts.aside = 4;
    does_one(parts.alloc, Act::Opened { r, prev })
}

/// Opens round `r` on the greatest round below it that is held.
pub(crate) fn open_round(parts: &mut Parts, r: Round) -> Result<Answer, NoMemory>
    ensures opens { IfOk result (λ a. Opens (live parts.old) r a (live parts.new)) }
    ensures few { IfOk result (λ _. (parts.new.run ≡ parts.old.run) ⊎ IsSmall parts.new.run) }
{
    if is_old(parts, r) {
        return Ok(Answer::Ignored(Reason::Old));
    }
    if parts.run.is_running {
        return Ok(Answer::Ignored(Reason::Running));
    }
    if parts.identity.left() < 4 {
        return Ok(Answer::Ignored(Reason::Spent));
    }
    open(parts, r)
}
