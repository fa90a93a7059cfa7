// What a server does with what it hears.
ghost use Rattle.std.specs.Prelude.{◌≡◌, ℕ, Some, IfOk, OnOk};
ghost use Rattle.dn_seal.specs.Dealt.{server};
ghost use Rattle.dn_seal.specs.Said.{IsSaid, IsUnder};
ghost use Rattle.dn_server.specs.Keeping.{round_of};
ghost use Rattle.dn_server.specs.Parts.{live};
ghost use Rattle.dn_openings.specs.Open.{CanOpen};
ghost use Rattle.dn_exchange.specs.Listening.{Hears};
ghost use Rattle.dn_exchange.specs.Ready.{CanHear};

use crate::hearing::hear_round;
use dn_cert::Rules;
use dn_memory::NoMemory;
use dn_records::Statement;
use dn_seal::Said;
use dn_server::{Answer, Parts, Reason};
use dn_wire::{Round, SignerId};
use std::thread::Threads;

/// The round of a statement that servers make to each other of a round; nothing for other statements.
fn round_of(s: &Statement) -> Option<Round>
    ensures { result ≡ round_of s.now }
{
    match s {
        Statement::Inventory(inventory) => Some(inventory.r),
        Statement::Commit { r, .. } => Some(*r),
        Statement::Reveal { r, .. } => Some(*r),
        Statement::Sign(body) => Some(body.r),
        _ => None,
    }
}

/// Hears a statement.
pub(crate) fn hear<R: Threads + Sync, U: Rules>(
    rt: &R,
    rules: &U,
    parts: &mut Parts,
    said: &Said,
) -> Result<Answer, NoMemory>
    requires round { (j : ℕ) → said.now.signer ≡ server j → round_of said.now.statement ≡ Some parts.old.run.r → IsSaid said.now → CanHear parts.old j said.now }
    requires open { CanOpen (live parts.old) }
    requires under { IsUnder parts.old.identity.roster said.now }
    ensures heard { IfOk result (λ a. Hears (live parts.old) said.now a (live parts.new)) }
    ensures said { IsSaid said.now }
{
    let Some(r) = round_of(said.statement()) else {
        return dn_openings::hear(rules, parts, said);
    };
    match said.signer() {
        SignerId::Server(j) => hear_round(rt, parts, j, r, said),
        _ => Ok(Answer::Ignored(Reason::Kind)),
    }
}
