// A script is run.
ghost use Rattle.std.specs.Prelude.{IfOk, MatchOption};
ghost use Rattle.dn_runner.specs.Play.{HasGroup, IsPlayOf};

use crate::building::{corrupt_of, group_of};
use crate::expanding::run_lines;
use crate::members::in_order;
use crate::run::Run;
use dn_crew::Crew;
use dn_memory::NoMemory;
use dn_puppets::Puppets;
use dn_run_report::Played;
use dn_script::Script;
use dn_seal::deal;
use dn_world::World;
use std::alloc::Global;
use std::sync::Wait;
use std::thread::Threads;

/// How many workers add up a server's pads.
const WORKERS: u32 = 4;

/// Runs the script of a group; None exactly where its first line says no group. The crew does the threads' work of races and live runs.
pub fn play<R: Threads + Wait + Sync, C: Crew>(
    rt: &R,
    alloc: Global,
    crew: &mut C,
    script: &Script,
) -> Result<Option<Played>, NoMemory>
    ensures { IfOk result (λ played. MatchOption played (¬ HasGroup script.now) (IsPlayOf script.now)) }
{
    let Some(group) = group_of(script) else {
        return Ok(None);
    };
    let corrupt = corrupt_of(script);
    let dealt = deal(alloc, &group)?;
    let mut run = Run {
        alloc,
        group,
        roster: dealt.roster.copy(alloc)?,
        world: World::make(alloc, &dealt, corrupt, WORKERS)?,
        puppets: Puppets::make(alloc, &dealt, corrupt, WORKERS)?,
        shown: Vec::new(alloc),
    };
    run_lines(rt, &mut run, crew, script)?;
    let corrupt = in_order(alloc, &group, corrupt)?;
    let Run {
        roster,
        world,
        shown,
        ..
    } = run;
    Ok(Some(Played::of(alloc, group, roster, corrupt, world, shown)))
}
