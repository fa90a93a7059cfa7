// One step of a server in the round that it runs.
ghost use Rattle.std.specs.Prelude.{◌≡◌, ◌++◌, List, IfOk};
ghost use Rattle.dn_server.specs.declared.act.Act.{Act as ActOf};
ghost use Rattle.dn_rounds.specs.Going.{GoesOn};
ghost use Rattle.dn_server.specs.Parts.{live};
ghost use Rattle.dn_rounds.specs.Sound.{AreSound, Stepped};
ghost use Rattle.dn_rounds.specs.Certifying.{CanStep, IsSteady};

use crate::certifying::certify_round;
use crate::committing::list_up;
use crate::going::reveal;
use crate::signing::sign;
use dn_memory::NoMemory;
use dn_server::{Act, Parts, Stage};
use std::thread::Threads;

/// Takes the step that is due, and says whether there was one.
pub(crate) fn step<R: Threads + Sync>(
    rt: &R,
    parts: &mut Parts,
    acts: &mut Vec<Act>,
) -> Result<bool, NoMemory>
    requires sound { AreSound (live parts.old) parts.old.run.kept }
    requires can { CanStep parts.old.run.stage parts.old }
    ensures { IfOk result (Stepped parts.old parts.new acts.old.items acts.new.items) }
{
    match parts.run.stage {
        Stage::Collecting => Ok(false),
        Stage::Listed => list_up(rt, parts, acts),
        Stage::Committed => reveal(parts, acts),
        Stage::Revealed => sign(parts, acts),
        Stage::Signed => certify_round(parts, acts),
    }
}

/// Goes on as far as the server can: until the run has ended, or no step is possible.
pub fn go_on<R: Threads + Sync>(
    rt: &R,
    parts: &mut Parts,
    acts: &mut Vec<Act>,
) -> Result<(), NoMemory>
    requires { IsSteady parts.old }
    ensures { IfOk result (λ _. (did : List ActOf) × (acts.new.items ≡ acts.old.items ++ did) × GoesOn (live parts.old) did (live parts.new)) }
{
    let mut goes_on = parts.run.is_running;
    while goes_on {
        goes_on = step(rt, parts, acts)? && parts.run.is_running;
    }
    Ok(())
}
