// What a world's steps are in its run.
ghost use Rattle.std.specs.Prelude.{ℕ, ◌≤◌, List};
ghost use Rattle.dn_wire.specs.declared.ids.ClientId.{ClientId};
ghost use Rattle.dn_wire.specs.declared.ids.Member.{Member};
ghost use Rattle.dn_roster.specs.declared.group.GroupSpec.{GroupSpec};
ghost use Rattle.dn_report.specs.declared.event.Event.{Event};
ghost use Rattle.dn_report.specs.declared.outcome.Outcome.{Outcome};
ghost use Rattle.dn_state.specs.Parts.{PartsView};
ghost use Rattle.dn_state.specs.Events.{IsWithinLimits};
ghost use Rattle.dn_state.specs.Beginning.{Begins};
ghost use Rattle.dn_state.specs.Steps.{Steps};
ghost use Rattle.dn_headline.specs.Group.{GroupView};
ghost use Rattle.dn_headline.specs.Run.{RunView};
ghost use Rattle.dn_headline.specs.Step.{first_run};
ghost use Rattle.dn_steps.specs.Dealt.{IsDealtGroup};
ghost use Rattle.dn_steps.specs.Tied.{IsTied};
ghost use Rattle.dn_steps.specs.Goes.{GoesOn};

/// A world as it is made is tied to the run of its group in which nothing has happened.
pub fn the_tie_begins()
    ensures { (group : GroupSpec) (owners : List ClientId) (corrupt : List Member) (workers : ℕ) (g : GroupView) (parts : PartsView)
        → IsDealtGroup group owners corrupt g → Begins group g.roster owners corrupt workers parts → 1 ≤ workers → workers ≤ 16 → IsTied (first_run g) parts }
{}

/// Each step of a world goes on in the run, and what ties the parts to the run stays.
pub fn steps_stay_tied()
    ensures { (w : RunView) (old new : PartsView) (event : Event) (lines : List Outcome) → IsTied w old → IsWithinLimits event
        → Steps event old new lines → GoesOn w event lines new }
{}
