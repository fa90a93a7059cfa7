// A run goes along with a world, and the world's audit knows of it.
ghost use Rattle.std.specs.Prelude.{ℕ, ◌≤◌, List, IsTrue};
ghost use Rattle.dn_wire.specs.declared.ids.ClientId.{ClientId};
ghost use Rattle.dn_wire.specs.declared.ids.Member.{Member};
ghost use Rattle.dn_roster.specs.declared.group.GroupSpec.{GroupSpec};
ghost use Rattle.dn_report.specs.declared.event.Event.{Event};
ghost use Rattle.dn_report.specs.declared.outcome.Outcome.{Outcome};
ghost use Rattle.dn_state.specs.declared.reading.Audit.{Audit};
ghost use Rattle.dn_state.specs.Parts.{PartsView};
ghost use Rattle.dn_state.specs.Events.{IsWithinLimits};
ghost use Rattle.dn_state.specs.Beginning.{Begins};
ghost use Rattle.dn_state.specs.Steps.{Steps};
ghost use Rattle.dn_state.specs.Auditing.{IsAudit};
ghost use Rattle.dn_headline.specs.Clean.{Clean};
ghost use Rattle.dn_headline.specs.Group.{GroupView};
ghost use Rattle.dn_headline.specs.Run.{RunView};
ghost use Rattle.dn_headline.specs.Step.{first_run};
ghost use Rattle.dn_steps.specs.Along.{GoesAlong};
ghost use Rattle.dn_steps.specs.Audited.{IsAudited, SaysRight};
ghost use Rattle.dn_steps.specs.Dealt.{IsDealtGroup};
ghost use Rattle.dn_steps.specs.Tied.{IsTied};

/// The audit of a world as it is made knows the run of its group in which nothing has happened.
pub fn the_audit_begins()
    ensures { (group : GroupSpec) (owners : List ClientId) (corrupt : List Member) (workers : ℕ) (g : GroupView) (parts : PartsView)
        → IsDealtGroup group owners corrupt g → Begins group g.roster owners corrupt workers parts → 1 ≤ workers → workers ≤ 16
        → IsAudited (first_run g) parts }
{}

/// Each step of a world goes on in the run, and the audit knows of the run that goes on.
pub fn runs_go_along()
    ensures { (w : RunView) (old new : PartsView) (event : Event) (lines : List Outcome) → IsTied w old → IsAudited w old → IsWithinLimits event
        → Steps event old new lines → GoesAlong w event lines new }
{}

/// The audit of a world that knows its run says yes exactly where the run is clean, word by word.
pub fn audits_say_right()
    ensures { (w : RunView) (parts : PartsView) (audit : Audit) → IsTied w parts → IsAudited w parts → IsAudit parts audit → SaysRight w audit }
{}

/// A run of which such an audit says yes three times is clean.
pub fn audits_say_clean()
    ensures { (w : RunView) (audit : Audit) → SaysRight w audit → IsTrue audit.signed → IsTrue audit.digests → IsTrue audit.honest → Clean w }
{}
