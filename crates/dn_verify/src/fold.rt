ghost use Rattle.std.specs.Prelude.{◌≡◌, ℕ, [], Some, drop};
ghost use Rattle.std.specs.Option.{option_copied};
ghost use Rattle.dn_verify.specs.Course.{outcome_in};
ghost use Rattle.dn_verify.specs.Breaks.{first_of};
ghost use Rattle.dn_verify.specs.Judged.{IsJudgedDue};
ghost use Rattle.dn_verify.specs.Kept.{known_of};
ghost use Rattle.dn_verify.specs.Known.{no_known};

use crate::due::broken_due;
use crate::marks::Marks;
use crate::scene::Scene;
use dn_cert::Chain;
use dn_report::{Outcome, ReportLine};
use std::alloc::Global;
use std::collections::VecDeque;

/// What the payloads say so far that the lines put: the run's certificates, which payloads reached a server, of which rounds the lines were
/// told; and which lines are due.
#[derive(Drop)]
pub struct Fold {
    pub chain: Chain,
    pub reached: Marks,
    pub told: Marks,
    pub due: VecDeque<Outcome>,
    pub rounds: u64,
    pub verdicts: u64,
}

/// The outcome that a line tells, where it is one.
fn outcome_of(line: &ReportLine) -> Option<&Outcome>
    ensures { option_copied result ≡ outcome_in (Some line.now) }
{
    match line {
        ReportLine::Outcome(outcome) => Some(outcome),
        _ => None,
    }
}

/// The line that is due first.
fn first_of(due: &VecDeque<Outcome>) -> Option<&Outcome>
    ensures { option_copied result ≡ first_of due.now.items }
{
    due.front()
}

impl Fold {
    pub fn new(alloc: Global, chain: Chain) -> Fold
        ensures { (clients : ℕ) → chain ≡ record { slots = clients; held = [] } → known_of result [] ≡ no_known clients }
    {
        Fold {
            chain,
            reached: Marks::new(alloc),
            told: Marks::new(alloc),
            due: VecDeque::new(alloc),
            rounds: 0,
            verdicts: 0,
        }
    }

    /// The rule that a line under this event breaks by what is due, or isn't. The line that was due is due no more.
    pub fn due_rule(&mut self, line: &ReportLine, scene: Scene) -> Option<u32>
        ensures rule { IsJudgedDue scene self.old.due.items line.now result }
        ensures due { self.new.due.items ≡ drop 1 self.old.due.items }
        ensures rest { self.new ≡ record self.old { due = self.new.due } }
    {
        let rule = broken_due(outcome_of(line), first_of(&self.due), scene);
        let _ = self.due.pop_front();
        rule
    }
}
