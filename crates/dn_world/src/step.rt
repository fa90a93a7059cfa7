ghost use Rattle.std.specs.Prelude.{◌≡◌};

use dn_report::{Event, Outcome};
use std::marker::Model;

/// What came of an event, in order.
#[derive(Drop)]
pub struct Outcomes {
    outcomes: Vec<Outcome>,
}

impl Model for Outcomes {
    ghost use Rattle.std.specs.Prelude.{List};
    ghost use Rattle.dn_report.specs.declared.outcome.Outcome.{Outcome};

    ghost Value = { List Outcome };

    ghost view = { λ o. o.outcomes.items };
}

impl Outcomes {
    /// The list of these.
    pub fn of(outcomes: Vec<Outcome>) -> Outcomes
        ensures { result ≡ outcomes.items }
    {
        Outcomes { outcomes }
    }

    /// The outcomes, in their order.
    pub fn get(&self) -> &[Outcome]
        ensures { result.now ≡ self.now }
    {
        &self.outcomes
    }
}

/// An event with all that came of it.
#[derive(Drop)]
pub struct Step {
    pub event: Event,
    pub outcomes: Outcomes,
}
