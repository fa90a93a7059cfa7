// What comes of an event.
ghost use Rattle.std.specs.Prelude.{◌≡◌, ◌++◌, List, OnOk};
ghost use Rattle.dn_report.specs.declared.outcome.Outcome.{Outcome as OutcomeOf};
ghost use Rattle.dn_state.specs.Events.{IsWithinLimits};
ghost use Rattle.dn_state.specs.Delivering.{without_msg};
ghost use Rattle.dn_state.specs.Steps.{Steps as StepsBy};

use crate::calling::{Call, accuse, call_server, leave, say, submit, tick};
use crate::delivering::deliver;
use crate::judging::judge_place;
use crate::putting::{Sender, put};
use crate::state::State;
use dn_flight::Flight;
use dn_memory::NoMemory;
use dn_report::{Event, Outcome};
use std::thread::Threads;

/// Loses a message.
fn lose(flight: &mut Flight, id: u64)
    ensures { flight.new ≡ without_msg flight.old id }
{
    flight.lose(id);
}

impl State {
    /// Carries an event out, and appends what comes of it. After want of memory a part of it may have happened.
    pub fn step<R: Threads + Sync>(
        &mut self,
        rt: &R,
        event: &Event,
        outcomes: &mut Vec<Outcome>,
    ) -> Result<(), NoMemory>
        requires { IsWithinLimits event.now }
        ensures roster { self.new.roster ≡ self.old.roster }
        ensures steps { OnOk result ((lines : List OutcomeOf) × StepsBy event.now self.old self.new lines × (outcomes.new.items ≡ outcomes.old.items ++ lines)) }
    {
        match event {
            Event::Say { client, text } => say(self, *client, text.get()),
            Event::OpenRound { server, r } => {
                call_server(rt, self, *server, Call::Open(*r), outcomes)
            }
            Event::Close { server } => call_server(rt, self, *server, Call::Close, outcomes),
            Event::Abandon { server } => call_server(rt, self, *server, Call::Abandon, outcomes),
            Event::Submit { client, server, r } => submit(self, *client, *server, *r, outcomes),
            Event::Deliver { id } => deliver(rt, self, *id, outcomes),
            Event::Lose { id } => {
                lose(&mut self.flight, *id);
                Ok(())
            }
            Event::Tick => tick(rt, self, outcomes),
            Event::Leave { client } => leave(self, *client, outcomes),
            Event::Accuse { client, r, k } => accuse(self, *client, *r, *k, outcomes),
            Event::Judge { r, k } => judge_place(self, *r, *k, outcomes),
            Event::Inject { from, to, payload } => {
                let sender = Sender {
                    member: *from,
                    is_own: false,
                };
                put(self, sender, &[*to], payload.get(), outcomes)
            }
        }
    }
}
