// A run of a group.
ghost use Rattle.std.specs.Prelude.{◌≡◌, ◌≤◌, ◌++◌, ◌∷◌, [], List, true, false, IfOk, IfSome, IsErr, OnOk, OnErr};
ghost use Rattle.dn_report.specs.declared.outcome.Outcome.{Outcome as OutcomeOf};
ghost use Rattle.dn_seal.specs.Said.{IsUnder};
ghost use Rattle.dn_state.specs.Sound.{IsOfGroup};
ghost use Rattle.dn_state.specs.Events.{IsWithinLimits};
ghost use Rattle.dn_world.specs.Kept.{IsPlayed, Vouches};

use crate::step::{Outcomes, Step};
use dn_cert::{Chain, Opened};
use dn_client::Client;
use dn_exchange::ServerCore;
use dn_flight::Flight;
use dn_memory::NoMemory;
use dn_report::Event;
use dn_roster::GroupSpec;
use dn_seal::{Dealt, Said};
use dn_state::{Audit, State};
use dn_wire::{ClientId, Member, Round, ServerId};
use std::alloc::Global;
use std::marker::Model;
use std::thread::Threads;

/// A run of a group. Where a step wants for memory the world is spent: each later step answers so too.
#[derive(Drop)]
pub struct World {
    alloc: Global,
    spec: GroupSpec,
    corrupt: Vec<Member>,
    state: State,
    history: Vec<Step>,
    is_spent: bool,
}

impl Model for World {
    ghost use Rattle.dn_world.specs.Run.{WorldView};

    ghost Value = { WorldView };

    ghost use Rattle.dn_world.specs.Inside.{view_of, Keeps};

    ghost view = { view_of };

    ghost invariant = { Keeps };
}

impl World {
    /// A dealt group with these corrupt members, in which nothing has happened. Its servers' sums have so many workers.
    pub fn make(
        alloc: Global,
        dealt: &Dealt,
        corrupt: &[Member],
        workers: u32,
    ) -> Result<World, NoMemory>
        requires some { 1 ≤ workers }
        requires few { workers ≤ 16 }
        ensures begun { IfOk result (λ w. w ≡ record { spec = dealt.now.spec; corrupt = corrupt.now; roster = dealt.now.roster; history = []; spent = false }) }
    {
        Ok(World {
            alloc,
            spec: dealt.spec,
            corrupt: corrupt.to_vec(alloc)?,
            state: State::make(alloc, dealt, corrupt, workers)?,
            history: Vec::new(alloc),
            is_spent: false,
        })
    }

    /// Carries an event out, and keeps it with all that came of it. After want of memory the world is spent.
    pub fn step<R: Threads + Sync>(&mut self, rt: &R, event: Event) -> Result<(), NoMemory>
        requires limits { IsWithinLimits event }
        ensures played { IsPlayed self.new }
        ensures spec { self.new.spec ≡ self.old.spec }
        ensures corrupt { self.new.corrupt ≡ self.old.corrupt }
        ensures roster { self.new.roster ≡ self.old.roster }
        ensures kept { OnOk result ((outcomes : List OutcomeOf) × (self.new.history ≡ self.old.history ++ record { event = event; outcomes = outcomes } ∷ [])) }
        ensures refused { OnErr result (self.new.history ≡ self.old.history) }
        ensures unspent { OnOk result (self.new.spent ≡ false) }
        ensures spent { OnErr result (self.new.spent ≡ true) }
        ensures stays_spent { self.old.spent ≡ true → IsErr result }
    {
        if self.is_spent {
            return Err(NoMemory);
        }
        self.is_spent = true;
        let mut outcomes = Vec::new(self.alloc);
        self.state.step(rt, &event, &mut outcomes)?;
        self.history.push(Step {
            event,
            outcomes: Outcomes::of(outcomes),
        })?;
        self.is_spent = false;
        Ok(())
    }

    /// All events with what came of them, in order.
    pub fn history(&self) -> &[Step]
        ensures { result.now ≡ self.now.history }
    {
        &self.history
    }

    /// What the audit says of the run so far. A world that wanted for memory can't vouch for its run, and says no three times.
    pub fn audit(&self) -> Audit
        ensures { Vouches self.now result }
    {
        if self.is_spent {
            return Audit {
                signed: false,
                digests: false,
                honest: false,
            };
        }
        self.state.audit()
    }

    /// The bytes of payload `p`; None exactly where `p` isn't below their number.
    pub fn payload(&self, p: u64) -> Option<&[u8]> {
        self.state.payload(p)
    }

    /// What payload `p` opens to; None exactly where `p` isn't below their number, or doesn't open.
    pub fn opened(&self, p: u64) -> Option<&Opened>
        ensures group { IfSome result (λ o. IsOfGroup self.now.roster o.now) }
    {
        self.state.opened(p)
    }

    /// What plain payload `p` says; None exactly where `p` isn't below their number, doesn't open, or isn't plain.
    pub fn said(&self, p: u64) -> Option<&Said>
        ensures under { IfSome result (λ said. IsUnder self.now.roster said.now) }
    {
        self.state.said(p)
    }

    /// How many payloads were put.
    pub fn payloads(&self) -> u64 {
        self.state.payloads()
    }

    /// The messages in flight.
    pub fn flight(&self) -> &Flight {
        self.state.flight()
    }

    /// The run's certificates.
    pub fn chain(&self) -> &Chain {
        self.state.chain()
    }

    /// Whether a member is corrupt. Who isn't in the group isn't.
    pub fn is_corrupt(&self, member: Member) -> bool {
        self.state.is_corrupt(member)
    }

    /// An honest client; None exactly where that client is corrupt or out of range.
    pub fn client(&self, i: ClientId) -> Option<&Client> {
        self.state.client(i)
    }

    /// An honest server; None exactly where that server is corrupt or out of range.
    pub fn server(&self, j: ServerId) -> Option<&ServerCore>
        ensures group { IfSome result (λ core. core.now.seat.roster ≡ self.now.roster) }
    {
        self.state.server(j)
    }

    /// The place of the accusation of a round that was put last; None exactly where none was.
    pub fn last_accused(&self, r: Round) -> Option<u32> {
        self.state.last_accused(r)
    }

    /// Whether the delivery of a message would now be early.
    pub fn is_early(&self, id: u64) -> bool {
        self.state.is_early(id)
    }
}
