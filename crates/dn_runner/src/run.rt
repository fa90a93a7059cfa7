ghost use Rattle.std.specs.Prelude.{◌≡◌, IsTrue};
ghost use Rattle.dn_state.specs.Events.{IsWithinLimits};
ghost use Rattle.dn_runner.specs.Played.{IsMark};

use dn_memory::NoMemory;
use dn_puppets::{Injection, Puppets};
use dn_report::Event;
use dn_roster::{GroupSpec, Roster};
use dn_run_report::Shown;
use dn_wire::{MAX_ROUND, MAX_TEXT, Member};
use dn_world::World;
use std::alloc::Global;
use std::marker::Model;
use std::thread::Threads;

/// A script's run: the world, the puppets of the corrupt members, and what is shown of it.
#[derive(Drop)]
pub struct Run {
    pub alloc: Global,
    pub group: GroupSpec,
    pub roster: Roster,
    pub world: World,
    pub puppets: Puppets,
    /// What is shown so far, in order.
    pub shown: Vec<Shown>,
}

/// Whether the rounds and the text of an event are within their limits.
fn is_within(event: &Event) -> bool
    ensures { IsTrue result → IsWithinLimits event.now }
{
    match event {
        Event::Say { text, .. } => text.get().len() <= MAX_TEXT as usize,
        Event::OpenRound { r, .. } => 1 <= r.0 && r.0 <= MAX_ROUND,
        Event::Submit { r, .. } => 1 <= r.0 && r.0 <= MAX_ROUND,
        Event::Accuse { r, .. } => 1 <= r.0 && r.0 <= MAX_ROUND,
        Event::Judge { r, .. } => 1 <= r.0 && r.0 <= MAX_ROUND,
        _ => true,
    }
}

impl Model for Run {
    ghost use Rattle.dn_runner.specs.Played.{RunView};

    ghost Value = { RunView };

    ghost use Rattle.dn_runner.specs.Inside.{view_of, Keeps};

    ghost view = { view_of };

    ghost invariant = { Keeps };
}

impl Run {
    /// Carries an event out. The lines of a script keep the limits of events.
    pub fn step<R: Threads + Sync>(&mut self, rt: &R, event: Event) -> Result<(), NoMemory>
        ensures { self.new.group ≡ self.old.group }
    {
        if is_within(&event) {
            let number = self.world.history().len() as u64;
            self.shown.reserve(1)?;
            self.world.step(rt, event)?;
            self.shown.push_reserved(Shown::Event(number));
        }
        Ok(())
    }

    /// Shows what is no event.
    pub fn mark(&mut self, shown: Shown) -> Result<(), NoMemory>
        requires { IsMark shown }
        ensures { self.new.group ≡ self.old.group }
    {
        self.shown.reserve(1)?;
        self.shown.push_reserved(shown);
        Ok(())
    }

    /// Carries out what puppets put.
    pub fn inject<R: Threads + Sync>(
        &mut self,
        rt: &R,
        posts: Vec<Injection>,
    ) -> Result<(), NoMemory>
        ensures { self.new.group ≡ self.old.group }
    {
        for post in posts {
            let Injection { from, to, payload } = post;
            self.step(rt, Event::Inject { from, to, payload })?;
        }
        Ok(())
    }

    pub fn is_corrupt(&self, member: Member) -> bool {
        self.world.is_corrupt(member)
    }
}
