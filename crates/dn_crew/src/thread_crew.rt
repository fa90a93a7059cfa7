ghost use Rattle.std.specs.Prelude.{◌≡◌, []};

use crate::crew::Crew;
use crate::given::{Given, Reads};
use crate::live::live_on;
use crate::lived::Lived;
use crate::race::race_on;
use crate::raced::Raced;
use dn_board::Board;
use dn_exchange::ServerCore;
use dn_gate::{Gate, GatePass};
use dn_io::Hold;
use dn_memory::NoMemory;
use dn_roster::Roster;
use dn_turns::{TurnPass, Turns};
use dn_wire::ClientId;
use std::alloc::Global;
use std::marker::Model;
use std::sync::Wait;
use std::thread::Threads;

/// What the workers of a crew call.
#[derive(Drop)]
struct Lent {
    hold: Box<dyn Hold + Sync + Drop>,
}

impl Hold for Lent {
    fn reached(&self, place: u32) {
        self.hold.reached(place);
    }
}

/// A crew whose workers are threads. They call a `Hold` at the places that `race_on` and `live_on` name. Contracts see the crew as the list of
/// what it gave.
#[derive(Drop)]
pub struct ThreadCrew {
    hold: Lent,
    given: Vec<Given>,
}

impl Model for ThreadCrew {
    ghost use Rattle.std.specs.Prelude.{List};
    ghost use Rattle.dn_crew.specs.declared.given.Given.{Given};

    ghost Value = { List Given };

    ghost view = { λ c. c.given.items };
}

impl ThreadCrew {
    /// A crew that gave nothing yet.
    pub fn make(alloc: Global, hold: Box<dyn Hold + Sync + Drop>) -> ThreadCrew
        ensures { result ≡ [] }
    {
        ThreadCrew {
            hold: Lent { hold },
            given: Vec::new(alloc),
        }
    }

    /// What it gave, in order.
    pub fn get(&self) -> &[Given]
        ensures { result.now ≡ self.now }
    {
        &self.given
    }
}

impl Crew for ThreadCrew {
    ghost given = { λ c. c };

    fn race<R: Threads + Wait + Sync>(
        &mut self,
        rt: &R,
        alloc: Global,
        gate: &Gate<u64>,
        passes: Vec<GatePass<u64>>,
        list: &[(ClientId, u64)],
    ) -> Result<Raced, NoMemory> {
        let raced = race_on(rt, alloc, gate, passes, list, &self.hold)?;
        let order = raced.order.copy(alloc)?;
        self.given.push(Given::Race(order))?;
        Ok(raced)
    }

    fn live<R: Threads + Wait + Sync>(
        &mut self,
        rt: &R,
        alloc: Global,
        lock: &Turns<Board>,
        passes: Vec<TurnPass<Board>>,
        roster: &Roster,
        cores: Vec<ServerCore>,
        t: u32,
    ) -> Result<Lived, NoMemory> {
        let lived = live_on(rt, alloc, lock, passes, roster, cores, t, &self.hold)?;
        let reads = Reads::of(alloc, &lived.posts)?;
        self.given.push(Given::Live {
            first: lived.first,
            reads,
        })?;
        Ok(lived)
    }
}
