ghost use Rattle.std.specs.Prelude.{◌≡◌, ◌↔◌, ◌+◌, ◌*◌, ◌≤◌, ◌++◌, ◌∷◌, [], Err, IfOk, OnErr, IsTrue, length, filter, not, count_by};
ghost use Rattle.dn_wire.specs.declared.limits.TheConstants.{MAX_FLIGHT};
ghost use Rattle.dn_flight.specs.Flight.{IsFull, AreFrom, is_from, with_id, without_id, first_id, after_id, all_to, next_in};

use crate::arena::Arena;
use crate::heads::member_number;
use crate::msg::Msg;
use dn_memory::NoMemory;
use dn_nodes::{NONE, Steps};
use dn_wire::Member;
use std::alloc::Global;
use std::collections::BTreeMap;
use std::marker::{Brand, Model};
use std::ops::Bound;
use std::sync::ledger::{Blank, Ledger};

/// Why a message wasn't put.
#[derive(Clone, Copy, Debug, PartialEq, Eq)]
pub enum PutFault {
    /// 65,536 messages are held, or the next number is 2^64 - 1.
    Full,
    NoMemory,
}

/// The messages in flight. Contracts see them in order of their numbers, and the number of the next one.
#[derive(Drop)]
pub struct Flight {
    arena: Arena,
    // The place of each message, by its number.
    places: BTreeMap<u64, u32>,
    next: u64,
}

impl Model for Flight {
    ghost use Rattle.dn_flight.specs.Flight.{FlightView};
    ghost use Rattle.dn_flight.specs.Whole.{IsKept, msgs_in};

    ghost Value = { FlightView };

    ghost view = { λ f. record { msgs = msgs_in f.arena f.places.entries; next = f.next } };

    ghost invariant = { λ f. IsKept f.arena f.places.entries f.next };
}

impl Flight {
    /// No messages. The first one that is put has the number 0.
    pub fn make(alloc: Global) -> Result<Flight, NoMemory>
        ensures { IfOk result (λ f. (f.msgs ≡ []) × (f.next ≡ 0)) }
    {
        Ok(Flight {
            arena: Arena::make(alloc)?,
            places: BTreeMap::new(alloc),
            next: 0,
        })
    }

    /// Whether no further message may be put: 65,536 are held, or the next number is 2^64 - 1.
    pub fn is_full(&self) -> bool
        ensures { IsTrue result ↔ IsFull self.now }
    {
        self.arena.free == NONE || self.next == u64::MAX
    }

    /// Puts a message behind the others, and gives its number.
    pub fn put(&mut self, from: Member, to: Member, payload: u64) -> Result<u64, PutFault>
        ensures put { IfOk result (λ id. (id ≡ self.old.next) × (self.new.msgs ≡ self.old.msgs ++ record { id = id; from = from; to = to; payload = payload } ∷ []) × (self.new.next ≡ id + 1)) }
        ensures full { (result ≡ Err PutFault.Full) ↔ IsFull self.old }
        ensures refused { OnErr result (self.new ≡ self.old) }
    {
        if self.is_full() {
            return Err(PutFault::Full);
        }
        let Ok(()) = self.arena.room(from, to) else {
            return Err(PutFault::NoMemory);
        };
        let id = self.next;
        let Ok(_) = self.places.insert(id, self.arena.free) else {
            return Err(PutFault::NoMemory);
        };
        self.next = id + 1;
        self.arena
            .put::<Brand>(id, from, to, payload, Blank::new(1));
        Ok(id)
    }

    /// The message with this number, if it is held.
    pub fn get(&self, id: u64) -> Option<Msg>
        ensures { result ≡ with_id id self.now.msgs }
    {
        match self.places.get(&id) {
            Some(place) => Some(self.arena.msg::<Brand>(*place, Blank::new(1))),
            None => None,
        }
    }

    /// Takes the message with this number out, if it is held.
    pub fn take(&mut self, id: u64) -> Option<Msg>
        ensures taken { result ≡ with_id id self.old.msgs }
        ensures left { (self.new.msgs ≡ without_id id self.old.msgs) × (self.new.next ≡ self.old.next) }
    {
        let Some(place) = self.places.remove(&id) else {
            return None;
        };
        Some(self.arena.take::<Brand>(place, Blank::new(1)))
    }

    /// Takes the message with this number out, if it is held: it is lost.
    pub fn lose(&mut self, id: u64) -> Option<Msg>
        ensures taken { result ≡ with_id id self.old.msgs }
        ensures left { (self.new.msgs ≡ without_id id self.old.msgs) × (self.new.next ≡ self.old.next) }
    {
        self.take(id)
    }

    /// Takes all messages of this sender out, and tells how many. Each costs at most six steps, and the others none.
    pub fn drop_from<L: Ledger>(&mut self, m: Member, steps: &mut Steps<L>) -> u32
        ensures left { (self.new.msgs ≡ filter (λ x. not (is_from m x)) self.old.msgs) × (self.new.next ≡ self.old.next) }
        ensures count { result ≡ count_by (is_from m) self.old.msgs }
        ensures cost { (steps.old ≤ steps.new) × (steps.new ≤ steps.old + 6 * result) }
    {
        let key = member_number(m);
        let mut place = self.arena.links.heads.get(key).from_first;
        let mut dropped = 0;
        while place != NONE {
            let node = self.arena.detach(place, steps);
            self.places.remove(&node.id);
            place = node.from_after;
            dropped += 1;
        }
        self.arena.links.heads.end_from(key);
        dropped
    }

    /// The least number that is held.
    pub fn first(&self) -> Option<u64>
        ensures { result ≡ first_id self.now.msgs }
    {
        match self.places.first_key_value() {
            Some((id, _)) => Some(*id),
            None => None,
        }
    }

    /// The least number held above this one, which needn't be held.
    pub fn after(&self, id: u64) -> Option<u64>
        ensures { result ≡ first_id (after_id id self.now.msgs) }
    {
        let above = (Bound::Excluded(id), Bound::Unbounded);
        match self.places.range(above).next() {
            Some((id, _)) => Some(*id),
            None => None,
        }
    }

    /// The number of the first message to this receiver.
    pub fn first_to(&self, m: Member) -> Option<u64>
        ensures { result ≡ first_id (all_to m self.now.msgs) }
    {
        let place = self.arena.links.heads.get(member_number(m)).to_first;
        self.arena.id_at::<Brand>(place, Blank::new(1))
    }

    /// The number of the next message to the same receiver; none too where this number isn't held.
    pub fn next_to(&self, id: u64) -> Option<u64>
        ensures { result ≡ next_in id (with_id id self.now.msgs) self.now.msgs }
    {
        match self.places.get(&id) {
            Some(place) => self.arena.next_id::<Brand>(*place, Blank::new(1)),
            None => None,
        }
    }

    /// The messages are in order of their numbers, which are below the next one, and are at most 65,536.
    pub fn order(&self)
        ensures { AreFrom 0 self.now.msgs self.now.next × (length self.now.msgs ≤ MAX_FLIGHT) }
    {
        let _ = &self.next;
    }
}
