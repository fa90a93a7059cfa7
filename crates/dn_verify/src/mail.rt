ghost use Rattle.std.specs.Prelude.{◌≡◌, ◌+◌, ◌-◌, ◌^◌, ◌<◌, ◌≤◌, ℕ, IsSome, OnOk, unwrap_or};
ghost use Rattle.std.specs.Ordering.{nat_cmp};
ghost use Rattle.std.specs.BTreeMap.{get};

use dn_memory::NoMemory;
use dn_wire::{ClientId, Member};
use std::alloc::Global;
use std::collections::BTreeMap;

/// A message in flight: who sent it, if anybody, its receiver and the number of its payload.
#[derive(Clone, Copy)]
pub struct Flying {
    pub from: Option<Member>,
    pub to: Member,
    pub payload: usize,
}

/// The messages in flight, by their numbers. What a client sent before it left is in flight no more: for each client that left the
/// number is kept that was next then.
#[derive(Drop)]
pub struct Mail {
    sent: BTreeMap<u64, Flying>,
    left: BTreeMap<u32, u64>,
    next: u64,
    ghost below: { (id : ℕ) → IsSome (get nat_cmp sent id) → id < next },
    ghost behind: { (i : ℕ) → unwrap_or (get nat_cmp left i) 0 ≤ next },
}

impl Mail {
    ghost use Rattle.dn_verify.specs.Flight.{flight_of, is_dropped, no_flight, with_message, without_client, without_message};

    pub fn new(alloc: Global) -> Mail
        ensures none { flight_of result ≡ no_flight }
        ensures next { result.next ≡ 0 }
    {
        Mail {
            sent: BTreeMap::new(alloc),
            left: BTreeMap::new(alloc),
            next: 0,
        }
    }

    /// The number of the next message.
    pub fn next(&self) -> u64
        ensures { result ≡ self.now.next }
    {
        self.next
    }

    /// A message is sent, under the next number.
    pub fn send(&mut self, message: Flying) -> Result<(), NoMemory>
        requires { self.old.next < 2 ^ 64 - 1 }
        ensures flight { OnOk result (flight_of self.new ≡ with_message (flight_of self.old) self.old.next message) }
        ensures next { OnOk result (self.new.next ≡ self.old.next + 1) }
    {
        let id = self.next;
        self.sent.insert(id, message)?;
        self.next = id + 1;
        Ok(())
    }

    /// Whether a message of this sender and this number was sent before the sender left.
    fn is_dropped(&self, id: u64, from: Option<Member>) -> bool
        ensures { result ≡ is_dropped self.now.left id from }
    {
        match from {
            Some(Member::Client(i)) => id < self.left.get(&i.0).copied().unwrap_or(0),
            _ => false,
        }
    }

    /// The message with this number, where it is in flight.
    pub fn find(&self, id: u64) -> Option<Flying>
        ensures { result ≡ flight_of self.now id }
    {
        let message = self.sent.get(&id).copied()?;
        if self.is_dropped(id, message.from) {
            None
        } else {
            Some(message)
        }
    }

    /// A message leaves the flight, where it is there.
    pub fn remove(&mut self, id: u64)
        ensures flight { flight_of self.new ≡ without_message (flight_of self.old) id }
        ensures next { self.new.next ≡ self.old.next }
    {
        let _ = self.sent.remove(&id);
    }

    /// All messages of a client leave the flight.
    pub fn drop_from(&mut self, i: ClientId) -> Result<(), NoMemory>
        ensures flight { OnOk result (flight_of self.new ≡ without_client (flight_of self.old) i) }
        ensures next { OnOk result (self.new.next ≡ self.old.next) }
    {
        self.left.insert(i.0, self.next)?;
        Ok(())
    }
}
