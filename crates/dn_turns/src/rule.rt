//! The rule of the two words and the slot, and the kinds of step on them.

ghost use Rattle.dn_turns.specs.Rule.{IsKept, first_view, without_first, of_first, joined, spent, Tickets, Looks, Passes, Settles};

use super::log::Log;
use super::view::View;
use atomic_table::{Join, Play, Split, TableRule};
use std::snapshot::Snapshot;

/// How many passes there are, and the log as the lock was made with it.
pub struct Terms<L> {
    pub passes: u32,
    pub log: Snapshot<L>,
}

// A derived Drop would ask the log to be Drop.
impl<L> Drop for Terms<L> {
    fn drop(self) {
        let Self { passes: _, log: _ } = self;
    }
}

/// The rule: each ticket from the one that is served on is had by one view, and the slot is out only to the view whose
/// turn it is.
pub struct Order;

impl<L: Log> TableRule<Option<L>, View<L::Entry, L::Base>, Terms<L>> for Order {
    ghost holds = { λ key. IsKept L.list L.base key.passes };

    ghost first = { λ key. first_view key.passes (L.base key.log.value) (L.list key.log.value) };
}

/// A view gives the first of its numbers to a new one.
pub struct One;

impl<E, B> Split<View<E, B>> for One {
    ghost left = { without_first };

    ghost right = { of_first };
}

/// A view takes in another.
pub struct Both;

impl<E, B> Join<View<E, B>> for Both {
    ghost both = { joined };

    ghost spent = { spent };
}

/// One is added to the tickets.
pub struct Ticket;

impl<L: Log> Play<Option<L>, View<L::Entry, L::Base>> for Ticket {
    ghost then = { Tickets L.list L.base };
}

/// The ticket that is served is read.
pub struct Look;

impl<L: Log> Play<Option<L>, View<L::Entry, L::Base>> for Look {
    ghost then = { Looks L.list L.base };
}

/// One is added to the ticket that is served.
pub struct PassOn;

impl<L: Log> Play<Option<L>, View<L::Entry, L::Base>> for PassOn {
    ghost then = { Passes L.list L.base };
}

/// The tickets are read after a join.
pub struct Settle;

impl<L: Log> Play<Option<L>, View<L::Entry, L::Base>> for Settle {
    ghost then = { Settles L.list L.base };
}
