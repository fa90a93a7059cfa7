// The rule of the gate's words and slots, and the names of its steps.
ghost use Rattle.std.specs.Prelude.{[]};
ghost use Rattle.dn_gate.specs.Rule.{IsKept, view, joined, spent, without_first, of_first, without_right, of_right, Claims, Draws, Closes, Marks, Looks, Takes, Returns, Settles};

use super::view::View;
use atomic_table::{Join, Play, Split, TableRule};
use dn_wire::ClientId;
use std::snapshot::Snapshot;

#[derive(Drop)]
pub struct Terms {
    pub clients: u32,
    pub passes: u32,
    // The clients that were there before.
    pub before: Snapshot<Vec<ClientId>>,
}

pub struct GateRule;

impl<T> TableRule<Option<T>, View<T>, Terms> for GateRule {
    ghost use Rattle.std.specs.Prelude.{map};
    ghost use Rattle.dn_gate.specs.Opening.{opens};
    ghost use Rattle.dn_gate.specs.Rule.{IsKept};

    ghost holds = { λ key. IsKept key.clients key.passes (map (λ c. c.0) key.before.value.items) };

    ghost first = { λ key. opens key.clients key.passes (map (λ c. c.0) key.before.value.items) };
}

pub struct One;

impl<T> Split<View<T>> for One {
    ghost left = { without_first };

    ghost right = { of_first };
}

pub struct Right;

impl<T> Split<View<T>> for Right {
    ghost left = { without_right };

    ghost right = { of_right };
}

pub struct Both;

impl<T> Join<View<T>> for Both {
    ghost both = { joined };

    ghost spent = { spent };
}

pub struct Claim;

impl<T> Play<Option<T>, View<T>> for Claim {
    ghost then = { Claims };
}

pub struct Draw;

impl<T> Play<Option<T>, View<T>> for Draw {
    ghost then = { Draws };
}

pub struct Close;

impl<T> Play<Option<T>, View<T>> for Close {
    ghost then = { Closes };
}

pub struct Mark;

impl<T> Play<Option<T>, View<T>> for Mark {
    ghost then = { Marks };
}

pub struct Settle;

impl<T> Play<Option<T>, View<T>> for Settle {
    ghost then = { Settles };
}

pub struct Look;

impl<T> Play<Option<T>, View<T>> for Look {
    ghost then = { Looks };
}

pub struct Take;

impl<T> Play<Option<T>, View<T>> for Take {
    ghost then = { Takes };
}

pub struct Return;

impl<T> Play<Option<T>, View<T>> for Return {
    ghost then = { Returns };
}
