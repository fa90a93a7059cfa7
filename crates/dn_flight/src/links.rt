ghost use Rattle.std.specs.Prelude.{◌≡◌, ◌==◌, ◌<◌, ◌≤◌, ◌+◌, ◌&&◌, ◌⊎◌, ℕ, cond, length};
ghost use Rattle.dn_flight.specs.Arena.{none, node_at, ends_at, IsKnown};
ghost use Rattle.dn_flight.specs.Whole.{unlinked, unended, appended, end_moved};
ghost use Rattle.dn_flight.specs.Side.{with_before, with_after, with_first, with_last};

use crate::heads::Heads;
use crate::side::Side;
use dn_nodes::{NONE, Nodes, Steps};
use std::sync::ledger::Ledger;

/// The receivers' and the senders' lists, through the nodes of an arena.
#[derive(Drop)]
pub(crate) struct Links {
    pub(crate) nodes: Nodes,
    pub(crate) heads: Heads,
}

impl Links {
    /// Makes `after` the place after this one, or the first of the list where this one is none: at most two steps.
    pub(crate) fn set_after<L: Ledger>(
        &mut self,
        side: Side,
        k: u64,
        place: u32,
        after: u32,
        steps: &mut Steps<L>,
    )
        requires place { (place ≤ none) × (none ≤ length self.old.nodes) × IsKnown self.old.heads.held k }
        ensures long { length self.new.nodes ≡ length self.old.nodes }
        ensures nodes { (p : ℕ) → p < none → node_at self.new.nodes p ≡ cond (p == place) (with_after side (node_at self.old.nodes p) after) (node_at self.old.nodes p) }
        ensures heads { (q : ℕ) → ends_at self.new.heads.held q ≡ cond ((place == none) && (q == k)) (with_first side (ends_at self.old.heads.held q) after) (ends_at self.old.heads.held q) }
        ensures stay { (q : ℕ) → IsKnown self.old.heads.held q → IsKnown self.new.heads.held q }
        ensures cost { (steps.old ≤ steps.new) × (steps.new ≤ steps.old + 2) }
    {
        if place == NONE {
            let ends = side.with_first(self.heads.get(k), after);
            self.heads.set(k, ends);
        } else {
            let node = side.with_after(self.nodes.get(place, steps), after);
            self.nodes.set(place, node, steps);
        }
    }

    /// Makes `before` the place before this one, or the last of the list where this one is none: at most two steps.
    pub(crate) fn set_before<L: Ledger>(
        &mut self,
        side: Side,
        k: u64,
        place: u32,
        before: u32,
        steps: &mut Steps<L>,
    )
        requires place { (place ≤ none) × (none ≤ length self.old.nodes) × IsKnown self.old.heads.held k }
        ensures long { length self.new.nodes ≡ length self.old.nodes }
        ensures nodes { (p : ℕ) → p < none → node_at self.new.nodes p ≡ cond (p == place) (with_before side (node_at self.old.nodes p) before) (node_at self.old.nodes p) }
        ensures heads { (q : ℕ) → ends_at self.new.heads.held q ≡ cond ((place == none) && (q == k)) (with_last side (ends_at self.old.heads.held q) before) (ends_at self.old.heads.held q) }
        ensures stay { (q : ℕ) → IsKnown self.old.heads.held q → IsKnown self.new.heads.held q }
        ensures cost { (steps.old ≤ steps.new) × (steps.new ≤ steps.old + 2) }
    {
        if place == NONE {
            let ends = side.with_last(self.heads.get(k), before);
            self.heads.set(k, ends);
        } else {
            let node = side.with_before(self.nodes.get(place, steps), before);
            self.nodes.set(place, node, steps);
        }
    }

    /// Links the places before and after a node of the list to each other: at most four steps.
    pub(crate) fn unlink<L: Ledger>(
        &mut self,
        side: Side,
        k: u64,
        before: u32,
        after: u32,
        steps: &mut Steps<L>,
    )
        requires place { (before ≤ none) × (after ≤ none) × (none ≤ length self.old.nodes) × IsKnown self.old.heads.held k }
        ensures long { length self.new.nodes ≡ length self.old.nodes }
        ensures nodes { (p : ℕ) → p < none → node_at self.new.nodes p ≡ unlinked side before after p (node_at self.old.nodes p) }
        ensures heads { (q : ℕ) → ends_at self.new.heads.held q ≡ unended side before after k q (ends_at self.old.heads.held q) }
        ensures stay { (q : ℕ) → IsKnown self.old.heads.held q → IsKnown self.new.heads.held q }
        ensures cost { (steps.old ≤ steps.new) × (steps.new ≤ steps.old + 4) }
    {
        self.set_after(side, k, before, after, steps);
        self.set_before(side, k, after, before, steps);
    }

    /// Links a place behind the last one of the list, which is `before`: at most two steps.
    pub(crate) fn append<L: Ledger>(
        &mut self,
        side: Side,
        k: u64,
        before: u32,
        place: u32,
        steps: &mut Steps<L>,
    )
        requires place { (before ≤ none) × (none ≤ length self.old.nodes) × IsKnown self.old.heads.held k }
        ensures long { length self.new.nodes ≡ length self.old.nodes }
        ensures nodes { (p : ℕ) → p < none → node_at self.new.nodes p ≡ appended side before place p (node_at self.old.nodes p) }
        ensures heads { (q : ℕ) → ends_at self.new.heads.held q ≡ end_moved side before k place q (ends_at self.old.heads.held q) }
        ensures stay { (q : ℕ) → IsKnown self.old.heads.held q → IsKnown self.new.heads.held q }
    {
        self.set_after(side, k, before, place, steps);
        let ends = side.with_last(self.heads.get(k), place);
        self.heads.set(k, ends);
    }
}
