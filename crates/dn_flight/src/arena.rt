ghost use Rattle.std.specs.Prelude.{◌≡◌, ◌==◌, ◌<◌, ◌≤◌, ◌+◌, ℕ, List, [], ◌∷◌, ◌++◌, cond, length, IfOk, OnOk};
ghost use Rattle.dn_flight.specs.Arena.{none, node_at, ends_at, free_node, msg_of, member_number, IsKnown};
ghost use Rattle.dn_flight.specs.Whole.{IsKept, msgs_in, id_at, unlinked, unended};
ghost use Rattle.dn_flight.specs.Side.{key_of, before_of, after_of};
ghost use Rattle.dn_flight.specs.declared.side.Side.TheVariants.{To, From};

use crate::heads::{Heads, member_number};
use crate::links::Links;
use crate::msg::Msg;
use crate::side::Side;
use dn_memory::NoMemory;
use dn_nodes::{NONE, Node, Nodes, Steps};
use dn_wire::{ClientId, Member};
use std::alloc::Global;
use std::marker::Brand;
use std::sync::ledger::{Blank, Ledger};

const FREE: Node = Node {
    id: 0,
    from: Member::Client(ClientId(0)),
    to: Member::Client(ClientId(0)),
    payload: 0,
    to_before: NONE,
    to_after: NONE,
    from_before: NONE,
    from_after: NONE,
};

/// The messages' nodes in their lists, and the first of the places that are free.
#[derive(Drop)]
pub(crate) struct Arena {
    pub(crate) links: Links,
    pub(crate) free: u32,
}

// Makes all places free, each linked to the next.
fn free_all<L: Ledger>(nodes: &mut Nodes, blank: Blank)
    requires blank { (blank.name ≡ L.name) × (blank.parts ≡ L.parts) × (0 < L.parts) }
    requires long { length nodes.old ≡ none }
    ensures long { length nodes.new ≡ none }
    ensures free { (p : ℕ) → p < none → node_at nodes.new p ≡ free_node (p + 1) }
{
    let mut steps: Steps<L> = Steps::none(blank);
    for i in 0..NONE {
        let node = Node {
            to_after: i + 1,
            ..FREE
        };
        nodes.set(i, node, &mut steps);
    }
}

impl Arena {
    /// An arena without messages.
    pub(crate) fn make(alloc: Global) -> Result<Arena, NoMemory>
        ensures { IfOk result (λ a. IsKept a [] 0) }
    {
        let mut nodes = Nodes::make(alloc, NONE)?;
        free_all::<Brand>(&mut nodes, Blank::new(1));
        let heads = Heads::make(alloc);
        Ok(Arena {
            links: Links { nodes, heads },
            free: 0,
        })
    }

    /// Makes the place free.
    fn release<L: Ledger>(&mut self, place: u32, steps: &mut Steps<L>)
        requires { (place < none) × (length self.old.links.nodes ≡ none) × (self.old.free ≤ none) }
        ensures long { length self.new.links.nodes ≡ length self.old.links.nodes }
        ensures nodes { (p : ℕ) → p < none → node_at self.new.links.nodes p ≡ cond (p == place) (free_node self.old.free) (node_at self.old.links.nodes p) }
        ensures rest { (self.new.links.heads ≡ self.old.links.heads) × (self.new.free ≡ place) }
        ensures cost { steps.new ≡ steps.old + 1 }
    {
        let node = Node {
            to_after: self.free,
            ..FREE
        };
        self.links.nodes.set(place, node, steps);
        self.free = place;
    }

    /// Takes the message at the place out of its lists, and makes the place free.
    pub(crate) fn remove<L: Ledger>(&mut self, place: u32, steps: &mut Steps<L>) -> Node
        requires whole { (b : List (ℕ × ℕ)) × (e : ℕ × ℕ) × (a : List (ℕ × ℕ)) × (next : ℕ) × (e.1 ≡ place) × IsKept self.old (b ++ e ∷ a) next }
        ensures node { result ≡ node_at self.old.links.nodes place }
        ensures whole { (b : List (ℕ × ℕ)) (e : ℕ × ℕ) (a : List (ℕ × ℕ)) (next : ℕ) → e.1 ≡ place → IsKept self.old (b ++ e ∷ a) next
            → IsKept self.new (b ++ a) next × (msgs_in self.new (b ++ a) ≡ msgs_in self.old (b ++ a)) }
    {
        let node = self.links.nodes.get(place, steps);
        let to = member_number(node.to);
        let from = member_number(node.from);
        self.links
            .unlink(Side::To, to, node.to_before, node.to_after, steps);
        self.links
            .unlink(Side::From, from, node.from_before, node.from_after, steps);
        self.release(place, steps);
        node
    }

    /// Takes the message at the place out of its receiver's list, and makes the place free: at most six steps. Its sender's list stays
    /// as it is.
    pub(crate) fn detach<L: Ledger>(&mut self, place: u32, steps: &mut Steps<L>) -> Node
        requires place { (place < none) × (length self.old.links.nodes ≡ none) × (self.old.free ≤ none) }
        requires near { let node = node_at self.old.links.nodes place in (node.to_before ≤ none) × (node.to_after ≤ none) × IsKnown self.old.links.heads.held (member_number node.to) }
        ensures node { result ≡ node_at self.old.links.nodes place }
        ensures long { length self.new.links.nodes ≡ length self.old.links.nodes }
        ensures nodes { (p : ℕ) → p < none → node_at self.new.links.nodes p ≡ cond (p == place) (free_node self.old.free) (unlinked To result.to_before result.to_after p (node_at self.old.links.nodes p)) }
        ensures ends { (q : ℕ) → ends_at self.new.links.heads.held q ≡ unended To result.to_before result.to_after (member_number result.to) q (ends_at self.old.links.heads.held q) }
        ensures free { self.new.free ≡ place }
        ensures cost { (steps.old ≤ steps.new) × (steps.new ≤ steps.old + 6) }
    {
        let node = self.links.nodes.get(place, steps);
        let key = member_number(node.to);
        self.links
            .unlink(Side::To, key, node.to_before, node.to_after, steps);
        self.release(place, steps);
        node
    }

    /// Puts a message at the first free place, and gives the place.
    pub(crate) fn insert<L: Ledger>(
        &mut self,
        id: u64,
        from: Member,
        to: Member,
        payload: u64,
        steps: &mut Steps<L>,
    ) -> u32
        requires whole { (es : List (ℕ × ℕ)) × IsKept self.old es id }
        requires room { self.old.free < none }
        requires known { IsKnown self.old.links.heads.held (member_number to) × IsKnown self.old.links.heads.held (member_number from) }
        ensures place { result ≡ self.old.free }
        ensures whole { (es : List (ℕ × ℕ)) → IsKept self.old es id
            → IsKept self.new (es ++ (id, self.old.free) ∷ []) (id + 1)
            × (msgs_in self.new (es ++ (id, self.old.free) ∷ []) ≡ msgs_in self.old es ++ record { id = id; from = from; to = to; payload = payload } ∷ []) }
    {
        let place = self.free;
        let head = self.links.nodes.get(place, steps);
        let to_key = member_number(to);
        let from_key = member_number(from);
        let to_ends = self.links.heads.get(to_key);
        let from_ends = self.links.heads.get(from_key);
        let node = Node {
            id,
            from,
            to,
            payload,
            to_before: to_ends.to_last,
            to_after: NONE,
            from_before: from_ends.from_last,
            from_after: NONE,
        };
        self.links.nodes.set(place, node, steps);
        self.links
            .append(Side::To, to_key, to_ends.to_last, place, steps);
        self.links
            .append(Side::From, from_key, from_ends.from_last, place, steps);
        self.free = head.to_after;
        place
    }

    /// The message at the place.
    pub(crate) fn msg<L: Ledger>(&self, place: u32, blank: Blank) -> Msg
        requires blank { (blank.name ≡ L.name) × (blank.parts ≡ L.parts) × (0 < L.parts) }
        requires place { place < length self.now.links.nodes }
        ensures { result ≡ msg_of (node_at self.now.links.nodes place) }
    {
        let mut steps: Steps<L> = Steps::none(blank);
        let node = self.links.nodes.get(place, &mut steps);
        Msg {
            id: node.id,
            from: node.from,
            to: node.to,
            payload: node.payload,
        }
    }

    /// The number of the message at the place, or nothing where the place is none.
    pub(crate) fn id_at<L: Ledger>(&self, place: u32, blank: Blank) -> Option<u64>
        requires blank { (blank.name ≡ L.name) × (blank.parts ≡ L.parts) × (0 < L.parts) }
        requires place { (place ≤ none) × (length self.now.links.nodes ≡ none) }
        ensures { result ≡ id_at (node_at self.now.links.nodes) place }
    {
        if place == NONE {
            return None;
        }
        Some(self.msg::<L>(place, blank).id)
    }

    /// The number of the message after the one at the place in its receiver's list.
    pub(crate) fn next_id<L: Ledger>(&self, place: u32, blank: Blank) -> Option<u64>
        requires blank { (blank.name ≡ L.name) × (blank.parts ≡ L.parts) × (0 < L.parts) }
        requires place { (place < none) × ((node_at self.now.links.nodes place).to_after ≤ none) × (length self.now.links.nodes ≡ none) }
        ensures { result ≡ id_at (node_at self.now.links.nodes) (node_at self.now.links.nodes place).to_after }
    {
        let mut steps: Steps<L> = Steps::none(blank);
        let after = self.links.nodes.get(place, &mut steps).to_after;
        if after == NONE {
            return None;
        }
        Some(self.links.nodes.get(after, &mut steps).id)
    }

    /// Takes the message at the place out.
    pub(crate) fn take<L: Ledger>(&mut self, place: u32, blank: Blank) -> Msg
        requires blank { (blank.name ≡ L.name) × (blank.parts ≡ L.parts) × (0 < L.parts) }
        requires whole { (b : List (ℕ × ℕ)) × (e : ℕ × ℕ) × (a : List (ℕ × ℕ)) × (next : ℕ) × (e.1 ≡ place) × IsKept self.old (b ++ e ∷ a) next }
        ensures msg { result ≡ msg_of (node_at self.old.links.nodes place) }
        ensures whole { (b : List (ℕ × ℕ)) (e : ℕ × ℕ) (a : List (ℕ × ℕ)) (next : ℕ) → e.1 ≡ place → IsKept self.old (b ++ e ∷ a) next
            → IsKept self.new (b ++ a) next × (msgs_in self.new (b ++ a) ≡ msgs_in self.old (b ++ a)) }
    {
        let mut steps: Steps<L> = Steps::none(blank);
        let node = self.remove(place, &mut steps);
        Msg {
            id: node.id,
            from: node.from,
            to: node.to,
            payload: node.payload,
        }
    }

    /// Makes room for the ends of both members, which stay.
    pub(crate) fn room(&mut self, from: Member, to: Member) -> Result<(), NoMemory>
        ensures rest { (self.new.links.nodes ≡ self.old.links.nodes) × (self.new.free ≡ self.old.free) }
        ensures same { (q : ℕ) → ends_at self.new.links.heads.held q ≡ ends_at self.old.links.heads.held q }
        ensures known { OnOk result (IsKnown self.new.links.heads.held (member_number to) × IsKnown self.new.links.heads.held (member_number from)) }
    {
        self.links.heads.room(member_number(to))?;
        self.links.heads.room(member_number(from))
    }

    /// Puts a message at the first free place.
    pub(crate) fn put<L: Ledger>(
        &mut self,
        id: u64,
        from: Member,
        to: Member,
        payload: u64,
        blank: Blank,
    )
        requires blank { (blank.name ≡ L.name) × (blank.parts ≡ L.parts) × (0 < L.parts) }
        requires whole { (es : List (ℕ × ℕ)) × IsKept self.old es id }
        requires room { self.old.free < none }
        requires known { IsKnown self.old.links.heads.held (member_number to) × IsKnown self.old.links.heads.held (member_number from) }
        ensures whole { (es : List (ℕ × ℕ)) → IsKept self.old es id
            → IsKept self.new (es ++ (id, self.old.free) ∷ []) (id + 1)
            × (msgs_in self.new (es ++ (id, self.old.free) ∷ []) ≡ msgs_in self.old es ++ record { id = id; from = from; to = to; payload = payload } ∷ []) }
    {
        let mut steps: Steps<L> = Steps::none(blank);
        self.insert(id, from, to, payload, &mut steps);
    }
}
