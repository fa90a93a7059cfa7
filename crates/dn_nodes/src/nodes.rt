ghost use Rattle.std.specs.Prelude.{◌≡◌, ◌+◌, ◌<◌, IfOk, length, slice_get, slice_set, Some};

use crate::node::Node;
use crate::steps::Steps;
use dn_memory::NoMemory;
use std::alloc::Global;
use std::marker::Model;
use std::sync::ledger::Ledger;

/// An arena of nodes.
#[derive(Drop)]
pub struct Nodes {
    held: Vec<Node>,
}

impl Model for Nodes {
    ghost use Rattle.std.specs.Prelude.{List};
    ghost use Rattle.dn_nodes.specs.declared.node.Node.{Node};

    ghost Value = { List Node };

    ghost view = { λ n. n.held.items };
}

impl Nodes {
    /// An arena of so many nodes.
    pub fn make(alloc: Global, count: u32) -> Result<Nodes, NoMemory>
        ensures { IfOk result (λ n. length n ≡ count) }
    {
        Ok(Nodes {
            held: vec![in alloc; Node::EMPTY; count as usize]?,
        })
    }

    /// The node at this place.
    pub fn get<L: Ledger>(&self, i: u32, steps: &mut Steps<L>) -> Node
        requires { i < length self.now }
        ensures node { slice_get self.now i ≡ Some result }
        ensures cost { steps.new ≡ steps.old + 1 }
    {
        steps.tick();
        self.held[i as usize]
    }

    /// Makes this the node at the place.
    pub fn set<L: Ledger>(&mut self, i: u32, node: Node, steps: &mut Steps<L>)
        requires { i < length self.old }
        ensures nodes { self.new ≡ slice_set self.old i node }
        ensures cost { steps.new ≡ steps.old + 1 }
    {
        steps.tick();
        let place = i as usize;
        self.held[place] = node;
    }
}
