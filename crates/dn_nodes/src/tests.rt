ghost use Rattle.std.specs.Prelude.{◌≡◌, ◌<◌, length};

use crate::{NONE, Node, Nodes, Steps};
use dn_wire::{ClientId, Member, ServerId};
use std::marker::Brand;
use std::sync::ledger::{Blank, Ledger};
use std::test::Fail;

const NODE: Node = Node {
    id: 3,
    from: Member::Client(ClientId(1)),
    to: Member::Server(ServerId(0)),
    payload: 5,
    to_before: NONE,
    to_after: 1,
    from_before: 0,
    from_after: NONE,
};

// Sets the node at place 1, and reads it and the one before.
fn set_and_get<L: Ledger>(nodes: &mut Nodes, blank: Blank) -> (Node, Node)
    requires nodes { 1 < length nodes.old }
    requires steps { (blank.name ≡ L.name) × (blank.parts ≡ L.parts) × (0 < L.parts) }
{
    let mut steps: Steps<L> = Steps::none(blank);
    nodes.set(1, NODE, &mut steps);
    (nodes.get(1, &mut steps), nodes.get(0, &mut steps))
}

#[test]
fn a_node_that_was_set_is_read(rt: HostRuntime) -> Result<(), Fail> {
    let mut nodes = Nodes::make(rt.alloc(), 2)?;
    let (one, before) = set_and_get::<Brand>(&mut nodes, Blank::new(1));
    assert_eq!(rt; one, NODE);
    assert_eq!(rt; before, Node::EMPTY);
    Ok(())
}
