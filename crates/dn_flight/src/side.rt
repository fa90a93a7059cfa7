ghost use Rattle.std.specs.Prelude.{◌≡◌};
ghost use Rattle.dn_flight.specs.Side.{before_of, after_of, with_before, with_after, first_end, last_end, with_first, with_last};

use crate::heads::Ends;
use dn_nodes::Node;

/// Which of the two lists that a node stands in: its receiver's or its sender's.
#[derive(Clone, Copy, Debug, PartialEq, Eq)]
pub(crate) enum Side {
    To,
    From,
}

impl Side {
    pub(crate) fn before(self, node: Node) -> u32
        ensures { result ≡ before_of self node }
    {
        match self {
            Side::To => node.to_before,
            Side::From => node.from_before,
        }
    }

    pub(crate) fn after(self, node: Node) -> u32
        ensures { result ≡ after_of self node }
    {
        match self {
            Side::To => node.to_after,
            Side::From => node.from_after,
        }
    }

    pub(crate) fn with_before(self, node: Node, place: u32) -> Node
        ensures { result ≡ with_before self node place }
    {
        match self {
            Side::To => Node {
                to_before: place,
                ..node
            },
            Side::From => Node {
                from_before: place,
                ..node
            },
        }
    }

    pub(crate) fn with_after(self, node: Node, place: u32) -> Node
        ensures { result ≡ with_after self node place }
    {
        match self {
            Side::To => Node {
                to_after: place,
                ..node
            },
            Side::From => Node {
                from_after: place,
                ..node
            },
        }
    }

    pub(crate) fn first(self, ends: Ends) -> u32
        ensures { result ≡ first_end self ends }
    {
        match self {
            Side::To => ends.to_first,
            Side::From => ends.from_first,
        }
    }

    pub(crate) fn last(self, ends: Ends) -> u32
        ensures { result ≡ last_end self ends }
    {
        match self {
            Side::To => ends.to_last,
            Side::From => ends.from_last,
        }
    }

    pub(crate) fn with_first(self, ends: Ends, place: u32) -> Ends
        ensures { result ≡ with_first self ends place }
    {
        match self {
            Side::To => Ends {
                to_first: place,
                ..ends
            },
            Side::From => Ends {
                from_first: place,
                ..ends
            },
        }
    }

    pub(crate) fn with_last(self, ends: Ends, place: u32) -> Ends
        ensures { result ≡ with_last self ends place }
    {
        match self {
            Side::To => Ends {
                to_last: place,
                ..ends
            },
            Side::From => Ends {
                from_last: place,
                ..ends
            },
        }
    }
}
