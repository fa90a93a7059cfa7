use dn_wire::{ClientId, Member};

/// The place that stands for none.
pub const NONE: u32 = 65536;

/// A message, with the places of the messages before and after it in its receiver's list and in its sender's.
#[derive(Clone, Copy, Debug, PartialEq, Eq)]
pub struct Node {
    pub id: u64,
    pub from: Member,
    pub to: Member,
    pub payload: u64,
    pub to_before: u32,
    pub to_after: u32,
    pub from_before: u32,
    pub from_after: u32,
}

impl Node {
    /// A node that holds no message yet.
    pub(crate) const EMPTY: Node = Node {
        id: 0,
        from: Member::Client(ClientId(0)),
        to: Member::Client(ClientId(0)),
        payload: 0,
        to_before: NONE,
        to_after: NONE,
        from_before: NONE,
        from_after: NONE,
    };
}
