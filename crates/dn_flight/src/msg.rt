use dn_wire::Member;

/// A message: its number, its sender, its receiver, and the number of its payload.
#[derive(Clone, Copy, Debug, PartialEq, Eq)]
pub struct Msg {
    pub id: u64,
    pub from: Member,
    pub to: Member,
    pub payload: u64,
}
