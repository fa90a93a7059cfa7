use crate::letters::Letters;
use dn_wire::ServerId;

/// What a server's worker gives in one turn: how many entries its author had worked through, and the letters that it made of
/// them.
#[derive(Drop)]
pub struct Post {
    pub author: ServerId,
    pub read: u64,
    pub letters: Letters,
}
