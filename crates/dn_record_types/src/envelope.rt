use crate::statement::Statement;
use dn_wire::{Bytes, SignerId};

/// A statement with its signature.
#[derive(Drop)]
pub struct Envelope {
    pub signer: SignerId,
    pub statement: Statement,
    pub signature: Bytes,
}
