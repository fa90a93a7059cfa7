use crate::body::Body;
use crate::byte_lists::ByteLists;
use dn_bits::Bits;
use dn_wire::{Bytes, Round};

/// What one message carries. Envelopes in it are kept as bytes.
#[derive(Drop)]
pub enum Payload {
    /// A client's ciphertext, and the envelope of its submission.
    Submission {
        cipher: Bits,
        envelope: Bytes,
    },
    /// Any envelope.
    Plain {
        envelope: Bytes,
    },
    /// A body, and each server's signature of it, by server.
    Certificate {
        body: Body,
        signatures: ByteLists,
    },
    /// The servers' envelopes of their bits of round `r` at place `k`.
    Challenge {
        r: Round,
        k: u32,
        envelopes: ByteLists,
    },
}
