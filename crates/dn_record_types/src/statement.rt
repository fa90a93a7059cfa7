use crate::body::Body;
use crate::inventory::Inventory;
use crate::shown::Shows;
use dn_bits::Bits;
use dn_wire::{Bytes, ClientId, Round, ServerId, SlotId};

/// What a receipt tells its client.
#[derive(Clone, Copy, Debug, PartialEq, Eq)]
pub enum WordTold {
    /// The submission came before the window closed.
    Included,
    /// It came after.
    Late,
}

/// A statement, which its signer signs.
#[derive(Drop)]
pub enum Statement {
    /// A client's ciphertext of round `r` after round `prev`, by its digest.
    Submission {
        r: Round,
        prev: Round,
        client: ClientId,
        digest: [u8; 32],
    },
    /// A server's word on a client's submission.
    Receipt {
        r: Round,
        client: ClientId,
        digest: [u8; 32],
        told: WordTold,
    },
    /// The submissions that a server holds.
    Inventory(Inventory),
    /// The digest of a server's ciphertext, told before the ciphertext.
    Commit {
        r: Round,
        digest: [u8; 32],
    },
    /// A server's ciphertext.
    Reveal {
        r: Round,
        s: Bits,
    },
    /// The outcome of a round.
    Sign(Body),
    /// The bits of a server's pads at place `k`, one for each client of the roster.
    PadBits {
        r: Round,
        k: u32,
        bits: Bits,
    },
    /// A server's ciphertext and the clients' ciphertexts that went into it.
    Shown {
        r: Round,
        s: Bits,
        shown: Shows,
    },
    /// The owner of a slot says that its bit at place `k` was changed.
    Accusation {
        r: Round,
        slot: SlotId,
        k: u32,
    },
    /// A client's answer to a challenge: the seed that it shares with a server, and that server's
    /// signed bits as an envelope's bytes.
    Rebuttal {
        r: Round,
        k: u32,
        server: ServerId,
        seed: [u8; 32],
        envelope: Bytes,
    },
    /// A client's answer to a challenge that it has no rebuttal to.
    Concede {
        r: Round,
        k: u32,
    },
}
