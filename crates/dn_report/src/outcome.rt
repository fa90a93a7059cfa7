ghost use Rattle.std.specs.Prelude.{◌≡◌, IfOk};

use crate::pairs::ListedPairs;
use crate::words::{BlameWord, IgnoredWord, SpoilWord, UnopenedWord};
use dn_memory::NoMemory;
use dn_told::WindowTold;
use dn_wire::{Bytes, ClientId, Member, Round, ServerId, SlotId};
use std::alloc::Global;

/// What came of an event: one variant per form of line.
#[derive(Drop)]
pub enum Outcome {
    /// The member put bytes that weren't put before, and this is their number.
    Post {
        payload: u64,
        by: Member,
        bytes: Bytes,
    },
    /// The message with this number is in flight, and carries this payload.
    Sent {
        id: u64,
        payload: u64,
        to: Member,
    },
    /// A message was lost to a full flight.
    Full {
        payload: u64,
        to: Member,
    },
    /// The server runs a round on an earlier one.
    Opened {
        server: ServerId,
        r: Round,
        prev: Round,
    },
    /// The server's window closed with so many submissions told Included.
    Closed {
        server: ServerId,
        r: Round,
        count: u32,
    },
    /// The server gave up a round.
    Abandoned {
        server: ServerId,
        r: Round,
    },
    /// An honest server's answer to a submission.
    Told {
        client: ClientId,
        server: ServerId,
        r: Round,
        told: WindowTold,
    },
    /// A statement of `by` spoiled the server's round.
    Spoiled {
        server: ServerId,
        r: Round,
        by: ServerId,
        reason: SpoilWord,
    },
    /// The server's run of the round ended with a certificate.
    Certified {
        server: ServerId,
        r: Round,
    },
    /// The member holds a certificate of the round that it was handed.
    Held {
        member: Member,
        r: Round,
    },
    /// Who counts in the round.
    Listed {
        r: Round,
        pairs: ListedPairs,
    },
    /// The output of the round, as bytes.
    Out {
        r: Round,
        bytes: Bytes,
    },
    /// The round has no output: so many clients count, and so many did in the round before.
    Thin {
        r: Round,
        count: u32,
        last: u32,
    },
    /// A slot's block read as a message.
    Message {
        r: Round,
        slot: SlotId,
        text: Bytes,
    },
    /// A slot's block didn't.
    Garbled {
        r: Round,
        slot: SlotId,
    },
    /// The call was ignored.
    Ignored(IgnoredWord),
    /// The message came too early and stays in flight.
    Early,
    /// The message reached a corrupt member.
    Taken,
    /// The client noted a receipt.
    Noted,
    /// A core kept the statement, and nothing else came of it.
    Kept,
    /// So many messages of the leaver were dropped.
    Dropped {
        count: u32,
    },
    /// The payload didn't unseal.
    Unopened(UnopenedWord),
    /// The verdict blames this member.
    Blame {
        member: Member,
        reason: BlameWord,
    },
    /// The verdict names this member as silent.
    Silent {
        member: Member,
    },
}

impl Outcome {
    /// An equal outcome.
    pub fn copy(&self, alloc: Global) -> Result<Outcome, NoMemory>
        ensures { IfOk result (λ o. o ≡ self.now) }
    {
        Ok(match self {
            Outcome::Post { payload, by, bytes } => Outcome::Post {
                payload: *payload,
                by: *by,
                bytes: bytes.copy(alloc)?,
            },
            Outcome::Sent { id, payload, to } => Outcome::Sent {
                id: *id,
                payload: *payload,
                to: *to,
            },
            Outcome::Full { payload, to } => Outcome::Full {
                payload: *payload,
                to: *to,
            },
            Outcome::Opened { server, r, prev } => Outcome::Opened {
                server: *server,
                r: *r,
                prev: *prev,
            },
            Outcome::Closed { server, r, count } => Outcome::Closed {
                server: *server,
                r: *r,
                count: *count,
            },
            Outcome::Abandoned { server, r } => Outcome::Abandoned {
                server: *server,
                r: *r,
            },
            Outcome::Told {
                client,
                server,
                r,
                told,
            } => Outcome::Told {
                client: *client,
                server: *server,
                r: *r,
                told: *told,
            },
            Outcome::Spoiled {
                server,
                r,
                by,
                reason,
            } => Outcome::Spoiled {
                server: *server,
                r: *r,
                by: *by,
                reason: *reason,
            },
            Outcome::Certified { server, r } => Outcome::Certified {
                server: *server,
                r: *r,
            },
            Outcome::Held { member, r } => Outcome::Held {
                member: *member,
                r: *r,
            },
            Outcome::Listed { r, pairs } => Outcome::Listed {
                r: *r,
                pairs: pairs.copy(alloc)?,
            },
            Outcome::Out { r, bytes } => Outcome::Out {
                r: *r,
                bytes: bytes.copy(alloc)?,
            },
            Outcome::Thin { r, count, last } => Outcome::Thin {
                r: *r,
                count: *count,
                last: *last,
            },
            Outcome::Message { r, slot, text } => Outcome::Message {
                r: *r,
                slot: *slot,
                text: text.copy(alloc)?,
            },
            Outcome::Garbled { r, slot } => Outcome::Garbled { r: *r, slot: *slot },
            Outcome::Ignored(word) => Outcome::Ignored(*word),
            Outcome::Early => Outcome::Early,
            Outcome::Taken => Outcome::Taken,
            Outcome::Noted => Outcome::Noted,
            Outcome::Kept => Outcome::Kept,
            Outcome::Dropped { count } => Outcome::Dropped { count: *count },
            Outcome::Unopened(word) => Outcome::Unopened(*word),
            Outcome::Blame { member, reason } => Outcome::Blame {
                member: *member,
                reason: *reason,
            },
            Outcome::Silent { member } => Outcome::Silent { member: *member },
        })
    }
}
