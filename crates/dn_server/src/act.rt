ghost use Rattle.std.specs.Prelude.{◌≡◌};

use dn_cert::Certificate;
use dn_told::WindowTold;
use dn_wire::{Bytes, ClientId, MemberList, Round, ServerId};
use std::marker::Model;

/// Why a server ends its run of a round.
#[derive(Clone, Copy, Debug, PartialEq, Eq)]
pub enum SpoilReason {
    /// A server made two different statements of one kind.
    Twice,
    /// An inventory follows another round.
    Prev,
    /// An entry of an inventory doesn't verify.
    Entry,
    /// A revealed ciphertext doesn't have the round's length.
    Length,
    /// A revealed ciphertext doesn't have the digest that the server committed to.
    Commit,
    /// A server signed another body.
    Body,
}

/// What a server does.
#[derive(Drop)]
pub enum Act {
    Opened {
        r: Round,
        prev: Round,
    },
    Told {
        client: ClientId,
        r: Round,
        told: WindowTold,
    },
    /// The window of round `r` closed, and `count` submissions were told Included.
    Closed {
        r: Round,
        count: u32,
    },
    /// A payload for these members.
    Post {
        to: MemberList,
        payload: Bytes,
    },
    /// The run of the round ended by what this server did: what was kept, or due, and what came.
    Spoiled {
        server: ServerId,
        reason: SpoilReason,
        kept: Bytes,
        came: Bytes,
    },
    Certified(Certificate),
    Held {
        r: Round,
    },
    Abandoned,
}

/// A list of what a server does, in order.
#[derive(Drop)]
pub struct Acts {
    acts: Vec<Act>,
}

impl Model for Acts {
    ghost use Rattle.std.specs.Prelude.{List};
    ghost use Rattle.dn_server.specs.declared.act.Act.{Act};

    ghost Value = { List Act };

    ghost view = { λ a. a.acts.items };
}

impl Acts {
    /// The list of these acts.
    pub fn of(acts: Vec<Act>) -> Acts
        ensures { result ≡ acts.items }
    {
        Acts { acts }
    }

    /// The acts, in their order.
    pub fn get(&self) -> &[Act]
        ensures { result.now ≡ self.now }
    {
        &self.acts
    }
}
