ghost use Rattle.std.specs.Prelude.{◌≡◌, IfOk};

use dn_memory::NoMemory;
use dn_wire::{Bytes, ClientId, Member, Round, ServerId};
use std::alloc::Global;

/// What happens next in a run.
#[derive(Drop)]
pub enum Event {
    /// A text joins the client's queue.
    Say {
        client: ClientId,
        text: Bytes,
    },
    /// The server opens a round.
    OpenRound {
        server: ServerId,
        r: Round,
    },
    /// The server closes its window.
    Close {
        server: ServerId,
    },
    /// The server gives up the round that it runs.
    Abandon {
        server: ServerId,
    },
    /// The client's submission of a round is put to a server.
    Submit {
        client: ClientId,
        server: ServerId,
        r: Round,
    },
    /// The message in flight with this number arrives.
    Deliver {
        id: u64,
    },
    /// The message in flight with this number is lost.
    Lose {
        id: u64,
    },
    /// A unit of time passes at each honest server.
    Tick,
    /// The client leaves, and its messages in flight are dropped.
    Leave {
        client: ClientId,
    },
    /// The client's accusation at place `k` of a round is put to every server.
    Accuse {
        client: ClientId,
        r: Round,
        k: u32,
    },
    /// The verdict on place `k` of a round is told.
    Judge {
        r: Round,
        k: u32,
    },
    /// A member puts these bytes to another.
    Inject {
        from: Member,
        to: Member,
        payload: Bytes,
    },
}

impl Event {
    /// An equal event.
    pub fn copy(&self, alloc: Global) -> Result<Event, NoMemory>
        ensures { IfOk result (λ e. e ≡ self.now) }
    {
        Ok(match self {
            Event::Say { client, text } => Event::Say {
                client: *client,
                text: text.copy(alloc)?,
            },
            Event::OpenRound { server, r } => Event::OpenRound {
                server: *server,
                r: *r,
            },
            Event::Close { server } => Event::Close { server: *server },
            Event::Abandon { server } => Event::Abandon { server: *server },
            Event::Submit { client, server, r } => Event::Submit {
                client: *client,
                server: *server,
                r: *r,
            },
            Event::Deliver { id } => Event::Deliver { id: *id },
            Event::Lose { id } => Event::Lose { id: *id },
            Event::Tick => Event::Tick,
            Event::Leave { client } => Event::Leave { client: *client },
            Event::Accuse { client, r, k } => Event::Accuse {
                client: *client,
                r: *r,
                k: *k,
            },
            Event::Judge { r, k } => Event::Judge { r: *r, k: *k },
            Event::Inject { from, to, payload } => Event::Inject {
                from: *from,
                to: *to,
                payload: payload.copy(alloc)?,
            },
        })
    }
}
