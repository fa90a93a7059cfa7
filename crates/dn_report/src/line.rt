use crate::outcome::Outcome;
use dn_wire::{Bytes, ClientId, Member, MemberList, Round, ServerId, SlotId};

/// A line of an event, behind `@`. Rounds, numbers and places are any, and a payload is told by its number.
#[derive(Drop)]
pub enum EventLine {
    /// A text joins the client's queue.
    Say {
        client: ClientId,
        text: Bytes,
    },
    /// The server opens a round.
    Open {
        server: ServerId,
        r: Round,
    },
    /// The client's submission of a round is put to a server.
    Submit {
        client: ClientId,
        server: ServerId,
        r: Round,
    },
    /// The message in flight with this number arrives.
    Deliver {
        id: u64,
    },
    /// The message in flight with this number is lost.
    Lose {
        id: u64,
    },
    /// A unit of time passes at each honest server.
    Tick,
    /// The server closes its window.
    Close {
        server: ServerId,
    },
    /// The server gives up the round that it runs.
    Abandon {
        server: ServerId,
    },
    /// The client leaves.
    Leave {
        client: ClientId,
    },
    /// The client's accusation at place `k` of a round is put to every server.
    Accuse {
        client: ClientId,
        r: Round,
        k: u32,
    },
    /// The verdict on place `k` of a round is told.
    Judge {
        r: Round,
        k: u32,
    },
    /// A member puts the payload with this number to another.
    Inject {
        from: Member,
        to: Member,
        payload: u64,
    },
}

/// A line of a report.
#[derive(Drop)]
pub enum ReportLine {
    /// The first line: the version of the group, 1 or 2.
    Report {
        version: u8,
    },
    /// The numbers of clients and servers, and the codes of their keys.
    Group {
        clients: u32,
        servers: u32,
        ots: u32,
        client_lms: u32,
        server_lms: u32,
    },
    /// A client's public key.
    ClientKey {
        client: ClientId,
        key: Bytes,
    },
    /// A server's public key.
    ServerKey {
        server: ServerId,
        key: Bytes,
    },
    /// A slot's public key.
    SlotKey {
        slot: SlotId,
        key: Bytes,
    },
    /// The commitment to the seed that a client and a server share.
    Seal {
        client: ClientId,
        server: ServerId,
        seal: Bytes,
    },
    /// The corrupt members: servers first, by number.
    Corrupt(MemberList),
    /// An event.
    Event(EventLine),
    /// The events of a race of so many workers begin.
    Race {
        server: ServerId,
        workers: u32,
    },
    /// A post of the server's worker, which had read so many entries.
    Board {
        server: ServerId,
        read: u64,
    },
    /// What came of the event above.
    Outcome(Outcome),
    /// What the audit says of signatures and of strings, and whether some server is honest.
    Audit {
        signed: bool,
        digests: bool,
        honest: bool,
    },
    /// The last line.
    End,
}
