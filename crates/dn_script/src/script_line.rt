use dn_wire::{Bytes, ClientId, Member, MemberList, Round, ServerId};

/// A line of a script.
#[derive(Drop)]
pub enum ScriptLine {
    /// The first line of a plain script.
    Plain {
        clients: u32,
        servers: u32,
        bits: u32,
        seed: [u8; 32],
    },
    /// The bits that a client of a plain script sends, as bytes.
    PlainSay {
        client: ClientId,
        message: Bytes,
    },
    PlainSubmit {
        client: ClientId,
    },
    PlainClose,
    /// The first line of a group script; version 1 or 2.
    Group {
        version: u8,
        clients: u32,
        servers: u32,
        ots: u32,
        client_lms: u32,
        server_lms: u32,
        seed: [u8; 32],
    },
    Corrupt(MemberList),
    Say {
        client: ClientId,
        text: Bytes,
    },
    Open {
        server: ServerId,
        r: Round,
    },
    Close {
        server: ServerId,
    },
    Abandon {
        server: ServerId,
    },
    Submit {
        client: ClientId,
        server: ServerId,
        r: Round,
    },
    Deliver {
        id: u64,
    },
    Lose {
        id: u64,
    },
    Cut {
        from: Member,
        to: Member,
    },
    Flow {
        times: u32,
    },
    /// So many ticks, of a plain or of a group script.
    Tick {
        count: u32,
    },
    Leave {
        client: ClientId,
    },
    /// At place `k`, or at the least jammed bit.
    Accuse {
        client: ClientId,
        r: Round,
        k: Option<u32>,
    },
    /// At place `k`, or at that of the last accusation.
    Judge {
        r: Round,
        k: Option<u32>,
    },
    /// The clients as members.
    Race {
        server: ServerId,
        workers: u32,
        clients: MemberList,
    },
    Live {
        turns: u32,
    },
    Twist {
        member: Member,
        twist: Twist,
    },
    Inject {
        from: Member,
        to: Member,
        payload: Bytes,
    },
    Speak {
        from: Member,
        to: Member,
        statement: Bytes,
    },
    Replay {
        payload: u64,
        to: Member,
    },
    Lure {
        server: ServerId,
        client: ClientId,
        r: Round,
    },
    Complete {
        server: ServerId,
        r: Round,
    },
    End,
}

/// What a corrupt member changes.
#[derive(Clone, Copy, Debug, PartialEq, Eq)]
pub enum Twist {
    Flip { k: u32 },
    Jam { client: ClientId },
    Reveal { k: u32 },
    Frame { client: ClientId },
    Mute,
}
