// Numbers with a type each, so that none is taken for another.

ghost use Rattle.std.specs.Prelude.{◌≡◌};
ghost use Rattle.dn_wire.specs.Signer.{signer_tag, number_of};

/// A client, counted from 0.
#[derive(Clone, Copy, Debug, PartialEq, Eq, PartialOrd, Ord)]
pub struct ClientId(pub u32);

/// A server, counted from 0.
#[derive(Clone, Copy, Debug, PartialEq, Eq, PartialOrd, Ord)]
pub struct ServerId(pub u32);

/// A slot, counted from 0.
#[derive(Clone, Copy, Debug, PartialEq, Eq, PartialOrd, Ord)]
pub struct SlotId(pub u32);

/// A round. Round 0 is the beginning, before any round.
#[derive(Clone, Copy, Debug, PartialEq, Eq, PartialOrd, Ord)]
pub struct Round(pub u64);

/// A member of a group.
#[derive(Clone, Copy, Debug, PartialEq, Eq, PartialOrd, Ord)]
pub enum Member {
    Client(ClientId),
    Server(ServerId),
}

/// Who signs a statement: a member, or the owner of a slot by the slot's key.
#[derive(Clone, Copy, Debug, PartialEq, Eq, PartialOrd, Ord)]
pub enum SignerId {
    Client(ClientId),
    Server(ServerId),
    Slot(SlotId),
}

impl SignerId {
    /// The byte that stands for the kind of signer: 1 for a client, 2 for a server, 3 for a slot.
    pub fn tag(self) -> u8
        ensures { result ≡ signer_tag self }
    {
        match self {
            SignerId::Client(_) => 1,
            SignerId::Server(_) => 2,
            SignerId::Slot(_) => 3,
        }
    }

    /// The number of the client, the server or the slot.
    pub fn number(self) -> u32
        ensures { result ≡ number_of self }
    {
        match self {
            SignerId::Client(i) => i.0,
            SignerId::Server(j) => j.0,
            SignerId::Slot(s) => s.0,
        }
    }
}
