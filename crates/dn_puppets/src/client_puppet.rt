// A corrupt client.
ghost use Rattle.std.specs.Prelude.{◌≡◌, ◌≤◌, ◌<◌, length, IfOk, IfSome};
ghost use Rattle.dn_wire.specs.declared.limits.TheConstants.{MAX_TEXT};

use crate::client_core::{Reaction, answer, hold, sign};
use crate::injection::{Injection, all_servers, put_to};
use crate::statements::{accusation, concession};
use crate::waiting::{Aim, TwistKind, Waiting, aim_of};
use dn_cert::Opened;
use dn_client::Client;
use dn_memory::NoMemory;
use dn_records::Statement;
use dn_script::Twist;
use dn_seal::{Challenge, Dealt};
use dn_server::plain_payload;
use dn_wire::{Bytes, ClientId, Member, Round, SlotId};
use std::alloc::Global;
use std::collections::BTreeSet;
use std::marker::Model;

/// A submission that a client's key signed.
#[derive(Drop)]
pub struct Submitted {
    pub statement: Statement,
    pub envelope: Bytes,
}

/// A corrupt client's puppet. Seen as the client's number.
#[derive(Drop)]
pub struct ClientPuppet {
    pub(crate) alloc: Global,
    pub(crate) me: ClientId,
    pub(crate) slot: SlotId,
    pub(crate) servers: u32,
    pub(crate) core: Client,
    pub(crate) waiting: Waiting,
    /// The submissions that its key signed, in order.
    pub(crate) submitted: Vec<Submitted>,
    /// The places that it conceded.
    conceded: BTreeSet<(u64, u32)>,
}

impl Model for ClientPuppet {
    ghost use Rattle.dn_wire.specs.declared.ids.ClientId.{ClientId as ClientIdOf};
    ghost use Rattle.dn_puppets.specs.Clients.{IsNumbered};

    ghost Value = { ClientIdOf };

    ghost view = { λ p. p.me };

    ghost invariant = { λ p. IsNumbered p.core.who };
}

/// The slot of a client, which is one of so many.
fn slot_of(owners: &[ClientId], slots: u32, client: ClientId) -> SlotId {
    for s in 0..slots {
        if owners.get(s as usize) == Some(&client) {
            return SlotId(s);
        }
    }
    SlotId(0)
}

impl ClientPuppet {
    /// The puppet of a client of a dealt group, which has done nothing yet.
    fn make(alloc: Global, dealt: &Dealt, client: ClientId) -> Result<ClientPuppet, NoMemory>
        requires { client.0 < dealt.now.spec.clients }
        ensures { IfOk result (λ p. p ≡ client) }
    {
        Ok(ClientPuppet {
            alloc,
            me: client,
            slot: slot_of(&dealt.owners, dealt.spec.clients, client),
            servers: dealt.spec.servers,
            core: Client::make(alloc, dealt, client)?,
            waiting: Waiting::none(alloc),
            submitted: Vec::new(alloc),
            conceded: BTreeSet::new(alloc),
        })
    }

    /// A twist waits.
    pub fn wait_for(&mut self, twist: Twist) -> Result<(), NoMemory>
        ensures { self.new ≡ self.old }
    {
        self.waiting.add(twist)
    }

    /// What the first waiting twist of its ciphertext aims at.
    pub fn aim(&self) -> Option<Aim> {
        aim_of(&self.waiting)
    }

    /// Its core.
    pub fn core(&self) -> &Client {
        &self.core
    }

    /// A text joins its queue.
    pub fn say(&mut self, text: &[u8]) -> Result<(), NoMemory>
        requires { length text.now ≤ MAX_TEXT }
        ensures { self.new ≡ self.old }
    {
        self.core.say(text)
    }

    /// It leaves.
    pub fn leave(&mut self)
        ensures { self.new ≡ self.old }
    {
        self.core.leave();
    }

    /// A post, unless it is muted. Where there is no payload, since no leaf was left to sign it, nothing is put.
    pub fn post(
        &mut self,
        to: &[Member],
        payload: Option<Bytes>,
        out: &mut Vec<Injection>,
    ) -> Result<(), NoMemory>
        ensures { self.new ≡ self.old }
    {
        if self.waiting.spend(TwistKind::Mute).is_some() {
            return Ok(());
        }
        match payload {
            Some(payload) => put_to(self.alloc, Member::Client(self.me), to, payload.get(), out),
            None => Ok(()),
        }
    }

    /// A post of an envelope to every server.
    fn post_to_servers(
        &mut self,
        envelope: Option<Vec<u8>>,
        out: &mut Vec<Injection>,
    ) -> Result<(), NoMemory>
        ensures { self.new ≡ self.old }
    {
        let payload = match envelope {
            Some(envelope) => Some(plain_payload(self.alloc, envelope)?),
            None => None,
        };
        let to = all_servers(self.alloc, self.servers)?;
        self.post(&to, payload, out)
    }

    /// It accuses at place `k` of round `r`, with a new signature of its slot's key.
    pub fn accuse(&mut self, r: Round, k: u32, out: &mut Vec<Injection>) -> Result<(), NoMemory>
        ensures { self.new ≡ self.old }
    {
        let accusation = accusation(r.0, self.slot.0, k);
        let envelope = sign(&mut self.core, true, &accusation)?;
        self.post_to_servers(envelope, out)
    }

    /// It concedes a place, once.
    fn concede(&mut self, r: Round, k: u32, out: &mut Vec<Injection>) -> Result<(), NoMemory>
        ensures { self.new ≡ self.old }
    {
        if self.conceded.contains(&(r.0, k)) {
            return Ok(());
        }
        self.conceded.insert((r.0, k))?;
        let envelope = sign(&mut self.core, false, &concession(r.0, k))?;
        self.post_to_servers(envelope, out)
    }

    /// It is challenged.
    fn challenged(
        &mut self,
        challenge: &Challenge,
        out: &mut Vec<Injection>,
    ) -> Result<(), NoMemory>
        ensures { self.new ≡ self.old }
    {
        match answer(&mut self.core, challenge)? {
            Reaction::Rebuts(envelope) => self.post_to_servers(Some(envelope), out),
            Reaction::Concedes => self.concede(challenge.r, challenge.k, out),
            Reaction::Nothing => Ok(()),
        }
    }

    /// What reached the client.
    pub fn reach(&mut self, opened: &Opened, out: &mut Vec<Injection>) -> Result<(), NoMemory>
        ensures { self.new ≡ self.old }
    {
        match opened {
            Opened::Certificate { certificate } => hold(&mut self.core, certificate),
            Opened::Challenge { challenge } => self.challenged(challenge, out),
            _ => Ok(()),
        }
    }
}

/// The puppet of a client; none where it isn't corrupt.
fn puppet_of(
    alloc: Global,
    dealt: &Dealt,
    corrupt: &[Member],
    client: ClientId,
) -> Result<Option<ClientPuppet>, NoMemory>
    requires { client.0 < dealt.now.spec.clients }
{
    if !corrupt.contains(&Member::Client(client)) {
        return Ok(None);
    }
    Ok(Some(ClientPuppet::make(alloc, dealt, client)?))
}

/// The puppets of the clients among the corrupt members, by number.
pub fn client_puppets(
    alloc: Global,
    dealt: &Dealt,
    corrupt: &[Member],
) -> Result<Vec<Option<ClientPuppet>>, NoMemory> {
    let mut puppets = Vec::new(alloc);
    for i in 0..dealt.spec.clients {
        puppets.push(puppet_of(alloc, dealt, corrupt, ClientId(i))?)?;
    }
    Ok(puppets)
}
