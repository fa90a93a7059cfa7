ghost use Rattle.std.specs.Prelude.{◌≡◌, ◌<◌, ◌≤◌, ◌++◌, ◌∷◌, [], map, length, true, false, slice_get, Some, IfOk, IfSome, OnOk, OnErr, IsErr};
ghost use Rattle.std.specs.List.{range_with_len};
ghost use Rattle.dn_wire.specs.declared.limits.TheConstants.{MAX_TEXT};
ghost use Rattle.dn_seal.specs.Dealt.{seed_dealt_to};
ghost use Rattle.dn_client.specs.Client.{IsDealtTo, IsIn, IsClient};

use crate::accused::Accused;
use crate::answered::Answered;
use crate::made::Made;
use dn_cert::Chain;
use dn_memory::NoMemory;
use dn_pads::Seed;
use dn_roster::pair_seed;
use dn_seal::{Dealt, SigningKey, members_have_their_keys, pairs_have_their_seeds};
use dn_wire::{Bytes, ClientId, ServerId, SignerId, SlotId};
use std::alloc::Global;
use std::marker::Model;

/// A client of a group. Where a call wants for memory the client is spent: from then on each call that takes memory answers so.
#[derive(Drop)]
pub struct Client {
    pub(crate) alloc: Global,
    pub(crate) me: ClientId,
    pub(crate) slot: SlotId,
    pub(crate) seeds: Vec<Seed>,
    pub(crate) mask: [u8; 32],
    pub(crate) key: SigningKey,
    pub(crate) slot_key: SigningKey,
    pub(crate) chain: Chain,
    pub(crate) queue: Vec<Bytes>,
    pub(crate) head: usize,
    pub(crate) made: Vec<Made>,
    pub(crate) accused: Vec<Accused>,
    pub(crate) answered: Vec<Answered>,
    pub(crate) left: bool,
    pub(crate) bent: bool,
    pub(crate) spent: bool,
}

impl Model for Client {
    ghost use Rattle.dn_client.specs.Client.{ClientView};

    ghost Value = { ClientView };

    ghost use Rattle.dn_client.specs.Inside.{view_of, Keeps};

    ghost view = { view_of };

    ghost invariant = { Keeps };
}

/// The slot of client `i`, which is one of so many.
fn slot_of(owners: &[ClientId], slots: u32, i: ClientId) -> Option<SlotId>
    ensures { IfSome result (λ s. (s.0 < slots) × (slice_get owners.now s.0 ≡ Some i)) }
{
    for s in 0..slots {
        if owners.get(s as usize) == Some(&i) {
            return Some(SlotId(s));
        }
    }
    None
}

/// The seeds that client `i` shares with the servers.
fn seeds_of(alloc: Global, dealt: &Dealt, i: ClientId) -> Result<Vec<Seed>, NoMemory>
    requires { i.0 < dealt.now.spec.clients }
    ensures { IfOk result (λ seeds. seeds.items ≡ map (seed_dealt_to dealt.now.spec i.0) (range_with_len 0 dealt.now.spec.servers)) }
{
    let mut seeds = Vec::new(alloc);
    for j in 0..dealt.spec.servers {
        seeds.push(pair_seed(&dealt.spec, i, ServerId(j)))?;
    }
    Ok(seeds)
}

impl Client {
    /// Client `i` of a dealt group, which has done nothing yet.
    pub fn make(alloc: Global, dealt: &Dealt, i: ClientId) -> Result<Client, NoMemory>
        requires { i.0 < dealt.now.spec.clients }
        ensures dealt { IfOk result (λ c. IsDealtTo dealt.now.spec i c.who) }
        ensures within { IfOk result (λ c. IsIn dealt.now.roster c.who) }
        ensures fresh { IfOk result (λ c. c ≡ record {
          who = c.who;
          chain = record { slots = dealt.now.spec.clients; held = [] };
          queue = [];
          head = 0;
          made = [];
          accused = [];
          answered = [];
          signed = [];
          signed_as_slot = [];
          left = false;
          bent = false;
          spent = false;
        }) }
        ensures client { IfOk result IsClient }
    {
        members_have_their_keys(dealt);
        pairs_have_their_seeds(dealt);
        // Each client has a slot, and keys and a secret at its number.
        let Some(slot) = slot_of(&dealt.owners, dealt.spec.clients, i) else {
            return Err(NoMemory);
        };
        let Some(key) = dealt.client_keys.get(i.0 as usize) else {
            return Err(NoMemory);
        };
        let Some(slot_key) = dealt.slot_keys.get(slot.0 as usize) else {
            return Err(NoMemory);
        };
        let Some(mask) = dealt.masks.get(i.0 as usize) else {
            return Err(NoMemory);
        };
        let digest = dealt.roster.digest();
        let key = SigningKey::make(alloc, key.copy(alloc)?, digest, SignerId::Client(i))?;
        let slot_key = SigningKey::make(
            alloc,
            slot_key.copy(alloc)?,
            digest,
            SignerId::Slot(slot),
        )?;
        Ok(Client {
            alloc,
            me: i,
            slot,
            seeds: seeds_of(alloc, dealt, i)?,
            mask: *mask,
            key,
            slot_key,
            chain: Chain::make(alloc, dealt.spec.clients)?,
            queue: Vec::new(alloc),
            head: 0,
            made: Vec::new(alloc),
            accused: Vec::new(alloc),
            answered: Vec::new(alloc),
            left: false,
            bent: false,
            spent: false,
        })
    }

    /// Puts a text of at most 996 bytes at the end of the client's queue.
    pub fn say(&mut self, msg: &[u8]) -> Result<(), NoMemory>
        requires { length msg.now ≤ MAX_TEXT }
        ensures said { OnOk result (self.new ≡ record self.old { queue = self.old.queue ++ msg.now ∷ [] }) }
        ensures refused { OnErr result (self.new ≡ record self.old { spent = true }) }
        ensures spent { self.old.spent ≡ true → IsErr result }
        ensures client { IsClient self.new }
    {
        if self.spent {
            return Err(NoMemory);
        }
        self.spent = true;
        let text = Bytes::of(Vec::from_slice(self.alloc, msg)?);
        self.queue.push(text)?;
        self.spent = false;
        Ok(())
    }

    /// The client leaves: from then on it submits, holds, accuses and answers nothing.
    pub fn leave(&mut self)
        ensures left { self.new ≡ record self.old { left = true } }
        ensures client { IsClient self.new }
    {
        self.left = true;
    }

    /// Whether `sign` was called.
    pub fn is_bent(&self) -> bool
        ensures value { result ≡ self.now.bent }
        ensures client { IsClient self.now }
    {
        self.bent
    }
}
