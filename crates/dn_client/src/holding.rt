// Which certificates a client holds, and when the head of its queue moves on.
ghost use Rattle.std.specs.Prelude.{◌≡◌, ◌≢◌, ◌≤◌, ◌<◌, ◌↔◌, ℕ, true, length, IfErr, OnOk, OnErr, IsTrue, IsErrOf, Err};
ghost use Rattle.dn_bits.specs.Bits.{bit};
ghost use Rattle.dn_cert.specs.Chain.{CanFollow, IsChain, with_held};
ghost use Rattle.dn_client.specs.declared.holding.HoldFault.TheVariants as refusals;
ghost use Rattle.dn_client.specs.Client.{IsClient};
ghost use Rattle.dn_client.specs.Holding.{Ascends, BringsOut, HasBlock, IsBroughtOut, IsHeld, IsNextHead, IsNotHeld, IsRefusedBy, Lists};

use crate::client::Client;
use crate::made::{Made, find};
use crate::rows::row_of;
use dn_bits::Bits;
use dn_cert::{Certificate, Chain, HoldFault as ChainFault};
use dn_memory::NoMemory;
use dn_records::Body;
use dn_wire::{ClientId, Round};
use std::alloc::Global;

/// Why a client doesn't hold a certificate: the first of these that is so.
#[derive(Clone, Copy, Debug, PartialEq, Eq)]
pub enum HoldFault {
    /// The client has left.
    Left,
    /// A certificate of its round is held.
    Known { r: Round },
    /// No certificate of its prev is held.
    NoPrev { prev: Round },
    /// It is thin and isn't due to be, or isn't thin and is due to be: `count` clients count in it, and `last` in the round of its prev.
    Floor { count: u32, last: u32 },
    /// Its output has `have` bits, and `need` are due: those of the layout after its prev, and none where it is thin.
    Length { have: u32, need: u32 },
    NoMemory,
}

impl From<NoMemory> for HoldFault {
    ghost use Rattle.std.specs.Prelude.{◌≡◌};
    ghost use Rattle.dn_client.specs.declared.holding.HoldFault.TheVariants.{NoMemory as Refused};

    ghost from_gives = { λ _ e. e ≡ Refused };

    fn from(_: NoMemory) -> Self {
        HoldFault::NoMemory
    }
}

impl From<ChainFault> for HoldFault {
    ghost use Rattle.std.specs.Prelude.{◌≡◌};
    ghost use Rattle.dn_client.specs.Holding.{fault_of};

    ghost from_gives = { λ f e. e ≡ fault_of f };

    fn from(fault: ChainFault) -> Self {
        match fault {
            ChainFault::Known { r } => HoldFault::Known { r },
            ChainFault::NoPrev { prev } => HoldFault::NoPrev { prev },
            ChainFault::Floor { count, last } => HoldFault::Floor { count, last },
            ChainFault::Length { have, need } => HoldFault::Length { have, need },
            ChainFault::NoMemory => HoldFault::NoMemory,
        }
    }
}

/// Whether the body lists the client with this digest.
pub fn lists(body: &Body, client: ClientId, digest: &[u8; 32]) -> bool
    requires { Ascends body.now.listed }
    ensures { IsTrue result ↔ Lists body.now client digest.now }
{
    match row_of(body.listed.get(), client) {
        Some(row) => row.digest == *digest,
        None => false,
    }
}

/// Whether an output has the same bits as a plain text from place `first` to below place `past`.
fn has_range(out: &Bits, plain: &Bits, first: u32, past: u32) -> bool
    ensures { IsTrue result ↔ ((past ≤ length out.now) × ((k : ℕ) → first ≤ k → k < past → bit out.now k ≡ bit plain.now k)) }
{
    if out.len() < past {
        return false;
    }
    for k in first..past {
        if out.get_or_zero(k) != plain.get_or_zero(k) {
            return false;
        }
    }
    true
}

/// Whether an output has the block of what was made.
fn has_block(made: &Made, out: &Bits) -> bool
    ensures { IsTrue result ↔ HasBlock made.now out.now }
{
    match made.range {
        Some((first, past)) => has_range(out, &made.plain, first, past),
        None => false,
    }
}

/// Whether a body brings out the text at this place of the queue, which what was made carries.
fn is_brought_out(made: &Made, place: usize, client: ClientId, body: &Body) -> bool
    requires { Ascends body.now.listed }
    ensures { IsTrue result ↔ IsBroughtOut made.now place client body.now }
{
    made.carried == Some(place) && lists(body, client, &made.digest) && has_block(made, &body.out)
}

/// Has the chain hold a copy of the certificate, if it can follow. One that can't isn't copied.
fn take(alloc: Global, chain: &mut Chain, c: &Certificate) -> Result<(), HoldFault>
    ensures held { OnOk result (CanFollow chain.old c.now.body × (chain.new ≡ record chain.old { held = with_held c.now.body chain.old.held })) }
    ensures refused { IfErr result (IsRefusedBy chain.old c.now.body) }
    ensures same { OnErr result (chain.new ≡ chain.old) }
    ensures chain { IsChain chain.new }
{
    if let Some(fault) = chain.refusal(c.body()) {
        return Err(HoldFault::from(fault));
    }
    let copy = c.copy(alloc)?;
    match chain.hold(alloc, copy) {
        Ok(()) => Ok(()),
        Err(fault) => Err(HoldFault::from(fault)),
    }
}

impl Client {
    /// Whether the body brings out the text at the head of the queue.
    fn brings_out(&self, body: &Body) -> bool
        requires { Ascends body.now.listed }
        ensures { IsTrue result ↔ BringsOut self.now body.now }
    {
        match find(&self.made, body.r) {
            Some(made) => is_brought_out(made, self.head, self.me, body),
            None => false,
        }
    }

    /// The head of the queue when the body is held.
    fn next_head(&self, body: &Body) -> usize
        requires { Ascends body.now.listed }
        ensures next { IsNextHead self.now body.now result }
        ensures within { result ≤ length self.now.queue }
    {
        if self.brings_out(body) {
            self.head + 1
        } else {
            self.head
        }
    }

    /// Holds a certificate, if it can follow those that are held. The head of the queue moves on where the certificate brings out the text
    /// there. The refusals come in the order of `HoldFault`.
    pub fn hold(&mut self, c: &Certificate) -> Result<(), HoldFault>
        ensures held { OnOk result (IsHeld self.old c.now self.new) }
        ensures refused { IfErr result (IsNotHeld self.old c.now.body) }
        ensures same { IfErr result (λ f. f ≢ refusals.NoMemory → self.new ≡ self.old) }
        ensures no_memory { IsErrOf result refusals.NoMemory → self.new ≡ record self.old { spent = true } }
        ensures spent { self.old.spent ≡ true → (result ≡ Err refusals.NoMemory) × (self.new ≡ self.old) }
        ensures client { IsClient self.new }
    {
        if self.spent {
            return Err(HoldFault::NoMemory);
        }
        if self.left {
            return Err(HoldFault::Left);
        }
        let head = self.next_head(c.body());
        match take(self.alloc, &mut self.chain, c) {
            Ok(()) => {
                self.head = head;
                Ok(())
            }
            Err(fault) => {
                self.spent = fault == HoldFault::NoMemory;
                Err(fault)
            }
        }
    }
}
