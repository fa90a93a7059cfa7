// How a client accuses at a place of a round.
ghost use Rattle.std.specs.Prelude.{◌≡◌, ◌≢◌, ◌↔◌, ◌⊎◌, ℕ, true, false, IsTrue, IfOk, IfErr, IfSome, IfNone, IsErrOf, Err, MatchOption};
ghost use Rattle.dn_seal.specs.Signer.{CanSign};
ghost use Rattle.dn_client.specs.declared.accusing.AccuseFault.TheVariants as refusals;
ghost use Rattle.dn_client.specs.declared.made.Made.{Made};
ghost use Rattle.dn_client.specs.Client.{IsClient, IsSpent};
ghost use Rattle.dn_client.specs.Holding.{Ascends};
ghost use Rattle.dn_client.specs.Accusing.{Accuses, HasAccused, IsUnaccused, IsJammed, IsFirstJammed, IsAccusedNow, IsFirstDiffering, IsListedMade, IsNotMadeNow, IsRangeIn, IsWithin, text_bit};

use crate::accused::{Accused, find as find_accused};
use crate::client::Client;
use crate::holding::lists;
use crate::made::find;
use dn_bits::Bits;
use dn_memory::NoMemory;
use dn_records::{Body, Statement};
use dn_wire::{Bytes, Round, SignerId, SlotId};
use std::alloc::AllocError;

/// Why a client doesn't accuse: the first of these that is so.
#[derive(Clone, Copy, Debug, PartialEq, Eq)]
pub enum AccuseFault {
    /// The client has left.
    Left,
    /// It holds no certificate of the round.
    NoCert { r: Round },
    /// The place isn't in its slot.
    Place { k: u32 },
    /// Its own bit isn't 0, or the output's isn't 1.
    NoEvidence { own: bool, out: bool },
    /// No leaf of the slot's key is left.
    Spent,
    NoMemory,
}

impl From<NoMemory> for AccuseFault {
    ghost use Rattle.std.specs.Prelude.{◌≡◌};
    ghost use Rattle.dn_client.specs.declared.accusing.AccuseFault.TheVariants.{NoMemory as Refused};

    ghost from_gives = { λ _ e. e ≡ Refused };

    fn from(_: NoMemory) -> Self {
        AccuseFault::NoMemory
    }
}

impl From<AllocError> for AccuseFault {
    ghost use Rattle.std.specs.Prelude.{◌≡◌};
    ghost use Rattle.dn_client.specs.declared.accusing.AccuseFault.TheVariants.{NoMemory as Refused};

    ghost from_gives = { λ _ e. e ≡ Refused };

    fn from(_: AllocError) -> Self {
        AccuseFault::NoMemory
    }
}

/// The client's own bit at place `k`: that of its text, and 0 past the text's end or without one.
fn own_bit(text: Option<&Bits>, k: u32) -> bool
    ensures { result ≡ text_bit text.entry k }
{
    match text {
        Some(text) => text.get_or_zero(k),
        None => false,
    }
}

/// Whether a place lies in a range.
fn is_within(range: Option<(u32, u32)>, k: u32) -> bool
    ensures { IsTrue result ↔ IsWithin range k }
{
    match range {
        Some((first, past)) => first <= k && k < past,
        None => false,
    }
}

/// Whether a bit came out as it may have: the client's own is 1, or the output's is 0.
fn is_kept(own: bool, out: bool) -> bool
    ensures { IsTrue result ↔ ((own ≡ true) ⊎ (out ≡ false)) }
{
    own || !out
}

/// The least place from `first` to below `past` where the output has a 1, and the client's own text has a 0 or there is none.
fn first_differing(own: Option<&Bits>, out: &Bits, first: u32, past: u32) -> Option<u32>
    ensures { IsFirstDiffering own.entry out.now first past result }
{
    for k in first..past {
        if out.get_or_zero(k) && !own_bit(own, k) {
            return Some(k);
        }
    }
    None
}

/// The accusation of a slot at a place of a round.
fn accusation_of(r: u64, slot: u32, k: u32) -> Statement
    ensures value { result ≡ Statement.Accusation record { 0 = r } record { 0 = slot } k }
    ensures fits { CanSign (SignerId.Slot record { 0 = slot }) result }
{
    Statement::Accusation {
        r: Round(r),
        slot: SlotId(slot),
        k,
    }
}

impl Client {
    /// The range of the client's slot in the round of a body that is held.
    pub(crate) fn range_in(&self, body: &Body) -> Option<(u32, u32)>
        ensures { IsRangeIn self.now body.now result }
    {
        self.chain.layout(body.prev)?.range(self.slot)
    }

    /// The client's plain text of a body's round, where the body lists what the client made.
    fn own_text(&self, body: &Body) -> Option<&Bits>
        requires { Ascends body.now.listed }
        ensures some { IfSome result (λ text. (m : Made) × IsListedMade self.now body.now m × (text.now ≡ m.plain)) }
        ensures none { IfNone result ((m : Made) → ¬ IsListedMade self.now body.now m) }
    {
        let made = find(&self.made, body.r)?;
        if lists(body, self.me, &made.digest) {
            Some(&made.plain)
        } else {
            None
        }
    }

    /// Whether the bit at place `k` of round `r` was changed: nothing where it was, and else why the client doesn't accuse.
    fn denial(&self, r: Round, k: u32) -> Option<AccuseFault>
        ensures { MatchOption result ((self.now.left ≡ false) × IsJammed self.now r k) (λ f. (f ≢ refusals.NoMemory) × IsUnaccused self.now r k f) }
    {
        if self.left {
            return Some(AccuseFault::Left);
        }
        let Some(body) = self.chain.body(r) else {
            return Some(AccuseFault::NoCert { r });
        };
        if !is_within(self.range_in(body), k) {
            return Some(AccuseFault::Place { k });
        }
        let own = own_bit(self.own_text(body), k);
        let out = body.out.get_or_zero(k);
        if is_kept(own, out) {
            Some(AccuseFault::NoEvidence { own, out })
        } else {
            None
        }
    }

    /// The envelope of the client's accusation at place `k` of round `r`, signed by the key of its slot; the same again where it accused
    /// there before. The refusals come in the order of `AccuseFault`.
    pub fn accuse(&mut self, r: Round, k: u32) -> Result<Vec<u8>, AccuseFault>
        ensures accused { IfOk result (λ v. Accuses self.old r k v.items self.new) }
        ensures refused { IfErr result (IsUnaccused self.old r k) }
        ensures same { IfErr result (λ f. f ≢ refusals.NoMemory → self.new ≡ self.old) }
        ensures no_memory { IsErrOf result refusals.NoMemory → IsSpent self.old self.new }
        ensures spent { self.old.spent ≡ true → (result ≡ Err refusals.NoMemory) × (self.new ≡ self.old) }
        ensures client { IsClient self.new }
    {
        if self.spent {
            return Err(AccuseFault::NoMemory);
        }
        if let Some(denial) = self.denial(r, k) {
            return Err(denial);
        }
        match find_accused(&self.accused, r, k) {
            Some(accused) => {
                let again = Vec::from_slice(self.alloc, accused.envelope.get());
                self.spent = again.is_err();
                Ok(again?)
            }
            None => self.accuse_now(r, k),
        }
    }

    fn accuse_now(&mut self, r: Round, k: u32) -> Result<Vec<u8>, AccuseFault>
        requires unspent { self.old.spent ≡ false }
        requires jammed { IsJammed self.old r k }
        requires first { ¬ HasAccused self.old r k }
        ensures accused { IfOk result (λ v. IsAccusedNow self.old r k v.items self.new) }
        ensures refused { IfErr result (λ f. IsNotMadeNow self.old f self.new) }
        ensures client { IsClient self.new }
    {
        if self.slot_key.left() == 0 {
            return Err(AccuseFault::Spent);
        }
        self.spent = true;
        self.accused.reserve(1)?;
        let accusation = accusation_of(r.0, self.slot.0, k);
        let sealed = self.slot_key.seal(self.alloc, accusation)?;
        let envelope = Bytes::of(sealed);
        let given = Vec::from_slice(self.alloc, envelope.get());
        self.accused.push_reserved(Accused { r, k, envelope });
        let given = given?;
        self.spent = false;
        Ok(given)
    }

    /// The least place of round `r` at which the client would accuse, but for its having left and for want of leaves; nothing where there is
    /// none.
    pub fn first_jammed(&self, r: Round) -> Option<u32>
        ensures jammed { MatchOption result ((k : ℕ) → ¬ IsJammed self.now r k) (IsFirstJammed self.now r) }
        ensures client { IsClient self.now }
    {
        let body = self.chain.body(r)?;
        let (first, past) = self.range_in(body)?;
        first_differing(self.own_text(body), &body.out, first, past)
    }
}
