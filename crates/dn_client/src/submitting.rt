// What a client sends in a round.
ghost use Rattle.std.specs.Prelude.{◌≡◌, ◌≢◌, ◌<◌, ◌++◌, ◌∷◌, [], List, true, false, map, length, Some, IfOk, IfErr, IsErrOf, Err};
ghost use Rattle.std.specs.List.Sorted.{IsStrictlyIncreasing};
ghost use Rattle.dn_bits.specs.Bits.{bytes_of};
ghost use Rattle.dn_hash.specs.Digests.{cipher_digest_of};
ghost use Rattle.dn_client.specs.declared.made.Made.{Made};
ghost use Rattle.dn_client.specs.declared.submitting.SubmitFault.TheVariants as refusals;
ghost use Rattle.dn_seal.specs.Signer.{CanSign};
ghost use Rattle.dn_client.specs.Plain.{carried_at};
ghost use Rattle.dn_client.specs.Client.{IsClient, IsSpent};
ghost use Rattle.dn_client.specs.Submitting.{IsSubmitted, IsUnsubmitted, IsUnsigned, IsMadeNow, IsUnmade, IsNewRound, IsOfLast, IsTurn, given_of};

use crate::client::Client;
use crate::made::Made;
use crate::plain_text::{carries, cipher_of, plain_text};
use dn_bits::Bits;
use dn_hash::{cipher_digest, mask_seed};
use dn_layout::Layout;
use dn_memory::NoMemory;
use dn_records::Statement;
use dn_wire::{Bytes, ClientId, Round, SignerId, SlotId};
use std::alloc::{AllocError, Global};

/// What a client sends to its server: the ciphertext, and the envelope of the statement that binds the client to it.
#[derive(Drop)]
pub struct Submission {
    pub envelope: Bytes,
    pub cipher: Bits,
}

/// Why nothing is submitted: the first of these that is so.
#[derive(Clone, Copy, Debug, PartialEq, Eq)]
pub enum SubmitFault {
    /// The client has left.
    Left,
    /// The round is below the last one submitted, which is `last`.
    Old { last: Round },
    /// No leaf of the client's key is left.
    Spent,
    NoMemory,
}

impl From<NoMemory> for SubmitFault {
    ghost use Rattle.std.specs.Prelude.{◌≡◌};
    ghost use Rattle.dn_client.specs.declared.submitting.SubmitFault.TheVariants.{NoMemory as Refused};

    ghost from_gives = { λ _ e. e ≡ Refused };

    fn from(_: NoMemory) -> Self {
        SubmitFault::NoMemory
    }
}

impl From<AllocError> for SubmitFault {
    ghost use Rattle.std.specs.Prelude.{◌≡◌};
    ghost use Rattle.dn_client.specs.declared.submitting.SubmitFault.TheVariants.{NoMemory as Refused};

    ghost from_gives = { λ _ e. e ≡ Refused };

    fn from(_: AllocError) -> Self {
        SubmitFault::NoMemory
    }
}

/// How a round stands to those for which something was made.
enum Turn {
    /// Below the last of them, which is this one.
    Below(Round),
    /// The last of them.
    Last,
    /// Above all of them.
    Above,
}

fn turn_of(made: &[Made], r: Round) -> Turn
    requires { IsStrictlyIncreasing (map (λ m. m.r.0) made.now) }
    ensures { IsTurn made.now r result }
{
    let Some(last) = made.last() else {
        return Turn::Above;
    };
    if r < last.r {
        Turn::Below(last.r)
    } else if r == last.r {
        Turn::Last
    } else {
        Turn::Above
    }
}

/// The submission that was made last.
fn last_of(alloc: Global, made: &[Made]) -> Result<Submission, NoMemory>
    requires { 0 < length made.now }
    ensures { IfOk result (λ s. (before : List Made) → (last : Made) → made.now ≡ before ++ last ∷ [] → s ≡ given_of last) }
{
    let last = &made[made.len() - 1];
    Ok(Submission {
        envelope: last.envelope.copy(alloc)?,
        cipher: last.cipher.copy(alloc)?,
    })
}

/// The place of the text that the plain text carries, where the first of the waiting ones stands at this place.
#[tactic(auto, unfolding(crate::specs::Plain::carried_at))]
fn carried_at(layout: &Layout, slot: SlotId, waiting: &[Bytes], place: usize) -> Option<usize>
    ensures { result ≡ carried_at layout.now slot.0 waiting.now place }
{
    if carries(layout.size(slot), waiting) {
        Some(place)
    } else {
        None
    }
}

/// The digest of a client's ciphertext.
fn digest_of(alloc: Global, r: Round, client: ClientId, cipher: &Bits) -> Result<[u8; 32], NoMemory>
    ensures { IfOk result (λ digest. digest ≡ cipher_digest_of r.0 client.0 (bytes_of cipher.now)) }
{
    let mut bytes = Vec::new(alloc);
    cipher.write_bytes(alloc, &mut bytes)?;
    Ok(cipher_digest(r.0, client.0, &bytes))
}

/// The statement that binds a client to a ciphertext.
fn statement_of(r: u64, prev: u64, client: u32, digest: [u8; 32]) -> Statement
    ensures value { result ≡ Statement.Submission record { 0 = r } record { 0 = prev } record { 0 = client } digest }
    ensures fits { CanSign (SignerId.Client record { 0 = client }) result }
{
    Statement::Submission {
        r: Round(r),
        prev: Round(prev),
        client: ClientId(client),
        digest,
    }
}

impl Client {
    /// What is to be submitted for round `r`, without an envelope.
    fn unsigned(&self, r: Round) -> Result<Made, NoMemory>
        ensures { IfOk result (IsUnsigned self.now r) }
    {
        let prev = self.chain.latest_below(r);
        let Some(layout) = self.chain.layout(prev) else {
            unreachable!()
        };
        let waiting = &self.queue[self.head..];
        let mask_seed = mask_seed(&self.mask, r.0);
        let plain = plain_text(self.alloc, layout, self.slot, waiting, &mask_seed)?;
        let cipher = cipher_of(self.alloc, &plain, &self.seeds, r)?;
        let digest = digest_of(self.alloc, r, self.me, &cipher)?;
        Ok(Made {
            r,
            prev,
            range: layout.range(self.slot),
            carried: carried_at(layout, self.slot, waiting, self.head),
            plain,
            cipher,
            digest,
            envelope: Bytes::of(Vec::new(self.alloc)),
        })
    }

    /// The submission of round `r`: the one that was given for it before, if it is the last round submitted, and else a new one, on the
    /// layout after the greatest round held below it.
    pub fn submission(&mut self, r: Round) -> Result<Submission, SubmitFault>
        requires { r.0 ≢ 0 }
        ensures given { IfOk result (λ s. IsSubmitted self.old r s self.new) }
        ensures refused { IfErr result (IsUnsubmitted self.old r) }
        ensures same { IfErr result (λ f. f ≢ refusals.NoMemory → self.new ≡ self.old) }
        ensures no_memory { IsErrOf result refusals.NoMemory → IsSpent self.old self.new }
        ensures spent { self.old.spent ≡ true → (result ≡ Err refusals.NoMemory) × (self.new ≡ self.old) }
        ensures client { IsClient self.new }
    {
        if self.spent {
            return Err(SubmitFault::NoMemory);
        }
        if self.left {
            return Err(SubmitFault::Left);
        }
        match turn_of(&self.made, r) {
            Turn::Below(last) => Err(SubmitFault::Old { last }),
            Turn::Last => self.submit_again(),
            Turn::Above => self.submit(r),
        }
    }

    fn submit_again(&mut self) -> Result<Submission, SubmitFault>
        requires unspent { self.old.spent ≡ false }
        requires made { 0 < length self.old.made }
        ensures given { IfOk result (λ s. IsOfLast self.old s × (self.new ≡ self.old)) }
        ensures refused { IfErr result (λ f. (f ≡ refusals.NoMemory) × IsSpent self.old self.new) }
        ensures client { IsClient self.new }
    {
        self.spent = true;
        let submission = last_of(self.alloc, &self.made)?;
        self.spent = false;
        Ok(submission)
    }

    fn submit(&mut self, r: Round) -> Result<Submission, SubmitFault>
        requires unspent { self.old.spent ≡ false }
        requires round { r.0 ≢ 0 }
        requires next { IsNewRound self.old r }
        ensures given { IfOk result (λ s. IsMadeNow self.old r s self.new) }
        ensures refused { IfErr result (λ f. IsUnmade self.old f self.new) }
        ensures client { IsClient self.new }
    {
        if self.key.left() == 0 {
            return Err(SubmitFault::Spent);
        }
        let unsigned = self.unsigned(r);
        self.spent = true;
        let mut made = unsigned?;
        let statement = statement_of(made.r.0, made.prev.0, self.me.0, made.digest);
        self.made.reserve(1)?;
        let sealed = self.key.seal(self.alloc, statement)?;
        made.envelope = Bytes::of(sealed);
        self.made.push_reserved(made);
        let submission = last_of(self.alloc, &self.made)?;
        self.spent = false;
        Ok(submission)
    }
}
