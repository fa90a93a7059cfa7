// How a client answers a challenge.
ghost use Rattle.std.specs.Prelude.{◌≡◌, ◌≢◌, ◌<◌, ◌≤◌, ◌^◌, ◌↔◌, ℕ, List, length, true, All, IfOk, IfErr, IsErrOf, Err, IsTrue};
ghost use Rattle.dn_wire.specs.declared.limits.TheConstants.{MAX_CARRIED_BYTES};
ghost use Rattle.dn_roster.specs.Roster.{RosterView};
ghost use Rattle.dn_wire.specs.declared.ids.ClientId.{ClientId};
ghost use Rattle.dn_seal.specs.Said.{IsUnder};
ghost use Rattle.dn_seal.specs.Signer.{CanSign};
ghost use Rattle.dn_cert.specs.Chain.{IsLayoutAfter};
ghost use Rattle.dn_layout.specs.Layout.{bits_of};
ghost use Rattle.dn_client.specs.declared.answering.AnswerFault.TheVariants as refusals;
ghost use Rattle.dn_client.specs.Client.{IsClient, IsIn, IsSpent};
ghost use Rattle.dn_client.specs.Holding.{Ascends};
ghost use Rattle.dn_client.specs.Answering.{AreOpenings, Names, IsOpened, IsOwnBit, IsUnanswered, IsChallengedBy, IsRebutted, IsGoodRebuttal};

use crate::answered::{Answered, is_among};
use crate::client::Client;
use crate::made::find;
use crate::openings::{are_openings, first_false, shown_sum};
use crate::rows::row_of;
use dn_layout::Layout;
use dn_memory::NoMemory;
use dn_pads::Seed;
use dn_records::{Body, Statement};
use dn_seal::Challenge;
use dn_wire::{Bytes, ClientId, Round, ServerId, SignerId};
use std::alloc::AllocError;

/// Why a client doesn't answer a challenge: the first of these that is so.
#[derive(Clone, Copy, Debug, PartialEq, Eq)]
pub enum AnswerFault {
    /// The client has left.
    Left,
    /// It holds no certificate of the round.
    NoCert { r: Round },
    /// The round's body doesn't list it.
    NotListed { r: Round },
    /// The place isn't in the round, or the challenge isn't the pad bits of all servers for it, in order.
    Shape,
    /// It has rebutted at this place.
    Answered,
    /// What is shown of it adds up to its own bit.
    NotChallenged,
    /// It doesn't add up, and yet each server shows the bit of its pad.
    AllTrue,
    /// No leaf of the client's key is left.
    Spent,
    NoMemory,
}

impl From<NoMemory> for AnswerFault {
    ghost use Rattle.std.specs.Prelude.{◌≡◌};
    ghost use Rattle.dn_client.specs.declared.answering.AnswerFault.TheVariants.{NoMemory as Refused};

    ghost from_gives = { λ _ e. e ≡ Refused };

    fn from(_: NoMemory) -> Self {
        AnswerFault::NoMemory
    }
}

impl From<AllocError> for AnswerFault {
    ghost use Rattle.std.specs.Prelude.{◌≡◌};
    ghost use Rattle.dn_client.specs.declared.answering.AnswerFault.TheVariants.{NoMemory as Refused};

    ghost from_gives = { λ _ e. e ≡ Refused };

    fn from(_: AllocError) -> Self {
        AnswerFault::NoMemory
    }
}

/// Whether the body has a row of this client.
fn names(body: &Body, client: ClientId) -> bool
    requires { Ascends body.now.listed }
    ensures { IsTrue result ↔ Names body.now client }
{
    row_of(body.listed.get(), client).is_some()
}

/// The rebuttal against a server, with the seed that the client shares with it and the envelope of what it said.
fn rebuttal_of(r: u64, k: u32, server: u32, seed: Seed, envelope: Bytes) -> Statement
    ensures value { result ≡ Statement.Rebuttal record { 0 = r } k record { 0 = server } seed envelope }
    ensures fits { (i : ClientId) → i.0 < 2 ^ 32 → length envelope ≤ MAX_CARRIED_BYTES → CanSign (SignerId.Client i) result }
{
    Statement::Rebuttal {
        r: Round(r),
        k,
        server: ServerId(server),
        seed,
        envelope,
    }
}

/// Whether the challenge shows the pad bits of so many servers for a place of a round with this layout.
fn is_opened_on(layout: &Layout, c: &Challenge, servers: usize) -> bool
    requires { servers < 65536 }
    ensures { IsTrue result ↔ ((c.now.k < bits_of layout.now) × AreOpenings c.now.r c.now.k servers c.now.shown.items) }
{
    c.k < layout.bits() && are_openings(&c.shown, c.r, c.k, servers)
}

impl Client {
    /// Whether the challenge shows the pad bits of all servers for a place of the body's round.
    fn is_opened(&self, body: &Body, c: &Challenge) -> bool
        ensures { (lengths : List ℕ) → IsLayoutAfter self.now.chain body.now.prev.0 lengths → IsTrue result ↔ IsOpened self.now c.now lengths }
    {
        match self.chain.layout(body.prev) {
            Some(layout) => is_opened_on(layout, c, self.seeds.len()),
            None => false,
        }
    }

    /// Bit `k` of the ciphertext that the client made for round `r`, and 0 past its end or without one.
    fn own_bit(&self, r: Round, k: u32) -> bool
        ensures { IsOwnBit self.now r k result }
    {
        match find(&self.made, r) {
            Some(made) => made.cipher.get_or_zero(k),
            None => false,
        }
    }

    /// The first server that shows a false bit of the client, where the challenge is one to the client; or why it doesn't answer.
    fn false_server(&self, c: &Challenge) -> Result<usize, AnswerFault>
        ensures server { IfOk result (IsChallengedBy self.now c.now) }
        ensures refused { IfErr result (λ f. (f ≢ refusals.NoMemory) × IsUnanswered self.now c.now f) }
    {
        if self.left {
            return Err(AnswerFault::Left);
        }
        let Some(body) = self.chain.body(c.r) else {
            return Err(AnswerFault::NoCert { r: c.r });
        };
        if !names(body, self.me) {
            return Err(AnswerFault::NotListed { r: c.r });
        }
        if !self.is_opened(body, c) {
            return Err(AnswerFault::Shape);
        }
        if is_among(&self.answered, c.r, c.k) {
            return Err(AnswerFault::Answered);
        }
        if shown_sum(&c.shown, self.me) == self.own_bit(c.r, c.k) {
            return Err(AnswerFault::NotChallenged);
        }
        match first_false(&c.shown, &self.seeds, self.me, c.r, c.k) {
            Some(server) => Ok(server),
            None => Err(AnswerFault::AllTrue),
        }
    }

    /// The envelope of a rebuttal of the challenge, against the first server that shows a false bit of the client. The refusals come in the
    /// order of `AnswerFault`.
    pub fn answer(&mut self, c: &Challenge) -> Result<Vec<u8>, AnswerFault>
        ensures rebutted { IfOk result (λ v. IsRebutted self.old c.now v.items self.new) }
        ensures refused { IfErr result (IsUnanswered self.old c.now) }
        ensures same { IfErr result (λ f. f ≢ refusals.NoMemory → self.new ≡ self.old) }
        ensures no_memory { IsErrOf result refusals.NoMemory → IsSpent self.old self.new }
        ensures spent { self.old.spent ≡ true → (result ≡ Err refusals.NoMemory) × (self.new ≡ self.old) }

        // Where what was said was unsealed under the roster of the client's group, the rebuttal is good.
        ensures good { (roster : RosterView) → IsIn roster self.old.who → All (IsUnder roster) c.now.shown.items
            → IfOk result (λ v. IsGoodRebuttal roster self.old.who.me v.items) }
        ensures client { IsClient self.new }
    {
        if self.spent {
            return Err(AnswerFault::NoMemory);
        }
        let server = match self.false_server(c) {
            Ok(server) => server,
            Err(fault) => return Err(fault),
        };
        if self.key.left() == 0 {
            return Err(AnswerFault::Spent);
        }
        self.spent = true;
        let envelope = Vec::from_slice(self.alloc, c.shown[server].bytes())?;
        let envelope = Bytes::of(envelope);
        let rebuttal = rebuttal_of(c.r.0, c.k, server as u32, self.seeds[server], envelope);
        self.answered.reserve(1)?;
        let sealed = self.key.seal(self.alloc, rebuttal)?;
        self.answered.push_reserved(Answered { r: c.r, k: c.k });
        self.spent = false;
        Ok(sealed)
    }
}
