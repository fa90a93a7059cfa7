// Whether the signatures in an envelope are of what their keys had signed.
ghost use Rattle.std.specs.Prelude.{◌≡◌, ◌↔◌, IsTrue, IfOk};
ghost use Rattle.dn_records.specs.Records.{statement_bytes, IsStatement, IsEnvelope};
ghost use Rattle.dn_audit.specs.Auditor.{MayStand, MayBeListed, MayList, MaySeal, SealsAreTheirs};
ghost use Rattle.dn_audit.specs.Envelopes.{IsEnvelopeIn, carried_of, submission_of};

use crate::group::Group;
use crate::signings::Signings;
use dn_lms::verify;
use dn_memory::NoMemory;
use dn_records::{Entry, Envelope, Inventory, RecordFault, Statement, decode_envelope, encode};
use dn_roster::Roster;
use dn_wire::{Bytes, ClientId, Round, SignerId};
use std::alloc::Global;

/// The group, its roster, and what its honest members signed.
#[derive(Drop)]
pub struct Known<'a> {
    pub alloc: Global,
    pub roster: &'a Roster,
    pub group: &'a Group,
    pub signings: &'a Signings,
}

impl<'a> Known<'a> {
    /// Whether a signature may stand under these bytes: its key isn't an honest member's, the key had signed the bytes, or it doesn't
    /// verify.
    fn may_stand(&self, who: SignerId, statement: &[u8], signature: &[u8]) -> Result<bool, NoMemory>
        ensures { IfOk result (λ b. IsTrue b ↔ MayStand self.now.roster.now self.now.group.now self.now.signings.now who statement.now signature.now) }
    {
        if !self.group.is_honest_key(who) {
            return Ok(true);
        }
        let Some(key) = self.roster.key(who) else {
            return Ok(true);
        };
        let signed = self.roster.signed_bytes(self.alloc, who, statement)?;
        Ok(self.signings.has(&signed) || !verify(key, &signed, signature))
    }

    /// The same of a signature of a body.
    pub fn may_be_signed(
        &self,
        who: SignerId,
        statement: &Statement,
        signature: &[u8],
    ) -> Result<bool, NoMemory>
        requires { IsStatement statement.now }
        ensures { IfOk result (λ b. IsTrue b ↔ MayStand self.now.roster.now self.now.group.now self.now.signings.now who (statement_bytes statement.now) signature.now) }
    {
        let statement = encode(self.alloc, statement)?;
        self.may_stand(who, &statement, signature)
    }

    /// The same of an entry of an inventory: of the submission that it stands for.
    fn may_be_listed(&self, inventory: &Inventory, entry: &Entry) -> Result<bool, NoMemory>
        ensures { IfOk result (λ b. IsTrue b ↔ MayBeListed self.now.roster.now self.now.group.now self.now.signings.now inventory.now entry.now) }
    {
        let submission = submission(
            inventory.r.0,
            inventory.prev.0,
            entry.client.0,
            entry.digest,
        );
        let who = SignerId::Client(entry.client);
        self.may_be_signed(who, &submission, entry.signature.get())
    }

    /// The same of each entry of an inventory.
    fn may_list(&self, inventory: &Inventory) -> Result<bool, NoMemory>
        ensures { IfOk result (λ b. IsTrue b ↔ MayList self.now.roster.now self.now.group.now self.now.signings.now inventory.now) }
    {
        for entry in inventory.entries.get() {
            if !self.may_be_listed(inventory, entry)? {
                return Ok(false);
            }
        }
        Ok(true)
    }

    /// The same of an envelope itself, and of what it lists.
    fn may_be_sealed(&self, envelope: &Envelope) -> Result<bool, NoMemory>
        requires { IsEnvelope envelope.now }
        ensures { IfOk result (λ b. IsTrue b ↔ MaySeal self.now.roster.now self.now.group.now self.now.signings.now envelope.now) }
    {
        let signature = envelope.signature.get();
        if !self.may_be_signed(envelope.signer, &envelope.statement, signature)? {
            return Ok(false);
        }
        match &envelope.statement {
            Statement::Inventory(inventory) => self.may_list(inventory),
            _ => Ok(true),
        }
    }

    /// The same of all signatures in an envelope's bytes, and in the envelopes that it carries, to any depth.
    pub fn may_be_put(&self, bytes: &[u8]) -> Result<bool, NoMemory>
        ensures { IfOk result (λ b. IsTrue b ↔ SealsAreTheirs self.now.roster.now self.now.group.now self.now.signings.now bytes.now) }
    {
        let mut rest = Bytes::of(Vec::from_slice(self.alloc, bytes)?);
        // A carried envelope is shorter than the one that carries it.
        while !rest.get().is_empty() {
            let envelope = match envelope_in(self.alloc, rest.get())? {
                Some(envelope) => envelope,
                None => return Ok(true),
            };
            if !self.may_be_sealed(&envelope)? {
                return Ok(false);
            }
            match carried_in(envelope.statement) {
                Some(carried) => rest = carried,
                None => return Ok(true),
            }
        }
        Ok(true)
    }
}

/// The envelope that bytes are, if they are one.
fn envelope_in(alloc: Global, bytes: &[u8]) -> Result<Option<Envelope>, NoMemory>
    ensures { IfOk result (IsEnvelopeIn bytes.now) }
{
    match decode_envelope(alloc, bytes) {
        Ok(envelope) => Ok(Some(envelope)),
        Err(RecordFault::NoMemory) => Err(NoMemory),
        Err(_) => Ok(None),
    }
}

/// The envelope that a statement carries.
fn carried_in(statement: Statement) -> Option<Bytes>
    ensures { result ≡ carried_of statement }
{
    match statement {
        Statement::Rebuttal { envelope, .. } => Some(envelope),
        _other => None,
    }
}

/// The submission that an entry of an inventory stands for.
fn submission(r: u64, prev: u64, client: u32, digest: [u8; 32]) -> Statement
    ensures fits { IsStatement result }
    ensures value { result ≡ submission_of r prev client digest }
{
    Statement::Submission {
        r: Round(r),
        prev: Round(prev),
        client: ClientId(client),
        digest,
    }
}
