ghost use Rattle.std.specs.Prelude.{◌≡◌, IfOk, IfErr, MatchResult};
ghost use Rattle.dn_records.specs.Records.{statement_bytes, envelope_bytes, IsEnvelope};
ghost use Rattle.dn_record_types.specs.declared.statement.Statement.{Statement};
ghost use Rattle.dn_wire.specs.declared.ids.SignerId.{SignerId};
ghost use Rattle.dn_seal.specs.Said.{IsSaid, IsUnder, Unseals, IsUnopened};

use crate::unopened::Unopened;
use dn_lms::verify;
use dn_memory::NoMemory;
use dn_records::{Envelope, RecordFault, Statement, decode_envelope};
use dn_roster::Roster;
use dn_wire::{Bytes, SignerId};
use std::alloc::Global;
use std::marker::Model;

/// An envelope whose signature verified. It keeps the digest of the group and the signer's key, under which it did.
#[derive(Drop)]
pub struct Said {
    digest: [u8; 32],
    key: [u8; 56],
    signer: SignerId,
    statement: Statement,
    signature: Bytes,
    bytes: Vec<u8>,
}

impl Model for Said {
    ghost use Rattle.dn_seal.specs.Said.{SaidView, IsSaid};

    ghost Value = { SaidView };

    ghost view = { λ s. record { digest = s.digest; key = s.key; signer = s.signer; statement = s.statement; signature = s.signature; bytes = s.bytes.items } };

    ghost invariant = { λ s. IsSaid record { digest = s.digest; key = s.key; signer = s.signer; statement = s.statement; signature = s.signature; bytes = s.bytes.items } };
}

impl Said {
    /// Who made the statement.
    pub fn signer(&self) -> SignerId
        ensures value { result ≡ self.now.signer }
        ensures said { IsSaid self.now }
    {
        self.signer
    }

    /// The statement.
    pub fn statement(&self) -> &Statement
        ensures value { result.now ≡ self.now.statement }
        ensures said { IsSaid self.now }
    {
        &self.statement
    }

    /// The signature of the statement.
    pub fn signature(&self) -> &[u8]
        ensures value { result.now ≡ self.now.signature }
        ensures said { IsSaid self.now }
    {
        self.signature.get()
    }

    /// The bytes of the envelope.
    pub fn bytes(&self) -> &[u8]
        ensures value { result.now ≡ self.now.bytes }
        ensures said { IsSaid self.now }
    {
        &self.bytes
    }

    /// An equal value.
    pub fn copy(&self, alloc: Global) -> Result<Said, NoMemory>
        ensures same { IfOk result (λ s. s ≡ self.now) }
        ensures said { IsSaid self.now }
    {
        Ok(Said {
            digest: self.digest,
            key: self.key,
            signer: self.signer,
            statement: self.statement.copy(alloc)?,
            signature: self.signature.copy(alloc)?,
            bytes: Vec::from_slice(alloc, &self.bytes)?,
        })
    }
}

/// The bytes of the statement in an envelope, which stand behind its tag, number and length, and before its signature.
fn statement_part<'a>(bytes: &'a [u8], envelope: &Envelope) -> &'a [u8]
    requires { IsEnvelope envelope.now × (bytes.now ≡ envelope_bytes envelope.now) }
    ensures { result.now ≡ statement_bytes envelope.now.statement }
{
    &bytes[9..bytes.len() - envelope.signature.get().len()]
}

/// Opens an envelope against the roster of a group. The refusals come in the order of `Unopened`.
pub fn unseal(alloc: Global, roster: &Roster, bytes: &[u8]) -> Result<Said, Unopened>
    ensures said { IfOk result (λ s. IsSaid s × IsUnder roster.now s × (s.bytes ≡ bytes.now)) }
    ensures unopened { IfErr result (IsUnopened roster.now bytes.now) }
    // What unseals as a signer's statement is opened as that, but for want of memory.
    ensures opened { (who : SignerId) → (s : Statement) → Unseals roster.now bytes.now who s
        → MatchResult result (λ x. (x.signer ≡ who) × (x.statement ≡ s)) (λ f. f ≡ Unopened.NoMemory) }
{
    let envelope = match decode_envelope(alloc, bytes) {
        Ok(envelope) => envelope,
        Err(RecordFault::NoMemory) => return Err(Unopened::NoMemory),
        Err(fault) => return Err(Unopened::Form(fault)),
    };
    let signer = envelope.signer;
    let Some(key) = roster.key(signer) else {
        return Err(Unopened::Stranger { who: signer });
    };
    let statement = statement_part(bytes, &envelope);
    let Ok(signed) = roster.signed_bytes(alloc, signer, statement) else {
        return Err(Unopened::NoMemory);
    };
    if !verify(key, &signed, envelope.signature.get()) {
        return Err(Unopened::Signature);
    }
    let Ok(kept) = Vec::from_slice(alloc, bytes) else {
        return Err(Unopened::NoMemory);
    };
    let mut key_kept = [0; 56];
    key_kept.copy_from_slice(key);
    Ok(Said {
        digest: roster.digest(),
        key: key_kept,
        signer,
        statement: envelope.statement,
        signature: envelope.signature,
        bytes: kept,
    })
}

/// What was said in an envelope that is known to unseal under the roster of a group: its signature isn't verified again.
pub fn unseal_known(alloc: Global, roster: &Roster, bytes: &[u8]) -> Result<Said, NoMemory>
    requires { (who : SignerId) × (s : Statement) × Unseals roster.now bytes.now who s }
    ensures { IfOk result (λ s. IsSaid s × IsUnder roster.now s × (s.bytes ≡ bytes.now)) }
{
    let Ok(envelope) = decode_envelope(alloc, bytes) else {
        return Err(NoMemory);
    };
    let signer = envelope.signer;
    let Some(key) = roster.key(signer) else {
        unreachable!()
    };
    let digest = roster.digest();
    let mut key_kept = [0; 56];
    key_kept.copy_from_slice(key);
    Ok(Said {
        digest,
        key: key_kept,
        signer,
        statement: envelope.statement,
        signature: envelope.signature,
        bytes: Vec::from_slice(alloc, bytes)?,
    })
}
