// What a corrupt client submits.
ghost use Rattle.std.specs.Prelude.{◌≡◌, ◌≤◌, length};
ghost use Rattle.dn_wire.specs.declared.limits.TheConstants.{MAX_BITS};
ghost use Rattle.dn_puppets.specs.Statements.{IsSignable};

use crate::client_core::{sign, submission};
use crate::client_puppet::{ClientPuppet, Submitted};
use crate::injection::Injection;
use crate::statements::{stated, submission_of, turned_where};
use crate::waiting::TwistKind;
use dn_bits::Bits;
use dn_memory::NoMemory;
use dn_records::{Payload, Statement, encode_payload};
use dn_wire::{Bytes, Member, Round, ServerId};

impl ClientPuppet {
    /// Notes a submission that the client's key signed.
    fn note(&mut self, envelope: &[u8]) -> Result<(), NoMemory>
        ensures { self.new ≡ self.old }
    {
        let Some(statement) = stated(self.alloc, envelope)? else {
            return Ok(());
        };
        if let Statement::Submission { .. } = statement {
            self.submitted.push(Submitted {
                statement,
                envelope: Bytes::of(Vec::from_slice(self.alloc, envelope)?),
            })?;
        }
        Ok(())
    }

    /// The first envelope of a statement that it signed as a submission.
    fn envelope_of(&self, statement: &Statement) -> Result<Option<Vec<u8>>, NoMemory> {
        for submitted in &self.submitted {
            if submitted.statement.equals(statement) {
                return Ok(Some(Vec::from_slice(self.alloc, submitted.envelope.get())?));
            }
        }
        Ok(None)
    }

    /// The envelope of any statement by the client's key, noted if it is a submission; nothing where no leaf is left.
    pub fn spoken(&mut self, statement: &Statement) -> Result<Option<Vec<u8>>, NoMemory>
        requires { IsSignable statement.now }
        ensures { self.new ≡ self.old }
    {
        let signed = sign(&mut self.core, false, statement)?;
        if let Some(envelope) = &signed {
            self.note(envelope)?;
        }
        Ok(signed)
    }

    /// The envelope of a submission of this ciphertext in place of its own: the one that it signed before, or a new one; nothing where no leaf
    /// is left.
    fn envelope_for(&mut self, own: &Statement, cipher: &Bits) -> Result<Option<Vec<u8>>, NoMemory>
        ensures { self.new ≡ self.old }
    {
        let Statement::Submission {
            r,
            prev,
            client,
            ..
        } = own
        else {
            return Ok(None);
        };
        let changed = submission_of(self.alloc, *r, *prev, *client, cipher)?;
        if let Some(envelope) = self.envelope_of(&changed)? {
            return Ok(Some(envelope));
        }
        self.spoken(&changed)
    }

    /// The payload of a submission of this ciphertext in place of its own; nothing where no leaf is left.
    fn payload_for(&mut self, own: &Statement, cipher: Bits) -> Result<Option<Bytes>, NoMemory>
        requires { length cipher ≤ MAX_BITS }
        ensures { self.new ≡ self.old }
    {
        let Some(envelope) = self.envelope_for(own, &cipher)? else {
            return Ok(None);
        };
        let envelope = Bytes::of(envelope);
        let payload = encode_payload(self.alloc, &Payload::Submission { cipher, envelope })?;
        Ok(Some(Bytes::of(payload)))
    }

    /// Its core makes its submission of a round, if it makes one, before it is put: a twist may jam the slot of the client itself.
    pub fn prepare(&mut self, r: Round) -> Result<(), NoMemory>
        ensures { self.new ≡ self.old }
    {
        let _ = submission(&mut self.core, r)?;
        Ok(())
    }

    /// It submits for a round to a server; where a twist waits, with bit `at` of its ciphertext turned.
    pub fn submit(
        &mut self,
        server: ServerId,
        r: Round,
        at: Option<u32>,
        out: &mut Vec<Injection>,
    ) -> Result<(), NoMemory>
        ensures { self.new ≡ self.old }
    {
        let Some(submission) = submission(&mut self.core, r)? else {
            return Ok(());
        };
        let Some(own) = stated(self.alloc, submission.envelope.get())? else {
            return Ok(());
        };
        if self.envelope_of(&own)?.is_none() {
            self.note(submission.envelope.get())?;
        }
        self.waiting.spend(TwistKind::Cipher);
        let cipher = turned_where(self.alloc, submission.cipher, at)?;
        let payload = self.payload_for(&own, cipher)?;
        self.post(&[Member::Server(server)], payload, out)
    }
}
