ghost use Rattle.std.specs.Prelude.{◌≡◌, ◌<◌, ◌≤◌, ◌+◌, [], length, IfOk, OnOk, Some};
ghost use Rattle.dn_lms.specs.Key.{IsKey, leaf_count};
ghost use Rattle.dn_lms.specs.Signature.{public_key};
ghost use Rattle.dn_roster.specs.Roster.{IsRoster, key_of};
ghost use Rattle.dn_seal.specs.Dealt.{server};
ghost use Rattle.dn_seal.specs.Signer.{CanSign};
ghost use Rattle.dn_server.specs.Identity.{said_at, sealed_at, with_said};

use dn_lms::KeyPair;
use dn_memory::NoMemory;
use dn_records::Statement;
use dn_roster::Roster;
use dn_seal::{Said, SigningKey, unseal_known};
use dn_wire::{ServerId, SignerId};
use std::alloc::Global;
use std::marker::Model;

/// A server in its group: the roster, its number, and its key with all that this signed.
#[derive(Drop)]
pub struct Identity {
    roster: Roster,
    number: ServerId,
    key: SigningKey,
    lost: bool,
}

impl Model for Identity {
    ghost use Rattle.dn_server.specs.Identity.{IdentityView, IsIdentity};

    ghost Value = { IdentityView };

    ghost view = { λ d. record { roster = d.roster; number = d.number.0; key = d.key.key; signed = d.key.signed } };

    ghost invariant = { λ d. IsIdentity d.roster d.number.0 d.key d.lost };
}

impl Identity {
    /// Server `number` of a group, by its key, which has signed nothing.
    pub fn make(
        alloc: Global,
        roster: Roster,
        number: ServerId,
        key: KeyPair,
    ) -> Result<Identity, NoMemory>
        requires { key_of roster (server number.0) ≡ Some (public_key key) }
        ensures { IfOk result (λ d. d ≡ record { roster = roster; number = number.0; key = key; signed = [] }) }
    {
        let digest = roster.digest();
        let key = SigningKey::make(alloc, key, digest, SignerId::Server(number))?;
        Ok(Identity {
            roster,
            number,
            key,
            lost: false,
        })
    }

    /// The roster.
    pub fn roster(&self) -> &Roster
        ensures value { result.now ≡ self.now.roster }
        ensures member { key_of self.now.roster (server self.now.number) ≡ Some (public_key self.now.key) }
    {
        &self.roster
    }

    /// The server's number.
    pub fn number(&self) -> ServerId
        ensures { result.0 ≡ self.now.number }
    {
        self.number
    }

    /// The number of leaves at which nothing is signed yet.
    pub fn left(&self) -> u32
        ensures count { result + length self.now.signed ≡ leaf_count self.now.key }
        ensures key { IsKey self.now.key }
    {
        self.key.left()
    }

    /// The number of the key's leaves.
    pub fn leaves(&self) -> u32
        ensures { result ≡ leaf_count self.now.key }
    {
        self.key.leaves()
    }

    /// An equal identity, whose key has leaves of its own.
    pub fn twin(&self, alloc: Global) -> Result<Identity, NoMemory>
        ensures { IfOk result (λ d. d ≡ self.now) }
    {
        Ok(Identity {
            roster: self.roster.copy(alloc)?,
            number: self.number,
            key: self.key.twin(alloc)?,
            lost: self.lost,
        })
    }

    /// The envelope of a statement, signed at the next leaf. After `NoMemory` it signs no more: each later call answers so too.
    pub fn seal(&mut self, alloc: Global, s: Statement) -> Result<Vec<u8>, NoMemory>
        requires leaf { length self.old.signed < leaf_count self.old.key }
        requires fits { CanSign (server self.old.number) s }
        ensures sealed { IfOk result (λ bytes. bytes.items ≡ sealed_at self.old s) }
        ensures after { OnOk result (self.new ≡ with_said self.old s) }
    {
        if self.lost {
            return Err(NoMemory);
        }
        self.lost = true;
        let bytes = self.key.seal(alloc, s)?;
        self.lost = false;
        Ok(bytes)
    }

    /// What is said by signing a statement at the next leaf. After `NoMemory` it signs no more: each later call answers so too.
    pub fn say(&mut self, alloc: Global, s: Statement) -> Result<Said, NoMemory>
        requires leaf { length self.old.signed < leaf_count self.old.key }
        requires fits { CanSign (server self.old.number) s }
        ensures said { IfOk result (λ said. said ≡ said_at self.old s) }
        ensures after { OnOk result (self.new ≡ with_said self.old s) }
    {
        let bytes = self.seal(alloc, s)?;
        unseal_known(alloc, &self.roster, &bytes)
    }
}
