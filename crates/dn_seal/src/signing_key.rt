ghost use Rattle.std.specs.Prelude.{◌≡◌, ◌+◌, ◌<◌, ◌≤◌, ◌++◌, ◌∷◌, [], length, true, false, IfOk, OnOk, OnErr};
ghost use Rattle.dn_lms.specs.Key.{IsKey, leaf_count};
ghost use Rattle.dn_seal.specs.Signer.{CanSign, sealed_in};

use crate::signer::{SealFault, Signer};
use dn_leaf::LeafPass;
use dn_lms::{KeyPair, SigKey};
use dn_memory::NoMemory;
use dn_records::Statement;
use dn_wire::SignerId;
use std::alloc::Global;
use std::marker::Model;

/// A key of one signer in one group, with the statements that it signed: the n-th of them, counted from 0, at leaf n.
#[derive(Drop)]
pub struct SigningKey {
    digest: [u8; 32],
    who: SignerId,
    signer: Signer<KeyPair>,
    pass: LeafPass,
    leaves: u32,
    signed: Vec<Statement>,
    lost: bool,
}

impl Model for SigningKey {
    ghost use Rattle.std.specs.Prelude.{◌≡◌, ◌≤◌, length, false, None};
    ghost use Rattle.dn_lms.specs.Key.{IsKey, leaf_count};
    ghost use Rattle.dn_seal.specs.SigningKey.{SigningKeyView};

    ghost Value = { SigningKeyView };

    ghost view = { λ k. record { digest = k.digest; who = k.who; key = k.signer.key; signed = k.signed.items; lost = k.lost } };

    ghost invariant = { λ k.
        IsKey k.signer.key × (k.leaves ≡ leaf_count k.signer.key) × (k.signer.drawer.passes ≡ 1) × (k.pass.drawer ≡ k.signer.drawer) × (k.pass.stands ≡ 1)
        × (length k.signed.items ≤ leaf_count k.signer.key)
        × (k.lost ≡ false → (k.pass.seen ≡ None) × (length k.pass.draws ≡ length k.signed.items)) };
}

/// Copies of statements.
fn copies(alloc: Global, statements: &[Statement]) -> Result<Vec<Statement>, NoMemory>
    ensures { IfOk result (λ v. v.items ≡ statements.now) }
{
    let mut copies = Vec::new(alloc);
    for statement in statements {
        copies.push(statement.copy(alloc)?)?;
    }
    Ok(copies)
}

impl SigningKey {
    /// A key that has signed nothing.
    pub fn make(
        alloc: Global,
        key: KeyPair,
        digest: [u8; 32],
        who: SignerId,
    ) -> Result<SigningKey, NoMemory>
        ensures fresh { IfOk result (λ k. k ≡ record { digest = digest; who = who; key = key; signed = []; lost = false }) }
        ensures key { IfOk result (λ k. IsKey k.key) }
    {
        let leaves = key.leaves();
        let (signer, mut passes) = Signer::make(alloc, key, 1)?;
        let Some(pass) = passes.pop() else {
            unreachable!()
        };
        Ok(SigningKey {
            digest,
            who,
            signer,
            pass,
            leaves,
            signed: Vec::new(alloc),
            lost: false,
        })
    }

    /// The number of leaves at which nothing is signed yet.
    pub fn left(&self) -> u32
        ensures count { result + length self.now.signed ≡ leaf_count self.now.key }
        ensures key { IsKey self.now.key }
    {
        self.leaves - self.signed.len() as u32
    }

    /// The number of the key's leaves.
    pub fn leaves(&self) -> u32
        ensures { result ≡ leaf_count self.now.key }
    {
        self.leaves
    }

    /// The envelope of a statement, signed at the next leaf, which joins what the key signed. After `NoMemory` a leaf may be lost, and
    /// the key signs no more.
    pub fn seal(&mut self, alloc: Global, s: Statement) -> Result<Vec<u8>, NoMemory>
        requires whole { self.old.lost ≡ false }
        requires leaf { length self.old.signed < leaf_count self.old.key }
        requires fits { CanSign self.old.who s }
        ensures sealed { IfOk result (λ v. v.items ≡ sealed_in self.old.digest self.old.who self.old.key (length self.old.signed) s) }
        ensures signed { OnOk result (self.new ≡ record self.old { signed = self.old.signed ++ s ∷ [] }) }
        ensures lost { OnErr result (self.new ≡ record self.old { lost = true }) }
    {
        self.lost = true;
        let sealed = match self
            .signer
            .seal_in(alloc, &self.digest, self.who, &mut self.pass, &s)
        {
            Ok(sealed) => sealed,
            Err(SealFault::NoMemory) => return Err(NoMemory),
            Err(SealFault::Exhausted { .. }) => unreachable!(),
        };
        self.signed.push(s)?;
        self.lost = false;
        Ok(sealed)
    }

    /// An equal key with leaves of its own. As long as both seal the same statements in the same order, each leaf signs one statement,
    /// twice the same.
    pub fn twin(&self, alloc: Global) -> Result<SigningKey, NoMemory>
        ensures { IfOk result (λ k. k ≡ self.now) }
    {
        let drawn = self.leaves - self.left();
        let (signer, pass) = self.signer.twin(alloc, drawn)?;
        Ok(SigningKey {
            digest: self.digest,
            who: self.who,
            signer,
            pass,
            leaves: self.leaves,
            signed: copies(alloc, &self.signed)?,
            lost: self.lost,
        })
    }
}
