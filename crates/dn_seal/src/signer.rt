ghost use Rattle.std.specs.Prelude.{◌≡◌, ℕ, ◌+◌, ◌-◌, ◌<◌, ◌≤◌, ◌++◌, ◌∷◌, [], length, replicate, Some, None, IsSome, IfOk, IfErr, IfSome, OnOk, Err, MatchResult, Result, ◌^◌};
ghost use Rattle.std.specs.List.{range_with_len};
ghost use Rattle.dn_lms.specs.Key.{leaf_count};
ghost use Rattle.dn_lms.specs.Signature.{public_key};
ghost use Rattle.dn_leaf.specs.Counts.{IsDistinctBelow, HasEachOnce};
ghost use Rattle.dn_leaf.specs.Drawer.{fresh, IsSamePass};
ghost use Rattle.dn_roster.specs.Roster.{RosterView, key_of, digest_of};
ghost use Rattle.dn_seal.specs.Said.{Unseals};
ghost use Rattle.dn_seal.specs.Signer.{CanSign, IsLeafLost, heading, sealed_bytes, sealed_in};

use dn_leaf::{Drawer, Exhausted, LeafPass};
use dn_lms::{KeyPair, SigKey};
use dn_memory::NoMemory;
use dn_records::{Statement, encode};
use dn_roster::{Roster, signed_bytes_in};
use dn_wire::{SignerId, put_bytes, put_signer, put_u32};
use std::alloc::Global;
use std::marker::Model;

/// Why nothing was sealed.
#[derive(Clone, Copy, Debug, PartialEq, Eq)]
pub enum SealFault {
    /// All leaves are drawn; `seen` is the number of draws that the pass found.
    Exhausted { seen: u64 },
    /// If a leaf was drawn before, it is lost.
    NoMemory,
}

impl From<NoMemory> for SealFault {
    ghost use Rattle.std.specs.Prelude.{◌≡◌};
    ghost use Rattle.dn_seal.specs.declared.signer.SealFault.TheVariants.{NoMemory as Refused};

    ghost from_gives = { λ _ e. e ≡ Refused };

    fn from(_: NoMemory) -> Self {
        SealFault::NoMemory
    }
}

impl From<Exhausted> for SealFault {
    ghost use Rattle.std.specs.Prelude.{◌≡◌};
    ghost use Rattle.dn_seal.specs.declared.signer.SealFault.TheVariants.{Exhausted as AllDrawn};

    ghost from_gives = { λ all e. e ≡ AllDrawn all.seen };

    fn from(all: Exhausted) -> Self {
        SealFault::Exhausted { seen: all.seen }
    }
}

/// A key whose leaves are drawn by passes. Contracts see the key and which drawer it is.
#[derive(Drop)]
pub struct Signer<K: SigKey + Drop> {
    key: K,
    drawer: Drawer,
}

impl<K: SigKey + Drop> Model for Signer<K> {
    ghost use Rattle.std.specs.Prelude.{◌≡◌};
    ghost use Rattle.dn_seal.specs.Signer.{SignerView};

    ghost Value = { SignerView K };

    ghost view = { λ s. record { key = s.key; drawer = s.drawer } };

    ghost invariant = { λ s. K.IsOne s.key × (s.drawer.count ≡ K.count s.key) };
}

impl<K: SigKey + Drop> Signer<K> {
    /// A signer with this key, with all passes that it ever has.
    pub fn make(alloc: Global, key: K, passes: u32) -> Result<(Signer<K>, Vec<LeafPass>), NoMemory>
        requires { (1 ≤ passes) × (passes ≤ 65536) }
        ensures signer { IfOk result (λ r. (r.0.key ≡ key) × (r.0.drawer.count ≡ K.count key) × (r.0.drawer.passes ≡ passes)) }
        ensures passes { IfOk result (λ r. r.1.items ≡ replicate passes (fresh r.0.drawer)) }
    {
        let (drawer, all) = Drawer::make(alloc, key.leaves(), passes)?;
        Ok((Signer { key, drawer }, all))
    }

    /// The number of leaves that aren't drawn yet.
    pub fn left(&self, pass: &mut LeafPass) -> u32
        requires { pass.old.drawer ≡ self.now.drawer }
        ensures pass { IsSamePass pass.old pass.new × (pass.new.draws ≡ pass.old.draws) }
        ensures count { (self.now.drawer.count ≡ K.count self.now.key) × (result ≤ K.count self.now.key) }
        ensures some { 0 < result → pass.new.seen ≡ None }
        ensures none { result ≡ 0 → IsSome pass.new.seen }
        ensures again { IfSome pass.old.seen (λ n. pass.new.seen ≡ Some n) }
        ensures past { IfSome pass.new.seen (λ n. K.count self.now.key ≤ n) }

        // What the pass drew is among the leaves that aren't left, and a pass that stands for all has drawn all of those.
        ensures apart { IsDistinctBelow pass.new.draws (K.count self.now.key - result) }
        ensures whole { pass.old.stands ≡ self.now.drawer.passes → HasEachOnce pass.new.draws (K.count self.now.key - result) × (length pass.new.draws + result ≡ K.count self.now.key) }
    {
        let count = self.key.leaves();
        let found = self.drawer.look(pass);
        count - found.min(count as u64) as u32
    }
}

impl<K: SigKey + Drop> Signer<K> {
    /// The signature of a message at the leaf that it draws, behind the leaf's number, which is appended to the draws of the pass.
    /// `Exhausted` comes exactly where the pass has found that all leaves are drawn. After `NoMemory` the leaf that was drawn, if one
    /// was, is lost.
    pub fn sign(
        &self,
        alloc: Global,
        pass: &mut LeafPass,
        msg: &[u8],
    ) -> Result<(u32, Vec<u8>), SealFault>
        requires drawer { pass.old.drawer ≡ self.now.drawer }
        ensures pass { IsSamePass pass.old pass.new }
        ensures signed { IfOk result (λ r. (r.0 < K.count self.now.key) × (pass.new.draws ≡ pass.old.draws ++ r.0 ∷ []) × (r.1.items ≡ K.signature self.now.key r.0 msg.now)) }

        // The leaves of passes that have met are distinct, and a pass that stands for all draws them in order.
        ensures apart { IfOk result (λ _. IsDistinctBelow pass.new.draws (K.count self.now.key)) }
        ensures alone { pass.old.stands ≡ self.now.drawer.passes → IfOk result (λ r. r.0 ≡ length pass.old.draws) }

        ensures open { IfOk result (λ _. (pass.old.seen ≡ None) × (pass.new.seen ≡ None)) }
        ensures exhausted { (n : ℕ) → result ≡ Err (SealFault.Exhausted n) → (K.count self.now.key ≤ n) × (pass.new.seen ≡ Some n) × (pass.new.draws ≡ pass.old.draws) }
        ensures again { IfSome pass.old.seen (λ n. (pass.new.seen ≡ Some n) × (pass.new.draws ≡ pass.old.draws)) }
        ensures bound { (n : ℕ) → result ≡ Err (SealFault.Exhausted n) → n ≤ K.count self.now.key + self.now.drawer.passes }
        ensures last { pass.old.stands ≡ self.now.drawer.passes → pass.old.seen ≡ None → (n : ℕ) → result ≡ Err (SealFault.Exhausted n) → n ≡ length pass.old.draws }

        // Where memory is wanting at most one leaf was drawn.
        ensures lost { result ≡ Err SealFault.NoMemory → (pass.new.seen ≡ pass.old.seen) × IsLeafLost (K.count self.now.key) pass.old.draws pass.new.draws }
    {
        let q = self.drawer.draw(pass)?;
        let signature = self.key.sign_at(alloc, q, msg)?;
        Ok((q, signature))
    }
}

/// Appends the beginning of an envelope, which is all but the signature.
fn put_statement(out: &mut Vec<u8>, who: SignerId, statement: &[u8]) -> Result<(), NoMemory>
    requires { length statement.now < 2 ^ 32 }
    ensures { OnOk result (out.new.items ≡ out.old.items ++ heading who (length statement.now) ++ statement.now) }
{
    put_signer(out, who)?;
    put_u32(out, statement.len() as u32)?;
    put_bytes(out, statement)?;
    Ok(())
}

impl Signer<KeyPair> {
    /// The envelope of a statement that this signer makes in the group with this digest, signed at the leaf that it draws, whose
    /// number is appended to the draws of the pass. `Exhausted` comes exactly where the pass has found that all leaves are drawn.
    /// After `NoMemory` the leaf that was drawn, if one was, is lost.
    pub fn seal_in(
        &self,
        alloc: Global,
        digest: &[u8; 32],
        who: SignerId,
        pass: &mut LeafPass,
        s: &Statement,
    ) -> Result<Vec<u8>, SealFault>
        requires drawer { pass.old.drawer ≡ self.now.drawer }
        requires fits { CanSign who s.now }
        ensures pass { IsSamePass pass.old pass.new }
        ensures sealed { IfOk result (λ v. (q : ℕ) × (q < leaf_count self.now.key) × (pass.new.draws ≡ pass.old.draws ++ q ∷ []) × (v.items ≡ sealed_in digest.now who self.now.key q s.now)) }
        ensures unseals { (roster : RosterView) → digest_of roster ≡ digest.now → key_of roster who ≡ Some (public_key self.now.key) → IfOk result (λ v. Unseals roster v.items who s.now) }

        // The leaves of passes that have met are distinct, and a pass that stands for all draws them in order.
        ensures apart { IfOk result (λ _. IsDistinctBelow pass.new.draws (leaf_count self.now.key)) }
        ensures alone { pass.old.stands ≡ self.now.drawer.passes → IfOk result (λ v. v.items ≡ sealed_in digest.now who self.now.key (length pass.old.draws) s.now) }

        ensures open { IfOk result (λ _. (pass.old.seen ≡ None) × (pass.new.seen ≡ None)) }
        ensures exhausted { (n : ℕ) → result ≡ Err (SealFault.Exhausted n) → (leaf_count self.now.key ≤ n) × (pass.new.seen ≡ Some n) × (pass.new.draws ≡ pass.old.draws) }
        ensures again { IfSome pass.old.seen (λ n. (pass.new.seen ≡ Some n) × (pass.new.draws ≡ pass.old.draws)) }
        ensures bound { (n : ℕ) → result ≡ Err (SealFault.Exhausted n) → n ≤ leaf_count self.now.key + self.now.drawer.passes }
        ensures last { pass.old.stands ≡ self.now.drawer.passes → pass.old.seen ≡ None → (n : ℕ) → result ≡ Err (SealFault.Exhausted n) → n ≡ length pass.old.draws }

        // Where memory is wanting at most one leaf was drawn.
        ensures lost { result ≡ Err SealFault.NoMemory → (pass.new.seen ≡ pass.old.seen) × IsLeafLost (leaf_count self.now.key) pass.old.draws pass.new.draws }
    {
        let statement = encode(alloc, s)?;
        let signed = signed_bytes_in(alloc, digest, who, &statement)?;
        let mut sealed = Vec::new(alloc);
        put_statement(&mut sealed, who, &statement)?;
        let q = self.drawer.draw(pass)?;
        let signature = self.key.sign_at(alloc, q, &signed)?;
        put_bytes(&mut sealed, &signature)?;
        Ok(sealed)
    }

    /// As `seal_in`, in the group of this roster.
    pub fn seal(
        &self,
        alloc: Global,
        roster: &Roster,
        who: SignerId,
        pass: &mut LeafPass,
        s: &Statement,
    ) -> Result<Vec<u8>, SealFault>
        requires drawer { pass.old.drawer ≡ self.now.drawer }
        requires key { key_of roster.now who ≡ Some (public_key self.now.key) }
        requires fits { CanSign who s.now }
        ensures pass { IsSamePass pass.old pass.new }
        ensures sealed { IfOk result (λ v. (q : ℕ) × (q < leaf_count self.now.key) × (pass.new.draws ≡ pass.old.draws ++ q ∷ []) × (v.items ≡ sealed_bytes roster.now who self.now.key q s.now)) }
        ensures unseals { IfOk result (λ v. Unseals roster.now v.items who s.now) }

        // The leaves of passes that have met are distinct, and a pass that stands for all draws them in order.
        ensures apart { IfOk result (λ _. IsDistinctBelow pass.new.draws (leaf_count self.now.key)) }
        ensures alone { pass.old.stands ≡ self.now.drawer.passes → IfOk result (λ v. v.items ≡ sealed_bytes roster.now who self.now.key (length pass.old.draws) s.now) }

        ensures open { IfOk result (λ _. (pass.old.seen ≡ None) × (pass.new.seen ≡ None)) }
        ensures exhausted { (n : ℕ) → result ≡ Err (SealFault.Exhausted n) → (leaf_count self.now.key ≤ n) × (pass.new.seen ≡ Some n) × (pass.new.draws ≡ pass.old.draws) }
        ensures again { IfSome pass.old.seen (λ n. (pass.new.seen ≡ Some n) × (pass.new.draws ≡ pass.old.draws)) }
        ensures bound { (n : ℕ) → result ≡ Err (SealFault.Exhausted n) → n ≤ leaf_count self.now.key + self.now.drawer.passes }
        ensures last { pass.old.stands ≡ self.now.drawer.passes → pass.old.seen ≡ None → (n : ℕ) → result ≡ Err (SealFault.Exhausted n) → n ≡ length pass.old.draws }

        // Where memory is wanting at most one leaf was drawn.
        ensures lost { result ≡ Err SealFault.NoMemory → (pass.new.seen ≡ pass.old.seen) × IsLeafLost (leaf_count self.now.key) pass.old.draws pass.new.draws }
    {
        self.seal_in(alloc, &roster.digest(), who, pass, s)
    }

    /// A signer with an equal key and a drawer of its own, whose one pass has drawn the leaves below `drawn`.
    pub fn twin(&self, alloc: Global, drawn: u32) -> Result<(Signer<KeyPair>, LeafPass), NoMemory>
        requires { drawn ≤ leaf_count self.now.key }
        ensures signer { IfOk result (λ r. (r.0.key ≡ self.now.key) × (r.0.drawer.count ≡ leaf_count self.now.key) × (r.0.drawer.passes ≡ 1)) }
        ensures pass { IfOk result (λ r. r.1 ≡ record (fresh r.0.drawer) { draws = range_with_len 0 drawn }) }
    {
        let (signer, mut passes) = Signer::make(alloc, self.key.copy(alloc)?, 1)?;
        let mut pass = passes.pop().unwrap();
        draw_first(&signer.drawer, &mut pass, drawn);
        Ok((signer, pass))
    }
}

/// Draws the first leaves with a drawer's only pass.
fn draw_first(drawer: &Drawer, pass: &mut LeafPass, drawn: u32)
    requires few { drawn ≤ drawer.now.count }
    requires alone { drawer.now.passes ≡ 1 }
    requires fresh { pass.old ≡ fresh drawer.now }
    ensures { pass.new ≡ record (fresh drawer.now) { draws = range_with_len 0 drawn } }
{
    for _ in 0..drawn {
        let _drawn = drawer.draw(pass);
    }
}
