ghost use Rattle.std.specs.Prelude.{◌≡◌, ◌<◌, ◌++◌, ◌/◌, ◌%◌, IfOk, IfErr, length};
ghost use Rattle.dn_lms.specs.Fault.{IsFault};
ghost use Rattle.dn_lms.specs.Key.{leaves_of};
ghost use Rattle.dn_hss.specs.Hss.{IsTwoLevelKey, hss_count, hss_signature, second_of, tree_leaves};

use crate::origin::{Origin, second_tree, top_tree};
use crate::second::Second;
use crate::verifier::hss_verify;
use dn_lms::{KeyFault, KeyPair, SigKey};
use dn_memory::NoMemory;
use once_cell::race::OnceBox;
use std::alloc::Global;
use std::marker::Model;

/// A key of two levels, with its top tree and a place for each second tree, which is kept there from when it is first used.
#[derive(Drop)]
pub struct HssKey {
    origin: Origin,
    top: KeyPair,
    seconds: Vec<OnceBox<Second>>,
}

impl Model for HssKey {
    ghost use Rattle.dn_hss.specs.Hss.{TwoLevelKey};

    ghost Value = { TwoLevelKey };

    ghost use Rattle.dn_hss.specs.Inside.{two_level_key, Keeps};

    ghost view = { two_level_key };

    ghost invariant = { Keeps };
}

/// Places for so many second trees, none of which is made yet.
fn places(alloc: Global, count: u32) -> Result<Vec<OnceBox<Second>>, NoMemory>
    ensures { IfOk result (λ places. length places.items ≡ count) }
{
    let mut places = Vec::with_capacity(alloc, count as usize)?;
    for _ in 0..count {
        places.push(OnceBox::new(alloc))?;
    }
    Ok(places)
}

impl HssKey {
    /// The key with these type codes of LMS and LM-OTS, which all its trees have, and this seed, from which all of them are derived.
    /// `UnknownLms` exactly where `lms` isn't 5, 6 or 7; else `UnknownOts` exactly where `ots` isn't 1, 2, 3 or 4.
    pub fn make(alloc: Global, lms: u32, ots: u32, seed: [u8; 32]) -> Result<HssKey, KeyFault>
        ensures value { IfOk result (λ key. key ≡ record { lms = lms; ots = ots; seed = seed }) }
        ensures key { IfOk result IsTwoLevelKey }
        ensures fault { IfErr result (IsFault lms ots) }
    {
        let origin = Origin { lms, ots, seed };
        let top = top_tree(alloc, &origin)?;
        let seconds = places(alloc, top.leaves())?;
        Ok(HssKey {
            origin,
            top,
            seconds,
        })
    }

    /// Second tree t, made anew.
    fn made(&self, alloc: Global, t: u32) -> Result<KeyPair, NoMemory>
        ensures { IfOk result (λ tree. tree ≡ second_of self.now t) }
    {
        second_tree(alloc, &self.origin, t).map_err(|_| NoMemory)
    }

    /// Keeps second tree t for later signatures. Where memory is wanting, or another thread was first, it isn't kept.
    fn keep(&self, alloc: Global, t: u32, tree: KeyPair)
        requires within { t < tree_leaves self.now }
        requires tree { tree ≡ second_of self.now t }
    {
        let origin = self.origin;
        if let Ok(second) = Box::new(alloc, Second { origin, t, tree }) {
            let _ = self.seconds[t as usize].set(second);
        }
    }

    /// The signature of a message at leaf q, by the second tree whose leaf it is.
    fn signed_by(
        &self,
        alloc: Global,
        q: u32,
        second: &KeyPair,
        msg: &[u8],
    ) -> Result<Vec<u8>, NoMemory>
        requires within { q < hss_count self.now }
        requires second { second.now ≡ second_of self.now (q / tree_leaves self.now) }
        ensures { IfOk result (λ sig. sig.items ≡ hss_signature self.now q msg.now) }
    {
        let leaves = self.top.leaves();
        let public = second.public(alloc)?;
        let by_top = self.top.sign_at(alloc, q / leaves, &public)?;
        let by_second = second.sign_at(alloc, q % leaves, msg)?;
        let mut sig = Vec::new(alloc);
        sig.extend_from_slice(&1u32.to_be_bytes())?;
        sig.extend_from_slice(&by_top)?;
        sig.extend_from_slice(&public)?;
        sig.extend_from_slice(&by_second)?;
        Ok(sig)
    }
}

impl SigKey for HssKey {
    ghost use Rattle.dn_hss.specs.Hss.{IsTwoLevelKey, hss_count, hss_public_key, hss_signature, HssVerifies};
    ghost use Rattle.dn_hss_definitions.proofs.Laws.{hss_signature-verifies};

    ghost IsOne = { IsTwoLevelKey };

    ghost count = { hss_count };

    ghost public_bytes = { hss_public_key };

    ghost signature = { hss_signature };

    ghost Checks = { HssVerifies };

    fn leaves(&self) -> u32 {
        let leaves = self.top.leaves();
        leaves * leaves
    }

    fn public(&self, alloc: Global) -> Result<Vec<u8>, NoMemory> {
        let top = self.top.public(alloc)?;
        let mut public = Vec::with_capacity(alloc, 60)?;
        public.extend_from_slice(&2u32.to_be_bytes())?;
        public.extend_from_slice(&top)?;
        Ok(public)
    }

    fn sign_at(&self, alloc: Global, q: u32, msg: &[u8]) -> Result<Vec<u8>, NoMemory> {
        let t = q / self.top.leaves();
        if let Some(second) = self.seconds[t as usize].get() {
            if second.is_of(&self.origin, t) {
                return self.signed_by(alloc, q, &second.tree, msg);
            }
        }
        let tree = self.made(alloc, t)?;
        let sig = self.signed_by(alloc, q, &tree, msg)?;
        self.keep(alloc, t, tree);
        Ok(sig)
    }

    fn check(public: &[u8], msg: &[u8], sig: &[u8]) -> bool {
        hss_verify(public, msg, sig)
    }

    ghost signs = { hss_signature-verifies };
}
