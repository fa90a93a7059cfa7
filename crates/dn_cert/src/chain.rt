ghost use Rattle.std.specs.Prelude.{◌≡◌, ◌≢◌, ◌≤◌, [], length, Contains, IfNone, IfSome, IfOk, IfErr, OnOk, OnErr, MatchOption, MatchResult, ⊤};
ghost use Rattle.dn_cert.specs.Chain.{bodies, Holds, IsLayoutAfter, bits_due, count_at, CanFollow, IsHoldRefused, with_held, IsChain, IsLatestBelow};

use crate::certificate::Certificate;
use crate::floor::is_due_thin;
use crate::held::{Held, bits_due, copies, count_below, find, layout_after};
use crate::hold_fault::HoldFault;
use dn_layout::Layout;
use dn_memory::NoMemory;
use dn_records::Body;
use dn_wire::Round;
use std::alloc::Global;
use std::marker::Model;

/// The bodies of certificates of different rounds, each of which came after that of its prev, and the layout after each round. They stand
/// in order of their rounds. The signatures aren't kept.
#[derive(Drop)]
pub struct Chain {
    first: Layout,
    held: Vec<Held>,
}

impl Model for Chain {
    ghost use Rattle.std.specs.Prelude.{◌≡◌, map, length, replicate, All};
    ghost use Rattle.dn_cert.specs.Chain.{ChainView, IsChain, IsLayoutAfter};

    ghost Value = { ChainView };

    ghost view = { λ c. record { slots = length c.first; held = map (λ h. h.body) c.held.items } };

    ghost invariant = { λ c.
        let v : ChainView = record { slots = length c.first; held = map (λ h. h.body) c.held.items } in
        IsChain v × (c.first ≡ replicate v.slots 0) × All (λ h. IsLayoutAfter v h.body.r.0 h.layout) c.held.items };
}

impl Chain {
    /// The chain of `n` slots that holds nothing.
    pub fn make(alloc: Global, n: u32) -> Result<Chain, NoMemory>
        requires low { 1 ≤ n }
        requires high { n ≤ 512 }
        ensures none { IfOk result (λ c. c ≡ record { slots = n; held = [] }) }
        ensures chain { IfOk result IsChain }
    {
        Ok(Chain {
            first: Layout::first(alloc, n)?,
            held: Vec::new(alloc),
        })
    }

    /// An equal chain.
    pub fn copy(&self, alloc: Global) -> Result<Chain, NoMemory>
        ensures same { IfOk result (λ c. c ≡ self.now) }
        ensures chain { IsChain self.now }
    {
        Ok(Chain {
            first: self.first.copy(alloc)?,
            held: copies(alloc, &self.held)?,
        })
    }

    /// The layout on which a body's round ran, if the body can follow.
    fn layout_before(&self, body: &Body) -> Result<&Layout, HoldFault>
        requires { length body.now.listed ≤ 512 }
        ensures follows { IfOk result (λ l. CanFollow self.now body.now × IsLayoutAfter self.now body.now.prev.0 l.now × (length body.now.out ≡ bits_due l.now body.now)) }
        ensures refused { IfErr result (IsHoldRefused self.now body.now) }
        ensures memory { IfErr result (λ f. f ≢ HoldFault.NoMemory) }
    {
        if find(&self.held, body.r).is_some() {
            return Err(HoldFault::Known { r: body.r });
        }
        let Some(before) = self.layout(body.prev) else {
            return Err(HoldFault::NoPrev { prev: body.prev });
        };
        let (count, last) = (body.listed.get().len() as u32, self.count(body.prev));
        if body.thin != is_due_thin(body.version, count, last) {
            return Err(HoldFault::Floor { count, last });
        }
        let (have, need) = (body.out.len(), bits_due(before, body));
        if have != need {
            return Err(HoldFault::Length { have, need });
        }
        Ok(before)
    }

    /// Why a body can't follow: the first of the reasons of `HoldFault` that is so, but never want of memory; `None` exactly where it can.
    pub fn refusal(&self, body: &Body) -> Option<HoldFault>
        requires { length body.now.listed ≤ 512 }
        ensures follows { IfNone result (CanFollow self.now body.now) }
        ensures refused { IfSome result (IsHoldRefused self.now body.now) }
        ensures memory { result ≢ Some HoldFault.NoMemory }
        ensures chain { IsChain self.now }
    {
        let _ = &self.first;
        match self.layout_before(body) {
            Ok(_) => None,
            Err(fault) => Some(fault),
        }
    }

    /// Holds the body of a certificate, if it can follow. The refusals come in the order of `HoldFault`; after one the chain is as before.
    pub fn hold(&mut self, alloc: Global, c: Certificate) -> Result<(), HoldFault>
        ensures held { OnOk result (CanFollow self.old c.body × (self.new ≡ record self.old { held = with_held c.body self.old.held })) }
        ensures refused { IfErr result (IsHoldRefused self.old c.body) }
        ensures same { OnErr result (self.new ≡ self.old) }
        // What can follow is held, but for want of memory.
        ensures follows { CanFollow self.old c.body → MatchResult result (λ _. ⊤) (λ f. f ≡ HoldFault.NoMemory) }
        ensures chain { IsChain self.new }
    {
        let before = match self.layout_before(c.body()) {
            Ok(before) => before,
            Err(fault) => return Err(fault),
        };
        let layout = layout_after(alloc, before, c.body())?;
        let at = count_below(&self.held, c.body().r);
        let held = Held {
            body: c.into_body(),
            layout,
        };
        self.held.insert(at, held)?;
        Ok(())
    }

    /// The greatest round below `r` that is held, and round 0 where none is.
    pub fn latest_below(&self, r: Round) -> Round
        ensures latest { IsLatestBelow self.now r.0 result.0 }
        ensures chain { IsChain self.now }
    {
        match count_below(&self.held, r) {
            0 => Round(0),
            count => self.held[count - 1].body.r,
        }
    }

    /// The body of round `r`; `None` exactly where none is held.
    pub fn body(&self, r: Round) -> Option<&Body>
        ensures body { MatchOption result (¬ Holds self.now r.0) (λ b. Contains (bodies self.now) b.now × (b.now.r ≡ r)) }
        ensures chain { IsChain self.now }
    {
        match find(&self.held, r) {
            Some(held) => Some(&held.body),
            None => None,
        }
    }

    /// How many clients counted in round `r`; 0 for round 0, and for a round that isn't held.
    pub fn count(&self, r: Round) -> u32
        ensures count { result ≡ count_at self.now r.0 }
        ensures few { result ≤ 512 }
        ensures chain { IsChain self.now }
    {
        match find(&self.held, r) {
            Some(held) => held.body.listed.get().len() as u32,
            None => 0,
        }
    }

    /// The layout after round `r`; `None` exactly where that isn't round 0, and isn't held.
    pub fn layout(&self, r: Round) -> Option<&Layout>
        ensures layout { MatchOption result ((r.0 ≢ 0) × (¬ Holds self.now r.0)) (λ l. IsLayoutAfter self.now r.0 l.now) }
        ensures chain { IsChain self.now }
    {
        if r == Round(0) {
            return Some(&self.first);
        }
        match find(&self.held, r) {
            Some(held) => Some(&held.layout),
            None => None,
        }
    }
}
