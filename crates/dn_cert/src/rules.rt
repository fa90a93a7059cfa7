ghost use Rattle.std.specs.Prelude.{◌<◌, ◌↔◌, length, IfOk, IfErr, IsTrue};
ghost use Rattle.dn_cert.specs.Evidence.{IsAccusation, IsRebuttal, IsValid, IsInvalid, IsGood};

use dn_layout::Layout;
use dn_memory::NoMemory;
use dn_records::{Body, Statement};
use dn_roster::Roster;
use dn_wire::{ClientId, Round, SignerId, SlotId};
use std::alloc::Global;

/// An accusation that holds against a body: slot `slot` accuses at place `k` of round `r`.
#[derive(Clone, Copy, Debug, PartialEq, Eq)]
pub struct Valid {
    pub r: Round,
    pub slot: SlotId,
    pub k: u32,
}

/// Why an accusation doesn't hold against a body: the first of these that is so.
#[derive(Clone, Copy, Debug, PartialEq, Eq)]
pub enum Invalid {
    /// The signer isn't the named slot, or the round isn't the body's.
    Key,
    /// The place isn't in the slot's range.
    Place,
    /// The body is thin, or its output has a 0 there.
    Zero,
}

/// How accusations and rebuttals are judged.
pub trait Rules {
    /// Whether the accusation that `who` made holds against the body of a round. The layout is the one after the body's prev.
    fn valid(
        &self,
        roster: &Roster,
        layout: &Layout,
        body: &Body,
        who: SignerId,
        s: &Statement,
    ) -> Result<Valid, Invalid>
        requires { IsAccusation s.now }
        ensures valid { IfOk result (IsValid layout.now body.now who s.now) }
        ensures invalid { IfErr result (IsInvalid layout.now body.now who s.now) };

    /// Whether the rebuttal that this client made is good.
    fn rebuttal_good(
        &self,
        alloc: Global,
        roster: &Roster,
        client: ClientId,
        s: &Statement,
    ) -> Result<bool, NoMemory>
        requires client { client.0 < length roster.now.clients }
        requires rebuttal { IsRebuttal s.now }
        ensures { IfOk result (λ good. IsTrue good ↔ IsGood roster.now client s.now) };
}
