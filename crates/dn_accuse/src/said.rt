ghost use Rattle.std.specs.Prelude.{◌<◌, ◌↔◌, length, IfOk, IfErr, IsTrue};
ghost use Rattle.dn_seal.specs.Said.{IsUnder};
ghost use Rattle.dn_cert.specs.Evidence.{IsAccusation, IsRebuttal, IsValid, IsInvalid, IsGood};

use crate::judging::Judging;
use dn_cert::{Invalid, Rules, Valid};
use dn_layout::Layout;
use dn_memory::NoMemory;
use dn_records::Body;
use dn_roster::Roster;
use dn_seal::Said;
use dn_wire::ClientId;
use std::alloc::Global;

/// Whether an accusation that was said in the roster's group holds against a body. The layout is the one after the body's prev. `Key`
/// comes where the signer isn't the named slot or the round isn't the body's; else `Place` where the place isn't in the slot's range; else
/// `Zero` where the body is thin or its output has a 0 there.
pub fn valid(roster: &Roster, layout: &Layout, body: &Body, said: &Said) -> Result<Valid, Invalid>
    requires under { IsUnder roster.now said.now }
    requires accusation { IsAccusation said.now.statement }
    ensures valid { IfOk result (IsValid layout.now body.now said.now.signer said.now.statement) }
    ensures invalid { IfErr result (IsInvalid layout.now body.now said.now.signer said.now.statement) }
{
    Judging.valid(roster, layout, body, said.signer(), said.statement())
}

/// Whether a rebuttal of this client that was said in the roster's group is good.
pub fn rebuttal_good(
    alloc: Global,
    roster: &Roster,
    client: ClientId,
    said: &Said,
) -> Result<bool, NoMemory>
    requires under { IsUnder roster.now said.now }
    requires client { client.0 < length roster.now.clients }
    requires rebuttal { IsRebuttal said.now.statement }
    ensures { IfOk result (λ good. IsTrue good ↔ IsGood roster.now client said.now.statement) }
{
    Judging.rebuttal_good(alloc, roster, client, said.statement())
}
