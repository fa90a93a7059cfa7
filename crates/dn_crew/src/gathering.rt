// What all passes of a race did, as one.
ghost use Rattle.std.specs.Prelude.{◌≡◌, ℕ, ◌+◌, List, IfOk, IfSome, OnOk, Option, slice_get, vec_len};
ghost use Rattle.dn_wire.specs.declared.ids.ClientId.{ClientId};
ghost use Rattle.dn_gate.specs.Pass.{IsReady};
ghost use Rattle.dn_crew.specs.Shares.{IsShare, IsCloser, IsGathered};

use crate::sharing::Share;
use dn_gate::{Gate, GatePass};
use dn_memory::NoMemory;
use dn_wire::ClientId;
use std::alloc::Global;

/// Takes in what one more worker did.
fn take_in(gate: &Gate<u64>, all: &mut Share, share: Share) -> Result<(), NoMemory>
    requires gate { (all.old.pass.gate ≡ gate.now) × (share.pass.gate ≡ gate.now) }
    requires ready { IsReady all.old.pass × IsReady share.pass }
    ensures { OnOk result ((list : List (ClientId × ℕ)) (W j : ℕ) (closing : Option ℕ) (refused : List ℕ)
        → IsGathered gate.now list W j closing refused all.old.pass all.old.draws.items all.old.repeats.items
        → IsShare gate.now list W j share.pass share.draws.items share.repeats.items
        → IsGathered gate.now list W (j + 1) closing refused all.new.pass all.new.draws.items all.new.repeats.items) }
{
    let Share {
        pass,
        draws,
        repeats,
    } = share;
    gate.join(&mut all.pass, pass);
    all.draws.extend_from_slice(&draws)?;
    all.repeats.extend_from_slice(&repeats)?;
    Ok(())
}

/// What all workers did, and the closer.
pub(crate) fn gather(
    alloc: Global,
    gate: &Gate<u64>,
    closer: GatePass<u64>,
    shares: Vec<Result<Share, NoMemory>>,
    _list: &[(ClientId, u64)],
    _workers: u32,
) -> Result<Share, NoMemory>
    requires closer { IsCloser gate.now closer.closing closer.refused closer }
    requires shares { (j : ℕ) → IfSome (slice_get shares.items j) (λ r. IfOk r (λ s. IsShare gate.now _list.now _workers j s.pass s.draws.items s.repeats.items)) }
    ensures { IfOk result (λ a. IsGathered gate.now _list.now _workers (vec_len shares) closer.closing closer.refused a.pass a.draws.items a.repeats.items) }
{
    let mut all = Share {
        pass: closer,
        draws: Vec::new(alloc),
        repeats: Vec::new(alloc),
    };
    for share in shares {
        take_in(gate, &mut all, share?)?;
    }
    Ok(all)
}
