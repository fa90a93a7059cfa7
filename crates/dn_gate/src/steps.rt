//! The steps of a submission, each as a call. `Gate::submit` makes them all; a test makes some, and lets another pass work in
//! between.
ghost use Rattle.std.specs.Prelude.{◌≡◌, ℕ, ◌+◌, ◌-◌, ◌<◌, ◌≤◌, ◌++◌, ◌∷◌, [], Some, None, MatchBool, Option, List};
ghost use Rattle.dn_counts.specs.Numbers.{least};
ghost use Rattle.dn_gate.specs.Rule.{closed};
ghost use Rattle.dn_gate.specs.Pass.{IsReady, included, came_late};

use crate::gate::Gate;
use crate::pass::GatePass;
use crate::rule::{Claim, Draw, Mark};
use dn_wire::ClientId;

/// The bit of the control word that says that the gate is closed.
pub(crate) const CLOSED: u64 = 1 << 32;

/// What a draw found.
#[derive(Clone, Copy, Debug, PartialEq, Eq)]
pub enum Drawn {
    /// The gate was open. Place is the number of draws before.
    Included { place: u32 },
    /// The gate was closed. Seen is the control word as it was found.
    Late { seen: u64 },
}

/// Claims the client, and takes its slot out: true where its word was free. Else the call is a repeat. A pass that isn't in mid-call
/// holds no slot.
pub fn claim<T: Drop>(gate: &Gate<T>, pass: &mut GatePass<T>, client: ClientId) -> bool
    requires gate { (pass.old.gate ≡ gate.now) × (client.0 < gate.now.clients) }
    requires ready { IsReady pass.old }
    ensures empty { pass.old.held ≡ [] }
    ensures claimed { MatchBool result (pass.new ≡ record pass.old { claim = Some client.0; held = (client.0, None) ∷ [] }) (pass.new ≡ record pass.old { repeats = pass.old.repeats ++ (least pass.old.numbers, client.0) ∷ [] }) }
{
    gate.table
        .shared
        .fetch_or::<Claim>(&mut pass.seat, client.0 as usize + 1, 1)
        == 0
}

/// Draws a place for the client that was claimed. Where it came late, the slot goes home.
pub fn draw<T: Drop>(gate: &Gate<T>, pass: &mut GatePass<T>, client: ClientId) -> Drawn
    requires gate { (pass.old.gate ≡ gate.now) × (client.0 < gate.now.clients) }
    requires claimed { (pass.old.claim ≡ Some client.0) × (pass.old.unmarked ≡ None) × (pass.old.held ≡ (client.0, None) ∷ []) }
    ensures included { (place : ℕ) → result ≡ Drawn.Included place → (place < closed) × (pass.old.closing ≡ None) × (pass.new ≡ record pass.old { claim = None; unmarked = Some client.0; draws = pass.old.draws ++ included place client.0 ∷ [] }) }
    ensures late { (seen : ℕ) → result ≡ Drawn.Late seen → (closed ≤ seen) × (pass.new ≡ record pass.old { claim = None; draws = pass.old.draws ++ came_late client.0 seen ∷ []; held = [] }) }
{
    let found = gate.table.shared.fetch_add::<Draw>(&mut pass.seat, 0, 1);
    if found < CLOSED {
        Drawn::Included {
            place: found as u32,
        }
    } else {
        Drawn::Late { seen: found }
    }
}

/// Puts the value of an included draw into the client's slot.
pub fn deposit<T: Drop>(gate: &Gate<T>, pass: &mut GatePass<T>, client: ClientId, value: T)
    requires gate { pass.old.gate ≡ gate.now }
    requires drawn { (pass.old.unmarked ≡ Some client.0) × (pass.old.held ≡ (client.0, None) ∷ []) }
    ensures deposited { pass.new ≡ record pass.old { held = (client.0, Some value) ∷ [] } }
{
    drop(
        gate.table
            .shared
            .exchange(&mut pass.seat, client.0 as usize, Some(value)),
    );
}

/// Marks the client, whose value was put: its slot goes home.
pub fn mark<T: Drop>(gate: &Gate<T>, pass: &mut GatePass<T>, client: ClientId)
    requires gate { (pass.old.gate ≡ gate.now) × (client.0 < gate.now.clients) }
    requires deposited { (pass.old.unmarked ≡ Some client.0) × ((x : T) × (pass.old.held ≡ (client.0, Some x) ∷ [])) }
    ensures marked { (x : T) → pass.old.held ≡ (client.0, Some x) ∷ [] → pass.new ≡ record pass.old { unmarked = None; held = []; values = pass.old.values ++ (client.0, x) ∷ [] } }
{
    gate.table
        .shared
        .fetch_or::<Mark>(&mut pass.seat, client.0 as usize + 1, 2);
}
