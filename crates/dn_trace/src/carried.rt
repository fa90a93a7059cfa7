// The pad bits that rebuttals carry.
ghost use Rattle.std.specs.Prelude.{◌≡◌, ◌≢◌, ◌↔◌, ℕ, Bool, List, Some, None, IfOk, IfSome, IsTrue};
ghost use Rattle.dn_wire.specs.declared.ids.SignerId.{SignerId};
ghost use Rattle.dn_record_types.specs.declared.statement.Statement.TheVariants.{PadBits};
ghost use Rattle.dn_seal.specs.Said.{SaidView, Unseals};
ghost use Rattle.dn_trace.specs.Evidence.{AreCarried, IsPadIn, HasPadIn};

use crate::case::Case;
use dn_memory::NoMemory;
use dn_records::Statement;
use dn_roster::Roster;
use dn_seal::{Said, Unopened, unseal};
use dn_wire::Round;
use std::alloc::Global;

/// Whether the statement is pad bits of this round and place.
fn is_pad_bits(r: Round, k: u32, s: &Statement) -> bool
    ensures { IsTrue result ↔ ((pad : List Bool) × (s.now ≡ PadBits r k pad)) }
{
    match s {
        Statement::PadBits {
            r: round,
            k: at,
            ..
        } => *round == r && *at == k,
        _ => false,
    }
}

/// An envelope that doesn't unseal carries nothing.
fn unopened(fault: Unopened) -> Result<Option<Said>, NoMemory>
    ensures { IfOk result (λ said. (said ≡ None) × (fault ≢ Unopened.NoMemory)) }
{
    match fault {
        Unopened::NoMemory => Err(NoMemory),
        _ => Ok(None),
    }
}

/// What the envelope opens as, where that is pad bits of this round and place.
fn pad_bits_in(
    alloc: Global,
    roster: &Roster,
    envelope: &[u8],
    r: Round,
    k: u32,
) -> Result<Option<Said>, NoMemory>
    ensures some { IfOk result (λ opened. IfSome opened (λ said. ((pad : List Bool) × (said.statement ≡ PadBits r k pad)) × Unseals roster.now envelope.now said.signer said.statement)) }
    ensures each { IfOk result (λ opened. (who : SignerId) (pad : List Bool) → Unseals roster.now envelope.now who (PadBits r k pad)
        → (said : SaidView) × (opened ≡ Some said) × (said.signer ≡ who) × (said.statement ≡ PadBits r k pad)) }
{
    match unseal(alloc, roster, envelope) {
        Ok(said) => {
            if is_pad_bits(r, k, said.statement()) {
                Ok(Some(said))
            } else {
                Ok(None)
            }
        }
        Err(fault) => unopened(fault),
    }
}

/// The pad bits of the judged round and place that a statement carries, where it is a rebuttal.
fn pad_bits_of(alloc: Global, case: &Case, s: &Statement) -> Result<Option<Said>, NoMemory>
    ensures some { IfOk result (λ opened. IfSome opened (λ said. IsPadIn case.now s.now said.signer said.statement)) }
    ensures each { IfOk result (λ opened. HasPadIn case.now s.now opened) }
{
    match s {
        Statement::Rebuttal { envelope, .. } => pad_bits_in(
            alloc,
            case.roster(),
            envelope.get(),
            case.round(),
            case.place(),
        ),
        _ => Ok(None),
    }
}

/// The pad bits of the judged round and place that rebuttals in what was said carry, whoever made the rebuttals.
pub fn carried(alloc: Global, case: &Case) -> Result<Vec<Said>, NoMemory>
    ensures { IfOk result (λ v. AreCarried case.now v.items) }
{
    let mut pads = Vec::new(alloc);
    for said in case.given() {
        if let Some(pad) = pad_bits_of(alloc, case, said.statement())? {
            pads.push(pad)?;
        }
    }
    Ok(pads)
}
