// What is kept, and what of it opens a place.
ghost use Rattle.std.specs.Prelude.{◌≡◌, ◌↔◌, ◌<◌, ◌&&◌, ℕ, List, Bool, None, Some, Contains, IsTrue, IfOk, MatchOption};
ghost use Rattle.dn_record_types.specs.declared.shown.ShownCipher.{ShownCipher};
ghost use Rattle.dn_record_types.specs.declared.statement.Statement.TheVariants as kinds;
ghost use Rattle.dn_seal.specs.Dealt.{server};
ghost use Rattle.dn_trace.specs.Trial.{Says};
ghost use Rattle.dn_server.specs.Server.{is_server};
ghost use Rattle.dn_openings.specs.Evidence.{is_pad, is_opening, openings_of, pad_by, HasOpened};

use dn_memory::NoMemory;
use dn_records::Statement;
use dn_seal::Said;
use dn_server::{Kept, Place};
use dn_wire::{Round, ServerId, SignerId};
use std::alloc::Global;

/// Whether this signer's statement is among what was said.
fn is_said(kept: &[Said], who: SignerId, s: &Statement) -> bool
    ensures { IsTrue result ↔ Says kept.now who s.now }
{
    for said in kept {
        if said.signer() == who && said.statement().equals(s) {
            return true;
        }
    }
    false
}

/// Whether the signer's same statement is kept.
pub(crate) fn is_kept(kept: &Kept, said: &Said) -> bool
    ensures { IsTrue result ↔ Says kept.now said.now.signer said.now.statement }
{
    is_said(kept.get(), said.signer(), said.statement())
}

/// Whether the place is among these.
pub(crate) fn is_among(places: &[Place], place: Place) -> bool
    ensures { IsTrue result ↔ Contains places.now place }
{
    for other in places {
        if other.r == place.r && other.k == place.k {
            return true;
        }
    }
    false
}

/// Whether the statement has the pad bits of the place.
fn is_pad(s: &Statement, place: Place) -> bool
    ensures { result ≡ is_pad place.r place.k s.now }
{
    match s {
        Statement::PadBits { r, k, .. } => *r == place.r && *k == place.k,
        _ => false,
    }
}

/// Whether the statement opens the place.
pub(crate) fn is_opening(s: &Statement, place: Place) -> bool
    ensures { result ≡ is_opening place.r place.k s.now }
{
    match s {
        Statement::PadBits { r, k, .. } => *r == place.r && *k == place.k,
        Statement::Shown { r, .. } => *r == place.r,
        _ => false,
    }
}

/// Whether it is the pad bits of the place by server `j`.
fn is_pad_by(said: &Said, place: Place, j: ServerId) -> bool
    ensures { result ≡ (is_server j.0 said.now.signer && is_pad place.r place.k said.now.statement) }
{
    said.signer() == SignerId::Server(j) && is_pad(said.statement(), place)
}

/// The first pad bits of the place by server `j`.
pub(crate) fn first_pad(kept: &[Said], place: Place, j: ServerId) -> Option<&Said>
    ensures { MatchOption result (pad_by kept.now place j.0 ≡ None) (λ x. pad_by kept.now place j.0 ≡ Some x.now) }
{
    for said in kept {
        if is_pad_by(said, place, j) {
            return Some(said);
        }
    }
    None
}

/// Whether it is pad bits of the place that server `j` signed.
fn is_signed_pad(said: &Said, place: Place, j: ServerId) -> bool
    ensures { IsTrue result ↔ ((said.now.signer ≡ server j.0) × ((pad : List Bool) × (said.now.statement ≡ kinds.PadBits place.r place.k pad))) }
{
    if said.signer() != SignerId::Server(j) {
        return false;
    }
    match said.statement() {
        Statement::PadBits { r, k, .. } => *r == place.r && *k == place.k,
        _ => false,
    }
}

/// Whether server `j` signed pad bits of the place.
fn has_pad(kept: &[Said], place: Place, j: ServerId) -> bool
    ensures { IsTrue result ↔ ((pad : List Bool) × Says kept.now (server j.0) (kinds.PadBits place.r place.k pad)) }
{
    for said in kept {
        if is_signed_pad(said, place, j) {
            return true;
        }
    }
    false
}

/// Whether it is the ciphertexts of the round that server `j` shows.
fn is_shown_by(said: &Said, r: Round, j: ServerId) -> bool
    ensures { IsTrue result ↔ ((said.now.signer ≡ server j.0) × ((s : List Bool) × (shown : List ShownCipher) × (said.now.statement ≡ kinds.Shown r s shown))) }
{
    if said.signer() != SignerId::Server(j) {
        return false;
    }
    match said.statement() {
        Statement::Shown { r: round, .. } => *round == r,
        _ => false,
    }
}

/// Whether server `j` showed the ciphertexts of the round.
fn has_shown(kept: &[Said], r: Round, j: ServerId) -> bool
    ensures { IsTrue result ↔ ((s : List Bool) × (shown : List ShownCipher) × Says kept.now (server j.0) (kinds.Shown r s shown)) }
{
    for said in kept {
        if is_shown_by(said, r, j) {
            return true;
        }
    }
    false
}

/// Whether server `j` has opened the place.
fn has_opened(kept: &[Said], place: Place, j: ServerId) -> bool
    ensures { IsTrue result ↔ HasOpened kept.now place j.0 }
{
    has_pad(kept, place, j) && has_shown(kept, place.r, j)
}

/// Whether each of `n` servers has opened the place.
pub(crate) fn all_opened(kept: &[Said], place: Place, n: u32) -> bool
    ensures { IsTrue result ↔ ((j : ℕ) → j < n → HasOpened kept.now place j) }
{
    for j in 0..n {
        if !has_opened(kept, place, ServerId(j)) {
            return false;
        }
    }
    true
}

/// What opens the place.
pub(crate) fn openings_of(alloc: Global, kept: &[Said], place: Place) -> Result<Vec<Said>, NoMemory>
    ensures { IfOk result (λ v. v.items ≡ openings_of kept.now place) }
{
    let mut openings = Vec::new(alloc);
    for said in kept {
        if is_opening(said.statement(), place) {
            openings.push(said.copy(alloc)?)?;
        }
    }
    Ok(openings)
}
