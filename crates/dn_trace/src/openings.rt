// The openings of servers.
ghost use Rattle.std.specs.Prelude.{◌≡◌, ◌≢◌, ◌↔◌, ◌++◌, List, Bool, map, MatchOption, IsTrue};
ghost use Rattle.dn_bits.specs.Bits.{xor, bit};
ghost use Rattle.dn_record_types.specs.declared.statement.Statement.TheVariants.{PadBits};
ghost use Rattle.dn_seal.specs.Dealt.{server};
ghost use Rattle.dn_cert.specs.Evidence.{shown_bit};
ghost use Rattle.dn_bits.specs.XorAll.{xor_all};
ghost use Rattle.dn_trace.specs.Trial.{Says};
ghost use Rattle.dn_trace.specs.Reasons.{summed, Signed};
ghost use Rattle.dn_trace.specs.Challenged.{IsOpened};
ghost use Rattle.dn_trace.specs.Evidence.{AreCarried, IsOpening};

use crate::case::Case;
use crate::seeing::is_server;
use crate::showing::first_shown;
use dn_bits::Bits;
use dn_cert::shown_bit;
use dn_records::{Listed, ShownCipher, Statement};
use dn_seal::Said;
use dn_wire::{ClientId, Round, ServerId};

/// What a server opened: its own ciphertext, its clients', and its pad bits.
#[derive(Drop)]
pub struct Opening<'a> {
    pub s: &'a Bits,
    pub shown: &'a [ShownCipher],
    pub pad: &'a Bits,
}

/// The server's pad bits of this round and place, where this is such.
fn pad_in<'a>(said: &'a Said, j: ServerId, r: Round, k: u32) -> Option<&'a Bits>
    ensures none { MatchOption result ((pad : List Bool) → said.now.signer ≡ server j.0 → ¬ (said.now.statement ≡ PadBits r k pad)) (λ pad. (said.now.signer ≡ server j.0) × (said.now.statement ≡ PadBits r k pad.now)) }
{
    if !is_server(j, said.signer()) {
        return None;
    }
    match said.statement() {
        Statement::PadBits {
            r: round,
            k: at,
            bits,
        } if *round == r && *at == k => { Some(bits) }
        _ => None,
    }
}

/// The first pad bits of the server.
fn first_pad<'a>(said: &'a [Said], j: ServerId, r: Round, k: u32) -> Option<&'a Bits>
    ensures { MatchOption result ((pad : List Bool) → ¬ Says said.now (server j.0) (PadBits r k pad)) (λ pad. Says said.now (server j.0) (PadBits r k pad.now)) }
{
    for x in said {
        if let Some(pad) = pad_in(x, j, r, k) {
            return Some(pad);
        }
    }
    None
}

/// Pad bits of the judged round and place that the server signed.
fn signed_pad<'a>(case: &Case<'a>, carried: &'a [Said], j: ServerId) -> Option<&'a Bits>
    requires { AreCarried case.now carried.now }
    ensures { MatchOption result ((pad : List Bool) → ¬ Signed case.now j.0 pad) (λ pad. Signed case.now j.0 pad.now) }
{
    match first_pad(case.given(), j, case.round(), case.place()) {
        Some(pad) => Some(pad),
        None => first_pad(carried, j, case.round(), case.place()),
    }
}

/// What the server opened first; nothing where it lacks pad bits or a Shown.
pub fn opening_of<'a>(case: &Case<'a>, carried: &'a [Said], j: ServerId) -> Option<Opening<'a>>
    requires { AreCarried case.now carried.now }
    ensures { MatchOption result (¬ IsOpened case.now j.0) (λ o. IsOpening case.now j.0 o.s.now o.shown.now o.pad.now) }
{
    let Some(first) = first_shown(case, j) else {
        return None;
    };
    let Statement::Shown { s, shown, .. } = first.statement() else {
        return None;
    };
    let Some(pad) = signed_pad(case, carried, j) else {
        return None;
    };
    Some(Opening {
        s,
        shown: shown.get(),
        pad,
    })
}

/// One bit or the other, and not both.
fn either(a: bool, b: bool) -> bool
    ensures { result ≡ xor a b }
{
    a != b
}

/// What pad bits add up to over all rows.
fn pads_of_rows(pad: &Bits, rows: &[Listed]) -> bool
    ensures { result ≡ xor_all (map (λ l. shown_bit pad.now l.client) rows.now) }
{
    let mut sum = false;
    for row in rows {
        sum = either(sum, shown_bit(pad, row.client));
    }
    sum
}

/// What ciphertexts add up to at place k.
fn ciphers_at(shown: &[ShownCipher], k: u32) -> bool
    ensures { result ≡ xor_all (map (λ c. bit c.cipher k) shown.now) }
{
    let mut sum = false;
    for x in shown {
        sum = either(sum, x.cipher.get_or_zero(k));
    }
    sum
}

/// Whether the server's ciphertext isn't the sum of its pads and its clients' ciphertexts, at the judged place.
pub fn has_false_sum(case: &Case, opening: &Opening) -> bool
    ensures { IsTrue result ↔ (bit opening.now.s.now case.now.k ≢ summed case.now opening.now.pad.now opening.now.shown.now) }
{
    let body = case.body();
    let pads = pads_of_rows(opening.pad, body.listed.get());
    let ciphers = ciphers_at(opening.shown, case.place());
    opening.s.get_or_zero(case.place()) != either(pads, ciphers)
}

/// What all pads of the openings add up to for a client.
pub fn pads_for(openings: &[Opening], i: ClientId) -> bool
    ensures { result ≡ xor_all (map (λ o. shown_bit o.pad.now i) openings.now) }
{
    let mut sum = false;
    for opening in openings {
        sum = either(sum, shown_bit(opening.pad, i));
    }
    sum
}
