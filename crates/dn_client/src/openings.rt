// What the servers' pad bits show of a client.
ghost use Rattle.std.specs.Prelude.{◌≡◌, ◌<◌, ◌↔◌, ℕ, length, IsTrue, MatchOption};
ghost use Rattle.dn_bits.specs.Bits.{xor};
ghost use Rattle.dn_cert.specs.Evidence.{bit_in};
ghost use Rattle.dn_client.specs.Answering.{ArePadBits, AreOpenings, shown_sum, ShowsTrue, IsFirstFalse};

use dn_cert::bit_in;
use dn_pads::{Seed, pad_bit};
use dn_records::Statement;
use dn_seal::Said;
use dn_wire::{ClientId, Round, ServerId, SignerId};

/// The bit that was shown of client `i`.
fn bit_of(said: &Said, i: ClientId) -> bool
    ensures { result ≡ bit_in said.now.statement i }
{
    bit_in(said.statement(), i)
}

/// Whether what was said is the pad bits of server `j` for place `k` of round `r`.
fn are_pad_bits(said: &Said, j: u32, r: Round, k: u32) -> bool
    ensures { IsTrue result ↔ ArePadBits r k j said.now }
{
    if said.signer() != SignerId::Server(ServerId(j)) {
        return false;
    }
    match said.statement() {
        Statement::PadBits {
            r: round,
            k: place,
            ..
        } => *round == r && *place == k,
        _ => false,
    }
}

/// Whether they are the pad bits of `n` servers, in order.
pub fn are_openings(shown: &[Said], r: Round, k: u32, n: usize) -> bool
    requires { n < 65536 }
    ensures { IsTrue result ↔ AreOpenings r k n shown.now }
{
    if shown.len() != n {
        return false;
    }
    for j in 0..n {
        if !are_pad_bits(&shown[j], j as u32, r, k) {
            return false;
        }
    }
    true
}

/// One bit or the other, and not both.
fn xor(a: bool, b: bool) -> bool
    ensures { result ≡ xor a b }
{
    if a { !b } else { b }
}

/// The sum of the bits that are shown of client `i`.
pub fn shown_sum(shown: &[Said], i: ClientId) -> bool
    ensures { result ≡ shown_sum shown.now i }
{
    let mut sum = false;
    for said in shown {
        sum = xor(sum, bit_of(said, i));
    }
    sum
}

/// The first server that shows another bit of client `i` than that of their pad.
pub fn first_false(shown: &[Said], seeds: &[Seed], i: ClientId, r: Round, k: u32) -> Option<usize>
    requires { length shown.now ≡ length seeds.now }
    ensures { MatchOption result ((j : ℕ) → ShowsTrue shown.now seeds.now i r k j) (IsFirstFalse shown.now seeds.now i r k) }
{
    for j in 0..shown.len() {
        if bit_of(&shown[j], i) != pad_bit(&seeds[j], r, k) {
            return Some(j);
        }
    }
    None
}
