ghost use Rattle.std.specs.Prelude.{◌≡◌, ◌+◌, ◌<◌, ◌≤◌, ◌↔◌, ◌^◌, IsTrue, IfSome, SomeIff, length};
ghost use Rattle.dn_ots.specs.Parameters.{IsCode};
ghost use Rattle.dn_lms.specs.Key.{IsLms, height};
ghost use Rattle.dn_lms.specs.Signature.{lms_in, ots_in, number_at};
ghost use Rattle.dn_hss.specs.Hss.{HssVerifies, top_in, top_length};
ghost use Rattle.dn_hss.specs.Leaves.{HasLeaves, leaves_in};

use dn_lms::verify;
use dn_ots::Params;

/// The bytes of a public key of two levels.
const PUBLIC: usize = 60;

/// What a public key of two levels begins with, the number of its levels: L.
const LEVELS: u32 = 2;

/// What its signatures begin with, the number of signed public keys: L - 1.
const SIGNED_KEYS: u32 = 1;

/// The bytes of a tree's public key.
const TREE_PUBLIC: usize = 56;

/// The 32-bit number at a place, its high byte first.
#[tactic(auto, unfolding(dn_lms_definitions::specs::Signature::number_at))]
fn number_at(bytes: &[u8], at: usize) -> u32
    requires { at + 4 ≤ length bytes.now }
    ensures { result ≡ number_at bytes.now at }
{
    let mut number = [0; 4];
    number.copy_from_slice(&bytes[at..at + 4]);
    u32::from_be_bytes(number)
}

/// The height of the trees of a type code; None where it is none of the three.
#[tactic(auto, unfolding(dn_lms_definitions::specs::Key::height))]
fn height_of(lms: u32) -> Option<usize>
    ensures exact { SomeIff result (IsLms lms) (height lms) }
    ensures few { IfSome result (λ h. h ≤ 15) }
{
    match lms {
        5 => Some(5),
        6 => Some(10),
        7 => Some(15),
        _ => None,
    }
}

/// The bytes of a signature by the top tree; None where a type code isn't known.
fn top_length(public: &[u8]) -> Option<usize>
    requires { 12 ≤ length public.now }
    ensures exact { SomeIff result (IsLms (lms_in (top_in public.now)) × IsCode (ots_in (top_in public.now))) (top_length public.now) }
    ensures few { IfSome result (λ n. n < 2 ^ 40) }
{
    let top = &public[4..];
    let height = height_of(number_at(top, 0))?;
    let Ok(params) = Params::of(number_at(top, 4)) else {
        return None;
    };
    Some(8 + params.sig_len as usize + 32 * height)
}

/// Whether a signature verifies for a message under a public key of two levels (RFC 8554 section 6.3): true exactly where the key has
/// 60 bytes and begins with 2, the signature begins with 1 and then has a signature by the top tree of the 56 bytes behind it, and these
/// are a public key under which the rest verifies for the message.
pub fn hss_verify(public: &[u8], msg: &[u8], sig: &[u8]) -> bool
    ensures { IsTrue result ↔ HssVerifies public.now msg.now sig.now }
{
    if public.len() != PUBLIC || number_at(public, 0) != LEVELS {
        return false;
    }
    let Some(length) = top_length(public) else {
        return false;
    };
    let end = 4 + length;
    if sig.len() < end + TREE_PUBLIC || number_at(sig, 0) != SIGNED_KEYS {
        return false;
    }
    let second = &sig[end..end + TREE_PUBLIC];
    verify(&public[4..], second, &sig[4..end]) && verify(second, msg, &sig[end + TREE_PUBLIC..])
}

/// The leaf numbers that a signature carries, of the top tree and of the second tree, at the places that the type codes in a public key
/// give. None exactly where one of these isn't known, or the signature ends before the end of the second number.
pub fn hss_leaves(public: &[u8], sig: &[u8]) -> Option<(u32, u32)>
    requires { 12 ≤ length public.now }
    ensures { SomeIff result (HasLeaves public.now sig.now) (leaves_in public.now sig.now) }
{
    let at = 60 + top_length(public)?;
    if sig.len() < at + 4 {
        return None;
    }
    Some((number_at(sig, 4), number_at(sig, at)))
}
