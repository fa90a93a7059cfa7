ghost use Rattle.std.specs.Prelude.{◌≡◌, ◌+◌, ◌<◌, ◌≤◌, ◌↔◌, IsTrue, SomeIff, length, take, drop};
ghost use Rattle.std.specs.Int.{w32, to_be_bytes};
ghost use Rattle.dn_ots.specs.Parameters.{ots_length};
ghost use Rattle.dn_lms.specs.Key.{IsLms, leaves_of};
ghost use Rattle.dn_lms.specs.Signature.{Verifies, candidate_root, leaf_in, lms_length, number_at};

use crate::nodes::{climb, height_of, is_known, leaf_hash};
use crate::tree::leaves_of;
use dn_ots::{Params, candidate};

/// The bytes of a public key.
const PUBLIC: usize = 56;

/// The 32-bit number at a place, its high byte first.
fn number_at(bytes: &[u8], at: usize) -> u32
    requires { at + 4 ≤ length bytes.now }
    ensures { result ≡ number_at bytes.now at }
{
    let mut number = [0; 4];
    number.copy_from_slice(&bytes[at..at + 4]);
    u32::from_be_bytes(number)
}

/// Whether two lists of bytes are the same.
fn same_bytes(bytes: &[u8], others: &[u8]) -> bool
    ensures { IsTrue result ↔ (bytes.now ≡ others.now) }
{
    bytes == others
}

/// Whether a signature has the length, the type code of LMS and a leaf number of these parameters.
fn has_form(lms: u32, params: Params, sig: &[u8]) -> bool
    requires { IsLms lms }
    ensures { IsTrue result ↔ ((length sig.now ≡ lms_length lms params.code)
        × (take 4 (drop (4 + ots_length params.code) sig.now) ≡ to_be_bytes w32 lms)
        × (leaf_in sig.now < leaves_of lms)) }
{
    if sig.len() != 8 + params.sig_len as usize + 32 * height_of(lms) as usize {
        return false;
    }
    let at = 4 + params.sig_len as usize;
    same_bytes(&sig[at..at + 4], &lms.to_be_bytes()) && number_at(sig, 0) < leaves_of(lms)
}

/// The candidate for the root that a signature gives. `None` exactly where its type code of LM-OTS
/// is another.
fn root_from(lms: u32, params: Params, id: &[u8; 16], msg: &[u8], sig: &[u8]) -> Option<[u8; 32]>
    requires known { IsLms lms }
    requires long { length sig.now ≡ lms_length lms params.code }
    requires leaf { leaf_in sig.now < leaves_of lms }
    ensures { SomeIff result (take 4 (drop 4 sig.now) ≡ to_be_bytes w32 params.code)
        (candidate_root lms params.code id.now msg.now sig.now) }
{
    let q = number_at(sig, 0);
    let end = 4 + params.sig_len as usize;
    let key = candidate(params, id, q, msg, &sig[4..end])?;
    let r = leaves_of(lms) + q;
    Some(climb(id, r, leaf_hash(id, r, &key), &sig[end + 4..]))
}

/// Whether a signature verifies for a message under a public key (RFC 8554 section 5.4.2): true
/// exactly where the key has 56 bytes and known type codes, the signature has their length and
/// carries the same codes, its leaf number is below 2^h, and its candidate for the root is the key's.
pub fn verify(public: &[u8], msg: &[u8], sig: &[u8]) -> bool
    ensures { IsTrue result ↔ Verifies public.now msg.now sig.now }
{
    if public.len() != PUBLIC {
        return false;
    }
    let lms = number_at(public, 0);
    let Ok(params) = Params::of(number_at(public, 4)) else {
        return false;
    };
    if !is_known(lms) || !has_form(lms, params, sig) {
        return false;
    }
    let mut id = [0; 16];
    id.copy_from_slice(&public[8..24]);
    match root_from(lms, params, &id, msg, sig) {
        Some(root) => same_bytes(&root, &public[24..]),
        None => false,
    }
}
