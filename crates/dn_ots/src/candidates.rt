ghost use Rattle.std.specs.Prelude.{◌≡◌, ℕ, List, Some, IsTrue, ◌↔◌, SomeIff, length, take};
ghost use Rattle.std.specs.Int.{w32, to_be_bytes};
ghost use Rattle.dn_ots.specs.Ots.{ots_candidate, ots_public, ots_signature};

use crate::Params;
use crate::block::{leaf_block, open_chain, run};
use crate::digits::{coef, with_checksum};
use crate::hashers::{KEY, leaf_hasher, message_hash, take_value};
use sha2::Digest;

/// Whether a signature has the length and the type code of a parameter set.
fn has_form(params: Params, sig: &[u8]) -> bool
    ensures { IsTrue result ↔ ((length sig.now ≡ params.sig_len) × (take 4 sig.now ≡ to_be_bytes w32 params.code)) }
{
    if sig.len() != params.sig_len as usize {
        return false;
    }
    let code = params.code.to_be_bytes();
    &sig[..4] == code.as_slice()
}

/// Takes each chain on from the value that a signature has.
fn candidate_key(params: Params, id: &[u8; 16], q: u32, msg: &[u8], sig: &[u8]) -> [u8; 32]
    requires { length sig.now ≡ params.sig_len }
    ensures { result ≡ ots_candidate params.code id.now q msg.now sig.now }
{
    let digits = with_checksum(params, message_hash(id, q, &sig[4..36], msg));
    let mut block = leaf_block(id, q);
    let mut hasher = leaf_hasher(id, q, KEY);
    'chains: for i in 0..params.p {
        let at = 36 + 32 * i as usize;
        open_chain(&mut block, i as u16, &sig[at..at + 32]);
        run(&mut block, coef(params, &digits, i), params.last_step());
        take_value(&mut hasher, &block);
    }
    hasher.finalize()
}

/// The candidate for the public key K of leaf q that a signature gives (RFC 8554 section 4.6,
/// algorithm 4b). `None` exactly where the signature hasn't `sig_len` bytes, or its first four bytes
/// aren't the type code. A true signature gives the public key.
pub fn candidate(params: Params, id: &[u8; 16], q: u32, msg: &[u8], sig: &[u8]) -> Option<[u8; 32]>
    ensures exact { SomeIff result
        ((length sig.now ≡ params.sig_len) × (take 4 sig.now ≡ to_be_bytes w32 params.code))
        (ots_candidate params.code id.now q msg.now sig.now) }
    ensures true_signature { (seed : List ℕ) → sig.now ≡ ots_signature params.code id.now q seed msg.now
        → result ≡ Some (ots_public params.code id.now q seed) }
{
    if !has_form(params, sig) {
        return None;
    }
    Some(candidate_key(params, id, q, msg, sig))
}
