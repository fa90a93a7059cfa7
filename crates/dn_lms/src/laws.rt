// Laws of keys and signatures, for those who build on them.
ghost use Rattle.std.specs.Prelude.{◌≡◌, ℕ, ◌≤◌, List, length};
ghost use Rattle.dn_lms.specs.Key.{Key, IsKey};
ghost use Rattle.dn_lms.specs.Signature.{Verifies, lms_length, lms_signature, public_key};

/// A key's public key has 56 bytes, and its signatures have the length of its type codes.
pub fn lengths_go_by_codes()
    ensures public_key { (key : Key) → IsKey key → length (public_key key) ≡ 56 }
    ensures signature { (key : Key) (q : ℕ) (msg : List ℕ) → length (lms_signature key q msg) ≡ lms_length key.lms key.ots }
{}

/// A signature that verifies has at most 9,004 bytes: 8 and the 8,516 of a one-time signature with the narrowest digits, and a path of
/// 15 hashes.
pub fn what_verifies_is_short()
    ensures { (public msg sig : List ℕ) → Verifies public msg sig → length sig ≤ 9004 }
{}
