// Laws of keys of two levels, for those who build on them.
ghost use Rattle.std.specs.Prelude.{◌≡◌, ℕ, ◌+◌, ◌*◌, ◌<◌, List, length};
ghost use Rattle.dn_lms.specs.Signature.{lms_length};
ghost use Rattle.dn_hss.specs.Hss.{TwoLevelKey, IsTwoLevelKey, HssVerifies, hss_count, hss_public_key, hss_signature};
ghost use Rattle.dn_hss.specs.Signed.{LeafSigns, TreeLeaf};

/// A key's public key has 60 bytes, and its signatures have the length of its type codes.
pub fn hss_lengths_go_by_codes()
    ensures public_key { (key : TwoLevelKey) → IsTwoLevelKey key → length (hss_public_key key) ≡ 60 }
    ensures signature { (key : TwoLevelKey) (q : ℕ) (msg : List ℕ) → IsTwoLevelKey key
        → length (hss_signature key q msg) ≡ 60 + 2 * lms_length key.lms key.ots }
{}

/// What a key signs verifies under its public key.
pub fn what_is_signed_verifies()
    ensures { (key : TwoLevelKey) (q : ℕ) (msg : List ℕ) → IsTwoLevelKey key → q < hss_count key
        → HssVerifies (hss_public_key key) msg (hss_signature key q msg) }
{}

/// No leaf of any tree signs two different byte strings, over all signatures of which no two at one leaf of the key are of different
/// messages: the top tree's leaf of a number signs the public key of the second tree of this number alone, and a leaf of a second tree
/// the message of the one leaf of the key that stands for it.
pub fn one_string_a_leaf()
    ensures { (key : TwoLevelKey) → IsTwoLevelKey key → (q p : ℕ) (msg other : List ℕ) → (q ≡ p → msg ≡ other)
        → (leaf : TreeLeaf) (bytes again : List ℕ) → LeafSigns key q msg leaf bytes → LeafSigns key p other leaf again → bytes ≡ again }
{}
