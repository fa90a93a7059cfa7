// The hashes of a tree's nodes (RFC 8554 section 5.3), and the ways between them.

ghost use Rattle.std.specs.Prelude.{◌≡◌, ◌+◌, ◌*◌, ◌/◌, ◌^◌, ◌<◌, ◌≤◌, ◌++◌, ◌↔◌, IsTrue, length};
ghost use Rattle.std.specs.Int.{w16, w32, to_be_bytes};
ghost use Rattle.sha2.specs.Hashers.{Holds256};
ghost use Rattle.dn_lms.specs.Key.{IsLms, height};
ghost use Rattle.dn_lms.specs.Tree.{climb, inner_hash, leaf_hash, rise, sibling};

use sha2::{Digest, Sha256};

/// What tells the hash of a leaf from other hashes: D_LEAF.
const LEAF: u16 = 0x8282;

/// What tells the hash of an inner node: D_INTR.
const INNER: u16 = 0x8383;

/// A hasher that has taken I, the node's number and what tells the kind of node.
fn node_hasher(id: &[u8; 16], r: u32, kind: u16) -> Sha256
    ensures { Holds256 result (id.now ++ to_be_bytes w32 r ++ to_be_bytes w16 kind) }
{
    let mut hasher = Sha256::new();
    hasher.update(id);
    hasher.update(&r.to_be_bytes());
    hasher.update(&kind.to_be_bytes());
    hasher
}

/// The value of a leaf with the number r, from its one-time public key.
pub(crate) fn leaf_hash(id: &[u8; 16], r: u32, key: &[u8; 32]) -> [u8; 32]
    ensures { result ≡ leaf_hash id.now r key.now }
{
    let mut hasher = node_hasher(id, r, LEAF);
    hasher.update(key);
    hasher.finalize()
}

/// The value of the node r, from those of the nodes below it.
pub(crate) fn inner_hash(id: &[u8; 16], r: u32, left: &[u8], right: &[u8]) -> [u8; 32]
    ensures { result ≡ inner_hash id.now r left.now right.now }
{
    let mut hasher = node_hasher(id, r, INNER);
    hasher.update(left);
    hasher.update(right);
    hasher.finalize()
}

/// The other node below the same one.
pub(crate) fn sibling(r: u32) -> u32
    requires { r < 2 ^ 31 }
    ensures { result ≡ sibling r }
{
    if r % 2 == 0 { r + 1 } else { r - 1 }
}

/// The value above the node r, from its value and the one beside it.
fn rise(id: &[u8; 16], r: u32, value: &[u8; 32], beside: &[u8]) -> [u8; 32]
    ensures { result ≡ rise id.now r value.now beside.now }
{
    if r % 2 == 0 {
        inner_hash(id, r / 2, value, beside)
    } else {
        inner_hash(id, r / 2, beside, value)
    }
}

/// The value that a path leads to from the node r.
pub(crate) fn climb(id: &[u8; 16], r: u32, value: [u8; 32], path: &[u8]) -> [u8; 32]
    ensures { result ≡ climb id.now path.now r value (length path.now / 32) }
{
    let mut r = r;
    let mut value = value;
    'levels: for i in 0..path.len() / 32 {
        value = rise(id, r, &value, &path[32 * i..32 * i + 32]);
        r /= 2;
    }
    value
}

/// Whether a type code of LMS is one of the three.
pub(crate) fn is_known(lms: u32) -> bool
    ensures { IsTrue result ↔ IsLms lms }
{
    (5..=7).contains(&lms)
}

/// The height of the trees of a type code.
pub(crate) fn height_of(lms: u32) -> u32
    requires { IsLms lms }
    ensures { result ≡ height lms }
{
    5 * (lms - 4)
}
