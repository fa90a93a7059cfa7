// The hashes of a leaf: of its key, of a message and of its randomizer.

ghost use Rattle.std.specs.Prelude.{◌≡◌, ℕ, List, drop, ◌++◌};
ghost use Rattle.std.specs.Int.{w16, w32, to_be_bytes};
ghost use Rattle.sha2.specs.Hashers.{Holds256};
ghost use Rattle.dn_ots.specs.Chain.{leaf_head};
ghost use Rattle.dn_ots.specs.Ots.{message_hash, randomizer};

use crate::block::Block;
use sha2::{Digest, Sha256};

/// What tells the hash of a key from other hashes: D_PBLC.
pub(crate) const KEY: u16 = 0x8080;

/// What tells the hash of a message: D_MESG.
const MESSAGE: u16 = 0x8181;

/// What tells the hash that gives a randomizer.
const RANDOMIZER: u16 = 0xfffd;

/// A hasher that has taken I, q and what tells the kind of hash.
pub(crate) fn leaf_hasher(id: &[u8; 16], q: u32, kind: u16) -> Sha256
    ensures { Holds256 result (leaf_head id.now q ++ to_be_bytes w16 kind) }
{
    let mut hasher = Sha256::new();
    hasher.update(id);
    hasher.update(&q.to_be_bytes());
    hasher.update(&kind.to_be_bytes());
    hasher
}

/// The randomizer C of leaf q.
pub(crate) fn randomizer(id: &[u8; 16], q: u32, seed: &[u8; 32]) -> [u8; 32]
    ensures { result ≡ randomizer id.now q seed.now }
{
    let mut hasher = leaf_hasher(id, q, RANDOMIZER);
    hasher.update(&[0xff]);
    hasher.update(seed);
    hasher.finalize()
}

/// The hash Q of a message under the randomizer c.
pub(crate) fn message_hash(id: &[u8; 16], q: u32, c: &[u8], msg: &[u8]) -> [u8; 32]
    ensures { result ≡ message_hash id.now q c.now msg.now }
{
    let mut hasher = leaf_hasher(id, q, MESSAGE);
    hasher.update(c);
    hasher.update(msg);
    hasher.finalize()
}

/// Gives a hasher the value of a chain.
pub(crate) fn take_value(hasher: &mut Sha256, block: &Block)
    ensures { (m : List ℕ) → Holds256 hasher.old m → Holds256 hasher.new (m ++ drop 23 block.now) }
{
    hasher.update(&block[23..]);
}
