// The one block that the steps of a chain hash: I, q, the chain's number, the step's number, and the
// value so far. It is written in place from step to step.

ghost use Rattle.std.specs.Prelude.{◌≡◌, ◌+◌, ◌-◌, ◌^◌, ◌<◌, ◌≤◌, ◌++◌, length, take, drop};
ghost use Rattle.std.specs.Int.{w16, to_be_bytes};
ghost use Rattle.dn_ots.specs.Chain.{leaf_head, chain_step, chain};

use sha2::{Digest, Sha256};

pub(crate) type Block = [u8; 55];

/// Writes a part in place.
pub(crate) fn put(block: &mut Block, at: usize, part: &[u8])
    requires { at + length part.now ≤ 55 }
    ensures { block.new ≡ take at block.old ++ part.now ++ drop (at + length part.now) block.old }
{
    block[at..at + part.len()].copy_from_slice(part);
}

/// The block of leaf q.
pub(crate) fn leaf_block(id: &[u8; 16], q: u32) -> Block
    ensures { take 20 result ≡ leaf_head id.now q }
{
    let mut block = [0; 55];
    put(&mut block, 0, id);
    put(&mut block, 16, &q.to_be_bytes());
    block
}

/// Turns to chain i, with the value x.
pub(crate) fn open_chain(block: &mut Block, i: u16, x: &[u8])
    requires { length x.now ≡ 32 }
    ensures head { take 22 block.new ≡ take 20 block.old ++ to_be_bytes w16 i }
    ensures value { drop 23 block.new ≡ x.now }
{
    put(block, 20, &i.to_be_bytes());
    put(block, 23, x);
}

/// Takes the value through step j.
pub(crate) fn step(block: &mut Block, j: u8)
    ensures head { take 22 block.new ≡ take 22 block.old }
    ensures value { drop 23 block.new ≡ chain_step (take 22 block.old) j (drop 23 block.old) }
{
    block[22] = j;
    let value = Sha256::digest(&*block);
    put(block, 23, &value);
}

/// Turns to chain i, with its start (RFC 8554 Appendix A).
pub(crate) fn start_chain(block: &mut Block, i: u16, seed: &[u8; 32])
    ensures head { take 22 block.new ≡ take 20 block.old ++ to_be_bytes w16 i }
    ensures value { drop 23 block.new ≡ chain_step (take 22 block.new) 0xff seed.now }
{
    open_chain(block, i, seed);
    step(block, 0xff);
}

/// Takes the value from step `from` to step `to`.
pub(crate) fn run(block: &mut Block, from: u8, to: u8)
    requires { from ≤ to }
    ensures head { take 22 block.new ≡ take 22 block.old }
    ensures value { drop 23 block.new ≡ chain (take 22 block.old) from (to - from) (drop 23 block.old) }
{
    'steps: for j in from..to {
        step(block, j);
    }
}
