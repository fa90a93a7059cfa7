// The blocks of four leaves side by side, each taken through the same steps.

ghost use Rattle.std.specs.Prelude.{◌≡◌, ℕ, [], ◌-◌, ◌<◌, ◌≤◌, ◌++◌, length, take, drop, slice_index_or, slice_set};
ghost use Rattle.std.specs.Int.{w16, to_be_bytes};
ghost use Rattle.dn_ots.specs.Chain.{chain, chain_step};

use crate::block::{Block, open_chain, put};
use dn_lanes::digest4;

/// The block with another number of the step.
#[inline(always)]
fn with_step(block: &Block, j: u8) -> Block
    ensures block { result ≡ slice_set block.now 22 j }
    ensures long { length block.now ≡ 55 }
{
    let mut next = *block;
    next[22] = j;
    next
}

/// The block with another value.
#[inline(always)]
fn with_value(block: &Block, value: &[u8; 32]) -> Block
    ensures head { take 22 result ≡ take 22 block.now }
    ensures value { drop 23 result ≡ value.now }
{
    let mut next = *block;
    put(&mut next, 23, value);
    next
}

/// The block of chain i, with the value x.
#[inline(always)]
fn with_chain(block: &Block, i: u16, x: &[u8; 32]) -> Block
    ensures head { take 22 result ≡ take 20 block.now ++ to_be_bytes w16 i }
    ensures value { drop 23 result ≡ x.now }
{
    let mut next = *block;
    open_chain(&mut next, i, x);
    next
}

/// Takes the values through step j.
fn step_four(blocks: &[Block; 4], j: u8) -> [Block; 4]
    ensures head { (k : ℕ) → k < 4 → take 22 (slice_index_or result k []) ≡ take 22 (slice_index_or blocks.now k []) }
    ensures value { (k : ℕ) → k < 4 → drop 23 (slice_index_or result k [])
        ≡ chain_step (take 22 (slice_index_or blocks.now k [])) j (drop 23 (slice_index_or blocks.now k [])) }
{
    let next = [
        with_step(&blocks[0], j),
        with_step(&blocks[1], j),
        with_step(&blocks[2], j),
        with_step(&blocks[3], j),
    ];
    let values = digest4(&next);
    [
        with_value(&next[0], &values[0]),
        with_value(&next[1], &values[1]),
        with_value(&next[2], &values[2]),
        with_value(&next[3], &values[3]),
    ]
}

/// Turns to chain i, with the start of each.
pub(crate) fn start_four(blocks: &[Block; 4], i: u16, seed: &[u8; 32]) -> [Block; 4]
    ensures head { (k : ℕ) → k < 4 → take 22 (slice_index_or result k [])
        ≡ take 20 (slice_index_or blocks.now k []) ++ to_be_bytes w16 i }
    ensures value { (k : ℕ) → k < 4 → drop 23 (slice_index_or result k [])
        ≡ chain_step (take 22 (slice_index_or result k [])) 0xff seed.now }
{
    let opened = [
        with_chain(&blocks[0], i, seed),
        with_chain(&blocks[1], i, seed),
        with_chain(&blocks[2], i, seed),
        with_chain(&blocks[3], i, seed),
    ];
    step_four(&opened, 0xff)
}

/// Takes the values from step `from` to step `to`.
pub(crate) fn run_four(blocks: [Block; 4], from: u8, to: u8) -> [Block; 4]
    requires { from ≤ to }
    ensures head { (k : ℕ) → k < 4 → take 22 (slice_index_or result k []) ≡ take 22 (slice_index_or blocks k []) }
    ensures value { (k : ℕ) → k < 4 → drop 23 (slice_index_or result k [])
        ≡ chain (take 22 (slice_index_or blocks k [])) from (to - from) (drop 23 (slice_index_or blocks k [])) }
{
    let mut blocks = blocks;
    'steps: for j in from..to {
        blocks = step_four(&blocks, j);
    }
    blocks
}
