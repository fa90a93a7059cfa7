ghost use Rattle.std.specs.Prelude.{◌≡◌, ℕ, [], ◌+◌, ◌^◌, ◌<◌, IsOkAnd, slice_index_or};
ghost use Rattle.dn_ots.specs.Ots.{ots_public};

use crate::Params;
use crate::block::{leaf_block, run, start_chain};
use crate::four::{run_four, start_four};
use crate::hashers::{KEY, leaf_hasher, take_value};
use dn_memory::NoMemory;
use sha2::Digest;
use std::alloc::Global;

/// The public key K of leaf q (RFC 8554 section 4.3). It takes no memory and always answers.
pub fn ots_public(
    _alloc: Global,
    params: Params,
    id: &[u8; 16],
    q: u32,
    seed: &[u8; 32],
) -> Result<[u8; 32], NoMemory>
    ensures { IsOkAnd result (λ key. key ≡ ots_public params.code id.now q seed.now) }
{
    let mut block = leaf_block(id, q);
    let mut hasher = leaf_hasher(id, q, KEY);
    'chains: for i in 0..params.p {
        start_chain(&mut block, i as u16, seed);
        run(&mut block, 0, params.last_step());
        take_value(&mut hasher, &block);
    }
    Ok(hasher.finalize())
}

/// The public keys K of the four leaves from leaf q on, made side by side.
pub fn ots_public_four(params: Params, id: &[u8; 16], q: u32, seed: &[u8; 32]) -> [[u8; 32]; 4]
    requires { q + 3 < 2 ^ 32 }
    ensures { (k : ℕ) → k < 4 → slice_index_or result k [] ≡ ots_public params.code id.now (q + k) seed.now }
{
    let mut blocks = [
        leaf_block(id, q),
        leaf_block(id, q + 1),
        leaf_block(id, q + 2),
        leaf_block(id, q + 3),
    ];
    let mut first = leaf_hasher(id, q, KEY);
    let mut second = leaf_hasher(id, q + 1, KEY);
    let mut third = leaf_hasher(id, q + 2, KEY);
    let mut fourth = leaf_hasher(id, q + 3, KEY);
    'chains: for i in 0..params.p {
        let started = start_four(&blocks, i as u16, seed);
        blocks = run_four(started, 0, params.last_step());
        take_value(&mut first, &blocks[0]);
        take_value(&mut second, &blocks[1]);
        take_value(&mut third, &blocks[2]);
        take_value(&mut fourth, &blocks[3]);
    }
    [
        first.finalize(),
        second.finalize(),
        third.finalize(),
        fourth.finalize(),
    ]
}
