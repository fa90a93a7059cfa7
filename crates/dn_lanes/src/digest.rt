ghost use Rattle.std.specs.Prelude.{◌≡◌, ℕ, List, [], ◌+◌, ◌*◌, ◌<◌, ◌≤◌, length, slice_index, slice_index_or};
ghost use Rattle.sha2.specs.Sha256.{digest_bytes, initial_hash_256, padded_message, sha256, word_at};
ghost use Rattle.rand_chacha.specs.Lanes.{lane};
ghost use Rattle.dn_lanes.specs.Lanes.{lane8};

use crate::compression::compress4;
use crate::vectors::splat;
use std::simd::u32x4;

/// What follows a message of 55 bytes in its block: a bit 1, zeros, and its length in bits
/// (FIPS 180-4 section 5.1.1).
const PADDING: [u8; 9] = [0x80, 0, 0, 0, 0, 0, 0, 0x01, 0xb8];

/// The block of a message.
#[inline(always)]
fn block_of(message: &[u8; 55]) -> [u8; 64]
    ensures block { result ≡ padded_message message.now }
    ensures long { length message.now ≡ 55 }
{
    let mut block = [0; 64];
    block[..55].copy_from_slice(message);
    block[55..].copy_from_slice(&PADDING);
    block
}

/// The word at a place of a block.
#[inline(always)]
fn load(block: &[u8; 64], at: usize) -> u32
    requires { at + 4 ≤ 64 }
    ensures { result ≡ word_at block.now at }
{
    u32::from_be_bytes([block[at], block[at + 1], block[at + 2], block[at + 3]])
}

/// Word t of four blocks.
#[inline(always)]
fn word4(blocks: &[[u8; 64]; 4], t: usize) -> u32x4
    requires { t < 16 }
    ensures { (j : ℕ) → j < 4 → slice_index result j ≡ word_at (slice_index_or blocks.now j []) (4 * t) }
{
    u32x4::from_array([
        load(&blocks[0], 4 * t),
        load(&blocks[1], 4 * t),
        load(&blocks[2], 4 * t),
        load(&blocks[3], 4 * t),
    ])
}

/// The words of four blocks.
#[inline(always)]
fn words4(blocks: &[[u8; 64]; 4]) -> [u32x4; 16]
    ensures { (j : ℕ) → j < 4 → (k : ℕ) → k < 16 → slice_index (lane j result) k ≡ word_at (slice_index_or blocks.now j []) (4 * k) }
{
    [
        word4(blocks, 0),
        word4(blocks, 1),
        word4(blocks, 2),
        word4(blocks, 3),
        word4(blocks, 4),
        word4(blocks, 5),
        word4(blocks, 6),
        word4(blocks, 7),
        word4(blocks, 8),
        word4(blocks, 9),
        word4(blocks, 10),
        word4(blocks, 11),
        word4(blocks, 12),
        word4(blocks, 13),
        word4(blocks, 14),
        word4(blocks, 15),
    ]
}

/// The initial hash value in each lane (FIPS 180-4 section 5.3.3).
#[inline(always)]
fn initial4() -> [u32x4; 8]
    ensures { (j : ℕ) → j < 4 → lane8 j result ≡ initial_hash_256 }
{
    [
        splat(0x6a09_e667),
        splat(0xbb67_ae85),
        splat(0x3c6e_f372),
        splat(0xa54f_f53a),
        splat(0x510e_527f),
        splat(0x9b05_688c),
        splat(0x1f83_d9ab),
        splat(0x5be0_cd19),
    ]
}

/// Lane j of a word.
#[inline(always)]
fn lane_of(word: u32x4, j: usize) -> u32
    requires { j < 4 }
    ensures { result ≡ slice_index word j }
{
    word[j]
}

/// The bytes of lane j.
#[inline(always)]
fn bytes_of(state: &[u32x4; 8], j: usize) -> [u8; 32]
    requires { j < 4 }
    ensures { result ≡ digest_bytes (lane8 j state.now) 8 }
{
    let mut digest = [0; 32];
    'words: for k in 0..8 {
        digest[4 * k..4 * k + 4].copy_from_slice(&lane_of(state[k], j).to_be_bytes());
    }
    digest
}

/// The digests of four messages of 55 bytes.
pub fn digest4(messages: &[[u8; 55]; 4]) -> [[u8; 32]; 4]
    ensures { (j : ℕ) → j < 4 → slice_index_or result j [] ≡ sha256 (slice_index_or messages.now j []) }
{
    let blocks = [
        block_of(&messages[0]),
        block_of(&messages[1]),
        block_of(&messages[2]),
        block_of(&messages[3]),
    ];
    let state = compress4(initial4(), &words4(&blocks));
    [
        bytes_of(&state, 0),
        bytes_of(&state, 1),
        bytes_of(&state, 2),
        bytes_of(&state, 3),
    ]
}
