// The functions of a round on the words of four messages side by side.

ghost use Rattle.std.specs.Prelude.{◌≡◌, ℕ, ◌<◌, slice_index};
ghost use Rattle.sha2.specs.Sha256.{big_sigma0, big_sigma1, ch, maj, small_sigma0, small_sigma1};

use crate::vectors::{and, not, rotr, shr, xor};
use std::simd::u32x4;

/// The upper case sigma 0 of FIPS 180-4 section 4.1.2.
#[inline(always)]
pub(crate) fn sigma_zero(a: u32x4) -> u32x4
    ensures { (j : ℕ) → j < 4 → slice_index result j ≡ big_sigma0 (slice_index a j) }
{
    xor(xor(rotr(a, 2), rotr(a, 13)), rotr(a, 22))
}

/// The upper case sigma 1 of FIPS 180-4 section 4.1.2.
#[inline(always)]
pub(crate) fn sigma_one(a: u32x4) -> u32x4
    ensures { (j : ℕ) → j < 4 → slice_index result j ≡ big_sigma1 (slice_index a j) }
{
    xor(xor(rotr(a, 6), rotr(a, 11)), rotr(a, 25))
}

/// Maj of FIPS 180-4 section 4.1.2.
#[inline(always)]
pub(crate) fn majority(x: u32x4, y: u32x4, z: u32x4) -> u32x4
    ensures { (j : ℕ) → j < 4 → slice_index result j ≡ maj (slice_index x j) (slice_index y j) (slice_index z j) }
{
    xor(xor(and(x, y), and(x, z)), and(y, z))
}

/// Ch of FIPS 180-4 section 4.1.2.
#[inline(always)]
pub(crate) fn choose(x: u32x4, y: u32x4, z: u32x4) -> u32x4
    ensures { (j : ℕ) → j < 4 → slice_index result j ≡ ch (slice_index x j) (slice_index y j) (slice_index z j) }
{
    xor(and(x, y), and(not(x), z))
}

/// The lower case sigma 0 of FIPS 180-4 section 4.1.2.
#[inline(always)]
pub(crate) fn small_zero(a: u32x4) -> u32x4
    ensures { (j : ℕ) → j < 4 → slice_index result j ≡ small_sigma0 (slice_index a j) }
{
    xor(xor(rotr(a, 7), rotr(a, 18)), shr(a, 3))
}

/// The lower case sigma 1 of FIPS 180-4 section 4.1.2.
#[inline(always)]
pub(crate) fn small_one(a: u32x4) -> u32x4
    ensures { (j : ℕ) → j < 4 → slice_index result j ≡ small_sigma1 (slice_index a j) }
{
    xor(xor(rotr(a, 17), rotr(a, 19)), shr(a, 10))
}
