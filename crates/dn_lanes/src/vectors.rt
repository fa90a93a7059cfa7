// Operations on the words of four messages side by side.

ghost use Rattle.std.specs.Prelude.{◌≡◌, ℕ, ◌/◌, ◌^◌, ◌<◌, slice_index, bit_and, bit_xor};
ghost use Rattle.std.specs.Int.{w32, bit_not, rotate_right};
ghost use Rattle.sha2.specs.Sha256.{add32};

use std::simd::u32x4;

/// The sum in each lane, without its carry.
#[inline(always)]
pub(crate) fn add(a: u32x4, b: u32x4) -> u32x4
    ensures { (j : ℕ) → j < 4 → slice_index result j ≡ add32 (slice_index a j) (slice_index b j) }
{
    a + b
}

/// The exclusive or in each lane.
#[inline(always)]
pub(crate) fn xor(a: u32x4, b: u32x4) -> u32x4
    ensures { (j : ℕ) → j < 4 → slice_index result j ≡ bit_xor (slice_index a j) (slice_index b j) }
{
    a ^ b
}

/// The and in each lane.
#[inline(always)]
pub(crate) fn and(a: u32x4, b: u32x4) -> u32x4
    ensures { (j : ℕ) → j < 4 → slice_index result j ≡ bit_and (slice_index a j) (slice_index b j) }
{
    a & b
}

/// The complement in each lane.
#[inline(always)]
pub(crate) fn not(a: u32x4) -> u32x4
    ensures { (j : ℕ) → j < 4 → slice_index result j ≡ bit_not w32 (slice_index a j) }
{
    !a
}

/// One word in all lanes.
#[inline(always)]
pub(crate) fn splat(x: u32) -> u32x4
    ensures { (j : ℕ) → j < 4 → slice_index result j ≡ x }
{
    u32x4::splat(x)
}

/// Each lane rotated to the right.
#[inline(always)]
pub(crate) fn rotr(a: u32x4, k: u32) -> u32x4
    requires { (0 < k) × (k < 32) }
    ensures { (j : ℕ) → j < 4 → slice_index result j ≡ rotate_right w32 (slice_index a j) k }
{
    (a >> u32x4::splat(k)) | (a << u32x4::splat(32 - k))
}

/// Each lane shifted to the right.
#[inline(always)]
pub(crate) fn shr(a: u32x4, k: u32) -> u32x4
    requires { k < 32 }
    ensures { (j : ℕ) → j < 4 → slice_index result j ≡ slice_index a j / 2 ^ k }
{
    a >> u32x4::splat(k)
}
