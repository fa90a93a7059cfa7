// Layouts.
ghost use Rattle.std.specs.Prelude.{◌≡◌, ◌+◌, ◌*◌, ◌<◌, ◌≤◌, length, replicate, sum, slice_index, IfOk, IfSome, IsSome, ◌↔◌};
ghost use Rattle.dn_bits.specs.Bits.{bytes_of};
ghost use Rattle.dn_layout.specs.Layout.{bits_of, range_of, next_of, want_of, given_of, IsLayout};

use crate::plain::{is_length, is_message, is_zeros, next_len};
use crate::reading::unmasked;
use dn_bits::Bits;
use dn_memory::NoMemory;
use dn_wire::{MAX_BITS, MAX_CLIENTS, MAX_SLOT_BYTES, MIN_SLOT_BYTES, SlotId};
use std::alloc::Global;
use std::marker::Model;

/// The lengths in bytes of a round's slots, 0 for a closed one. The round has at most 65,536 bits.
#[derive(Drop)]
pub struct Layout {
    lengths: Vec<u16>,
    bits: u32,
}

impl Model for Layout {
    ghost use Rattle.std.specs.Prelude.{◌≡◌, List, ℕ};
    ghost use Rattle.dn_layout.specs.Layout.{bits_of, IsLayout};

    ghost Value = { List ℕ };

    ghost view = { λ l. l.lengths.items };

    ghost invariant = { λ l. IsLayout l.lengths.items × (l.bits ≡ bits_of l.lengths.items) };
}

/// The sum of some lengths.
fn sum_of(lengths: &[u16]) -> u32
    requires { length lengths.now ≤ MAX_CLIENTS }
    ensures sum { result ≡ sum lengths.now }
    ensures bound { result ≤ 65535 * length lengths.now }
{
    let mut total = 0;
    for len in lengths {
        total += u32::from(*len);
    }
    total
}

/// The layout of some lengths.
fn of_lengths(lengths: Vec<u16>) -> Layout
    requires { IsLayout lengths.items }
    ensures { result ≡ lengths.items }
{
    let bits = 8 * ((lengths.len() as u32).div_ceil(8) + sum_of(&lengths));
    Layout { lengths, bits }
}

/// What a slot wants that has so many bytes, from its request bit and its block.
#[tactic(auto, unfolding(crate::specs::Layout::want_of, crate::specs::Block::read_of))]
fn want(alloc: Global, len: u16, is_requested: bool, block: &[u8]) -> Result<u16, NoMemory>
    ensures { IfOk result (λ w. w ≡ want_of len is_requested block.now) }
{
    if len == 0 {
        return Ok(if is_requested {
            MIN_SLOT_BYTES as u16
        } else {
            0
        });
    }
    if MIN_SLOT_BYTES as usize <= block.len() && block.len() <= MAX_SLOT_BYTES as usize {
        let plain = unmasked(alloc, block)?;
        if is_message(&plain) {
            return Ok(next_len(&plain));
        }
    }
    Ok(if is_zeros(block) { 0 } else { len })
}

/// What a slot gets that wants so many bytes, in a round that has `total` bytes without it.
fn given(total: u32, want: u16) -> u16
    requires { total ≤ MAX_BITS }
    ensures { result ≡ given_of total want }
{
    if 8 * (total + u32::from(want)) <= MAX_BITS {
        want
    } else {
        0
    }
}

/// The lengths after an output, whose bytes are given too.
fn next_lengths(
    alloc: Global,
    lengths: &[u16],
    out: &Bits,
    bytes: &[u8],
) -> Result<Vec<u16>, NoMemory>
    requires layout { IsLayout lengths.now }
    requires len { length out.now ≡ bits_of lengths.now }
    requires bytes { bytes.now ≡ bytes_of out.now }
    ensures { IfOk result (λ v. v.items ≡ next_of lengths.now out.now) }
{
    let mut next = Vec::with_capacity(alloc, lengths.len())?;
    let mut start = lengths.len().div_ceil(8);
    let mut total = start as u32;
    for (s, len) in lengths.iter().enumerate() {
        let end = start + *len as usize;
        let want = want(alloc, *len, out.get(s as u32), &bytes[start..end])?;
        let given = given(total, want);
        next.push(given)?;
        total += u32::from(given);
        start = end;
    }
    Ok(next)
}

impl Layout {
    /// The layout of n slots, all closed.
    pub fn first(alloc: Global, n: u32) -> Result<Layout, NoMemory>
        requires low { 1 ≤ n }
        requires high { n ≤ MAX_CLIENTS }
        ensures { IfOk result (λ l. l ≡ replicate n 0) }
    {
        Ok(of_lengths(vec![in alloc; 0; n as usize]?))
    }

    /// The layout of these lengths, and nothing where they aren't a layout's: 1 to 512 of them, each 0 or 64 to 1024, and at most
    /// 65,536 bits in all.
    pub fn of(lengths: Vec<u16>) -> Option<Layout>
        ensures layout { IsSome result ↔ IsLayout lengths.items }
        ensures value { IfSome result (λ l. l ≡ lengths.items) }
    {
        if lengths.is_empty()
            || lengths.len() > MAX_CLIENTS as usize
            || !lengths.iter().all(|len| is_length(*len))
        {
            return None;
        }
        let bytes = (lengths.len() as u32).div_ceil(8) + sum_of(&lengths);
        if 8 * bytes > MAX_BITS {
            None
        } else {
            Some(of_lengths(lengths))
        }
    }

    /// How many slots there are.
    pub fn slots(&self) -> u32
        ensures { result ≡ length self.now }
    {
        self.lengths.len() as u32
    }

    /// An equal layout.
    pub fn copy(&self, alloc: Global) -> Result<Layout, NoMemory>
        ensures { IfOk result (λ l. l ≡ self.now) }
    {
        Ok(Layout {
            lengths: Vec::from_slice(alloc, &self.lengths)?,
            bits: self.bits,
        })
    }

    /// How many bits the round has: a request bit for each slot, zeros up to a whole byte, and the open slots' blocks.
    pub fn bits(&self) -> u32
        ensures bits { result ≡ bits_of self.now }
        ensures limit { result ≤ MAX_BITS }
        ensures layout { IsLayout self.now }
    {
        self.bits
    }

    /// The length in bytes of slot s, and 0 where it is closed or there is no such slot.
    pub fn size(&self, s: SlotId) -> u16
        ensures size { result ≡ slice_index self.now s.0 }
        ensures layout { IsLayout self.now }
    {
        match self.lengths.get(s.0 as usize) {
            Some(len) => *len,
            None => 0,
        }
    }

    /// The first place of slot s and the place past its last, and nothing where it is closed or there is no such slot.
    pub fn range(&self, s: SlotId) -> Option<(u32, u32)>
        ensures { result ≡ range_of self.now s.0 }
    {
        let slot = s.0 as usize;
        if slot >= self.lengths.len() || self.lengths[slot] == 0 {
            return None;
        }
        let start = (self.lengths.len() as u32).div_ceil(8) + sum_of(&self.lengths[..slot]);
        Some((8 * start, 8 * (start + u32::from(self.lengths[slot]))))
    }

    /// The layout after a round with this output.
    pub fn next(&self, alloc: Global, out: &Bits) -> Result<Layout, NoMemory>
        requires { length out.now ≡ bits_of self.now }
        ensures { IfOk result (λ l. l ≡ next_of self.now out.now) }
    {
        let mut bytes = Vec::new(alloc);
        out.write_bytes(alloc, &mut bytes)?;
        Ok(of_lengths(next_lengths(alloc, &self.lengths, out, &bytes)?))
    }
}
