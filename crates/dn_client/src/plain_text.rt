// The plain text and the ciphertext of a client.
ghost use Rattle.std.specs.Prelude.{◌≡◌, ◌+◌, ◌-◌, ◌*◌, ◌/◌, ◌<◌, ◌≤◌, ◌↔◌, ◌++◌, List, ℕ, length, replicate, All, IfOk, IsTrue, Some, slice_index};
ghost use Rattle.dn_wire.specs.declared.limits.TheConstants.{MAX_TEXT, MIN_SLOT_BYTES, MAX_SLOT_BYTES};
ghost use Rattle.dn_bits.specs.Bits.{zeros, flip_at, first_bits};
ghost use Rattle.dn_layout.specs.Layout.{bits_of, range_of};
ghost use Rattle.dn_layout.specs.Block.{is_length};
ghost use Rattle.dn_client.specs.Plain.{need, need_of_first, fits, said_in, carries, request, in_slot, block_for, plain_text, cipher_of};

use dn_bits::Bits;
use dn_layout::{Layout, block, ranges_part_the_round};
use dn_memory::NoMemory;
use dn_pads::{Seed, add_pad};
use dn_wire::{Bytes, MIN_SLOT_BYTES, Round, SlotId};
use std::alloc::Global;

/// What a block takes beside its text.
const OVERHEAD: usize = 28;

/// The length of the slot that a text needs.
fn need(text: &Bytes) -> u16
    requires { length text.now ≤ MAX_TEXT }
    ensures value { result ≡ need text.now }
    ensures bound { (MIN_SLOT_BYTES ≤ result) × (result ≤ MAX_SLOT_BYTES) }
{
    (OVERHEAD + text.get().len()).max(MIN_SLOT_BYTES as usize) as u16
}

/// What the first text needs, and 0 where there is none.
fn need_of_first(texts: &[Bytes]) -> u16
    requires { All (λ text. length text ≤ MAX_TEXT) texts.now }
    ensures value { result ≡ need_of_first texts.now }
    ensures fits { IsTrue (is_length result) }
{
    match texts {
        [text, ..] => need(text),
        [] => 0,
    }
}

/// Whether a text fits in a block of this size.
fn fits(size: u16, text: &Bytes) -> bool
    ensures { result ≡ fits size text.now }
{
    text.get().len() <= (size as usize).saturating_sub(OVERHEAD) && OVERHEAD <= size as usize
}

/// The text and the next length in the block of an open slot, where these texts wait.
fn said_in(size: u16, waiting: &[Bytes]) -> (&[u8], u16)
    requires { All (λ text. length text ≤ MAX_TEXT) waiting.now }
    ensures value { (result.0.now, result.1) ≡ said_in size waiting.now }
    ensures fits { IsTrue (is_length result.1) }
{
    let [text, rest @ ..] = waiting else {
        return (&[], 0);
    };
    if fits(size, text) {
        (text.get(), need_of_first(rest))
    } else {
        (&[], need(text))
    }
}

/// Whether that block carries the first of the texts.
pub fn carries(size: u16, waiting: &[Bytes]) -> bool
    ensures { result ≡ carries size waiting.now }
{
    match waiting {
        [text, ..] => fits(size, text),
        [] => false,
    }
}

/// A round's bits with the request bit of a closed slot, where a text waits.
fn request(
    alloc: Global,
    layout: &Layout,
    slot: SlotId,
    waiting: &[Bytes],
) -> Result<Bits, NoMemory>
    requires { slot.0 < length layout.now }
    ensures { IfOk result (λ bits. bits ≡ request layout.now slot.0 waiting.now) }
{
    let mut bits = Bits::zeros(alloc, layout.bits())?;
    if !waiting.is_empty() {
        bits.flip(slot.0);
    }
    Ok(bits)
}

/// So many bits, which are all zeros but for these bytes from byte `start` on.
fn placed(alloc: Global, bits: u32, start: u32, bytes: &[u8]) -> Result<Bits, NoMemory>
    requires { 8 * (start + length bytes.now) ≤ bits }
    ensures { IfOk result (λ b. b ≡ first_bits (replicate start 0 ++ bytes.now ++ replicate (bits / 8 - start - length bytes.now) 0) bits) }
{
    let mut all = Vec::with_capacity(alloc, bits as usize / 8)?;
    all.resize(start as usize, 0)?;
    all.extend_from_slice(bytes)?;
    all.resize(bits as usize / 8, 0)?;
    match Bits::from_bytes(alloc, &all, bits) {
        Ok(placed) => Ok(placed),
        Err(_) => Err(NoMemory),
    }
}

/// A round's bits with the block in which these texts wait, in an open slot that has this range.
fn with_block(
    alloc: Global,
    layout: &Layout,
    slot: SlotId,
    range: (u32, u32),
    waiting: &[Bytes],
    mask_seed: &[u8; 16],
) -> Result<Bits, NoMemory>
    requires range { range_of layout.now slot.0 ≡ Some range }
    requires texts { All (λ text. length text ≤ MAX_TEXT) waiting.now }
    ensures { IfOk result (λ bits. bits ≡ in_slot layout.now slot.0 (block_for (slice_index layout.now slot.0) waiting.now mask_seed.now)) }
{
    ranges_part_the_round();
    let size = layout.size(slot);
    let (text, next_len) = said_in(size, waiting);
    match block(alloc, text, next_len, mask_seed, size) {
        Ok(bytes) => placed(alloc, layout.bits(), range.0 / 8, &bytes),
        Err(_) => Err(NoMemory),
    }
}

/// The plain text of the owner of a slot, where these texts wait.
pub fn plain_text(
    alloc: Global,
    layout: &Layout,
    slot: SlotId,
    waiting: &[Bytes],
    mask_seed: &[u8; 16],
) -> Result<Bits, NoMemory>
    requires slot { slot.0 < length layout.now }
    requires texts { All (λ text. length text ≤ MAX_TEXT) waiting.now }
    ensures { IfOk result (λ bits. bits ≡ plain_text layout.now slot.0 waiting.now mask_seed.now) }
{
    match layout.range(slot) {
        Some(range) => with_block(alloc, layout, slot, range, waiting, mask_seed),
        None => request(alloc, layout, slot, waiting),
    }
}

/// The plain text and the pads of the round.
pub fn cipher_of(alloc: Global, plain: &Bits, seeds: &[Seed], r: Round) -> Result<Bits, NoMemory>
    ensures { IfOk result (λ cipher. cipher ≡ cipher_of seeds.now r.0 plain.now) }
{
    let mut cipher = plain.copy(alloc)?;
    for seed in seeds {
        add_pad(&mut cipher, seed, r);
    }
    Ok(cipher)
}
