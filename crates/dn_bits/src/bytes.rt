ghost use Rattle.std.specs.Prelude.{◌≡◌, ℕ, ◌+◌, ◌*◌, ◌/◌, ◌%◌, ◌^◌, ◌<◌, ◌≤◌, nat_lt, false, map, length, slice_index, if◌then◌else◌, IfOk};
ghost use Rattle.dn_bits.specs.Bits.{below, bit_of_bytes};
ghost use Rattle.dn_bits.specs.Words.{bit_of_words, byte_of_words, word_bit};
ghost use Rattle.dn_bits.specs.FirstBits.{AreFirstBits};

use crate::words::front_of;
use dn_memory::NoMemory;
use std::alloc::Global;

/// A byte, or zero past the end.
fn byte_or_zero(bytes: &[u8], i: usize) -> u8
    ensures { result ≡ slice_index bytes.now i }
{
    if i < bytes.len() { bytes[i] } else { 0 }
}

/// The eight bytes from a place on as a word, with zeros past the end.
fn word_at(bytes: &[u8], at: usize) -> u64
    requires { at + 8 < 2 ^ 64 }
    ensures { (k : ℕ) → word_bit result k ≡ bit_of_bytes bytes.now (8 * at + k % 64) }
{
    if at + 8 <= bytes.len() {
        u64::from_be_bytes([
            bytes[at],
            bytes[at + 1],
            bytes[at + 2],
            bytes[at + 3],
            bytes[at + 4],
            bytes[at + 5],
            bytes[at + 6],
            bytes[at + 7],
        ])
    } else {
        u64::from_be_bytes([
            byte_or_zero(bytes, at),
            byte_or_zero(bytes, at + 1),
            byte_or_zero(bytes, at + 2),
            byte_or_zero(bytes, at + 3),
            byte_or_zero(bytes, at + 4),
            byte_or_zero(bytes, at + 5),
            byte_or_zero(bytes, at + 6),
            byte_or_zero(bytes, at + 7),
        ])
    }
}

/// The first n bits of the bytes in words, with zeros after them.
pub(crate) fn words_of(alloc: Global, bytes: &[u8], n: u32) -> Result<Vec<u64>, NoMemory>
    ensures { IfOk result (λ words. AreFirstBits words.items bytes.now n) }
{
    let count = n.div_ceil(64);
    let mut words = Vec::with_capacity(alloc, count as usize)?;
    for i in 0..count {
        let word = word_at(bytes, 8 * i as usize);
        words.push(front_of(word, n - 64 * i))?;
    }
    Ok(words)
}

/// The first count bytes of the words.
pub(crate) fn bytes_of_words(
    alloc: Global,
    words: &[u64],
    count: usize,
) -> Result<Vec<u8>, NoMemory>
    requires { (count ≤ 8 * length words.now) × (8 * length words.now < 2 ^ 64) }
    ensures { IfOk result (λ v. v.items ≡ map (byte_of_words words.now) (below count)) }
{
    let mut bytes = Vec::with_capacity(alloc, 8 * words.len())?;
    for word in words {
        bytes.extend_from_slice(&word.to_be_bytes())?;
    }
    bytes.truncate(count);
    Ok(bytes)
}
