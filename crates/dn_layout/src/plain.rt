// A block without its mask seed and its mask: 8 bytes of check, and the rest that the check is over, which is the next length and the
// text's length in two bytes each, the text, and zeros.
ghost use Rattle.std.specs.Prelude.{◌≡◌, ◌+◌, ◌-◌, ◌≤◌, ◌↔◌, ◌++◌, length, IfOk, IfSome, IsSome, IsTrue, All};
ghost use Rattle.dn_hash.specs.Digests.{block_check_of};
ghost use Rattle.dn_layout.specs.Block.{is_length as is_length_of, is_zeros as zeros_alone, rest_of, is_message as is_message_of, next_len_of, text_len_of};

use dn_hash::block_check;
use dn_memory::NoMemory;
use dn_wire::{MAX_SLOT_BYTES, MIN_SLOT_BYTES};
use std::alloc::Global;

/// Whether a slot may have so many bytes; 0 for a closed one.
pub fn is_length(n: u16) -> bool
    ensures { result ≡ is_length_of n }
{
    n == 0 || MIN_SLOT_BYTES <= u32::from(n) && u32::from(n) <= MAX_SLOT_BYTES
}

/// Whether all bytes are zero.
pub fn is_zeros(bytes: &[u8]) -> bool
    ensures { result ≡ zeros_alone bytes.now }
{
    bytes.iter().all(|b| *b == 0)
}

/// What follows the check of a block of `size` bytes.
#[tactic(auto, using(std::proofs::lemmas::Grind::common_steps), unfolding(crate::specs::Block::rest_of))]
pub fn rest(alloc: Global, text: &[u8], next_len: u16, size: u16) -> Result<Vec<u8>, NoMemory>
    requires room { 28 + length text.now ≤ size }
    requires size { size ≤ MAX_SLOT_BYTES }
    ensures { IfOk result (λ v. v.items ≡ rest_of next_len text.now size) }
{
    let mut rest = Vec::with_capacity(alloc, size as usize)?;
    rest.extend_from_slice(&next_len.to_be_bytes())?;
    rest.extend_from_slice(&(text.len() as u16).to_be_bytes())?;
    rest.extend_from_slice(text)?;
    rest.resize(size as usize - 24, 0)?;
    Ok(rest)
}

/// The next length that a plain block tells.
pub fn next_len(plain: &[u8]) -> u16
    requires { 12 ≤ length plain.now }
    ensures { result ≡ next_len_of plain.now }
{
    u16::from_be_bytes([plain[8], plain[9]])
}

/// The length of the text that a plain block tells.
pub fn text_len(plain: &[u8]) -> u16
    requires { 12 ≤ length plain.now }
    ensures { result ≡ text_len_of plain.now }
{
    u16::from_be_bytes([plain[10], plain[11]])
}

/// Whether a plain block is that of a message.
#[tactic(auto, unfolding(crate::specs::Block::is_message))]
pub fn is_message(plain: &[u8]) -> bool
    requires { 12 ≤ length plain.now }
    ensures message { result ≡ is_message_of plain.now }
    ensures room { IsTrue result → 12 + text_len_of plain.now ≤ length plain.now }
{
    let end = 12 + text_len(plain) as usize;
    &plain[..8] == block_check(&plain[8..]).as_slice()
        && end <= plain.len()
        && is_length(next_len(plain))
        && is_zeros(&plain[end..])
}
