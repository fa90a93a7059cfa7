// What the bytes of a slot are read as.
ghost use Rattle.std.specs.Prelude.{◌≡◌, ◌+◌, ◌≤◌, length, vec_len, IfOk};
ghost use Rattle.dn_layout.specs.Block.{read_of, plain_of};
ghost use Rattle.dn_layout.specs.Fault.{message_of};

use crate::mask::mask;
use crate::plain::{is_message, next_len, text_len};
use dn_hash::mask_key;
use dn_memory::NoMemory;
use dn_wire::{MAX_SLOT_BYTES, MIN_SLOT_BYTES};
use std::alloc::Global;

/// What the bytes of an open slot are read as.
#[derive(Debug, Drop)]
pub enum Block {
    /// A text, and the length in bytes that the slot wants in the next round, 0 to be closed.
    Message { next_len: u16, text: Vec<u8> },
    /// Anything else.
    Garbled,
}

/// What the bytes of a slot are read as. They are garbled too where they are fewer than 64 or more than 1024.
#[tactic(auto, unfolding(crate::specs::Block::read_of))]
pub fn read_block(alloc: Global, bytes: &[u8]) -> Result<Block, NoMemory>
    ensures { IfOk result (λ b. message_of b ≡ read_of bytes.now) }
{
    if bytes.len() < MIN_SLOT_BYTES as usize || bytes.len() > MAX_SLOT_BYTES as usize {
        return Ok(Block::Garbled);
    }
    let plain = unmasked(alloc, bytes)?;
    if !is_message(&plain) {
        return Ok(Block::Garbled);
    }
    Ok(Block::Message {
        next_len: next_len(&plain),
        text: plain[12..12 + text_len(&plain) as usize].to_vec(alloc)?,
    })
}

/// A block's bytes without its mask seed and its mask.
#[tactic(auto, unfolding(crate::specs::Block::plain_of))]
pub fn unmasked(alloc: Global, bytes: &[u8]) -> Result<Vec<u8>, NoMemory>
    requires { 16 ≤ length bytes.now }
    ensures plain { IfOk result (λ v. v.items ≡ plain_of bytes.now) }
    ensures len { IfOk result (λ v. 16 + vec_len v ≡ length bytes.now) }
{
    let mut mask_seed = [0; 16];
    mask_seed.copy_from_slice(&bytes[..16]);
    let mut plain = bytes[16..].to_vec(alloc)?;
    mask(&mask_key(&mask_seed), &mut plain);
    Ok(plain)
}
