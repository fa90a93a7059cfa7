// Blocks of a text.
ghost use Rattle.std.specs.Prelude.{◌≡◌, ◌+◌, ◌-◌, ◌<◌, ◌≤◌, ◌↔◌, length, IfOk, IfErr, IsTrue};
ghost use Rattle.dn_wire.specs.declared.limits.TheConstants.{MIN_SLOT_BYTES, MAX_SLOT_BYTES};
ghost use Rattle.dn_layout.specs.Block.{is_length, block_of};
ghost use Rattle.dn_layout.specs.Fault.{IsTooLong, TooLongNumbers};

use crate::mask::mask;
use crate::plain::rest;
use dn_hash::{block_check, mask_key};
use dn_memory::NoMemory;
use std::alloc::Global;

/// Why `block` gave no bytes.
#[derive(Clone, Copy, Debug, PartialEq, Eq)]
pub enum BlockFault {
    /// The text has `len` bytes, and the slot has room for `room`.
    TooLong { len: u64, room: u64 },
    NoMemory,
}

impl From<NoMemory> for BlockFault {
    ghost use Rattle.std.specs.Prelude.{◌≡◌};
    ghost use Rattle.dn_layout.specs.declared.writing.BlockFault.TheVariants.{NoMemory as Refused};

    ghost from_gives = { λ _ e. e ≡ Refused };

    fn from(_: NoMemory) -> Self {
        BlockFault::NoMemory
    }
}

/// The block of `size` bytes that carries a text: 16 bytes of mask seed, and under the mask 8 bytes of check, the next length and the
/// text's length in two bytes each, high byte first, the text, and zeros. `TooLong` comes exactly where the text has more than
/// `size - 28` bytes.
pub fn block(
    alloc: Global,
    msg: &[u8],
    next_len: u16,
    mask_seed: &[u8; 16],
    size: u16,
) -> Result<Vec<u8>, BlockFault>
    requires low { MIN_SLOT_BYTES ≤ size }
    requires high { size ≤ MAX_SLOT_BYTES }
    requires next { IsTrue (is_length next_len) }
    ensures ok { IfOk result (λ v. v.items ≡ block_of msg.now next_len mask_seed.now size) }
    ensures too_long { IsTooLong result ↔ (size - 28 < length msg.now) }
    ensures numbers { IfErr result (TooLongNumbers (length msg.now) (size - 28)) }
{
    let room = size as usize - 28;
    if msg.len() > room {
        return Err(BlockFault::TooLong {
            len: msg.len() as u64,
            room: room as u64,
        });
    }
    Ok(masked_block(alloc, msg, next_len, mask_seed, size)?)
}

/// The block of a text that has room.
#[tactic(auto, unfolding(crate::specs::Block::block_of))]
fn masked_block(
    alloc: Global,
    msg: &[u8],
    next_len: u16,
    mask_seed: &[u8; 16],
    size: u16,
) -> Result<Vec<u8>, NoMemory>
    requires room { 28 + length msg.now ≤ size }
    requires size { size ≤ MAX_SLOT_BYTES }
    ensures { IfOk result (λ v. v.items ≡ block_of msg.now next_len mask_seed.now size) }
{
    let rest = rest(alloc, msg, next_len, size)?;
    let mut plain = Vec::with_capacity(alloc, size as usize)?;
    plain.extend_from_slice(&block_check(&rest))?;
    plain.extend_from_slice(&rest)?;
    mask(&mask_key(mask_seed), &mut plain);
    let mut bytes = Vec::with_capacity(alloc, size as usize)?;
    bytes.extend_from_slice(mask_seed)?;
    bytes.extend_from_slice(&plain)?;
    Ok(bytes)
}
