// Lines of blocks: `block TEXT NEXT MASKSEED SIZE BYTES`, or `.. SIZE TooLong LEN ROOM` where the text is refused, and
// `read BYTES message NEXT TEXT` or `read BYTES garbled`.

use crate::fields::{array_at, bytes_at, end_at, ends_in, number_at, text};
use crate::memory::given;
use anyhow::{Result, bail, ensure};
use dn_layout::{Block, BlockFault, block, read_block};
use std::alloc::Global;

/// Whether the block of the text is the one of the line, or the text is refused as the line says.
fn writes(alloc: Global, fields: &[&str]) -> Result<bool> {
    let message = bytes_at(alloc, fields, 0)?;
    let next_len: u16 = number_at(fields, 1)?;
    let mask_seed = array_at(fields, 2)?;
    let size: u16 = number_at(fields, 3)?;
    ensure!(64 <= size && size <= 1024, "no slot of {size} bytes");
    ensure!(
        next_len == 0 || (64 <= next_len && next_len <= 1024),
        "no slot of {next_len} bytes"
    );
    let is_refused = text(fields, 4)? == "TooLong";
    match block(alloc, &message, next_len, &mask_seed, size) {
        Ok(bytes) => Ok(!is_refused && ends_in(alloc, fields, 4, &bytes)?),
        Err(BlockFault::TooLong { len, room }) => {
            if !is_refused {
                return Ok(false);
            }
            end_at(fields, 7)?;
            Ok(len == number_at(fields, 5)? && room == number_at(fields, 6)?)
        }
        Err(BlockFault::NoMemory) => bail!("no memory"),
    }
}

/// Whether the bytes are read as the line says.
fn reads(alloc: Global, fields: &[&str]) -> Result<bool> {
    let block = given(read_block(alloc, &bytes_at(alloc, fields, 0)?))?;
    match (block, text(fields, 1)?) {
        (Block::Message { next_len, text }, "message") => {
            Ok(next_len == number_at(fields, 2)? && ends_in(alloc, fields, 3, &text)?)
        }
        (Block::Garbled, "garbled") => {
            end_at(fields, 2)?;
            Ok(true)
        }
        (_, "message" | "garbled") => Ok(false),
        _ => bail!("no such kind of block"),
    }
}

/// Whether what the word names comes out as the line says.
pub fn passes(alloc: Global, word: &str, fields: &[&str]) -> Result<bool> {
    match word {
        "block" => writes(alloc, fields),
        "read" => reads(alloc, fields),
        _ => bail!("no such line of blocks: {word}"),
    }
}
