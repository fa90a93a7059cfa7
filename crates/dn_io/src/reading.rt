ghost use Rattle.std.specs.Prelude.{◌<◌, ◌≤◌};
ghost use Rattle.dn_io.specs.Reading.{CountsRead, ReadsPiece, ReadsWhole};

use crate::source::Source;
use std::alloc::Global;

/// Why a source was not read whole.
#[derive(Clone, Copy, Debug, PartialEq, Eq)]
pub enum ReadEnd {
    /// The source failed, and its count rose.
    ReadFault,
    /// More than `limit` bytes came.
    TooLong { limit: u64 },
    /// The allocator refused a growth.
    NoMemory,
}

/// At most so many bytes are taken in a call.
const PIECE: usize = 4096;

/// Reads at most `room` bytes, and appends them.
fn read_piece<S: Source>(src: &mut S, bytes: &mut Vec<u8>, room: usize) -> Result<usize, ReadEnd>
    requires { (0 < room) × (room ≤ PIECE) }
    ensures bytes { ReadsPiece (S.left src.old) (S.left src.new) room result bytes.old.items bytes.new.items }
    ensures faults { CountsRead (S.faults src.old) (S.faults src.new) result }
{
    let mut buf = [0u8; PIECE];
    let piece = &mut buf[..room];
    match src.take(piece) {
        Ok(count) => match bytes.extend_from_slice(&piece[..count]) {
            Ok(()) => Ok(count),
            Err(_) => Err(ReadEnd::NoMemory),
        },
        Err(_) => Err(ReadEnd::ReadFault),
    }
}

/// All that a source has left, where that is at most `limit` bytes.
///
/// `ReadFault` comes only where the source's count rose in this call, `TooLong` exactly where more than `limit` bytes
/// came. It takes at most `limit + 1` bytes.
pub fn read_whole<S: Source>(alloc: Global, src: &mut S, limit: u64) -> Result<Vec<u8>, ReadEnd>
    ensures bytes { ReadsWhole (λ v. v.items) (S.left src.old) (S.left src.new) limit result }
    ensures faults { CountsRead (S.faults src.old) (S.faults src.new) result }
{
    let mut bytes = Vec::new(alloc);
    while bytes.len() as u64 <= limit {
        let room = (limit - bytes.len() as u64).min(PIECE as u64 - 1) as usize + 1;
        if read_piece(src, &mut bytes, room)? == 0 {
            return Ok(bytes);
        }
    }
    Err(ReadEnd::TooLong { limit })
}
