ghost use Rattle.std.specs.Prelude.{◌≡◌, ◌<◌, ◌≤◌, min, IfOk, IfErr, OnErr, length, take, ◌++◌};
ghost use Rattle.dn_io.specs.Sink.{PutsSome};

use crate::sink::SinkEnd;

/// Copies the front of the one list into the other, as much as there is and fits, and at most a piece.
pub(crate) fn copy_front(from: &[u8], piece: usize, buf: &mut [u8]) -> usize
    ensures count { result ≡ min (min (length from.now) piece) (length buf.new) }
    ensures front { take result buf.new ≡ take result from.now }
{
    let count = from.len().min(piece).min(buf.len());
    buf[..count].copy_from_slice(&from[..count]);
    count
}

/// Appends the front of a list, at most a piece of it.
pub(crate) fn append_front(bytes: &mut Vec<u8>, piece: usize, buf: &[u8]) -> Result<usize, SinkEnd>
    requires { 0 < piece }
    ensures some { PutsSome result buf.now }
    ensures count { IfOk result (λ n. n ≡ min (length buf.now) piece) }
    ensures ok { IfOk result (λ n. bytes.new.items ≡ bytes.old.items ++ take n buf.now) }
    ensures err { OnErr result (bytes.new.items ≡ bytes.old.items) }
    ensures memory { IfErr result (λ e. e ≡ SinkEnd.NoMemory) }
{
    let count = buf.len().min(piece);
    match bytes.extend_from_slice(&buf[..count]) {
        Ok(()) => Ok(count),
        Err(_) => Err(SinkEnd::NoMemory),
    }
}
