ghost use Rattle.std.specs.Prelude.{IfOk, OnErr};
ghost use Rattle.std.specs.Io.KnownBytes.{Appends};
ghost use Rattle.dn_io.specs.Sink.{AppendsFront};
ghost use Rattle.dn_io.specs.Writing.{CountsWrite};

use crate::sink::{Sink, SinkEnd};

/// Why bytes were not written whole.
#[derive(Clone, Copy, Debug, PartialEq, Eq)]
pub enum WriteEnd {
    /// The sink failed, and its count rose.
    WriteFault,
    /// The sink's allocator refused a growth.
    NoMemory,
}

/// Puts all the bytes into a sink.
///
/// `WriteFault` comes only where the sink's count rose in this call. After an error the sink has gained a front of
/// the bytes.
pub fn write_whole<K: Sink>(sink: &mut K, bytes: &[u8]) -> Result<(), WriteEnd>
    ensures ok { IfOk result (λ _. Appends (K.held sink.old) (K.held sink.new) bytes.now) }
    ensures err { OnErr result (AppendsFront (K.held sink.old) (K.held sink.new) bytes.now) }
    ensures faults { CountsWrite (K.faults sink.old) (K.faults sink.new) result }
{
    let mut at = 0;
    while at < bytes.len() {
        match sink.put(&bytes[at..]) {
            Ok(count) => at += count,
            Err(SinkEnd::Failed) => return Err(WriteEnd::WriteFault),
            Err(SinkEnd::NoMemory) => return Err(WriteEnd::NoMemory),
        }
    }
    Ok(())
}
