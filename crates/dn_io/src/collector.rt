ghost use Rattle.std.specs.Prelude.{◌≡◌, ◌≤◌, ◌++◌, [], ◌+◌, OnOk, OnErr, IfErr, length};
ghost use Rattle.std.specs.Io.KnownBytes.{Appends};
ghost use Rattle.dn_io.specs.Sink.{AppendsFront};
ghost use Rattle.dn_io.specs.Writing.{AppendsAllBut, CountsWrite};

use crate::sink::Sink;
use crate::writing::{WriteEnd, write_whole};
use std::alloc::Global;
use std::marker::Model;

/// At most so many bytes wait in a collector.
pub const MAX_WAITING: usize = 65_536;

/// Collects small pieces of a text on their way to a sink, so that the text need not stand whole in memory. It is seen as the bytes
/// that wait in it. What was added and doesn't wait is in the sink.
#[derive(Drop)]
pub struct Collector {
    waiting: Vec<u8>,
}

impl Model for Collector {
    ghost use Rattle.std.specs.Prelude.{List, ℕ, ◌≤◌, length};
    ghost use Rattle.dn_io.specs.declared.collector.TheConstants.{MAX_WAITING};

    ghost Value = { List ℕ };

    ghost view = { λ c. c.waiting.items };

    ghost invariant = { λ c. length c.waiting.items ≤ MAX_WAITING };
}

impl Collector {
    /// A collector in which nothing waits.
    pub fn new(alloc: Global) -> Collector
        ensures { result ≡ [] }
    {
        Collector {
            waiting: Vec::new(alloc),
        }
    }

    /// The bytes that wait, at most `MAX_WAITING`.
    pub fn waiting(&self) -> &[u8]
        ensures value { result.now ≡ self.now }
        ensures bound { length self.now ≤ MAX_WAITING }
    {
        &self.waiting
    }

    /// Adds a piece. Where it doesn't fit behind what waits, the sink gets all that waits first, and a piece that is too large to wait
    /// too.
    ///
    /// After an error the sink has gained a front of what waited and the piece, and nothing waits: the rest is lost. `WriteFault` comes
    /// only where the sink's count rose in this call.
    pub fn add<K: Sink>(&mut self, sink: &mut K, piece: &[u8]) -> Result<(), WriteEnd>
        ensures ok { OnOk result (AppendsAllBut (K.held sink.old) (K.held sink.new) (self.old ++ piece.now) self.new) }
        ensures err { OnErr result (AppendsFront (K.held sink.old) (K.held sink.new) (self.old ++ piece.now)) }
        ensures lost { OnErr result (self.new ≡ []) }
        ensures faults { CountsWrite (K.faults sink.old) (K.faults sink.new) result }
    {
        if piece.len() > MAX_WAITING - self.waiting.len() {
            self.finish(sink)?;
            if piece.len() > MAX_WAITING {
                return write_whole(sink, piece);
            }
        }
        self.keep(piece)
    }

    /// Adds a piece that fits to what waits.
    fn keep(&mut self, piece: &[u8]) -> Result<(), WriteEnd>
        requires { length self.old + length piece.now ≤ MAX_WAITING }
        ensures ok { OnOk result (self.new ≡ self.old ++ piece.now) }
        ensures lost { OnErr result (self.new ≡ []) }
        ensures memory { IfErr result (λ e. e ≡ WriteEnd.NoMemory) }
    {
        if self.waiting.extend_from_slice(piece).is_err() {
            self.waiting.clear();
            return Err(WriteEnd::NoMemory);
        }
        Ok(())
    }

    /// Puts all that waits into the sink. Nothing waits after it.
    ///
    /// After an error the sink has gained a front of what waited, and the rest is lost. `WriteFault` comes only where the sink's count
    /// rose in this call.
    pub fn finish<K: Sink>(&mut self, sink: &mut K) -> Result<(), WriteEnd>
        ensures ok { OnOk result (Appends (K.held sink.old) (K.held sink.new) self.old) }
        ensures err { OnErr result (AppendsFront (K.held sink.old) (K.held sink.new) self.old) }
        ensures none { self.new ≡ [] }
        ensures faults { CountsWrite (K.faults sink.old) (K.faults sink.new) result }
    {
        let written = write_whole(sink, &self.waiting);
        self.waiting.clear();
        written
    }
}
