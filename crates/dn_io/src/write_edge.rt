ghost use Rattle.std.specs.Prelude.{◌≡◌, OnOk, OnErr, IfErr};
ghost use Rattle.std.specs.Io.KnownBytes.{Keeps};
ghost use Rattle.dn_io.specs.Faults.{one_more};
ghost use Rattle.dn_io.specs.Sink.{CountsPut, PutAppends, PutsSome};

use crate::sink::{Sink, SinkEnd};
use crate::writing::WriteEnd;
use std::io::Write;
use std::marker::Model;

/// Any writer of std as a sink, with a count of its faults.
#[derive(Drop)]
pub struct WriteEdge<W> {
    writer: W,
    faults: u64,
}

impl<W> Model for WriteEdge<W> {
    ghost use Rattle.dn_io.specs.Edge.{Edge};

    ghost Value = { Edge W };

    ghost view = { λ e. record { inner = e.writer; faults = e.faults } };
}

impl<W: Write> WriteEdge<W> {
    /// A sink whose bytes the writer takes.
    pub fn make(writer: W) -> WriteEdge<W>
        ensures inner { result.inner ≡ writer }
        ensures faults { result.faults ≡ 0 }
    {
        WriteEdge { writer, faults: 0 }
    }

    /// Has the writer hand on what it keeps back. Fails where the writer does, and the count rises then.
    pub fn flush(&mut self) -> Result<(), WriteEnd>
        ensures bytes { Keeps (W.contents self.old.inner) (W.contents self.new.inner) }
        ensures outside { IfErr result (λ e. e ≡ WriteEnd.WriteFault) }
        ensures counted { OnErr result (self.new.faults ≡ one_more self.old.faults) }
        ensures calm { OnOk result (self.new.faults ≡ self.old.faults) }
    {
        match self.writer.flush() {
            Ok(()) => Ok(()),
            Err(_) => {
                self.faults = self.faults.saturating_add(1);
                Err(WriteEnd::WriteFault)
            }
        }
    }
}

impl<W: Write> Sink for WriteEdge<W> {
    ghost held = { λ s. W.contents s.inner };

    ghost faults = { λ s. s.faults };

    /// Fails where the writer does, and where it takes nothing of a buffer that isn't empty.
    fn put(&mut self, buf: &[u8]) -> Result<usize, SinkEnd>
        ensures some { PutsSome result buf.now }
        ensures bytes { PutAppends (W.contents self.old.inner) (W.contents self.new.inner) result buf.now }
        ensures faults { CountsPut self.old.faults self.new.faults result }

        ensures outside { IfErr result (λ e. e ≡ SinkEnd.Failed) }
        ensures counted { OnErr result (self.new.faults ≡ one_more self.old.faults) }
        ensures calm { OnOk result (self.new.faults ≡ self.old.faults) }
    {
        match self.writer.write(buf) {
            Ok(count) if count > 0 || buf.is_empty() => Ok(count),
            _ => {
                self.faults = self.faults.saturating_add(1);
                Err(SinkEnd::Failed)
            }
        }
    }
}
