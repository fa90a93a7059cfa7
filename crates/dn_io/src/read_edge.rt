ghost use Rattle.std.specs.Prelude.{◌≡◌, OnOk, OnErr};
ghost use Rattle.std.specs.Io.{ReadsAtMost};
ghost use Rattle.std.specs.Io.KnownBytes.{ReadConsumes};
ghost use Rattle.dn_io.specs.Faults.{Counts, one_more};

use crate::source::{Failed, Source};
use std::io::Read;
use std::marker::Model;

/// Any reader of std as a source, with a count of its faults.
#[derive(Drop)]
pub struct ReadEdge<R> {
    reader: R,
    faults: u64,
}

impl<R> Model for ReadEdge<R> {
    ghost use Rattle.dn_io.specs.Edge.{Edge};

    ghost Value = { Edge R };

    ghost view = { λ e. record { inner = e.reader; faults = e.faults } };
}

impl<R: Read> ReadEdge<R> {
    /// A source of what the reader gives.
    pub fn make(reader: R) -> ReadEdge<R>
        ensures inner { result.inner ≡ reader }
        ensures faults { result.faults ≡ 0 }
    {
        ReadEdge { reader, faults: 0 }
    }
}

impl<R: Read> Source for ReadEdge<R> {
    ghost left = { λ s. R.remaining s.inner };

    ghost faults = { λ s. s.faults };

    /// Fails where the reader does.
    fn take(&mut self, buf: &mut [u8]) -> Result<usize, Failed>
        ensures bound { ReadsAtMost result buf.new }
        ensures bytes { ReadConsumes (R.remaining self.old.inner) (R.remaining self.new.inner) result buf.new }
        ensures faults { Counts self.old.faults self.new.faults result }

        ensures counted { OnErr result (self.new.faults ≡ one_more self.old.faults) }
        ensures calm { OnOk result (self.new.faults ≡ self.old.faults) }
    {
        match self.reader.read(buf) {
            Ok(count) => Ok(count),
            Err(_) => {
                self.faults = self.faults.saturating_add(1);
                Err(Failed)
            }
        }
    }
}
