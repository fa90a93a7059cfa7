ghost use Rattle.std.specs.Prelude.{◌≡◌, ◌<◌, min, Some, [], IfOk, IfErr, OnErr, length};
ghost use Rattle.dn_io.specs.Sink.{CountsPut, PutAppends, PutsSome};

use crate::front::append_front;
use crate::sink::{Sink, SinkEnd};
use dn_memory::NoMemory;
use std::alloc::Global;
use std::marker::Model;

/// A sink that keeps what it takes in memory, a piece at a time, and fails for want of memory alone.
#[derive(Drop)]
pub struct SureSink {
    bytes: Vec<u8>,
    piece: usize,
}

impl Model for SureSink {
    ghost use Rattle.std.specs.Prelude.{◌<◌};
    ghost use Rattle.dn_io.specs.Memory.{SureStore};

    ghost Value = { SureStore };

    ghost view = { λ s. record { held = s.bytes.items; piece = s.piece } };

    ghost invariant = { λ s. 0 < s.piece };
}

impl SureSink {
    /// An empty sink that takes at most `piece` bytes in a call.
    pub fn make(alloc: Global, piece: usize) -> Result<SureSink, NoMemory>
        requires { 0 < piece }
        ensures held { IfOk result (λ s. s.held ≡ []) }
        ensures piece { IfOk result (λ s. s.piece ≡ piece) }
    {
        Ok(SureSink {
            bytes: Vec::new(alloc),
            piece,
        })
    }

    /// What the sink holds.
    pub fn bytes(&self) -> &[u8]
        ensures { result.now ≡ self.now.held }
    {
        &self.bytes
    }
}

impl Sink for SureSink {
    ghost held = { λ s. Some s.held };

    ghost faults = { λ _. 0 };

    /// Takes as much as there is and a piece allows. After an error it holds what it held.
    fn put(&mut self, buf: &[u8]) -> Result<usize, SinkEnd>
        ensures some { PutsSome result buf.now }
        ensures bytes { PutAppends (Some self.old.held) (Some self.new.held) result buf.now }
        ensures faults { CountsPut 0 0 result }

        ensures memory { IfErr result (λ e. e ≡ SinkEnd.NoMemory) }
        ensures taken { IfOk result (λ n. n ≡ min (length buf.now) self.old.piece) }
        ensures nothing { OnErr result (self.new.held ≡ self.old.held) }
        ensures kept { self.new.piece ≡ self.old.piece }
    {
        append_front(&mut self.bytes, self.piece, buf)
    }
}
