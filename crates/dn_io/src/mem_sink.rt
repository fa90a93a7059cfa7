ghost use Rattle.std.specs.Prelude.{◌≡◌, ◌<◌, ◌↔◌, min, Some, [], IfOk, OnErr, OnOk, length, true};
ghost use Rattle.dn_io.specs.Faults.{one_more};
ghost use Rattle.dn_io.specs.Memory.{is_failing};
ghost use Rattle.dn_io.specs.Sink.{CountsPut, PutAppends, PutsSome};

use crate::front::append_front;
use crate::sink::{Sink, SinkEnd};
use dn_memory::NoMemory;
use std::alloc::Global;
use std::marker::Model;

/// A sink that keeps what it takes in memory, a piece at a time. The calls with chosen numbers fail, counted from 0.
#[derive(Drop)]
pub struct MemSink {
    bytes: Vec<u8>,
    piece: usize,
    calls: u64,
    fails: Vec<u64>,
    count: u64,
}

impl Model for MemSink {
    ghost use Rattle.std.specs.Prelude.{◌<◌};
    ghost use Rattle.dn_io.specs.Memory.{Store};

    ghost Value = { Store };

    ghost view = { λ s. record { held = s.bytes.items; faults = s.count; piece = s.piece; calls = s.calls; fails = s.fails.items } };

    ghost invariant = { λ s. 0 < s.piece };
}

impl MemSink {
    /// An empty sink that takes at most `piece` bytes in a call.
    pub fn make(alloc: Global, piece: usize, fails: Vec<u64>) -> Result<MemSink, NoMemory>
        requires { 0 < piece }
        ensures held { IfOk result (λ s. s.held ≡ []) }
        ensures piece { IfOk result (λ s. s.piece ≡ piece) }
        ensures fails { IfOk result (λ s. s.fails ≡ fails.items) }
        ensures calls { IfOk result (λ s. s.calls ≡ 0) }
        ensures faults { IfOk result (λ s. s.faults ≡ 0) }
    {
        Ok(MemSink {
            bytes: Vec::new(alloc),
            piece,
            calls: 0,
            fails,
            count: 0,
        })
    }

    /// What the sink holds.
    pub fn bytes(&self) -> &[u8]
        ensures { result.now ≡ self.now.held }
    {
        &self.bytes
    }
}

impl Sink for MemSink {
    ghost held = { λ s. Some s.held };

    ghost faults = { λ s. s.faults };

    /// Fails exactly where the call's number is listed. Else it takes as much as there is and a piece allows. After
    /// an error it holds what it held.
    fn put(&mut self, buf: &[u8]) -> Result<usize, SinkEnd>
        ensures some { PutsSome result buf.now }
        ensures bytes { PutAppends (Some self.old.held) (Some self.new.held) result buf.now }
        ensures faults { CountsPut self.old.faults self.new.faults result }

        ensures fails { (result ≡ Err SinkEnd.Failed) ↔ (is_failing self.old.fails self.old.calls ≡ true) }
        ensures taken { IfOk result (λ n. n ≡ min (length buf.now) self.old.piece) }
        ensures nothing { OnErr result (self.new.held ≡ self.old.held) }
        ensures counted { result ≡ Err SinkEnd.Failed → self.new.faults ≡ one_more self.old.faults }
        ensures memory { result ≡ Err SinkEnd.NoMemory → self.new.faults ≡ self.old.faults }
        ensures calm { OnOk result (self.new.faults ≡ self.old.faults) }
        ensures calls { self.new.calls ≡ one_more self.old.calls }
        ensures kept { (self.new.piece ≡ self.old.piece) × (self.new.fails ≡ self.old.fails) }
    {
        let call = self.calls;
        self.calls = call.saturating_add(1);
        if self.fails.contains(&call) {
            self.count = self.count.saturating_add(1);
            return Err(SinkEnd::Failed);
        }
        append_front(&mut self.bytes, self.piece, buf)
    }
}
