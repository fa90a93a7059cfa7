ghost use Rattle.std.specs.Prelude.{◌≡◌, ◌<◌, ◌≤◌, min, Some, IfOk, OnOk, OnErr, length, is_err};
ghost use Rattle.std.specs.Io.{ReadsAtMost};
ghost use Rattle.std.specs.Io.KnownBytes.{ReadConsumes};
ghost use Rattle.dn_io.specs.Faults.{Counts, one_more};
ghost use Rattle.dn_io.specs.Memory.{is_failing};

use crate::front::copy_front;
use crate::source::{Failed, Source};
use std::marker::Model;

/// Bytes in memory, given a piece at a time. The calls with chosen numbers fail, counted from 0.
#[derive(Drop)]
pub struct MemSource {
    bytes: Vec<u8>,
    at: usize,
    piece: usize,
    calls: u64,
    fails: Vec<u64>,
    count: u64,
}

impl Model for MemSource {
    ghost use Rattle.std.specs.Prelude.{◌<◌, ◌≤◌, drop, length};
    ghost use Rattle.dn_io.specs.Memory.{Supply};

    ghost Value = { Supply };

    ghost view = { λ s. record { left = drop s.at s.bytes.items; faults = s.count; piece = s.piece; calls = s.calls; fails = s.fails.items } };

    ghost invariant = { λ s. (s.at ≤ length s.bytes.items) × (0 < s.piece) };
}

impl MemSource {
    /// A source of these bytes that gives at most `piece` of them in a call.
    pub fn make(bytes: Vec<u8>, piece: usize, fails: Vec<u64>) -> MemSource
        requires { 0 < piece }
        ensures left { result.left ≡ bytes.items }
        ensures piece { result.piece ≡ piece }
        ensures fails { result.fails ≡ fails.items }
        ensures calls { result.calls ≡ 0 }
        ensures faults { result.faults ≡ 0 }
    {
        MemSource {
            bytes,
            at: 0,
            piece,
            calls: 0,
            fails,
            count: 0,
        }
    }
}

impl Source for MemSource {
    ghost left = { λ s. Some s.left };

    ghost faults = { λ s. s.faults };

    /// Fails exactly where the call's number is listed, and then takes nothing. Else it gives what is left, as much
    /// as fits and a piece allows.
    fn take(&mut self, buf: &mut [u8]) -> Result<usize, Failed>
        ensures bound { ReadsAtMost result buf.new }
        ensures bytes { ReadConsumes (Some self.old.left) (Some self.new.left) result buf.new }
        ensures faults { Counts self.old.faults self.new.faults result }

        ensures fails { is_err result ≡ is_failing self.old.fails self.old.calls }
        ensures given { IfOk result (λ n. n ≡ min (min (length self.old.left) self.old.piece) (length buf.new)) }
        ensures counted { OnErr result (self.new.faults ≡ one_more self.old.faults) }
        ensures calm { OnOk result (self.new.faults ≡ self.old.faults) }
        ensures calls { self.new.calls ≡ one_more self.old.calls }
        ensures kept { (self.new.piece ≡ self.old.piece) × (self.new.fails ≡ self.old.fails) }
    {
        let call = self.calls;
        self.calls = call.saturating_add(1);
        if self.fails.contains(&call) {
            self.count = self.count.saturating_add(1);
            return Err(Failed);
        }
        let count = copy_front(&self.bytes[self.at..], self.piece, buf);
        self.at += count;
        Ok(count)
    }
}
