ghost use Rattle.std.specs.Prelude.{◌≡◌, ◌<◌, ◌≤◌, min, Some, IfOk, length, is_ok, true};
ghost use Rattle.std.specs.Io.{ReadsAtMost};
ghost use Rattle.std.specs.Io.KnownBytes.{ReadConsumes};
ghost use Rattle.dn_io.specs.Faults.{Counts};

use crate::front::copy_front;
use crate::source::{Failed, Source};
use std::marker::Model;

/// Bytes in memory, given a piece at a time, that never fail.
#[derive(Drop)]
pub struct SureSource {
    bytes: Vec<u8>,
    at: usize,
    piece: usize,
}

impl Model for SureSource {
    ghost use Rattle.std.specs.Prelude.{◌<◌, ◌≤◌, drop, length};
    ghost use Rattle.dn_io.specs.Memory.{SureSupply};

    ghost Value = { SureSupply };

    ghost view = { λ s. record { left = drop s.at s.bytes.items; piece = s.piece } };

    ghost invariant = { λ s. (s.at ≤ length s.bytes.items) × (0 < s.piece) };
}

impl SureSource {
    /// A source of these bytes that gives at most `piece` of them in a call.
    pub fn make(bytes: Vec<u8>, piece: usize) -> SureSource
        requires { 0 < piece }
        ensures left { result.left ≡ bytes.items }
        ensures piece { result.piece ≡ piece }
    {
        SureSource {
            bytes,
            at: 0,
            piece,
        }
    }
}

impl Source for SureSource {
    ghost left = { λ s. Some s.left };

    ghost faults = { λ _. 0 };

    /// Gives what is left, as much as fits and a piece allows.
    fn take(&mut self, buf: &mut [u8]) -> Result<usize, Failed>
        ensures bound { ReadsAtMost result buf.new }
        ensures bytes { ReadConsumes (Some self.old.left) (Some self.new.left) result buf.new }
        ensures faults { Counts 0 0 result }

        ensures sure { is_ok result ≡ true }
        ensures given { IfOk result (λ n. n ≡ min (min (length self.old.left) self.old.piece) (length buf.new)) }
        ensures kept { self.new.piece ≡ self.old.piece }
    {
        let count = copy_front(&self.bytes[self.at..], self.piece, buf);
        self.at += count;
        Ok(count)
    }
}
