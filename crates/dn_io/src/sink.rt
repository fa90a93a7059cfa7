ghost use Rattle.std.specs.Prelude.{ℕ, List};
ghost use Rattle.std.specs.declared.option.Option.{Option};
ghost use Rattle.dn_io.specs.Sink.{CountsPut, PutAppends, PutsSome};

/// Why a sink took nothing more.
#[derive(Clone, Copy, Debug, PartialEq, Eq)]
pub enum SinkEnd {
    /// The outside failed.
    Failed,
    /// The allocator refused a growth.
    NoMemory,
}

/// Where bytes go.
pub trait Sink {
    /// The bytes that the sink holds, where it tells them.
    ghost held: { Self → Option (List ℕ) };

    /// How often it failed: never less than before, and more after each failure, up to the count's last value.
    ghost faults: { Self → ℕ };

    /// Takes bytes from the buffer's front, some of them where there are any, and answers how many.
    ///
    /// After an error the sink has gained a front of the buffer, which may be empty.
    fn put(&mut self, buf: &[u8]) -> Result<usize, SinkEnd>
        ensures some { PutsSome result buf.now }
        ensures bytes { PutAppends (held self.old) (held self.new) result buf.now }
        ensures faults { CountsPut (faults self.old) (faults self.new) result };
}
