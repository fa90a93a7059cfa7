ghost use Rattle.std.specs.Prelude.{ℕ, List};
ghost use Rattle.std.specs.declared.option.Option.{Option};
ghost use Rattle.std.specs.Io.{ReadsAtMost};
ghost use Rattle.std.specs.Io.KnownBytes.{ReadConsumes};
ghost use Rattle.dn_io.specs.Faults.{Counts};

/// The outside failed.
#[derive(Clone, Copy, Debug, PartialEq, Eq)]
pub struct Failed;

/// Where bytes come from.
pub trait Source {
    /// The bytes that are left, where the source tells them.
    ghost left: { Self → Option (List ℕ) };

    /// How often it failed: never less than before, and more after each failure, up to the count's last value.
    ghost faults: { Self → ℕ };

    /// Takes at most as many bytes as the buffer has, to the buffer's front, and answers how many.
    ///
    /// None for a buffer that has room is the end: where the source tells what is left, it comes exactly where
    /// nothing is. `Failed` takes nothing.
    fn take(&mut self, buf: &mut [u8]) -> Result<usize, Failed>
        ensures bound { ReadsAtMost result buf.new }
        ensures bytes { ReadConsumes (left self.old) (left self.new) result buf.new }
        ensures faults { Counts (faults self.old) (faults self.new) result };
}
