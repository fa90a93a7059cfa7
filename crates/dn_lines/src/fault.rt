use dn_memory::NoMemory;
use std::alloc::AllocFailed;

/// Why a line was not read.
#[derive(Clone, Copy, Debug, PartialEq, Eq)]
pub enum LineFault {
    /// The bytes are not a line of the grammar.
    Grammar,
    NoMemory,
}

impl From<NoMemory> for LineFault {
    ghost use Rattle.std.specs.Prelude.{◌≡◌};
    ghost use Rattle.dn_lines.specs.declared.fault.LineFault.TheVariants.{NoMemory as Refused};

    ghost from_gives = { λ _ e. e ≡ Refused };

    fn from(_: NoMemory) -> Self {
        LineFault::NoMemory
    }
}

impl<T: Drop> From<AllocFailed<T>> for LineFault {
    ghost use Rattle.std.specs.Prelude.{◌≡◌};
    ghost use Rattle.dn_lines.specs.declared.fault.LineFault.TheVariants.{NoMemory as Refused};

    ghost from_gives = { λ _ e. e ≡ Refused };

    fn from(_: AllocFailed<T>) -> Self {
        LineFault::NoMemory
    }
}
