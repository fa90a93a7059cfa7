ghost use Rattle.std.specs.Prelude.{◌≡◌};
ghost use Rattle.dn_verify.specs.declared.stop.Stop.TheVariants.{NoMemory as Unjudged};

use dn_memory::NoMemory;
use std::alloc::{AllocError, AllocFailed};

/// Why a report is not accepted, or not judged.
#[derive(Clone, Copy, Debug, PartialEq, Eq)]
pub enum Stop {
    /// The line at this place, counted from 0, breaks the rule with this number, and none before it breaks one.
    Broken { at: usize, rule: u32 },
    NoMemory,
}

impl From<NoMemory> for Stop {
    ghost from_gives = { λ _ e. e ≡ Unjudged };

    fn from(_: NoMemory) -> Self {
        Stop::NoMemory
    }
}

impl From<AllocError> for Stop {
    ghost from_gives = { λ _ e. e ≡ Unjudged };

    fn from(_: AllocError) -> Self {
        Stop::NoMemory
    }
}

impl<T: Drop> From<AllocFailed<T>> for Stop {
    ghost from_gives = { λ _ e. e ≡ Unjudged };

    fn from(_: AllocFailed<T>) -> Self {
        Stop::NoMemory
    }
}

/// The line at this place is none of the form.
pub fn misplaced(at: usize) -> Stop
    ensures { result ≡ Stop.Broken at 1 }
{
    Stop::Broken { at, rule: 1 }
}
