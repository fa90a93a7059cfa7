ghost use Rattle.std.specs.Prelude.{◌≡◌};
ghost use Rattle.dn_cert.specs.declared.hold_fault.HoldFault.TheVariants.{NoMemory as Refused};

use dn_memory::NoMemory;
use dn_wire::Round;
use std::alloc::AllocFailed;

/// Why a chain doesn't hold a certificate: the first of these that is so.
#[derive(Clone, Copy, Debug, PartialEq, Eq)]
pub enum HoldFault {
    /// A certificate of its round is held.
    Known { r: Round },
    /// No certificate of its prev is held.
    NoPrev { prev: Round },
    /// It is thin and isn't due to be, or isn't thin and is due to be: `count` clients count in it, and `last` in the round of its prev.
    Floor { count: u32, last: u32 },
    /// Its output has `have` bits, and `need` are due: those of the layout after its prev, and none where it is thin.
    Length { have: u32, need: u32 },
    NoMemory,
}

impl From<NoMemory> for HoldFault {
    ghost from_gives = { λ _ e. e ≡ Refused };

    fn from(_: NoMemory) -> Self {
        HoldFault::NoMemory
    }
}

impl<T: Drop> From<AllocFailed<T>> for HoldFault {
    ghost from_gives = { λ _ e. e ≡ Refused };

    fn from(_: AllocFailed<T>) -> Self {
        HoldFault::NoMemory
    }
}
