use dn_io::Cause;
use dn_memory::NoMemory;
use std::alloc::AllocFailed;

/// What is wrong with a field.
#[derive(Clone, Copy, Debug, PartialEq, Eq)]
pub enum Flaw {
    Number,
    Hex,
    Range,
    Honest,
    Corrupt,
}

/// Why a line was not read.
#[derive(Clone, Copy, Debug, PartialEq, Eq)]
pub enum LineFault {
    Bad(Cause),
    NoMemory,
}

impl From<NoMemory> for LineFault {
    ghost use Rattle.std.specs.Prelude.{◌≡◌};
    ghost use Rattle.dn_script.specs.declared.flaw.LineFault.TheVariants.{NoMemory as Refused};

    ghost from_gives = { λ _ e. e ≡ Refused };

    fn from(_: NoMemory) -> Self {
        LineFault::NoMemory
    }
}

impl<T: Drop> From<AllocFailed<T>> for LineFault {
    ghost use Rattle.std.specs.Prelude.{◌≡◌};
    ghost use Rattle.dn_script.specs.declared.flaw.LineFault.TheVariants.{NoMemory as Refused};

    ghost from_gives = { λ _ e. e ≡ Refused };

    fn from(_: AllocFailed<T>) -> Self {
        LineFault::NoMemory
    }
}

ghost use Rattle.std.specs.Prelude.{◌≡◌};
ghost use Rattle.dn_script.specs.Judged.{cause_at};

/// What is wrong with the field of this number.
pub fn bad(field: u32, flaw: Flaw) -> LineFault
    ensures { result ≡ LineFault.Bad (cause_at field flaw) }
{
    LineFault::Bad(match flaw {
        Flaw::Number => Cause::Number(field),
        Flaw::Hex => Cause::Hex(field),
        Flaw::Range => Cause::Range(field),
        Flaw::Honest => Cause::Honest(field),
        Flaw::Corrupt => Cause::Corrupt(field),
    })
}
