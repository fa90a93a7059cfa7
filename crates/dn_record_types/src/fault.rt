ghost use Rattle.std.specs.Prelude.{◌≡◌};
ghost use Rattle.dn_record_types.specs.declared.fault.RecordFault.TheVariants.{NoMemory as Refused};

use dn_memory::NoMemory;
use dn_wire::FieldFault;
use std::alloc::{AllocError, AllocFailed};

/// Why bytes are no record: the first fault from the left. Places are counted in bytes from 0, the
/// first of the bytes given.
#[derive(Clone, Copy, Debug, PartialEq, Eq)]
pub enum RecordFault {
    /// The field that begins at place `at` passes the end.
    Cut { at: u64 },
    /// The first byte is no statement's kind, or no payload's tag.
    Kind { byte: u8 },
    /// The number that begins at place `at` is above `limit`.
    Over { at: u64, limit: u32 },
    /// At place `at` stands a client that doesn't ascend, a bit string's last byte with a set bit
    /// after the last, or another byte with few values that has none of them.
    Shape { at: u64 },
    /// All was read, and the bytes from place `at` on are left.
    Trailing { at: u64 },
    NoMemory,
}

impl From<NoMemory> for RecordFault {
    ghost from_gives = { λ _ e. e ≡ Refused };

    fn from(_: NoMemory) -> Self {
        RecordFault::NoMemory
    }
}

impl From<FieldFault> for RecordFault {
    ghost use Rattle.std.specs.Prelude.{◌≡◌};
    ghost use Rattle.dn_record_types.specs.Part.{fault_of};

    ghost from_gives = { λ f e. e ≡ fault_of f };

    fn from(fault: FieldFault) -> Self {
        match fault {
            FieldFault::Cut { at } => RecordFault::Cut { at },
            FieldFault::Over { at, limit } => RecordFault::Over { at, limit },
        }
    }
}

impl From<AllocError> for RecordFault {
    ghost from_gives = { λ _ e. e ≡ Refused };

    fn from(_: AllocError) -> Self {
        RecordFault::NoMemory
    }
}

impl<T: Drop> From<AllocFailed<T>> for RecordFault {
    ghost from_gives = { λ _ e. e ≡ Refused };

    fn from(_: AllocFailed<T>) -> Self {
        RecordFault::NoMemory
    }
}
