use dn_memory::NoMemory;

/// Why no bits were made of bytes.
#[derive(Clone, Copy, Debug, PartialEq, Eq)]
pub enum BitsFault {
    /// The bytes have `have` bits, and `need` were asked for.
    Short { have: u64, need: u64 },
    /// The allocator refused a growth.
    NoMemory,
}

impl From<NoMemory> for BitsFault {
    ghost use Rattle.std.specs.Prelude.{◌≡◌};
    ghost use Rattle.dn_bits.specs.declared.fault.BitsFault.TheVariants.{NoMemory as Refused};

    ghost from_gives = { λ _ e. e ≡ Refused };

    fn from(_: NoMemory) -> Self {
        BitsFault::NoMemory
    }
}
