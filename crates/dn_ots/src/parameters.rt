ghost use Rattle.std.specs.Prelude.{◌≡◌, MatchResult};
ghost use Rattle.dn_ots.specs.Parameters.{IsCode, IsRow, last_step};

/// A parameter set of LM-OTS (RFC 8554 section 4.1).
#[derive(Clone, Copy, Debug, PartialEq, Eq)]
pub struct Params {
    /// The type code, 1 to 4.
    pub code: u32,
    /// The bits of a digit.
    pub w: u32,
    /// The number of chains.
    pub p: u32,
    /// The bits by which the checksum is shifted to the left.
    pub ls: u32,
    /// The bytes of a signature.
    pub sig_len: u32,
    pub ghost row: { IsRow code w p ls sig_len },
}

/// No parameter set has this type code.
#[derive(Clone, Copy, Debug, PartialEq, Eq)]
pub struct UnknownType {
    pub code: u32,
}

impl Params {
    /// The parameter set with this type code. `UnknownType` exactly where it isn't 1, 2, 3 or 4.
    pub fn of(code: u32) -> Result<Params, UnknownType>
        ensures { MatchResult result (λ p. p.code ≡ code) (λ e. (e.code ≡ code) × ¬ IsCode code) }
    {
        match code {
            1 => Ok(Params {
                code,
                w: 1,
                p: 265,
                ls: 7,
                sig_len: 8516,
            }),
            2 => Ok(Params {
                code,
                w: 2,
                p: 133,
                ls: 6,
                sig_len: 4292,
            }),
            3 => Ok(Params {
                code,
                w: 4,
                p: 67,
                ls: 4,
                sig_len: 2180,
            }),
            4 => Ok(Params {
                code,
                w: 8,
                p: 34,
                ls: 0,
                sig_len: 1124,
            }),
            _ => Err(UnknownType { code }),
        }
    }

    /// The number of a chain's last value: 2^w - 1.
    pub(crate) fn last_step(self) -> u8
        ensures { result ≡ last_step self.code }
    {
        0xff >> (8 - self.w)
    }
}
