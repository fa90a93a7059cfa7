ghost use Rattle.std.specs.Prelude.{◌≡◌, ◌↔◌, Contains, IsTrue};

use dn_wire::Round;

/// A challenge that a client answered.
#[derive(Clone, Copy, Debug, PartialEq, Eq)]
pub struct Answered {
    pub r: Round,
    pub k: u32,
}

/// Whether the challenge of round `r` at place `k` is among them.
pub fn is_among(answered: &[Answered], r: Round, k: u32) -> bool
    ensures { IsTrue result ↔ Contains answered.now (record { r = r; k = k }) }
{
    answered.contains(&Answered { r, k })
}
