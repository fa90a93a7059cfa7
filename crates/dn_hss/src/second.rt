ghost use Rattle.std.specs.Prelude.{◌≡◌};
ghost use Rattle.dn_hss.specs.Hss.{second_of};
ghost use Rattle.dn_hss.specs.Origin.{key_from};

use crate::origin::Origin;
use dn_lms::KeyPair;

/// A second tree that is kept, with what it was made from. Who finds one looks at that, since a proof knows of what was kept only its
/// type.
#[derive(Drop)]
pub struct Second {
    pub origin: Origin,
    pub t: u32,
    pub tree: KeyPair,
    ghost made: { tree ≡ second_of (key_from origin) t },
}

impl Second {
    ghost use Rattle.std.specs.Prelude.{◌↔◌, IsTrue};
    ghost use Rattle.dn_hss.specs.Origin.{key_from};
    ghost use Rattle.dn_hss.specs.Hss.{second_of};

    /// Whether it is second tree t of this origin.
    pub fn is_of(&self, origin: &Origin, t: u32) -> bool
        ensures { IsTrue result ↔ ((self.now.origin ≡ origin.now) × (self.now.t ≡ t)) }
    {
        self.t == t
            && self.origin.lms == origin.lms
            && self.origin.ots == origin.ots
            && self.origin.seed == origin.seed
    }
}
