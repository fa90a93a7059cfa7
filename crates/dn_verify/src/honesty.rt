ghost use Rattle.std.specs.Prelude.{◌↔◌, IsTrue, Contains};
ghost use Rattle.dn_verify.specs.Rules.{SomeHonestServer};

use dn_wire::{Member, ServerId};

/// Whether a member is among the corrupt ones.
pub fn is_corrupt(corrupt: &[Member], member: Member) -> bool
    ensures { IsTrue result ↔ Contains corrupt.now member }
{
    corrupt.contains(&member)
}

/// Whether some of so many servers isn't corrupt.
pub fn some_honest_server(corrupt: &[Member], servers: u32) -> bool
    ensures { IsTrue result ↔ SomeHonestServer corrupt.now servers }
{
    for j in 0..servers {
        if !is_corrupt(corrupt, Member::Server(ServerId(j))) {
            return true;
        }
    }
    false
}
