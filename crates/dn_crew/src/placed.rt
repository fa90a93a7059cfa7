ghost use Rattle.std.specs.Prelude.{◌≡◌};

use dn_wire::ClientId;
use std::marker::Model;

/// The clients that a gate included, in order of clients, each with the number of its submission. Contracts see it as that list.
#[derive(Drop)]
pub struct Placed {
    held: Vec<(ClientId, u64)>,
}

impl Model for Placed {
    ghost use Rattle.std.specs.Prelude.{List, ℕ};
    ghost use Rattle.dn_wire.specs.declared.ids.ClientId.{ClientId};

    ghost Value = { List (ClientId × ℕ) };

    ghost view = { λ p. p.held.items };
}

impl Placed {
    /// The list of these.
    pub fn of(held: Vec<(ClientId, u64)>) -> Placed
        ensures { result ≡ held.items }
    {
        Placed { held }
    }

    /// The clients, with the numbers.
    pub fn get(&self) -> &[(ClientId, u64)]
        ensures { result.now ≡ self.now }
    {
        &self.held
    }
}
