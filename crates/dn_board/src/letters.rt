ghost use Rattle.std.specs.Prelude.{◌≡◌};

use dn_wire::{Bytes, ServerId};
use std::marker::Model;

/// A message from one server to another.
#[derive(Drop)]
pub struct Letter {
    pub from: ServerId,
    pub to: ServerId,
    pub payload: Bytes,
}

/// A list of letters.
#[derive(Drop)]
pub struct Letters {
    held: Vec<Letter>,
}

impl Model for Letters {
    ghost use Rattle.std.specs.Prelude.{List};
    ghost use Rattle.dn_board.specs.declared.letters.Letter.{Letter};

    ghost Value = { List Letter };

    ghost view = { λ l. l.held.items };
}

impl Letters {
    /// The list of these letters.
    pub fn of(letters: Vec<Letter>) -> Letters
        ensures { result ≡ letters.items }
    {
        Letters { held: letters }
    }

    /// The letters.
    pub fn get(&self) -> &[Letter]
        ensures { result.now ≡ self.now }
    {
        &self.held
    }
}
