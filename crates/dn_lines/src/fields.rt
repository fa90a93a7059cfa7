ghost use Rattle.std.specs.Prelude.{◌≡◌, ◌∷◌, [], MatchOption};
ghost use Rattle.dn_lines.specs.Form.{fields_in};

use crate::cutting::split;
use std::marker::Model;

/// The fields of a line that are left to read, seen as a list. One blank stands between two fields.
#[derive(Drop)]
pub struct Fields<'a> {
    rest: Option<&'a [u8]>,
}

impl<'a> Model for Fields<'a> {
    ghost use Rattle.std.specs.Prelude.{ℕ, List, []};
    ghost use Rattle.std.specs.Option.{option_map_or};
    ghost use Rattle.dn_lines.specs.Form.{fields_in};

    ghost Value = { List (List ℕ) };

    ghost view = { λ f. option_map_or (λ line. fields_in line.now) f.rest [] };
}

impl<'a> Fields<'a> {
    /// All fields of a line.
    pub fn new(line: &'a [u8]) -> Fields<'a>
        ensures { result ≡ fields_in line.now }
    {
        Fields { rest: Some(line) }
    }

    /// The next field; None where none is left.
    pub fn take(&mut self) -> Option<&'a [u8]>
        ensures { MatchOption result (self.old ≡ [])
            (λ text. self.old ≡ text.now ∷ self.new) }
    {
        let line = self.rest?;
        match split(b' ', line) {
            Some((first, rest)) => {
                self.rest = Some(rest);
                Some(first)
            }
            None => {
                self.rest = None;
                Some(line)
            }
        }
    }
}
