ghost use Rattle.std.specs.Prelude.{◌≡◌, ◌↔◌, IfOk, IsTrue};

use crate::fault::Fault;
use dn_wire::Member;
use std::marker::Model;

/// A list of members that are blamed, each with its fault.
#[derive(Drop)]
pub struct Blames {
    held: Vec<(Member, Fault)>,
}

impl Model for Blames {
    ghost use Rattle.std.specs.Prelude.{List};
    ghost use Rattle.dn_wire.specs.declared.ids.Member.{Member};
    ghost use Rattle.dn_trace.specs.declared.fault.Fault.{Fault};

    ghost Value = { List (Member × Fault) };

    ghost view = { λ b. b.held.items };
}

impl Blames {
    /// The list of these.
    pub fn of(blames: Vec<(Member, Fault)>) -> Blames
        ensures { result ≡ blames.items }
    {
        Blames { held: blames }
    }

    /// The members with their faults.
    pub fn get(&self) -> &[(Member, Fault)]
        ensures { result.now ≡ self.now }
    {
        &self.held
    }
}
