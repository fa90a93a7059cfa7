ghost use Rattle.std.specs.Prelude.{◌≡◌, ◌↔◌, IfOk, IsTrue};

use crate::ids::Member;
use dn_memory::NoMemory;
use std::alloc::Global;
use std::marker::Model;

/// A list of members.
#[derive(Drop)]
pub struct MemberList {
    held: Vec<Member>,
}

impl Model for MemberList {
    ghost use Rattle.std.specs.Prelude.{List};
    ghost use Rattle.dn_wire.specs.declared.ids.Member.{Member};

    ghost Value = { List Member };

    ghost view = { λ m. m.held.items };
}

impl MemberList {
    /// The list of these members.
    pub fn of(members: Vec<Member>) -> MemberList
        ensures { result ≡ members.items }
    {
        MemberList { held: members }
    }

    /// The members.
    pub fn get(&self) -> &[Member]
        ensures { result.now ≡ self.now }
    {
        &self.held
    }

    /// A second list of the same members.
    pub fn copy(&self, alloc: Global) -> Result<MemberList, NoMemory>
        ensures { IfOk result (λ m. m ≡ self.now) }
    {
        Ok(MemberList {
            held: Vec::from_slice(alloc, &self.held)?,
        })
    }

    /// Whether the lists are one.
    pub fn equals(&self, other: &MemberList) -> bool
        ensures { IsTrue result ↔ (self.now ≡ other.now) }
    {
        self.get() == other.get()
    }
}

impl PartialEq for MemberList {
    ghost use Rattle.std.specs.Cmp.Lexicographic.{pointwise};
    ghost use Rattle.std.specs.Cmp.Rules.{comparing};
    ghost use Rattle.std.proofs.Common.{rules};
    ghost use Rattle.dn_wire.specs.Members.{member_eq};

    ghost eq = { pointwise member_eq };

    ghost laws = { Prim.search (comparing, rules) };

    fn eq(&self, other: &MemberList) -> bool {
        self.equals(other)
    }
}

impl Eq for MemberList {
    ghost use Rattle.std.specs.Cmp.Rules.{comparing};
    ghost use Rattle.std.proofs.Common.{rules};

    ghost laws = { Prim.search (comparing, rules) };
}
