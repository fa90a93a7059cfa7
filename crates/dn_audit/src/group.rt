ghost use Rattle.std.specs.Prelude.{◌≡◌, ◌↔◌, IsTrue, IfOk, true, slice_set};
ghost use Rattle.dn_wire.specs.declared.ids.ServerId.{ServerId as Server};
ghost use Rattle.dn_audit.specs.Group.{is_corrupt, member_of, IsHonestKey, IsHonestServer, IsGroupOf};

use dn_memory::NoMemory;
use dn_wire::{ClientId, Member, ServerId, SignerId, SlotId};
use std::alloc::Global;
use std::marker::Model;

/// Who owns which slot of a group, and which of its members are corrupt.
#[derive(Drop)]
pub struct Group {
    owners: Vec<ClientId>,
    corrupt_clients: Vec<bool>,
    corrupt_servers: Vec<bool>,
}

impl Model for Group {
    ghost use Rattle.dn_audit.specs.Group.{GroupView};

    ghost Value = { GroupView };

    ghost view = { λ g. record { owners = g.owners.items; clients = g.corrupt_clients.items; servers = g.corrupt_servers.items } };
}

/// Sets the flag at a place, if it is there.
fn set(flags: &mut [bool], place: u32)
    ensures { flags.new ≡ slice_set flags.old place true }
{
    let place = place as usize;
    if place < flags.len() {
        flags[place] = true;
    }
}

impl Group {
    /// The group of so many clients and servers, whose slots these clients own, with these corrupt members.
    pub fn make(
        alloc: Global,
        owners: &[ClientId],
        clients: u32,
        servers: u32,
        corrupt: &[Member],
    ) -> Result<Group, NoMemory>
        ensures { IfOk result (IsGroupOf owners.now clients servers corrupt.now) }
    {
        let mut corrupt_clients = vec![in alloc; false; clients as usize]?;
        let mut corrupt_servers = vec![in alloc; false; servers as usize]?;
        for member in corrupt {
            match member {
                Member::Client(i) => set(&mut corrupt_clients, i.0),
                Member::Server(j) => set(&mut corrupt_servers, j.0),
            }
        }
        Ok(Group {
            owners: Vec::from_slice(alloc, owners)?,
            corrupt_clients,
            corrupt_servers,
        })
    }

    /// Whether a member is corrupt. Who isn't in the group isn't.
    pub fn is_corrupt(&self, member: Member) -> bool
        ensures { result ≡ is_corrupt self.now member }
    {
        let flag = match member {
            Member::Client(i) => self.corrupt_clients.get(i.0 as usize),
            Member::Server(j) => self.corrupt_servers.get(j.0 as usize),
        };
        flag == Some(&true)
    }

    /// Whose key it is: a slot's key is its owner's.
    pub fn member_of(&self, who: SignerId) -> Option<Member>
        ensures { result ≡ member_of self.now who }
    {
        match who {
            SignerId::Client(i) => Some(Member::Client(i)),
            SignerId::Server(j) => Some(Member::Server(j)),
            SignerId::Slot(SlotId(s)) => Some(Member::Client(*self.owners.get(s as usize)?)),
        }
    }

    /// Whether the key is that of a member that isn't corrupt.
    pub fn is_honest_key(&self, who: SignerId) -> bool
        ensures { IsTrue result ↔ IsHonestKey self.now who }
    {
        match self.member_of(who) {
            Some(member) => !self.is_corrupt(member),
            None => false,
        }
    }

    /// Whether some server isn't corrupt.
    pub fn has_honest_server(&self) -> bool
        ensures { IsTrue result ↔ ((j : Server) × IsHonestServer self.now j) }
    {
        self.corrupt_servers.contains(&false)
    }
}
