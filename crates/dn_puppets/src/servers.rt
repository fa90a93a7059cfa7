// The puppets of corrupt servers, by number.
ghost use Rattle.std.specs.Prelude.{◌≡◌, ◌<◌, ◌≤◌, IfOk, IfSome};
ghost use Rattle.dn_roster.specs.Roster.{RosterView};
ghost use Rattle.dn_puppets.specs.Puppets.{AreOfGroup, IsOfRoster};

use crate::server_puppet::ServerPuppet;
use dn_memory::NoMemory;
use dn_seal::Dealt;
use dn_wire::{Member, ServerId};
use std::alloc::Global;

/// The puppet of a server; none where it isn't corrupt.
fn puppet_of(
    alloc: Global,
    dealt: &Dealt,
    corrupt: &[Member],
    server: ServerId,
    workers: u32,
) -> Result<Option<ServerPuppet>, NoMemory>
    requires within { server.0 < dealt.now.spec.servers }
    requires some { 1 ≤ workers }
    requires few { workers ≤ 16 }
    ensures { IfOk result (IsOfRoster dealt.now.roster) }
{
    if !corrupt.contains(&Member::Server(server)) {
        return Ok(None);
    }
    Ok(Some(ServerPuppet::make(alloc, dealt, server, workers)?))
}

/// The puppets of the servers among the corrupt members.
pub fn server_puppets(
    alloc: Global,
    dealt: &Dealt,
    corrupt: &[Member],
    workers: u32,
) -> Result<Vec<Option<ServerPuppet>>, NoMemory>
    requires some { 1 ≤ workers }
    requires few { workers ≤ 16 }
    ensures { IfOk result (λ v. AreOfGroup dealt.now.roster v.items) }
{
    let mut puppets = Vec::new(alloc);
    for j in 0..dealt.spec.servers {
        puppets.push(puppet_of(alloc, dealt, corrupt, ServerId(j), workers)?)?;
    }
    Ok(puppets)
}

/// Takes a puppet out of its place.
pub fn take_puppet(
    puppets: &mut Vec<Option<ServerPuppet>>,
    server: ServerId,
) -> Option<ServerPuppet>
    ensures { (roster : RosterView) → AreOfGroup roster puppets.old.items
        → AreOfGroup roster puppets.new.items × IfSome result (λ p. p ≡ roster) }
{
    puppets.get_mut(server.0 as usize)?.take()
}

/// Puts a puppet into its place.
pub fn put_puppet(puppets: &mut Vec<Option<ServerPuppet>>, server: ServerId, puppet: ServerPuppet)
    ensures { (roster : RosterView) → AreOfGroup roster puppets.old.items → puppet ≡ roster → AreOfGroup roster puppets.new.items }
{
    if let Some(place) = puppets.get_mut(server.0 as usize) {
        *place = Some(puppet);
    }
}
