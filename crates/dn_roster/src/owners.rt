ghost use Rattle.std.specs.Prelude.{◌≡◌, map, IfOk};
ghost use Rattle.std.specs.List.{range_with_len};
ghost use Rattle.dn_roster.specs.Owners.{IsOwners, client_id, numbered};

use crate::dealing::owner_number;
use crate::group::GroupSpec;
use dn_memory::NoMemory;
use dn_wire::ClientId;
use std::alloc::Global;

/// The clients with the numbers that are dealt to them.
fn numbered_clients(alloc: Global, group: &GroupSpec) -> Result<Vec<(u64, ClientId)>, NoMemory>
    ensures { IfOk result (λ v. v.items ≡ map (λ i. numbered group.now.seed (client_id i)) (range_with_len 0 group.now.clients)) }
{
    let mut clients = Vec::with_capacity(alloc, group.clients as usize)?;
    for i in 0..group.clients {
        clients.push((owner_number(group, ClientId(i)), ClientId(i)))?;
    }
    Ok(clients)
}

fn without_numbers(alloc: Global, clients: &[(u64, ClientId)]) -> Result<Vec<ClientId>, NoMemory>
    ensures { IfOk result (λ v. v.items ≡ map (λ p. p.1) clients.now) }
{
    let owners = clients.iter().map(|pair| pair.1).collect(alloc)?;
    Ok(owners)
}

/// The owners of the slots, by slot: the clients in ascending order of the numbers that are dealt to them, and of their own
/// where those are equal.
pub fn slot_owners(alloc: Global, group: &GroupSpec) -> Result<Vec<ClientId>, NoMemory>
    ensures { IfOk result (λ v. IsOwners group.now v.items) }
{
    let mut clients = numbered_clients(alloc, group)?;
    clients.sort_unstable();
    let owners = without_numbers(alloc, &clients)?;
    Ok(owners)
}
