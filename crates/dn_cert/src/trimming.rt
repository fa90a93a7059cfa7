ghost use Rattle.std.specs.Prelude.{◌≡◌, ◌<◌, ◌≤◌, ◌++◌, ◌∷◌, [], List, length, All, IfOk};
ghost use Rattle.dn_record_types.specs.declared.inventory.Inventory.{Inventory as InventoryOf};
ghost use Rattle.dn_cert.specs.Trim.{IsInventory, IsTrim};

use dn_memory::NoMemory;
use dn_records::{Entry, Inventory, Listed};
use dn_wire::ServerId;
use std::alloc::Global;

/// The row of a client that a server's entry lists.
fn row(entry: &Entry, server: ServerId) -> Listed
    ensures { result ≡ record { client = entry.now.client; server = server; digest = entry.now.digest } }
{
    Listed {
        client: entry.client,
        server,
        digest: entry.digest,
    }
}

/// The list of the servers below this one with its inventory, whose clients that aren't listed yet come to it.
pub fn list_with(
    alloc: Global,
    listed: &[Listed],
    server: ServerId,
    inventory: &Inventory,
) -> Result<Vec<Listed>, NoMemory>
    requires { IsInventory inventory.now }
    ensures { IfOk result (λ all. (below : List InventoryOf) → length below ≡ server.0 → IsTrim below listed.now → IsTrim (below ++ inventory.now ∷ []) all.items) }
{
    let entries = inventory.entries.get();
    let mut all = Vec::new(alloc);
    let mut i = 0;
    let mut k = 0;
    while i < listed.len() || k < entries.len() {
        if i == listed.len() || (k < entries.len() && entries[k].client.0 < listed[i].client.0) {
            all.push(row(&entries[k], server))?;
            k += 1;
        } else {
            // A client that is listed keeps its row.
            if k < entries.len() && entries[k].client.0 == listed[i].client.0 {
                k += 1;
            }
            all.push(listed[i])?;
            i += 1;
        }
    }
    Ok(all)
}

/// The clients that count in a round, from the inventories of servers 0, 1 and so on: one row for each client that an inventory names,
/// in order of clients. It is that of the least such server.
pub fn trim(alloc: Global, inventories: &[Inventory]) -> Result<Vec<Listed>, NoMemory>
    requires servers { length inventories.now ≤ 16 }
    requires inventories { All IsInventory inventories.now }
    ensures { IfOk result (λ listed. IsTrim inventories.now listed.items) }
{
    let mut listed = Vec::new(alloc);
    for j in 0..inventories.len() {
        listed = list_with(alloc, &listed, ServerId(j as u32), &inventories[j])?;
    }
    Ok(listed)
}
