// Laws of trimmed lists, for those who build on them.
ghost use Rattle.std.specs.Prelude.{◌≡◌, ◌<◌, ℕ, List, length, All, Contains, IsPermutation, slice_get, Some};
ghost use Rattle.std.specs.List.{flat_map, range_with_len};
ghost use Rattle.dn_wire.specs.declared.ids.ClientId.{ClientId};
ghost use Rattle.dn_record_types.specs.declared.inventory.Inventory.{Inventory};
ghost use Rattle.dn_record_types.specs.declared.body.Listed.{Listed};
ghost use Rattle.dn_cert.specs.Trim.{IsInventory, HasEntry, Names, IsTrim, given_to};

/// One list of inventories has one trimmed list.
pub fn trims_are_one()
    ensures { (inventories : List Inventory) (listed other : List Listed) → All IsInventory inventories
        → IsTrim inventories listed → IsTrim inventories other → listed ≡ other }
{}

/// A row of a trimmed list is an entry of its server's inventory, which is one of the inventories; and each client that an inventory names
/// has a row.
pub fn trims_follow_inventories()
    ensures entries { (inventories : List Inventory) (listed : List Listed) (l : Listed) (v : Inventory) → IsTrim inventories listed
        → Contains listed l → slice_get inventories l.server.0 ≡ Some v → HasEntry v l.client l.digest }
    ensures servers { (inventories : List Inventory) (listed : List Listed) → IsTrim inventories listed
        → All (λ l. l.server.0 < length inventories) listed }
    ensures named { (inventories : List Inventory) (listed : List Listed) (j : ℕ) (v : Inventory) (i : ClientId)
        → IsTrim inventories listed → slice_get inventories j ≡ Some v → Names v i
        → (l : Listed) × Contains listed l × (l.client ≡ i) }
{}

/// What a list gives to servers below m is the list itself, where each of its servers is below m; and what it gives to server j are its
/// rows with that server.
pub fn servers_part_the_list()
    ensures whole { (listed : List Listed) (m : ℕ) → All (λ l. l.server.0 < m) listed
        → IsPermutation (flat_map (given_to listed) (range_with_len 0 m)) listed }
    ensures rows { (listed : List Listed) (j : ℕ) → All (λ l. Contains listed l × (l.server.0 ≡ j)) (given_to listed j) }
    ensures given { (listed : List Listed) → All (λ l. Contains (given_to listed l.server.0) l) listed }
{}
