// A law of the owners of slots, for those who build on it.
ghost use Rattle.std.specs.Prelude.{◌≡◌, List};
ghost use Rattle.dn_wire.specs.declared.ids.ClientId.{ClientId};
ghost use Rattle.dn_roster.specs.declared.group.GroupSpec.{GroupSpec};
ghost use Rattle.dn_roster.specs.Owners.{IsOwners};

/// A group has one list of owners.
pub fn owners_are_one_list()
    ensures { (group : GroupSpec) (xs ys : List ClientId) → IsOwners group xs → IsOwners group ys → xs ≡ ys }
{}
