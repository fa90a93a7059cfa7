// What holds of all fields.

ghost use Rattle.std.specs.Prelude.{◌<◌, ◌^◌, ℕ};
ghost use Rattle.dn_lines.specs.Exact.{IsExact};
ghost use Rattle.dn_lines.specs.Fields.{between, number, long_number, bytes, client, server, slot, round, member};

/// What is read from a field is spelled so, and what is spelled so is read. No field has a blank in it.
pub fn fields_are_exact()
    ensures limited { (low high : ℕ) → high < 2 ^ 64 → IsExact (between low high) }
    ensures numbers { IsExact number }
    ensures long_numbers { IsExact long_number }
    ensures bytes { IsExact bytes }
    ensures clients { IsExact client }
    ensures servers { IsExact server }
    ensures slots { IsExact slot }
    ensures rounds { IsExact round }
    ensures members { IsExact member }
{}
