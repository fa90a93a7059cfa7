// Flags, one for each member of a kind.
ghost use Rattle.std.specs.Prelude.{◌≡◌, false, true, replicate, slice_set, IfOk};

use dn_memory::NoMemory;
use std::alloc::Global;

/// So many flags, none of them set.
pub fn no_flags(alloc: Global, n: u32) -> Result<Vec<bool>, NoMemory>
    ensures { IfOk result (λ v. v.items ≡ replicate n false) }
{
    Ok(vec![in alloc; false; n as usize]?)
}

/// Sets a flag, where there is one of that number.
pub fn mark(flags: &mut Vec<bool>, number: u32)
    ensures { flags.new.items ≡ slice_set flags.old.items number true }
{
    if (number as usize) < flags.len() {
        flags[number as usize] = true;
    }
}
