// The dealing of a group.

ghost use Rattle.std.specs.Prelude.{IfSome};
ghost use Rattle.dn_roster.specs.Group.{IsWithinLimits};

use anyhow::{Context, Result, bail};
use dn_roster::GroupSpec;
use dn_seal::deal;
use std::alloc::Global;

/// The group, where it is within the limits.
pub fn within_limits(group: GroupSpec) -> Option<GroupSpec>
    ensures { IfSome result IsWithinLimits }
{
    if group.version < 1 || 2 < group.version {
        return None;
    }
    if group.clients < 1 || 512 < group.clients || group.servers < 1 || 16 < group.servers {
        return None;
    }
    if group.ots < 1 || 4 < group.ots {
        return None;
    }
    if group.client_lms < 5
        || 6 < group.client_lms
        || group.server_lms < 5
        || 7 < group.server_lms
    {
        return None;
    }
    Some(group)
}

/// Deals a group, and tells its digest, the number of its keys and the owner of its first slot.
pub fn line(alloc: Global, group: GroupSpec) -> Result<String> {
    let group = within_limits(group).context("a group outside the limits")?;
    let Ok(dealt) = deal(alloc, &group) else {
        bail!("no memory");
    };
    let digest = hex::encode(alloc, dealt.roster.digest())?;
    let keys = dealt.client_keys.len() as u64
        + dealt.server_keys.len() as u64
        + dealt.slot_keys.len() as u64;
    let first = dealt.owners.first().context("no slot")?;
    let owner = first.0;
    Ok(format!(in alloc; "{digest} keys {keys} first owner {owner}")?)
}
