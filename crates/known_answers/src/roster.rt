// Groups that are dealt: `N M OTS CLMS SLMS`, the numbers of clients and servers and the type codes, beside a version and a
// seed. After `dealt SEED roster` stand these and the roster's bytes, which don't go by the version.
ghost use Rattle.std.specs.Prelude.{◌≤◌, IfOk};
ghost use Rattle.dn_roster.specs.Group.{IsWithinLimits};

use crate::fields::{ends_in, number_at};
use crate::memory::given;
use anyhow::{Result, ensure};
use dn_roster::{GroupSpec, Roster};
use dn_seal::deal;
use std::alloc::Global;

/// The group of this version, these numbers and this seed, where they are within the limits of a group.
fn group_of(version: u8, seed: [u8; 32], fields: &[&str]) -> Result<GroupSpec>
    requires { (1 ≤ version) × (version ≤ 2) }
    ensures { IfOk result (λ group. IsWithinLimits group) }
{
    let group = GroupSpec {
        version,
        clients: number_at(fields, 0)?,
        servers: number_at(fields, 1)?,
        ots: number_at(fields, 2)?,
        client_lms: number_at(fields, 3)?,
        server_lms: number_at(fields, 4)?,
        seed,
    };
    ensure!(
        1 <= group.clients && group.clients <= 512,
        "no such clients"
    );
    ensure!(1 <= group.servers && group.servers <= 16, "no such servers");
    ensure!(1 <= group.ots && group.ots <= 4, "no such keys");
    ensure!(
        5 <= group.client_lms && group.client_lms <= 6,
        "no such client keys"
    );
    ensure!(
        5 <= group.server_lms && group.server_lms <= 7,
        "no such server keys"
    );
    Ok(group)
}

/// The roster of a group of this version that is dealt from this seed.
pub fn roster_of(alloc: Global, version: u8, seed: [u8; 32], fields: &[&str]) -> Result<Roster>
    requires { (1 ≤ version) × (version ≤ 2) }
{
    let group = group_of(version, seed, fields)?;
    Ok(given(deal(alloc, &group))?.roster)
}

/// Whether the roster's bytes are those of the line.
pub fn passes(alloc: Global, seed: [u8; 32], fields: &[&str]) -> Result<bool> {
    let roster = roster_of(alloc, 1, seed, fields)?;
    let bytes = given(roster.roster_bytes(alloc))?;
    ends_in(alloc, fields, 5, &bytes)
}
