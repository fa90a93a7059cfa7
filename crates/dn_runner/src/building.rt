// The group of a script, and its corrupt members.
ghost use Rattle.std.specs.Prelude.{◌≡◌, MatchOption, Some};
ghost use Rattle.dn_roster.specs.Group.{IsWithinLimits};
ghost use Rattle.dn_runner.specs.Play.{HasGroup, corrupt_of, group_of};

use dn_roster::GroupSpec;
use dn_script::{Script, ScriptLine};
use dn_wire::Member;

/// The group, where it is within the limits of groups.
fn within_limits(group: GroupSpec) -> Option<GroupSpec>
    ensures { MatchOption result (¬ IsWithinLimits group) (λ g. (g ≡ group) × IsWithinLimits g) }
{
    if group.version < 1 || 2 < group.version {
        return None;
    }
    if group.clients < 1 || 512 < group.clients || group.servers < 1 || 16 < group.servers {
        return None;
    }
    if group.ots < 1 || 4 < group.ots {
        return None;
    }
    if group.client_lms < 5
        || 6 < group.client_lms
        || group.server_lms < 5
        || 7 < group.server_lms
    {
        return None;
    }
    Some(group)
}

/// The group of a script's first line; None exactly where that says none within the limits.
pub fn group_of(script: &Script) -> Option<GroupSpec>
    ensures { MatchOption result (¬ HasGroup script.now) (λ group. (group_of script.now ≡ Some group) × IsWithinLimits group) }
{
    let (_, line) = script.lines().first()?;
    match line {
        ScriptLine::Group {
            version,
            clients,
            servers,
            ots,
            client_lms,
            server_lms,
            seed,
        } => within_limits(GroupSpec {
            version: *version,
            clients: *clients,
            servers: *servers,
            ots: *ots,
            client_lms: *client_lms,
            server_lms: *server_lms,
            seed: *seed,
        }),
        _ => None,
    }
}

/// The corrupt members that a script's second line names; none without such a line.
pub fn corrupt_of(script: &Script) -> &[Member]
    ensures { result.now ≡ corrupt_of script.now }
{
    match script.lines().get(1) {
        Some((_, ScriptLine::Corrupt(members))) => members.get(),
        _ => &[],
    }
}
