ghost use Rattle.std.specs.Prelude.{◌≡◌};
ghost use Rattle.dn_cert.specs.Floor.{is_due_thin};

/// Whether a round in which `count` clients count is due to be thin, in a group of this version, where `last` counted in the round of its
/// prev: in version 2, where 100 times `count` is below 95 times `last`.
pub fn is_due_thin(version: u8, count: u32, last: u32) -> bool
    ensures { result ≡ is_due_thin version count last }
{
    version == 2 && 100 * u64::from(count) < 95 * u64::from(last)
}
