// The numbers by which a window closes.
ghost use Rattle.std.specs.Prelude.{◌≡◌, ◌+◌, ◌*◌, ◌<◌, ◌≤◌};
ghost use Rattle.dn_window.specs.Closing.{enough as enough_of, closing_after as closing_tick_after};

/// The last tick at which a window closes.
pub const LAST_TICK: u32 = 100;

/// How many submissions are enough, of so many expected.
pub fn enough(expected: u32) -> u32
    ensures { result ≡ enough_of expected }
{
    (95 * u64::from(expected)).div_ceil(100) as u32
}

/// The closing tick, where enough submissions were first in at t ticks.
pub fn closing_after(t: u32) -> u32
    requires { t ≤ 100 }
    ensures { result ≡ closing_tick_after t }
{
    (t + 1).max((11 * t).div_ceil(10)).min(LAST_TICK)
}
