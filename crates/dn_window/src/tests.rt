// Windows whose answers are known.
ghost use Rattle.std.specs.Prelude.{◌≡◌, ◌≤◌};
ghost use Rattle.dn_window.specs.Window.{clients_of};

use crate::window::Window;
use dn_told::WindowTold;
use dn_wire::ClientId;
use std::process::Abort;
use std::test::Fail;

/// Takes the submissions of the clients below n, all of them in time.
fn submit_below(rt: &impl Abort, window: &mut Window, n: u32)
    requires { n ≤ clients_of window.old }
    ensures { clients_of window.new ≡ clients_of window.old }
{
    for i in 0..n {
        assert_eq!(rt; window.submit(ClientId(i)), WindowTold::Included);
    }
}

/// Counts n ticks, of which none closes the window.
fn tick_open(rt: &impl Abort, window: &mut Window, n: u32)
    ensures { clients_of window.new ≡ clients_of window.old }
{
    for _i in 0..n {
        assert!(rt; !window.tick());
    }
}

#[test]
fn a_tenth_more_than_the_tick_of_enough(rt: HostRuntime) -> Result<(), Fail> {
    let mut window = Window::start(rt.alloc(), 20, 20)?;
    submit_below(&rt, &mut window, 18);
    tick_open(&rt, &mut window, 10);
    assert_eq!(rt; window.submit(ClientId(18)), WindowTold::Included);
    assert!(rt; window.tick());
    assert_eq!(rt; window.submit(ClientId(19)), WindowTold::Late);
    assert_eq!(rt; (window.ticks(), window.count()), (11, 19));
    Ok(())
}

#[test]
fn all_of_them_before_the_closing_tick(rt: HostRuntime) -> Result<(), Fail> {
    let mut window = Window::start(rt.alloc(), 20, 20)?;
    submit_below(&rt, &mut window, 18);
    tick_open(&rt, &mut window, 10);
    assert_eq!(rt; window.submit(ClientId(18)), WindowTold::Included);
    assert_eq!(rt; window.submit(ClientId(19)), WindowTold::Included);
    assert!(rt; window.tick());
    assert_eq!(rt; (window.ticks(), window.count()), (11, 20));
    Ok(())
}

#[test]
fn a_hundred_ticks_at_most(rt: HostRuntime) -> Result<(), Fail> {
    let mut window = Window::start(rt.alloc(), 2, 2)?;
    assert_eq!(rt; window.submit(ClientId(0)), WindowTold::Included);
    assert_eq!(rt; window.submit(ClientId(0)), WindowTold::Repeat);
    tick_open(&rt, &mut window, 99);
    assert!(rt; window.tick());
    assert_eq!(rt; window.submit(ClientId(1)), WindowTold::Late);
    assert_eq!(rt; (window.ticks(), window.count()), (100, 1));
    Ok(())
}

#[test]
fn one_client_closes_at_the_next_tick(rt: HostRuntime) -> Result<(), Fail> {
    let mut window = Window::start(rt.alloc(), 1, 1)?;
    assert!(rt; !window.has(ClientId(0)));
    assert_eq!(rt; window.submit(ClientId(0)), WindowTold::Included);
    assert!(rt; window.has(ClientId(0)) && window.tick() && window.is_closed());
    assert!(rt; !window.close() && !window.tick());
    assert_eq!(rt; (window.ticks(), window.count()), (1, 1));
    Ok(())
}
