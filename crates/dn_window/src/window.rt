// The window.
ghost use Rattle.std.specs.Prelude.{◌≡◌, ◌<◌, ◌++◌, ◌∷◌, [], List, not, true, IfOk};
ghost use Rattle.dn_told.specs.Window.{WindowEvent, Submit, told_after, is_closed};
ghost use Rattle.dn_window.specs.Closing.{tick_closes, with_tick, with_close};
ghost use Rattle.dn_window.specs.Window.{WindowState, IsAfter, opened, told_by, with_submission, is_due, ticked, has_of, clients_of};

use crate::closing::{LAST_TICK, closing_after, enough};
use dn_memory::NoMemory;
use dn_told::WindowTold;
use dn_wire::ClientId;
use std::alloc::Global;
use std::marker::Model;

/// A submission window over clients counted from 0.
#[derive(Drop)]
pub struct Window {
    expected: u32,
    submitted: Vec<bool>,
    count: u32,
    ticks: u32,
    closing_tick: u32,
    closed: bool,
}

impl Model for Window {
    ghost use Rattle.dn_window.specs.Window.{WindowState, IsKept};

    ghost Value = { WindowState };

    ghost view = { λ w. record { expected = w.expected; submitted = w.submitted.items; count = w.count; ticks = w.ticks; closing_tick = w.closing_tick; closed = w.closed } };

    ghost invariant = { λ w. IsKept (record { expected = w.expected; submitted = w.submitted.items; count = w.count; ticks = w.ticks; closing_tick = w.closing_tick; closed = w.closed }) };
}

impl Window {
    /// A window for n clients that expects so many of them, open, with no tick counted.
    pub fn start(alloc: Global, n: u32, expected: u32) -> Result<Window, NoMemory>
        ensures opened { IfOk result (λ w. w ≡ opened n expected) }
        ensures history { IfOk result (λ w. IsAfter w []) }
    {
        let submitted = vec![in alloc; false; n as usize]?;
        let closing_tick = if enough(expected) == 0 {
            closing_after(0)
        } else {
            LAST_TICK
        };
        Ok(Window {
            expected,
            submitted,
            count: 0,
            ticks: 0,
            closing_tick,
            closed: false,
        })
    }

    /// An equal window.
    pub fn copy(&self, alloc: Global) -> Result<Window, NoMemory>
        ensures { IfOk result (λ w. w ≡ self.now) }
    {
        Ok(Window {
            expected: self.expected,
            submitted: Vec::from_slice(alloc, &self.submitted)?,
            count: self.count,
            ticks: self.ticks,
            closing_tick: self.closing_tick,
            closed: self.closed,
        })
    }

    /// Takes a submission of client i and says what the client is told.
    pub fn submit(&mut self, i: ClientId) -> WindowTold
        requires { i.0 < clients_of self.old }
        ensures told { result ≡ told_by self.old i.0 }
        ensures after { self.new ≡ with_submission self.old i.0 }
        ensures one_list { (events : List WindowEvent) → IsAfter self.old events → result ≡ told_after [] events i.0 }
        ensures history { (events : List WindowEvent) → IsAfter self.old events
            → IsAfter self.new (events ++ Submit i.0 ∷ []) }
        ensures clients { clients_of self.new ≡ clients_of self.old }
        ensures expected { self.new.expected ≡ self.old.expected }
    {
        self.enter(i.0 as usize)
    }

    /// Marks the client, counts it where it comes in time, and sets the closing tick where that makes enough.
    fn enter(&mut self, client: usize) -> WindowTold
        requires { client < clients_of self.old }
        ensures told { result ≡ told_by self.old client }
        ensures after { self.new ≡ with_submission self.old client }
        ensures clients { clients_of self.new ≡ clients_of self.old }
        ensures expected { self.new.expected ≡ self.old.expected }
    {
        if self.submitted[client] {
            return WindowTold::Repeat;
        }
        self.submitted[client] = true;
        if self.closed {
            return WindowTold::Late;
        }
        self.count += 1;
        if self.count == enough(self.expected) {
            self.closing_tick = closing_after(self.ticks);
        }
        WindowTold::Included
    }

    /// Counts a tick, and says whether the window closed by it. A closed window counts none and stays as it is.
    pub fn tick(&mut self) -> bool
        ensures closes { result ≡ is_due self.old }
        ensures after { self.new ≡ ticked self.old }
        ensures one_list { (events : List WindowEvent) → IsAfter self.old events
            → result ≡ tick_closes self.old.expected events }
        ensures history { (events : List WindowEvent) → IsAfter self.old events
            → IsAfter self.new (with_tick self.old.expected events) }
        ensures clients { clients_of self.new ≡ clients_of self.old }
        ensures expected { self.new.expected ≡ self.old.expected }
    {
        if self.closed {
            return false;
        }
        self.ticks += 1;
        self.closed = self.closing_tick <= self.ticks;
        self.closed
    }

    /// Closes the window, and says whether it was open.
    pub fn close(&mut self) -> bool
        ensures closes { result ≡ not self.old.closed }
        ensures after { self.new ≡ record self.old { closed = true } }
        ensures one_list { (events : List WindowEvent) → IsAfter self.old events → result ≡ not (is_closed events) }
        ensures history { (events : List WindowEvent) → IsAfter self.old events → IsAfter self.new (with_close events) }
    {
        let was_open = !self.closed;
        self.closed = true;
        was_open
    }

    /// The ticks counted.
    pub fn ticks(&self) -> u32
        ensures { result ≡ self.now.ticks }
    {
        self.ticks
    }

    /// How many clients were told Included.
    pub fn count(&self) -> u32
        ensures { result ≡ self.now.count }
    {
        self.count
    }

    pub fn is_closed(&self) -> bool
        ensures { result ≡ self.now.closed }
    {
        self.closed
    }

    /// Whether client i submitted.
    pub fn has(&self, i: ClientId) -> bool
        requires { i.0 < clients_of self.now }
        ensures { result ≡ has_of self.now i.0 }
    {
        self.submitted[i.0 as usize]
    }
}
