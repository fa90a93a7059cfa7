// Lines `window N E EVENT=ANSWER ..`: a window over N clients that expects E of them. The events are `submit:I`,
// answered by what client I is told, and `tick` and `close`, answered by 1 where the window closes by them and by 0
// where it doesn't; `ticks` and `count` ask what the window has counted.

ghost use Rattle.std.specs.Prelude.{◌≡◌};
ghost use Rattle.dn_window.specs.Window.{clients_of};

use crate::fields::number_at;
use crate::memory::given;
use anyhow::{Context, Result, ensure};
use dn_window::{Window, WindowTold};
use dn_wire::ClientId;
use std::alloc::Global;

/// A window with the number of its clients.
#[derive(Drop)]
struct Watched {
    clients: u32,
    window: Window,
    ghost counted: { clients ≡ clients_of window },
}

impl Watched {
    /// What a client is told that submits.
    fn told(&mut self, i: u32) -> Result<&'static str> {
        ensure!(i < self.clients, "no client {i}");
        Ok(match self.window.submit(ClientId(i)) {
            WindowTold::Included => "included",
            WindowTold::Late => "late",
            WindowTold::Repeat => "repeat",
        })
    }

    /// Whether the window answers an event so.
    fn answers(&mut self, event: &str, answer: &str) -> Result<bool> {
        match event {
            "tick" => Ok(u32::from(self.window.tick()) == number_at(&[answer], 0)?),
            "close" => Ok(u32::from(self.window.close()) == number_at(&[answer], 0)?),
            "ticks" => Ok(self.window.ticks() == number_at(&[answer], 0)?),
            "count" => Ok(self.window.count() == number_at(&[answer], 0)?),
            _ => {
                let client = event.strip_prefix("submit:").context("no such event")?;
                Ok(self.told(number_at(&[client], 0)?)? == answer)
            }
        }
    }
}

/// Whether the window answers each event as the line says.
pub fn passes(alloc: Global, fields: &[&str]) -> Result<bool> {
    let clients = number_at(fields, 0)?;
    let window = given(Window::start(alloc, clients, number_at(fields, 1)?))?;
    let mut watched = Watched { clients, window };
    for field in fields.iter().skip(2) {
        let (event, answer) = field.split_once('=').context("an event has no answer")?;
        if !watched.answers(event, answer)? {
            return Ok(false);
        }
    }
    Ok(true)
}
