// Messages in flight: put, walked and taken, and the departure of a sender.
ghost use Rattle.std.specs.Prelude.{◌≡◌, ◌<◌};

use anyhow::{Result, bail, ensure};
use dn_flight::{Flight, PutFault};
use dn_nodes::Steps;
use dn_wire::{ClientId, Member, ServerId};
use std::alloc::Global;
use std::marker::Brand;
use std::rt::Clock;
use std::sync::ledger::{Blank, Ledger};
use std::time::Instant;

const SERVER: Member = Member::Server(ServerId(0));

const LEAVER: Member = Member::Client(ClientId(512));

/// Puts so many messages to the server, from 512 clients in turn.
fn put_all(flight: &mut Flight, count: u32) -> std::result::Result<(), PutFault> {
    for i in 0..count {
        let from = Member::Client(ClientId(i % 512));
        flight.put(from, SERVER, u64::from(i))?;
    }
    Ok(())
}

/// Walks the server's messages, and takes each. How many there were.
fn take_all(flight: &mut Flight, count: u32) -> u32 {
    let mut taken = 0u32;
    for _ in 0..count {
        let Some(id) = flight.first_to(SERVER) else {
            break;
        };
        let next = flight.next_to(id);
        let after = flight.after(id);
        if flight.take(id).is_some() && next == after {
            taken = taken.saturating_add(1);
        }
    }
    taken
}

/// Puts a message of one client and has that client leave, so many times. How many messages were dropped.
fn leave<L: Ledger>(
    flight: &mut Flight,
    times: u32,
    blank: Blank,
) -> std::result::Result<u32, PutFault>
    requires { (blank.name ≡ L.name) × (blank.parts ≡ L.parts) × (0 < L.parts) }
{
    let mut steps: Steps<L> = Steps::none(blank);
    let mut dropped = 0u32;
    for _ in 0..times {
        flight.put(LEAVER, SERVER, 0)?;
        dropped = dropped.saturating_add(flight.drop_from(LEAVER, &mut steps));
    }
    Ok(dropped)
}

/// Puts so many messages, has a client leave so many times among them, and then walks and takes them all. The line has how many were
/// dropped and taken. The seconds of all puts, walks and takes, and of one departure with its message's put, are written to standard
/// error.
pub fn line(rt: &(impl Clock + Eprint), alloc: Global, count: u32, times: u32) -> Result<String> {
    ensure!(times != 0, "no departures");
    let Ok(mut flight) = Flight::make(alloc) else {
        bail!("no memory");
    };
    let start = Instant::now(rt)?;
    let Ok(()) = put_all(&mut flight, count) else {
        bail!("not put");
    };
    let put = start.elapsed(rt)?.as_secs_f64();

    let start = Instant::now(rt)?;
    let Ok(dropped) = leave::<Brand>(&mut flight, times, Blank::new(1)) else {
        bail!("not put");
    };
    let depart = start.elapsed(rt)?.as_secs_f64() / f64::from(times);

    let start = Instant::now(rt)?;
    let taken = take_all(&mut flight, count);
    let all = put + start.elapsed(rt)?.as_secs_f64();
    eprintln!(rt; "all {all:.6} depart {depart:.9}")?;
    Ok(format!(in alloc; "{dropped} {taken}")?)
}
