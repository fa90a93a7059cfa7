ghost use Rattle.std.specs.Prelude.{◌≡◌, ◌<◌, ◌*◌, ◌+◌, ◌≤◌};

use crate::{Flight, Msg, PutFault};
use dn_memory::NoMemory;
use dn_nodes::Steps;
use dn_wire::{ClientId, Member, ServerId};
use std::alloc::Global;
use std::marker::Brand;
use std::sync::ledger::{Blank, Ledger};
use std::test::Fail;

const S0: Member = Member::Server(ServerId(0));

fn client(i: u32) -> Member {
    Member::Client(ClientId(i))
}

// The numbers of the messages to the receiver, in order.
fn walk(alloc: Global, flight: &Flight, to: Member) -> Result<Vec<u64>, NoMemory> {
    let mut found = Vec::new(alloc);
    let mut next = flight.first_to(to);
    for _ in 0..8 {
        let Some(id) = next else { break };
        found.push(id)?;
        next = flight.next_to(id);
    }
    Ok(found)
}

fn put_all(flight: &mut Flight, senders: &[u32]) -> Result<(), PutFault> {
    for &i in senders {
        flight.put(client(i), S0, 7)?;
    }
    Ok(())
}

// Takes a sender's messages out, twice: how many there were each time.
fn drop_twice<L: Ledger>(flight: &mut Flight, m: Member, blank: Blank) -> (u32, u32)
    requires { (blank.name ≡ L.name) × (blank.parts ≡ L.parts) × (0 < L.parts) }
{
    let mut steps: Steps<L> = Steps::none(blank);
    let first = flight.drop_from(m, &mut steps);
    let second = flight.drop_from(m, &mut steps);
    (first, second)
}

#[test]
fn a_sender_leaves(rt: HostRuntime) -> Result<(), Fail> {
    let alloc: Global = rt.alloc();
    let mut flight = Flight::make(alloc)?;
    put_all(&mut flight, &[0, 1, 0, 2, 0, 1]).expect(&rt, "memory");
    let gone = drop_twice::<Brand>(&mut flight, client(0), Blank::new(1));
    assert_eq!(rt; gone, (3, 0));
    let left = walk(alloc, &flight, S0)?;
    assert_eq!(rt; left.as_slice(), [1, 3, 5].as_slice());
    assert_eq!(rt; flight.put(client(0), client(1), 9), Ok(6));
    assert_eq!(rt;
        (flight.first(), flight.after(1), flight.after(6)),
        (Some(1), Some(3), None)
    );
    let msg = Msg {
        id: 3,
        from: client(2),
        to: S0,
        payload: 7,
    };
    assert_eq!(rt;
        (flight.get(3), flight.take(3), flight.get(3)),
        (Some(msg), Some(msg), None)
    );
    assert!(rt; flight.lose(5).is_some());
    let left = walk(alloc, &flight, S0)?;
    assert_eq!(rt; left.as_slice(), [1].as_slice());
    Ok(())
}

#[test]
fn no_more_than_65536_messages_are_held(rt: HostRuntime) -> Result<(), Fail> {
    let mut flight = Flight::make(rt.alloc())?;
    for id in 0..65536 {
        assert_eq!(rt; flight.put(client(0), S0, 0), Ok(id));
    }
    assert_eq!(rt; flight.put(client(0), S0, 0), Err(PutFault::Full));
    Ok(())
}
