// Races and live runs, held at places.
ghost use Rattle.std.specs.Prelude.{◌≡◌, ℕ, ◌+◌, ◌<◌, ◌≤◌, All, length, map, IfOk, IfSome, slice_get, vec_len};
ghost use Rattle.std.specs.List.{range_with_len};
ghost use Rattle.dn_counts.specs.Counts.{times};
ghost use Rattle.dn_gate.specs.Pass.{IsFresh};
ghost use Rattle.dn_crew.specs.Race.{numbers_of};

use crate::{Crew, Given, Order, Ordered, Raced, ThreadCrew, race_on};
use dn_gate::{Gate, GatePass};
use dn_io::Hold;
use dn_memory::NoMemory;
use dn_wire::ClientId;
use std::alloc::Global;
use std::sync::Wait;
use std::sync::atomic::AtomicU64;
use std::sync::atomic::Ordering::SeqCst;
use std::test::Fail;
use std::thread;
use std::thread::Threads;

/// How often a worker that is held looks whether it may go on.
const LIMIT: u32 = 20_000_000;

/// Holds who reaches the place `here` until `there` is reached, and who reaches `there` until `back` is so. A bit of `seen` stands for each of the
/// two places.
#[derive(Drop)]
pub(crate) struct Meeting {
    pub here: u32,
    pub there: u32,
    pub back: u64,
    pub seen: AtomicU64,
    pub missed: AtomicU64,
}

const HERE: u64 = 1;

const THERE: u64 = 2;

impl Meeting {
    /// The second place isn't held.
    fn one_way(here: u32, there: u32) -> Meeting {
        Meeting {
            here,
            there,
            back: 0,
            seen: AtomicU64::new(0),
            missed: AtomicU64::new(0),
        }
    }

    /// Each place is held until the other is reached.
    pub(crate) fn both_ways(here: u32, there: u32) -> Meeting {
        Meeting {
            here,
            there,
            back: HERE,
            seen: AtomicU64::new(0),
            missed: AtomicU64::new(0),
        }
    }

    fn wait_for(&self, bits: u64) {
        for _ in 0..LIMIT {
            if self.seen.load(SeqCst) & bits == bits {
                return;
            }
            thread::yield_now();
        }
        self.missed.fetch_add(1, SeqCst);
    }
}

impl Hold for Meeting {
    fn reached(&self, place: u32) {
        if place == self.here {
            self.seen.fetch_or(HERE, SeqCst);
            self.wait_for(THERE);
        }
        if place == self.there {
            self.seen.fetch_or(THERE, SeqCst);
            self.wait_for(self.back);
        }
    }
}

/// Holds nobody.
#[derive(Drop)]
struct Free {}

impl Hold for Free {
    fn reached(&self, _place: u32) {}
}

/// The submissions of these clients, numbered from 0.
fn list_of(alloc: Global, clients: &[u32]) -> Result<Vec<(ClientId, u64)>, NoMemory>
    requires { All (λ c. c < 6) clients.now }
    ensures numbers { IfOk result (λ v. numbers_of v.items ≡ range_with_len 0 (length clients.now)) }
    ensures clients { IfOk result (λ v. All (λ m. m.0.0 < 6) v.items) }
    ensures long { IfOk result (λ v. vec_len v ≡ length clients.now) }
{
    let mut list = Vec::new(alloc);
    for at in 0..clients.len() {
        list.push((ClientId(clients[at]), at as u64))?;
    }
    Ok(list)
}

/// A gate for six clients, and its passes.
fn gate_of(alloc: Global, passes: u32) -> Result<(Gate<u64>, Vec<GatePass<u64>>), NoMemory>
    requires { (2 ≤ passes) × (passes ≤ 17) }
    ensures gate { IfOk result (λ r. (r.0.clients ≡ 6) × (r.0.passes ≡ passes)) }
    ensures passes { IfOk result (λ r. vec_len r.1 ≡ passes) }
    ensures fresh { IfOk result (λ r. (w : ℕ) → IfSome (slice_get r.1.items w) (IsFresh r.0 w)) }
{
    Ok(Gate::make(alloc, 6, &[], passes)?)
}

/// A race of these clients.
fn race<R: Threads + Wait + Sync, H: Hold>(
    rt: &R,
    alloc: Global,
    workers: u32,
    clients: &[u32],
    hold: &H,
) -> Result<Raced, NoMemory>
    requires workers { (1 ≤ workers) × (workers ≤ 16) }
    requires clients { All (λ c. c < 6) clients.now × (length clients.now ≤ 512) }
{
    let list = list_of(alloc, clients)?;
    let (gate, passes) = gate_of(alloc, workers + 1)?;
    race_on(rt, alloc, &gate, passes, &list, hold)
}

/// The same race, by a crew.
fn race_by<R: Threads + Wait + Sync, C: Crew>(
    rt: &R,
    alloc: Global,
    crew: &mut C,
    workers: u32,
    clients: &[u32],
) -> Result<Raced, NoMemory>
    requires workers { (1 ≤ workers) × (workers ≤ 16) }
    requires clients { All (λ c. c < 6) clients.now × (length clients.now ≤ 512) }
{
    let list = list_of(alloc, clients)?;
    let (gate, passes) = gate_of(alloc, workers + 1)?;
    crew.race(rt, alloc, &gate, passes, &list)
}

/// The numbers in an order, sorted, and how often it has the closing.
fn told(alloc: Global, order: &Order) -> Result<(Vec<u64>, u32), Fail> {
    let mut numbers = Vec::new(alloc);
    let mut closings = 0u32;
    for each in order.get() {
        match *each {
            Ordered::Submit(number) => numbers.push(number)?,
            Ordered::Close => closings = closings.saturating_add(1),
        }
    }
    numbers.sort()?;
    Ok((numbers, closings))
}

/// Where a submission stands in an order.
fn place_of(order: &Order, number: u64) -> Option<usize> {
    order
        .get()
        .iter()
        .position(|each| *each == Ordered::Submit(number))
}

#[test]
fn each_number_stands_once_in_a_race(rt: HostRuntime) -> Result<(), Fail> {
    let alloc = rt.alloc();
    let raced = race(&rt, alloc, 3, &[0, 1, 2, 0, 3, 1, 4, 5], &Free {})?;
    let (numbers, closings) = told(alloc, &raced.order)?;
    assert_eq!(rt; numbers.as_slice(), [0, 1, 2, 3, 4, 5, 6, 7].as_slice());
    assert_eq!(rt; closings, 1);
    for (client, number) in raced.placed.get() {
        assert!(rt; [0, 1, 2, 0, 3, 1, 4, 5].get(*number as usize) == Some(&client.0));
    }
    Ok(())
}

#[test]
fn a_submission_waits_for_one_of_another_worker(rt: HostRuntime) -> Result<(), Fail> {
    let alloc = rt.alloc();
    let hold = Meeting::one_way(0, 3);
    let raced = race(&rt, alloc, 2, &[0, 1, 2, 3], &hold)?;
    assert_eq!(rt; hold.missed.load(SeqCst), 0);
    let first = place_of(&raced.order, 1).ok_or("it stands in the order")?;
    let held = place_of(&raced.order, 0).ok_or("it stands in the order")?;
    assert!(rt; first < held);
    Ok(())
}

#[test]
fn two_workers_of_a_race_wait_for_each_other(rt: HostRuntime) -> Result<(), Fail> {
    let alloc = rt.alloc();
    let hold = Meeting::both_ways(0, 1);
    let raced = race(&rt, alloc, 2, &[0, 1, 2, 3], &hold)?;
    assert_eq!(rt; hold.missed.load(SeqCst), 0);
    assert_eq!(rt; told(alloc, &raced.order)?.0.len(), 4);
    Ok(())
}

#[test]
fn a_crew_keeps_the_order_that_it_gave(rt: HostRuntime) -> Result<(), Fail> {
    let alloc = rt.alloc();
    let mut crew = ThreadCrew::make(alloc, Box::new(alloc, Free {})?);
    let raced = race_by(&rt, alloc, &mut crew, 2, &[0, 1, 0])?;
    match crew.get() {
        [Given::Race(order)] => assert!(rt; order.get() == raced.order.get()),
        _ => panic!(rt; "it gave one race"),
    }
    Ok(())
}
