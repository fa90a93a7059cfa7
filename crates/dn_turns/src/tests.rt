ghost use Rattle.std.specs.Prelude.{◌≡◌, All, None};

use crate::{Entries, TurnPass, Turns};
use dn_memory::NoMemory;
use std::alloc::Global;
use std::sync::Wait;
use std::test::Fail;
use std::thread;
use std::thread::Threads;

type Numbers = Entries<u32>;

// Gives the entry, and tells whether a turn came.
fn give_one<R: Wait>(
    rt: &R,
    lock: &Turns<Numbers>,
    pass: &mut TurnPass<Numbers>,
    entry: u32,
) -> bool
    requires { (pass.old.lock ≡ lock.now) × (pass.old.turn ≡ None) }
    ensures { (pass.new.lock ≡ pass.old.lock) × (pass.new.turn ≡ None) }
{
    match lock.take(rt, pass) {
        Ok(turn) => {
            lock.give(pass, turn, entry);
            true
        }
        Err(_) => false,
    }
}

// The entries that the pass finds when its turn has come. It then gives one of its own.
fn entries<R: Wait>(
    rt: &R,
    lock: &Turns<Numbers>,
    pass: &mut TurnPass<Numbers>,
) -> Result<Vec<(u32, u32)>, NoMemory>
    requires { (pass.old.lock ≡ lock.now) × (pass.old.turn ≡ None) }
{
    match lock.take(rt, pass) {
        Ok(turn) => {
            let found: Result<_, _> = turn.log().pairs.clone();
            lock.give(pass, turn, 0);
            Ok(found?)
        }
        Err(_) => Err(NoMemory),
    }
}

#[test]
fn two_passes_give_two_entries(rt: HostRuntime) -> Result<(), Fail> {
    let log = Entries {
        pairs: Vec::new(rt.alloc()),
    };
    let (lock, mut passes) = Turns::make(rt.alloc(), log, 2).expect(&rt, "memory");
    let mut second = passes.pop().expect(&rt, "two passes");
    let mut first = passes.pop().expect(&rt, "two passes");
    assert_eq!(rt; (first.number(), second.number()), (0, 1));
    assert!(rt; give_one(&rt, &lock, &mut second, 7));
    assert!(rt; give_one(&rt, &lock, &mut first, 8));
    lock.join(&mut first, second);
    assert_eq!(rt; first.number(), 0);
    let found = entries(&rt, &lock, &mut first).expect(&rt, "memory");
    assert_eq!(rt; found.as_slice(), [(1, 7), (0, 8)].as_slice());
    Ok(())
}

// Gives the numbers below the count, and tells how many turns came.
fn give_many<R: Wait>(rt: &R, lock: &Turns<Numbers>, mut pass: TurnPass<Numbers>, count: u32) -> u32
    requires { (pass.lock ≡ lock.now) × (pass.turn ≡ None) }
{
    let mut turns = 0;
    for entry in 0..count {
        if give_one(rt, lock, &mut pass, entry) {
            turns += 1;
        }
    }
    turns
}

// Lets a thread of its own give a hundred numbers with each pass.
fn give_in_threads<R: Threads + Wait + Sync>(
    rt: &R,
    lock: &Turns<Numbers>,
    passes: Vec<TurnPass<Numbers>>,
) -> Result<Vec<u32>, NoMemory>
    requires { All (λ p. (p.lock ≡ lock.now) × (p.turn ≡ None)) passes.items }
{
    let turns = thread::map_vec(rt, passes, &|pass| give_many(rt, lock, pass, 100))?;
    Ok(turns)
}

#[test]
fn four_threads_take_turns(rt: HostRuntime) -> Result<(), Fail> {
    let log = Entries {
        pairs: Vec::new(rt.alloc()),
    };
    let (lock, mut passes) = Turns::make(rt.alloc(), log, 5).expect(&rt, "memory");
    let mut reader = passes.pop().expect(&rt, "five passes");
    let turns = give_in_threads(&rt, &lock, passes).expect(&rt, "memory");
    assert_eq!(rt; turns.as_slice(), [100; 4].as_slice());

    // Each thread's entries stand in its order.
    let found = entries(&rt, &lock, &mut reader).expect(&rt, "memory");
    let mut next = [0; 4];
    for &(number, entry) in &found {
        assert!(rt; number < 4);
        assert_eq!(rt; entry, next[number as usize]);
        next[number as usize] = entry.wrapping_add(1);
    }
    assert_eq!(rt; next, [100; 4]);
    Ok(())
}
