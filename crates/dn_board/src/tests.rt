ghost use Rattle.std.specs.Prelude.{◌≡◌, ◌∷◌, [], None, length};
ghost use Rattle.dn_counts.specs.Numbers.{least};
ghost use Rattle.dn_board.specs.Reads.{last_place};

use crate::{Board, Letter, Letters, Post};
use dn_memory::NoMemory;
use dn_turns::{TurnPass, Turns};
use dn_wire::{Bytes, ServerId};
use std::alloc::Global;
use std::sync::Wait;
use std::test::Fail;

// Gives a post of this author with one letter, which has the byte alone. What the author has read is the last post under the
// pass's number.
fn give_one<R: Wait>(
    rt: &R,
    alloc: Global,
    lock: &Turns<Board>,
    pass: &mut TurnPass<Board>,
    author: ServerId,
    byte: u8,
) -> Result<(), NoMemory>
    requires { (pass.old.lock ≡ lock.now) × (pass.old.turn ≡ None) }
    ensures { (pass.new.lock ≡ pass.old.lock) × (pass.new.turn ≡ None) }
{
    let letter = Letter {
        from: author,
        to: ServerId(2),
        payload: Bytes::of(vec![in alloc; byte]?),
    };
    let letters = Letters::of(vec![in alloc; letter]?);
    let Ok(turn) = lock.take(rt, pass) else {
        return Err(NoMemory);
    };
    let read = turn.log().last(pass.number());
    lock.give(
        pass,
        turn,
        Post {
            author,
            read,
            letters,
        },
    );
    Ok(())
}

// For each post: what it had read, its author, and how many letters it has.
fn posts(alloc: Global, board: &Board) -> Result<Vec<(u64, ServerId, usize)>, NoMemory> {
    let mut found = Vec::new(alloc);
    for place in 1..board.len() {
        let post = board.post(place);
        found.push((post.read, post.author, post.letters.get().len()))?;
    }
    Ok(found)
}

// The posts that the pass finds when its turn has come. It then gives an empty one.
fn find<R: Wait>(
    rt: &R,
    alloc: Global,
    lock: &Turns<Board>,
    pass: &mut TurnPass<Board>,
) -> Result<Vec<(u64, ServerId, usize)>, NoMemory>
    requires { (pass.old.lock ≡ lock.now) × (pass.old.turn ≡ None) }
{
    let Ok(turn) = lock.take(rt, pass) else {
        return Err(NoMemory);
    };
    let found = posts(alloc, turn.log());
    let read = turn.log().last(pass.number());
    let nothing = Post {
        author: ServerId(0),
        read,
        letters: Letters::of(Vec::new(alloc)),
    };
    lock.give(pass, turn, nothing);
    found
}

#[test]
fn two_passes_give_posts(rt: HostRuntime) -> Result<(), Fail> {
    let alloc: Global = rt.alloc();
    let board = Board::make(alloc, Vec::new(alloc)).expect(&rt, "memory");
    assert_eq!(rt; (board.len(), board.first().len()), (1, 0));
    let (lock, mut passes) = Turns::make(alloc, board, 2).expect(&rt, "memory");
    let mut second = passes.pop().expect(&rt, "two passes");
    let mut first = passes.pop().expect(&rt, "two passes");
    give_one(&rt, alloc, &lock, &mut second, ServerId(1), 7).expect(&rt, "a turn");
    give_one(&rt, alloc, &lock, &mut first, ServerId(0), 8).expect(&rt, "a turn");
    give_one(&rt, alloc, &lock, &mut second, ServerId(1), 9).expect(&rt, "a turn");
    lock.join(&mut first, second);
    let found = find(&rt, alloc, &lock, &mut first).expect(&rt, "memory");
    assert_eq!(rt;
        found.as_slice(),
        [
            (0, ServerId(1), 1),
            (0, ServerId(0), 1),
            (1, ServerId(1), 1)
        ]
        .as_slice()
    );
    Ok(())
}
