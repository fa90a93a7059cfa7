// What a worker reads on the board.
ghost use Rattle.std.specs.Prelude.{◌≡◌, ◌==◌, ◌+◌, ◌≤◌, ◌<◌, ◌++◌, ◌∷◌, [], length, filter, IfOk, OnOk, Some, slice_get};
ghost use Rattle.dn_crew.specs.Live.{entries, letters_between, payloads_of};

use dn_board::{Board, Letter};
use dn_memory::NoMemory;
use dn_wire::{Bytes, ServerId};
use std::alloc::Global;

/// The letters of an entry.
fn entry(board: &Board, place: u64) -> &[Letter]
    requires { place ≤ length board.now.posts }
    ensures { slice_get (entries board.now.first board.now.posts) place ≡ Some result.now }
{
    if place == 0 {
        board.first()
    } else {
        board.post(place).letters.get()
    }
}

/// Puts the payload of a letter to server `j`.
fn put_one(
    alloc: Global,
    j: ServerId,
    letter: &Letter,
    found: &mut Vec<Bytes>,
) -> Result<(), NoMemory>
    ensures { OnOk result (found.new.items ≡ found.old.items ++ payloads_of (filter (λ l. l.to.0 == j.0) (letter.now ∷ []))) }
{
    if letter.to.0 == j.0 {
        found.push(letter.payload.copy(alloc)?)?;
        Ok(())
    } else {
        Ok(())
    }
}

/// Puts the payloads of the letters to server `j`.
fn put_mine(
    alloc: Global,
    j: ServerId,
    letters: &[Letter],
    found: &mut Vec<Bytes>,
) -> Result<(), NoMemory>
    ensures { OnOk result (found.new.items ≡ found.old.items ++ payloads_of (filter (λ l. l.to.0 == j.0) letters.now)) }
{
    for letter in letters {
        put_one(alloc, j, letter, found)?;
    }
    Ok(())
}

/// The payloads of the letters to server `j` in the entries from a place on.
pub(crate) fn read_from(
    alloc: Global,
    board: &Board,
    j: ServerId,
    from: u64,
) -> Result<Vec<Bytes>, NoMemory>
    requires { from ≤ length board.now.posts }
    ensures { IfOk result (λ v. v.items ≡ payloads_of (letters_between board.now.first board.now.posts j.0 from (length board.now.posts + 1))) }
{
    let mut found = Vec::new(alloc);
    for place in from..board.len() {
        put_mine(alloc, j, entry(board, place), &mut found)?;
    }
    Ok(found)
}
