// What servers make of each other's statements.
use dn_server::{Reason, SpoilReason};
use dn_wire::Bytes;
use played_groups::{Letter, PlayedGroup, Word, same_letters};
use played_rounds::PlayFault;
use std::test::Fail;
use std::thread::Threads;

/// What server 1 of three puts in round 1 when it has all inventories: its commitment, for each of the others.
fn commitment<R: Threads + Sync>(
    rt: &R,
    group: &mut PlayedGroup,
) -> Result<Vec<Letter>, PlayFault> {
    for j in 0..3 {
        let _opened = group.opens(j, 1)?;
    }
    let _own = group.closes(rt, 1)?;
    let of_first = group.closes(rt, 0)?.letters;
    let of_last = group.closes(rt, 2)?.letters;
    let _waits = group.gets(rt, 1, &of_first)?;
    Ok(group.gets(rt, 1, &of_last)?.letters)
}

/// Whether the payload of an envelope carries this statement, which has the bytes of a commitment: a kind, a round and a digest.
fn carries_commitment(payload: &Bytes, statement: &Bytes) -> bool {
    // In front of it stand the payload's tag, the signer and the number of bytes.
    match payload.get().split_at_checked(10) {
        Some((_, rest)) => statement.get().len() == 41 && rest.starts_with(statement.get()),
        None => false,
    }
}

#[test]
fn a_second_commitment_spoils_the_round(rt: HostRuntime) -> Result<(), Fail> {
    let mut group = PlayedGroup::deal(rt.alloc(), 1, 1, 3)?;
    let commits = commitment(&rt, &mut group)?;
    let other = group.commits(1, 1, [5; 32])?;
    assert_eq!(rt; commits.len(), 2);
    assert_eq!(rt; group.gets(&rt, 0, &commits)?.words.len(), 0);
    let again = [Word::Ignored(Reason::Repeat)];
    assert_eq!(rt;
        group.gets(&rt, 0, &commits)?.words.as_slice(),
        again.as_slice()
    );
    let done = group.hears(&rt, 0, &other)?;
    let spoiled = [Word::Spoiled(1, SpoilReason::Twice)];
    assert_eq!(rt; done.words.as_slice(), spoiled.as_slice());
    // What was kept, and what came.
    assert_eq!(rt; done.against.len(), 2);
    assert!(rt; carries_commitment(&commits[0].payload, &done.against[0]));
    assert!(rt; carries_commitment(&other, &done.against[1]));
    Ok(())
}

/// What the server at place `j` puts as its window closes, and when the inventory of the other server reaches it.
fn puts<R: Threads + Sync>(
    rt: &R,
    group: &mut PlayedGroup,
    j: u32,
    inventory: &[Letter],
) -> Result<Vec<Letter>, PlayFault> {
    let mut letters = group.closes(rt, j)?.letters;
    for letter in group.gets(rt, j, inventory)?.letters {
        letters.push(letter)?;
    }
    Ok(letters)
}

#[test]
fn a_twin_puts_the_same_bytes(rt: HostRuntime) -> Result<(), Fail> {
    let mut group = PlayedGroup::deal(rt.alloc(), 1, 1, 2)?;
    let _opened = group.opens(0, 1)?;
    let _other = group.opens(1, 1)?;
    group.twins(0)?;
    let inventory = group.closes(&rt, 1)?.letters;
    // An inventory and a commitment.
    let letters = puts(&rt, &mut group, 0, &inventory)?;
    let of_twin = puts(&rt, &mut group, 2, &inventory)?;
    assert_eq!(rt; letters.len(), 2);
    assert!(rt; same_letters(&letters, &of_twin));
    Ok(())
}
