// Rounds of groups, from their opening to their certificates.
use dn_bits::Bits;
use played_groups::{Outcome, PlayedGroup, ones_in};
use played_rounds::PlayFault;
use std::test::Fail;
use std::thread::Threads;

#[test]
fn two_servers_certify_a_round(rt: HostRuntime) -> Result<(), Fail> {
    let mut group = PlayedGroup::deal(rt.alloc(), 1, 2, 2)?;
    group.says(1)?;
    // One request bit of two is 1, in the round's one byte; and both servers certify the round.
    let asked = Outcome {
        r: 1,
        is_thin: false,
        listed: 2,
        bits: 8,
        ones: 1,
    };
    let submissions = group.submits(1)?;
    let outcomes = group.plays(&rt, 1, submissions)?;
    assert_eq!(rt; outcomes.as_slice(), [asked, asked].as_slice());
    Ok(())
}

#[test]
fn a_round_with_too_few_clients_has_no_data(rt: HostRuntime) -> Result<(), Fail> {
    let alloc = rt.alloc();
    let mut group = PlayedGroup::deal(alloc, 2, 2, 2)?;
    let submissions = group.submits(1)?;
    let _full = group.plays(&rt, 1, submissions)?;
    let thin = Outcome {
        r: 2,
        is_thin: true,
        listed: 0,
        bits: 0,
        ones: 0,
    };
    let outcomes = group.plays(&rt, 2, Vec::new(alloc))?;
    assert_eq!(rt; outcomes.as_slice(), [thin, thin].as_slice());
    Ok(())
}

/// The ciphertext of the only server of a group in round 1, in which all clients submit, with so many workers.
fn sum_with<R: Threads + Sync>(
    rt: &R,
    group: &mut PlayedGroup,
    workers: u32,
) -> Result<Bits, PlayFault> {
    group.renews(0, workers)?;
    let submissions = group.submits(1)?;
    let _opened = group.opens(0, 1)?;
    group.delivers(rt, submissions)?;
    let _closed = group.closes(rt, 0)?;
    group.sum(0)
}

#[test]
fn sums_hang_on_no_number_of_workers(rt: HostRuntime) -> Result<(), Fail> {
    let mut group = PlayedGroup::deal(rt.alloc(), 1, 5, 1)?;
    group.says(2)?;
    let one = sum_with(&rt, &mut group, 1)?;
    // The only server holds all ciphertexts, so that all pads cancel: one request bit of five is left, in the round's one byte.
    assert_eq!(rt; one.len(), 8);
    assert_eq!(rt; ones_in(&one), 1);
    for workers in [2, 4, 16] {
        let sum = sum_with(&rt, &mut group, workers)?;
        assert!(rt; sum.equals(&one), "{workers}");
    }
    Ok(())
}
