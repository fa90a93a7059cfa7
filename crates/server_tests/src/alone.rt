// The only server of a group with one client.
use dn_server::Reason;
use played_groups::{Outcome, PlayedGroup, Word};
use std::test::Fail;

#[test]
fn an_empty_round_is_certified(rt: HostRuntime) -> Result<(), Fail> {
    let mut group = PlayedGroup::deal(rt.alloc(), 1, 1, 1)?;
    assert_eq!(rt;
        group.opens(0, 1)?.words.as_slice(),
        [Word::Opened].as_slice()
    );
    let done = group.closes(&rt, 0)?;
    let posts = [
        Word::Closed,
        Word::Post,
        Word::Post,
        Word::Post,
        Word::Post,
        Word::Certified,
        Word::Post,
    ];
    assert_eq!(rt; done.words.as_slice(), posts.as_slice());
    let nothing = Outcome {
        r: 1,
        is_thin: false,
        listed: 0,
        bits: 8,
        ones: 0,
    };
    assert_eq!(rt; done.outcomes.as_slice(), [nothing].as_slice());
    Ok(())
}

#[test]
fn nothing_runs_before_a_round_is_opened(rt: HostRuntime) -> Result<(), Fail> {
    let mut group = PlayedGroup::deal(rt.alloc(), 1, 1, 1)?;
    let shut = [Word::Ignored(Reason::Shut)];
    assert_eq!(rt; group.closes(&rt, 0)?.words.as_slice(), shut.as_slice());
    let idle = [Word::Ignored(Reason::Idle)];
    assert_eq!(rt; group.abandons(0)?.words.as_slice(), idle.as_slice());
    assert_eq!(rt; group.ticks(&rt, 0)?.words.len(), 0);
    Ok(())
}

#[test]
fn a_round_that_was_abandoned_is_over(rt: HostRuntime) -> Result<(), Fail> {
    let mut group = PlayedGroup::deal(rt.alloc(), 1, 1, 1)?;
    let _opened = group.opens(0, 3)?;
    let abandoned = [Word::Abandoned];
    assert_eq!(rt; group.abandons(0)?.words.as_slice(), abandoned.as_slice());
    let old = [Word::Ignored(Reason::Old)];
    assert_eq!(rt; group.opens(0, 3)?.words.as_slice(), old.as_slice());
    Ok(())
}

#[test]
fn a_key_with_three_leaves_left_is_spent(rt: HostRuntime) -> Result<(), Fail> {
    let mut group = PlayedGroup::deal(rt.alloc(), 1, 1, 1)?;
    for r in 1..8 {
        let _opened = group.opens(0, r)?;
        let _closed = group.closes(&rt, 0)?;
    }
    // Seven rounds took 28 of 32 leaves, so that an eighth could be opened; one more signature leaves three.
    let _signed = group.commits(0, 7, [5; 32])?;
    let spent = [Word::Ignored(Reason::Spent)];
    assert_eq!(rt; group.opens(0, 8)?.words.as_slice(), spent.as_slice());
    Ok(())
}
