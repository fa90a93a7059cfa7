// A place that a client jams, from its accusation to the challenges.
use dn_server::Reason;
use played_groups::{PlayedGroup, Word};
use played_rounds::PlayFault;
use std::test::Fail;
use std::thread::Threads;

/// Plays round 1, in which client 0 asks for a slot, and round 2, in which client 1 jams it.
fn jammed<R: Threads + Sync>(rt: &R, group: &mut PlayedGroup) -> Result<(), PlayFault> {
    group.says(0)?;
    let first = group.submits(1)?;
    let _asked = group.plays(rt, 1, first)?;
    let second = group.jams()?;
    let _jammed = group.plays(rt, 2, second)?;
    Ok(())
}

#[test]
fn a_jammer_is_challenged_by_each_server(rt: HostRuntime) -> Result<(), Fail> {
    let mut group = PlayedGroup::deal(rt.alloc(), 1, 2, 2)?;
    jammed(&rt, &mut group)?;
    let accusation = group.accuses()?;
    // Each server puts its pad bits and its ciphertexts to the other.
    let of_first = group.hears(&rt, 0, &accusation)?.letters;
    let of_last = group.hears(&rt, 1, &accusation)?.letters;
    assert_eq!(rt; of_first.len(), 2);
    assert_eq!(rt; of_last.len(), 2);
    // Each challenges client 1 alone.
    assert_eq!(rt;
        group.gets(&rt, 1, &of_first)?.clients.as_slice(),
        [1].as_slice()
    );
    assert_eq!(rt;
        group.gets(&rt, 0, &of_last)?.clients.as_slice(),
        [1].as_slice()
    );
    // The same accusation again opens nothing more.
    let again = [Word::Ignored(Reason::Repeat)];
    assert_eq!(rt;
        group.hears(&rt, 0, &accusation)?.words.as_slice(),
        again.as_slice()
    );
    assert_eq!(rt;
        group.hears(&rt, 1, &accusation)?.words.as_slice(),
        again.as_slice()
    );
    Ok(())
}
