// The expected verdicts were worked out by hand from the reasons.
use crate::scene::{Change, Heard, is_judged};
use dn_trace::Fault;
use dn_wire::{ClientId, Member, ServerId};
use played_rounds::Jam;
use std::process::Abort;
use std::test::Fail;

const C0: Member = Member::Client(ClientId(0));

const C1: Member = Member::Client(ClientId(1));

const C2: Member = Member::Client(ClientId(2));

const S0: Member = Member::Server(ServerId(0));

const S1: Member = Member::Server(ServerId(1));

const S2: Member = Member::Server(ServerId(2));

#[test]
fn a_jammer_is_silent_or_concedes(rt: HostRuntime) -> Result<(), Fail> {
    let alloc = rt.alloc();
    let jam = Jam::Client(2);
    let heard = [
        Heard::Openings,
        // A concession of another client says nothing.
        Heard::Concedes(1),
        Heard::Concedes(2),
        // A rebuttal that isn't good comes first, and two submissions before that.
        Heard::RebutsBadly {
            client: 2,
            server: 1,
        },
        Heard::Submits {
            client: 2,
            digest: 1,
        },
        Heard::Submits {
            client: 2,
            digest: 2,
        },
    ];
    let first: &[Heard] = &heard;
    assert!(rt; is_judged(alloc, 2, jam, Change::Nothing, &[], &[], &[S0, S1])?);
    assert!(rt; is_judged(alloc, 2, jam, Change::Nothing, &first[..1], &[], &[C2])?);
    assert!(rt; is_judged(alloc, 2, jam, Change::Nothing, &first[..2], &[], &[C2])?);
    let conceded = [(C2, Fault::Conceded)];
    assert!(rt; is_judged(alloc, 2, jam, Change::Nothing, &first[..3], &conceded, &[])?);
    let rebutted = [(C2, Fault::Rebuttal)];
    assert!(rt; is_judged(alloc, 2, jam, Change::Nothing, &first[..4], &rebutted, &[])?);
    let doubled = [(C2, Fault::Double)];
    assert!(rt; is_judged(alloc, 2, jam, Change::Nothing, first, &doubled, &[])?);
    Ok(())
}

#[test]
fn an_owner_that_jams_itself_concedes(rt: HostRuntime) -> Result<(), Fail> {
    let heard = [Heard::Openings, Heard::Concedes(0)];
    let blamed = [(C0, Fault::Conceded)];
    assert!(rt;
        is_judged(
            rt.alloc(),
            2,
            Jam::Client(0),
            Change::Nothing,
            &heard,
            &blamed,
            &[]
        )?
    );
    Ok(())
}

#[test]
fn a_bent_server_is_blamed_or_frames_a_client(rt: HostRuntime) -> Result<(), Fail> {
    let alloc = rt.alloc();
    let jam = Jam::Server(1);
    let blamed = [(S1, Fault::Sum)];
    assert!(rt;
        is_judged(
            alloc,
            2,
            jam,
            Change::Nothing,
            &[Heard::Openings],
            &blamed,
            &[]
        )?
    );
    // The framed client rebuts, or is silent where its rebuttal isn't heard.
    let framing = Heard::OpeningsThatFrame {
        server: 1,
        client: 1,
    };
    assert!(rt; is_judged(alloc, 2, jam, Change::Nothing, &[framing], &[], &[C1])?);
    let rebuttal = Heard::Rebuts {
        client: 1,
        server: 1,
    };
    let blamed = [(S1, Fault::Pad)];
    assert!(rt;
        is_judged(
            alloc,
            2,
            jam,
            Change::Nothing,
            &[framing, rebuttal],
            &blamed,
            &[]
        )?
    );
    Ok(())
}

#[test]
fn a_lured_client_is_not_blamed(rt: HostRuntime) -> Result<(), Fail> {
    // Server 2 shows the client other pad bits than it opened.
    let heard = [
        Heard::OpeningsThatFrame {
            server: 1,
            client: 1,
        },
        Heard::Rebuts {
            client: 1,
            server: 2,
        },
    ];
    let blamed = [(S2, Fault::Twice)];
    assert!(rt;
        is_judged(
            rt.alloc(),
            3,
            Jam::Server(1),
            Change::Nothing,
            &heard,
            &blamed,
            &[]
        )?
    );
    Ok(())
}

#[test]
fn what_is_shown_is_compared_with_the_body(rt: HostRuntime) -> Result<(), Fail> {
    let alloc = rt.alloc();
    let heard = [Heard::Openings];
    let blamed = [(S1, Fault::Shown)];
    assert!(rt;
        is_judged(
            alloc,
            2,
            Jam::Client(2),
            Change::Shown(1),
            &heard,
            &blamed,
            &[]
        )?
    );
    // A false output is the fault of all servers.
    let blamed = [(S0, Fault::Output), (S1, Fault::Output)];
    assert!(rt; is_judged(alloc, 2, Jam::Nobody, Change::Output, &heard, &blamed, &[])?);
    Ok(())
}

#[test]
fn statements_of_the_round_are_compared(rt: HostRuntime) -> Result<(), Fail> {
    let alloc = rt.alloc();
    let jam = Jam::Client(2);
    let told = |server: u32, client: u32, late: bool| Heard::Tells {
        server,
        client,
        late,
    };
    // Two receipts of one client, of which one tells it late; and two of different clients.
    let heard = [
        told(0, 9, false),
        told(0, 9, true),
        told(1, 0, false),
        told(1, 1, false),
    ];
    let blamed = [(S0, Fault::Twice)];
    assert!(rt; is_judged(alloc, 2, jam, Change::Nothing, &heard, &blamed, &[S0, S1])?);
    let heard = [Heard::RevealsAnother(1)];
    let blamed = [(S1, Fault::Commit)];
    assert!(rt; is_judged(alloc, 2, jam, Change::Nothing, &heard, &blamed, &[S0, S1])?);
    Ok(())
}

#[test]
fn submissions_in_inventories_are_heard(rt: HostRuntime) -> Result<(), Fail> {
    let alloc = rt.alloc();
    let jam = Jam::Client(2);
    let submission = Heard::Submits {
        client: 0,
        digest: 2,
    };
    assert!(rt;
        is_judged(
            alloc,
            2,
            jam,
            Change::Nothing,
            &[submission],
            &[],
            &[S0, S1]
        )?
    );
    let heard = [submission, Heard::Lists(1)];
    let blamed = [(S1, Fault::Entry), (C0, Fault::Double)];
    assert!(rt; is_judged(alloc, 2, jam, Change::Nothing, &heard, &blamed, &[S0, S1])?);
    Ok(())
}
