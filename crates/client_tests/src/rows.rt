// Rows of what a client is asked for and what it does then, worked out by hand from the client's rule.
use crate::asking::{Asked, At, Does, Lists, Out, first_other};
use crate::scene::Shows;
use dn_client::{AccuseFault, AnswerFault, HoldFault, SubmitFault};
use dn_wire::Round;
use std::test::Fail;

/// A certificate of a round after the one before it.
const fn held(r: u64, prev: u64, lists: Lists, out: Out) -> (Asked, Does) {
    (
        Asked::Hold {
            r,
            prev,
            lists,
            out,
        },
        Does::Holds,
    )
}

const fn unheld(r: u64, prev: u64, out: Out, fault: HoldFault) -> (Asked, Does) {
    (
        Asked::Hold {
            r,
            prev,
            lists: Lists::Nobody,
            out,
        },
        Does::RefusesToHold(fault),
    )
}

const fn submits(r: u64, bits: u32) -> (Asked, Does) {
    (Asked::Submit(r), Does::Submits(bits))
}

const fn submits_not(r: u64, fault: SubmitFault) -> (Asked, Does) {
    (Asked::Submit(r), Does::RefusesToSubmit(fault))
}

const fn accuses_not(r: u64, at: At, fault: AccuseFault) -> (Asked, Does) {
    (Asked::Accuse(r, at), Does::RefusesToAccuse(fault))
}

const fn answers_not(r: u64, k: u32, servers: [Shows; 2], fault: AnswerFault) -> (Asked, Does) {
    (Asked::Answer(r, k, servers), Does::RefusesToAnswer(fault))
}

const fn looks(
    r: u64,
    range: Option<(u32, u32)>,
    start: Option<u32>,
    jammed: bool,
) -> (Asked, Does) {
    (
        Asked::Look(r),
        Does::Shows {
            range,
            start,
            jammed,
        },
    )
}

const TRUTH: [Shows; 2] = [Shows::True, Shows::True];

const LIE: [Shows; 2] = [Shows::True, Shows::False];

const LIES: [Shows; 2] = [Shows::False, Shows::False];

/// The request opens the slot, the block comes out, and nothing waits for round 3.
#[test]
fn a_text_comes_out(rt: HostRuntime) -> Result<(), Fail> {
    let known = HoldFault::Known { r: Round(2) };
    let rows = [
        (Asked::Say, Does::Nothing),
        submits(1, 8),
        held(1, 0, Lists::Own, Out::Own),
        looks(1, None, None, false),
        submits(2, 520),
        looks(2, Some((8, 520)), None, false),
        submits_not(1, SubmitFault::Old { last: Round(2) }),
        held(2, 1, Lists::Own, Out::Own),
        unheld(2, 1, Out::Own, known),
        looks(2, Some((8, 520)), Some(8), false),
        submits(3, 8),
        held(3, 2, Lists::Own, Out::Own),
        submits(4, 8),
    ];
    assert_eq!(rt; first_other(rt.alloc(), &rows)?, None);
    Ok(())
}

/// Where the block was garbled the slot stays open, and where the body lists another digest it closes; the text is sent again after both.
#[test]
fn a_text_that_did_not_come_out_is_sent_again(rt: HostRuntime) -> Result<(), Fail> {
    let rows = [
        (Asked::Say, Does::Nothing),
        submits(1, 8),
        held(1, 0, Lists::Own, Out::Own),
        submits(2, 520),
        held(2, 1, Lists::Own, Out::Garbled),
        submits(3, 520),
        held(3, 2, Lists::Other, Out::Own),
        submits(4, 8),
        held(4, 3, Lists::Own, Out::Own),
        submits(5, 520),
    ];
    assert_eq!(rt; first_other(rt.alloc(), &rows)?, None);
    Ok(())
}

/// A key of height 5 signs 32 submissions; the last one is given again.
#[test]
fn submissions_and_certificates_are_refused(rt: HostRuntime) -> Result<(), Fail> {
    let rows = [
        unheld(6, 5, Out::Zeros(8), HoldFault::NoPrev { prev: Round(5) }),
        unheld(6, 0, Out::Zeros(9), HoldFault::Length { have: 9, need: 8 }),
        (Asked::SubmitEach(1, 33), Does::Submits(8)),
        submits_not(33, SubmitFault::Spent),
        submits(32, 8),
        (Asked::Leave, Does::Nothing),
        submits_not(33, SubmitFault::Left),
        unheld(6, 0, Out::Zeros(8), HoldFault::Left),
    ];
    assert_eq!(rt; first_other(rt.alloc(), &rows)?, None);
    Ok(())
}

/// A slot's key of height 5 accuses at 32 places, and of nothing that isn't a changed bit.
#[test]
fn changed_bits_are_accused_alone(rt: HostRuntime) -> Result<(), Fail> {
    let (own, other) = (
        AccuseFault::NoEvidence {
            own: true,
            out: true,
        },
        AccuseFault::NoEvidence {
            own: false,
            out: false,
        },
    );
    let rows = [
        (Asked::Say, Does::Nothing),
        submits(1, 8),
        held(1, 0, Lists::Own, Out::Own),
        submits(2, 520),
        held(2, 1, Lists::Own, Out::Jammed),
        looks(2, Some((8, 520)), Some(8), true),
        (Asked::Accuse(2, At::OfOnes(false)), Does::Accuses),
        accuses_not(3, At::Place(8), AccuseFault::NoCert { r: Round(3) }),
        accuses_not(2, At::Place(7), AccuseFault::Place { k: 7 }),
        accuses_not(2, At::Place(520), AccuseFault::Place { k: 520 }),
        accuses_not(1, At::Place(0), AccuseFault::Place { k: 0 }),
        accuses_not(2, At::OfOnes(true), own),
        accuses_not(2, At::OfZeros, other),
        (Asked::AccuseEach(32), Does::Accuses),
        (
            Asked::AccuseEach(33),
            Does::RefusesToAccuse(AccuseFault::Spent),
        ),
        (Asked::Leave, Does::Nothing),
        accuses_not(2, At::OfOnes(false), AccuseFault::Left),
    ];
    assert_eq!(rt; first_other(rt.alloc(), &rows)?, None);
    Ok(())
}

/// In round 1 the client's request bit, at place 0, is 1, and its other bits are 0. Round 2 doesn't list it.
#[test]
fn false_bits_are_rebutted_alone(rt: HostRuntime) -> Result<(), Fail> {
    let rows = [
        (Asked::Say, Does::Nothing),
        submits(1, 8),
        held(1, 0, Lists::Own, Out::Own),
        held(2, 1, Lists::Nobody, Out::Zeros(520)),
        (Asked::Answer(1, 1, LIE), Does::Rebuts(1)),
        (Asked::Answer(1, 0, LIES), Does::Rebuts(0)),
        answers_not(3, 1, LIE, AnswerFault::NoCert { r: Round(3) }),
        answers_not(2, 1, LIE, AnswerFault::NotListed { r: Round(2) }),
        answers_not(1, 8, LIE, AnswerFault::Shape),
        (
            Asked::AnswerOne(1, 2),
            Does::RefusesToAnswer(AnswerFault::Shape),
        ),
        answers_not(1, 1, LIE, AnswerFault::Answered),
        answers_not(1, 2, TRUTH, AnswerFault::NotChallenged),
        answers_not(1, 2, LIES, AnswerFault::NotChallenged),
        // A bit that isn't there counts as 0.
        (
            Asked::AnswerShort(false),
            Does::RefusesToAnswer(AnswerFault::NotChallenged),
        ),
        (Asked::AnswerShort(true), Does::Rebuts(1)),
    ];
    assert_eq!(rt; first_other(rt.alloc(), &rows)?, None);
    Ok(())
}

/// True bits aren't rebutted where they don't add up to the client's own bit; and a key that has signed 32 times answers nothing.
#[test]
fn nothing_is_rebutted_without_need_or_leaves(rt: HostRuntime) -> Result<(), Fail> {
    let rows = [
        (Asked::Say, Does::Nothing),
        submits(1, 8),
        held(1, 0, Lists::Own, Out::Own),
        held(2, 1, Lists::Nobody, Out::Zeros(520)),
        answers_not(1, 0, TRUTH, AnswerFault::AllTrue),
        (Asked::SubmitEach(3, 34), Does::Submits(8)),
        answers_not(1, 1, LIE, AnswerFault::Spent),
        (Asked::Leave, Does::Nothing),
        answers_not(1, 1, LIE, AnswerFault::Left),
    ];
    assert_eq!(rt; first_other(rt.alloc(), &rows)?, None);
    Ok(())
}
