// The words of a report for what cores answer.
ghost use Rattle.std.specs.Prelude.{◌≡◌};
ghost use Rattle.dn_state.specs.Words.{ignored_word_of, spoil_word_of, blame_word_of, unopened_word_of, submit_word_of, hold_word_of, accuse_word_of, answer_word_of};

use dn_client::{AccuseFault, AnswerFault, HoldFault, SubmitFault};
use dn_payloads::Content;
use dn_report::{BlameWord, IgnoredWord, SpoilWord, UnopenedWord};
use dn_server::{Reason, SpoilReason};
use dn_trace::Fault;

/// The word for why a server ignores what it is told.
pub fn ignored_word(reason: Reason) -> IgnoredWord
    ensures { result ≡ ignored_word_of reason }
{
    match reason {
        Reason::Old => IgnoredWord::Old,
        Reason::Running => IgnoredWord::Running,
        Reason::Spent => IgnoredWord::Spent,
        Reason::Key => IgnoredWord::Key,
        Reason::Prev => IgnoredWord::Prev,
        Reason::Length => IgnoredWord::Length,
        Reason::Digest => IgnoredWord::Digest,
        Reason::Shut => IgnoredWord::Shut,
        Reason::Idle => IgnoredWord::Idle,
        Reason::Repeat => IgnoredWord::Repeat,
        Reason::Kind => IgnoredWord::Kind,
        Reason::Body => IgnoredWord::Body,
        Reason::Place => IgnoredWord::Place,
        Reason::Zero => IgnoredWord::Zero,
        Reason::Known => IgnoredWord::Known,
        Reason::Floor => IgnoredWord::Floor,
    }
}

/// The word for why a server's round is spoiled.
pub fn spoil_word(reason: SpoilReason) -> SpoilWord
    ensures { result ≡ spoil_word_of reason }
{
    match reason {
        SpoilReason::Twice => SpoilWord::Twice,
        SpoilReason::Prev => SpoilWord::Prev,
        SpoilReason::Entry => SpoilWord::Entry,
        SpoilReason::Length => SpoilWord::Length,
        SpoilReason::Commit => SpoilWord::Commit,
        SpoilReason::Body => SpoilWord::Body,
    }
}

/// The word for why a member is blamed.
pub fn blame_word(fault: Fault) -> BlameWord
    ensures { result ≡ blame_word_of fault }
{
    match fault {
        Fault::Twice => BlameWord::Twice,
        Fault::Entry => BlameWord::Entry,
        Fault::Commit => BlameWord::Commit,
        Fault::Shown => BlameWord::Shown,
        Fault::Sum => BlameWord::Sum,
        Fault::Pad => BlameWord::Pad,
        Fault::Output => BlameWord::Output,
        Fault::Double => BlameWord::Double,
        Fault::Rebuttal => BlameWord::Rebuttal,
        Fault::Conceded => BlameWord::Conceded,
    }
}

/// The word for why a payload doesn't open; nothing where it opens.
pub fn unopened_word(content: &Content) -> Option<UnopenedWord>
    ensures { result ≡ unopened_word_of content.now }
{
    match content {
        Content::Opened(_) => None,
        Content::Form => Some(UnopenedWord::Form),
        Content::Stranger => Some(UnopenedWord::Stranger),
        Content::Signature => Some(UnopenedWord::Signature),
    }
}

/// The word for why a client submits nothing; nothing where memory failed it.
pub fn submit_word(fault: SubmitFault) -> Option<IgnoredWord>
    ensures { result ≡ submit_word_of fault }
{
    match fault {
        SubmitFault::Left => Some(IgnoredWord::Left),
        SubmitFault::Old { .. } => Some(IgnoredWord::Old),
        SubmitFault::Spent => Some(IgnoredWord::Spent),
        SubmitFault::NoMemory => None,
    }
}

/// The word for why a client doesn't hold a certificate.
pub fn hold_word(fault: HoldFault) -> Option<IgnoredWord>
    ensures { result ≡ hold_word_of fault }
{
    match fault {
        HoldFault::Left => Some(IgnoredWord::Left),
        HoldFault::Known { .. } => Some(IgnoredWord::Known),
        HoldFault::NoPrev { .. } => Some(IgnoredWord::Prev),
        HoldFault::Floor { .. } => Some(IgnoredWord::Floor),
        HoldFault::Length { .. } => Some(IgnoredWord::Length),
        HoldFault::NoMemory => None,
    }
}

/// The word for why a client doesn't accuse.
pub fn accuse_word(fault: AccuseFault) -> Option<IgnoredWord>
    ensures { result ≡ accuse_word_of fault }
{
    match fault {
        AccuseFault::Left => Some(IgnoredWord::Left),
        AccuseFault::NoCert { .. } => Some(IgnoredWord::Cert),
        AccuseFault::Place { .. } => Some(IgnoredWord::Place),
        AccuseFault::NoEvidence { .. } => Some(IgnoredWord::Evidence),
        AccuseFault::Spent => Some(IgnoredWord::Spent),
        AccuseFault::NoMemory => None,
    }
}

/// The word for why a client doesn't answer a challenge.
pub fn answer_word(fault: AnswerFault) -> Option<IgnoredWord>
    ensures { result ≡ answer_word_of fault }
{
    match fault {
        AnswerFault::Left => Some(IgnoredWord::Left),
        AnswerFault::NoCert { .. } | AnswerFault::NotListed { .. } => Some(IgnoredWord::Cert),
        AnswerFault::Shape => Some(IgnoredWord::Key),
        AnswerFault::Answered => Some(IgnoredWord::Repeat),
        AnswerFault::NotChallenged => Some(IgnoredWord::Calm),
        AnswerFault::AllTrue => Some(IgnoredWord::Truth),
        AnswerFault::Spent => Some(IgnoredWord::Spent),
        AnswerFault::NoMemory => None,
    }
}
