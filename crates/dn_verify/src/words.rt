// The words of a report for the faults of a verdict.

ghost use Rattle.std.specs.Prelude.{◌≡◌};
ghost use Rattle.dn_verify.specs.Words.{blame_word_of};

use dn_report::BlameWord;
use dn_trace::Fault;

/// The word for why a member is blamed.
pub fn blame_word(fault: Fault) -> BlameWord
    ensures { result ≡ blame_word_of fault }
{
    match fault {
        Fault::Twice => BlameWord::Twice,
        Fault::Entry => BlameWord::Entry,
        Fault::Commit => BlameWord::Commit,
        Fault::Shown => BlameWord::Shown,
        Fault::Sum => BlameWord::Sum,
        Fault::Pad => BlameWord::Pad,
        Fault::Output => BlameWord::Output,
        Fault::Double => BlameWord::Double,
        Fault::Rebuttal => BlameWord::Rebuttal,
        Fault::Conceded => BlameWord::Conceded,
    }
}
