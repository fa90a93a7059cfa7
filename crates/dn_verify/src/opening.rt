ghost use Rattle.std.specs.Prelude.{IfOk, OnOk, All, ◌++◌};
ghost use Rattle.std.specs.List.{AllZip};
ghost use Rattle.std.specs.Option.{option_to_list};
ghost use Rattle.dn_verify.specs.Payloads.{IsContent};
ghost use Rattle.dn_verify.specs.Steps.{posted_bytes, posts_of};
ghost use Rattle.dn_verify.specs.Under.{IsContentUnder};
ghost use Rattle.std.specs.Prelude.{List, ℕ};

use crate::content::Content;
use dn_cert::{PayloadFault, open_payload};
use dn_memory::NoMemory;
use dn_report::{Outcome, ReportLine, UnopenedWord};
use dn_roster::Roster;
use std::alloc::Global;

/// Opens the payload that the bytes are, or tells why it doesn't open.
fn open(alloc: Global, roster: &Roster, bytes: &[u8]) -> Result<Content, NoMemory>
    ensures under { IfOk result (IsContentUnder roster.now) }
    ensures content { IfOk result (IsContent roster.now bytes.now) }
{
    match open_payload(alloc, roster, bytes) {
        Ok(opened) => Ok(Content::Open(opened)),
        Err(PayloadFault::Form) => Ok(Content::Closed(UnopenedWord::Form)),
        Err(PayloadFault::Stranger) => Ok(Content::Closed(UnopenedWord::Stranger)),
        Err(PayloadFault::Signature) => Ok(Content::Closed(UnopenedWord::Signature)),
        Err(PayloadFault::NoMemory) => Err(NoMemory),
    }
}

/// Appends what the payload of a `post` line carries, where the line is one.
fn add_content(
    alloc: Global,
    roster: &Roster,
    contents: &mut Vec<Content>,
    line: &ReportLine,
) -> Result<(), NoMemory>
    requires { All (IsContentUnder roster.now) contents.old.items }
    ensures under { OnOk result (All (IsContentUnder roster.now) contents.new.items) }
    ensures contents { (payloads : List (List ℕ)) → AllZip (IsContent roster.now) payloads contents.old.items
        → OnOk result (AllZip (IsContent roster.now) (payloads ++ option_to_list (posted_bytes line.now)) contents.new.items) }
{
    let ReportLine::Outcome(Outcome::Post { bytes, .. }) = line else {
        return Ok(());
    };
    let content = open(alloc, roster, bytes.get())?;
    contents.push(content)?;
    Ok(())
}

/// What the payloads carry that are posted, in the order of their `post` lines.
pub fn contents(
    alloc: Global,
    roster: &Roster,
    lines: &[ReportLine],
) -> Result<Vec<Content>, NoMemory>
    ensures under { IfOk result (λ v. All (IsContentUnder roster.now) v.items) }
    ensures contents { IfOk result (λ v. AllZip (IsContent roster.now) (posts_of lines.now) v.items) }
{
    let mut contents = Vec::new(alloc);
    for line in lines {
        add_content(alloc, roster, &mut contents, line)?;
    }
    Ok(contents)
}
