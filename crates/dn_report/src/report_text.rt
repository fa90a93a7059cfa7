ghost use Rattle.std.specs.Prelude.{◌≡◌, ◌++◌, OnOk, OnErr, IfOk, Some};
ghost use Rattle.dn_lines.specs.Field.{Gives};
ghost use Rattle.dn_report.specs.declared.line.ReportLine.{ReportLine};
ghost use Rattle.dn_report.specs.Lines.{IsLine, line_text, line_of, before_end, read_fields};

use crate::line::ReportLine;
use crate::putting_lines::put_line;
use crate::reading_lines::{marked_of, unmarked_of};
use dn_lines::{Fields, LineFault, text_of};
use dn_memory::NoMemory;
use dn_wire::{put_bytes, put_u8};
use std::alloc::Global;

/// Appends a line, with its line feed.
pub fn print_line(line: &ReportLine, out: &mut Vec<u8>) -> Result<(), NoMemory>
    ensures ok { OnOk result (out.new.items ≡ out.old.items ++ line_text line.now) }
    ensures err { OnErr result (out.new.items ≡ out.old.items) }
{
    let mut text = Vec::new(*out.allocator());
    put_line(&mut text, line)?;
    put_u8(&mut text, b'\n')?;
    if out.is_empty() {
        // Nothing stands before it, so that it need not be copied.
        *out = text;
        return Ok(());
    }
    put_bytes(out, &text)
}

/// What stands before the line feed at the end.
#[tactic(auto, unfolding(crate::specs::Lines::before_end))]
fn before_end(bytes: &[u8]) -> Result<&[u8], LineFault>
    ensures { Gives (λ x. x.now) result (before_end bytes.now) }
{
    match bytes {
        [line @ .., b'\n'] => Ok(line),
        _ => Err(LineFault::Grammar),
    }
}

fn line_of_fields(alloc: Global, fields: &mut Fields) -> Result<ReportLine, LineFault>
    ensures { Gives (λ x. x) result (read_fields fields.old) }
{
    let word = text_of(fields)?;
    if word == b"@".as_slice() {
        let word = text_of(fields)?;
        return marked_of(alloc, word, fields);
    }
    unmarked_of(alloc, word, fields)
}

fn whole_line(alloc: Global, bytes: &[u8]) -> Result<ReportLine, LineFault>
    ensures { Gives (λ x. x) result (line_of bytes.now) }
{
    let line = before_end(bytes)?;
    line_of_fields(alloc, &mut Fields::new(line))
}

/// The line that the bytes spell, with the line feed at its end. `Grammar` exactly where they spell none.
pub fn read_line(alloc: Global, bytes: &[u8]) -> Result<ReportLine, LineFault>
    // What is read is spelled so.
    ensures found { IfOk result (λ l. IsLine l × (bytes.now ≡ line_text l)) }
    // What is spelled so is read, unless memory runs out.
    ensures only { (l : ReportLine) → IsLine l → bytes.now ≡ line_text l → Gives (λ x. x) result (Some l) }
{
    whole_line(alloc, bytes)
}
