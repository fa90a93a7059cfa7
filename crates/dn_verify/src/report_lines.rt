ghost use Rattle.std.specs.Prelude.{◌≡◌, ◌∷◌, [], All, IfOk, IsTrue, drop};
ghost use Rattle.std.specs.Option.{option_copied};
ghost use Rattle.std.specs.List.{flat_map};
ghost use Rattle.dn_report.specs.Lines.{IsLine, line_text};
ghost use Rattle.dn_verify.specs.Course.{first_outcome};
ghost use Rattle.dn_verify.specs.Reading.{IsRead};

use dn_lines::{LineFault, split};
use dn_memory::NoMemory;
use dn_report::{Outcome, ReportLine, read_line};
use std::alloc::Global;

/// The lines of a text up to the first that is no line of a report.
#[derive(Drop)]
pub struct ReportLines {
    pub lines: Vec<ReportLine>,
    /// Whether the whole text is such lines.
    pub whole: bool,
}

/// The lines of a text up to the first that is no line of a report.
pub fn read_lines(alloc: Global, text: &[u8]) -> Result<ReportLines, NoMemory>
    ensures fit { IfOk result (λ r. All IsLine r.lines.items) }
    ensures read { IfOk result (λ r. IsRead text.now r.lines.items r.whole) }
    ensures spelled { IfOk result (λ r. IsTrue r.whole → text.now ≡ flat_map line_text r.lines.items) }
{
    let mut lines = Vec::new(alloc);
    let mut rest = text;
    while let Some((line, after)) = split(b'\n', rest) {
        match read_line(alloc, &rest[..line.len() + 1]) {
            Ok(line) => lines.push(line)?,
            Err(LineFault::Grammar) => {
                return Ok(ReportLines {
                    lines,
                    whole: false,
                });
            }
            Err(LineFault::NoMemory) => return Err(NoMemory),
        }
        rest = after;
    }
    let whole = rest.is_empty();
    Ok(ReportLines { lines, whole })
}

/// The outcome that stands at a place, if one stands there.
pub fn outcome_at(lines: &[ReportLine], at: usize) -> Option<&Outcome>
    ensures { option_copied result ≡ first_outcome (drop at lines.now) }
{
    match lines.get(at) {
        Some(ReportLine::Outcome(outcome)) => Some(outcome),
        _ => None,
    }
}
