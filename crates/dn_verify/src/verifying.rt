ghost use Rattle.std.specs.Prelude.{◌≡◌, IfOk};
ghost use Rattle.dn_io.specs.Task.{Ends};
ghost use Rattle.dn_verify.specs.Verify.{verify_task, accepted_text, refusal_of, outside};

use crate::report_judging::{Counts, judged};
use crate::stop::Stop;
use dn_io::{Rule, Sink, Source, Status, read_whole, write_whole};
use dn_lines::put_number;
use dn_memory::NoMemory;
use dn_wire::{MAX_REPORT_BYTES, put_bytes};
use std::alloc::Global;

/// The text that tells the counts of an accepted report.
fn accepted_text(alloc: Global, counts: Counts) -> Result<Vec<u8>, NoMemory>
    ensures { IfOk result (λ text. text.items ≡ accepted_text counts.rounds counts.verdicts) }
{
    let mut text = Vec::new(alloc);
    put_bytes(&mut text, b"accepted ")?;
    put_number(&mut text, counts.rounds)?;
    put_bytes(&mut text, b" rounds ")?;
    put_number(&mut text, counts.verdicts)?;
    put_bytes(&mut text, b" verdicts\n")?;
    Ok(text)
}

/// How a report that is not accepted, or not judged, is told.
fn refusal(stop: Stop) -> Status
    ensures { result ≡ refusal_of stop }
{
    match stop {
        Stop::Broken { at, rule } => Status::NotAccepted {
            line: (at as u64).saturating_add(1),
            rule: Rule::V(rule),
        },
        Stop::NoMemory => Status::NoMemory,
    }
}

/// Reads a report whole and judges it. An accepted one is told by its counts, `accepted R rounds V verdicts`: R lines `listed`, and V
/// verdicts. Else the first line that breaks a rule is told with the least rule that it breaks, and nothing is written.
pub fn verify_report<S: Source, K: Sink>(alloc: Global, input: &mut S, output: &mut K) -> Status
    ensures { Ends verify_task
        (outside (S.left input.old) (K.held output.old) (S.faults input.old) (K.faults output.old))
        (outside (S.left input.new) (K.held output.new) (S.faults input.new) (K.faults output.new)) result }
{
    let text = match read_whole(alloc, input, MAX_REPORT_BYTES) {
        Ok(text) => text,
        Err(end) => return Status::from(end),
    };
    let counts = match judged(alloc, &text) {
        Ok(counts) => counts,
        Err(stop) => return refusal(stop),
    };
    let Ok(due) = accepted_text(alloc, counts) else {
        return Status::NoMemory;
    };
    match write_whole(output, &due) {
        Ok(()) => Status::Ok,
        Err(end) => Status::from(end),
    }
}
