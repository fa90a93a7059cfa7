ghost use Rattle.std.specs.Prelude.{◌≡◌, IfOk};
ghost use Rattle.dn_io.specs.Task.{Ends};
ghost use Rattle.dn_notary.specs.Tasks.{count_text, notarized_task, notary_task, outside};

use crate::entries::{ListFault, parse_entries};
use crate::judging::judge;
use crate::signing::signed_list;
use crate::verdict::Verdict;
use dn_io::{Sink, Source, Status, read_whole, write_whole};
use dn_lines::put_number;
use dn_memory::NoMemory;
use dn_wire::{MAX_REPORT_BYTES, MAX_SCRIPT_BYTES, put_bytes};
use std::alloc::Global;

/// Reads a list of entries whole, signs them with the key of the notary of this number, each at the leaf of its number, and writes the
/// signed list. `BadLine` tells the first bad line and its first cause, before anything is written.
pub fn notary<S: Source, K: Sink>(alloc: Global, num: u64, input: &mut S, output: &mut K) -> Status
    ensures { Ends (notary_task num)
        (outside (S.left input.old) (K.held output.old) (S.faults input.old) (K.faults output.old))
        (outside (S.left input.new) (K.held output.new) (S.faults input.new) (K.faults output.new)) result }
{
    let text = match read_whole(alloc, input, MAX_SCRIPT_BYTES) {
        Ok(text) => text,
        Err(end) => return Status::from(end),
    };
    let entries = match parse_entries(alloc, &text) {
        Ok(entries) => entries,
        Err(ListFault::BadLine { number, cause }) => return Status::BadLine { number, cause },
        Err(ListFault::NoMemory) => return Status::NoMemory,
    };
    let Ok(due) = signed_list(alloc, num, &entries) else {
        return Status::NoMemory;
    };
    match write_whole(output, &due) {
        Ok(()) => Status::Ok,
        Err(end) => Status::from(end),
    }
}

/// The text that tells how many entries are signed.
fn count_text(alloc: Global, count: u64) -> Result<Vec<u8>, NoMemory>
    ensures { IfOk result (λ text. text.items ≡ count_text count) }
{
    let mut text = Vec::new(alloc);
    put_bytes(&mut text, b"notarized ")?;
    put_number(&mut text, count)?;
    put_bytes(&mut text, b"\n")?;
    Ok(text)
}

/// Reads a signed list of entries whole, and writes `notarized COUNT`, where no line of it breaks a rule. Else `NotAccepted` tells the
/// first line that breaks one, and the least rule that it breaks.
pub fn notarized<S: Source, K: Sink>(alloc: Global, input: &mut S, output: &mut K) -> Status
    ensures { Ends notarized_task
        (outside (S.left input.old) (K.held output.old) (S.faults input.old) (K.faults output.old))
        (outside (S.left input.new) (K.held output.new) (S.faults input.new) (K.faults output.new)) result }
{
    let text = match read_whole(alloc, input, MAX_REPORT_BYTES) {
        Ok(text) => text,
        Err(end) => return Status::from(end),
    };
    let count = match judge(alloc, &text) {
        Ok(Verdict::Accepted { count }) => count,
        Ok(Verdict::Broken { line, rule }) => return Status::NotAccepted { line, rule },
        Err(_) => return Status::NoMemory,
    };
    let Ok(due) = count_text(alloc, count) else {
        return Status::NoMemory;
    };
    match write_whole(output, &due) {
        Ok(()) => Status::Ok,
        Err(end) => Status::from(end),
    }
}
