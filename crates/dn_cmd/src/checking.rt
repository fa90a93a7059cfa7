ghost use Rattle.std.specs.Prelude.{◌≡◌, IfOk};
ghost use Rattle.dn_io.specs.Task.{Ends};
ghost use Rattle.dn_cmd.specs.Answers.{outside};
ghost use Rattle.dn_cmd.specs.Check.{check_task, count_text};

use crate::running::refusal;
use dn_io::{Sink, Source, Status, read_whole, write_whole};
use dn_lines::put_number;
use dn_memory::NoMemory;
use dn_script::parse_script;
use dn_wire::{MAX_SCRIPT_BYTES, put_bytes};
use std::alloc::Global;

/// The text that tells how many lines count.
fn count_text(alloc: Global, count: usize) -> Result<Vec<u8>, NoMemory>
    ensures { IfOk result (λ text. text.items ≡ count_text count) }
{
    let mut text = Vec::new(alloc);
    put_bytes(&mut text, b"script ")?;
    put_number(&mut text, count as u64)?;
    put_bytes(&mut text, b" lines\n")?;
    Ok(text)
}

/// Reads a script whole, plain or of a group, and writes `script L lines`, L being the number of its lines without blank ones and
/// comments. `BadLine` comes as from `run`, before anything is written.
pub fn check_script<S: Source, K: Sink>(alloc: Global, input: &mut S, output: &mut K) -> Status
    ensures { Ends check_task
        (outside (S.left input.old) (K.held output.old) (S.faults input.old) (K.faults output.old))
        (outside (S.left input.new) (K.held output.new) (S.faults input.new) (K.faults output.new)) result }
{
    let text = match read_whole(alloc, input, MAX_SCRIPT_BYTES) {
        Ok(text) => text,
        Err(end) => return Status::from(end),
    };
    let script = match parse_script(alloc, &text) {
        Ok(script) => script,
        Err(fault) => return refusal(fault),
    };
    let Ok(due) = count_text(alloc, script.lines().len()) else {
        return Status::NoMemory;
    };
    match write_whole(output, &due) {
        Ok(()) => Status::Ok,
        Err(end) => Status::from(end),
    }
}
