ghost use Rattle.std.specs.Prelude.{◌≡◌};
ghost use Rattle.dn_io.specs.Task.{Ends, EndsUnread};
ghost use Rattle.dn_script.specs.Plain.{IsScript};
ghost use Rattle.dn_run_report.specs.Report.{report_text};
ghost use Rattle.dn_runner.specs.Play.{HasGroup};
ghost use Rattle.dn_cmd.specs.Answers.{outside};
ghost use Rattle.dn_cmd.specs.Round.{plain_text};
ghost use Rattle.dn_cmd.specs.Run.{script_task, refusal_of, EndsPlay};

use crate::text::plain_text;
use dn_crew::Crew;
use dn_io::{Sink, Source, Status, read_whole, write_whole};
use dn_run_report::Played;
use dn_runner::play;
use dn_script::{PlainScript, Script, ScriptFault, parse_script, plain_script};
use dn_wire::MAX_SCRIPT_BYTES;
use std::alloc::Global;
use std::sync::Wait;
use std::thread::Threads;

/// The status of a script that is not read.
pub fn refusal(fault: ScriptFault) -> Status
    ensures { result ≡ refusal_of fault }
{
    match fault {
        ScriptFault::BadLine { number, cause } => Status::BadLine { number, cause },
        ScriptFault::NoMemory => Status::NoMemory,
    }
}

/// Runs a plain script, and writes its text.
fn run_plain<K: Sink>(alloc: Global, plain: &PlainScript, output: &mut K) -> Status
    requires { IsScript plain.now }
    ensures { EndsUnread (plain_text plain.now) (K.held output.old) (K.held output.new) (K.faults output.old) (K.faults output.new) result }
{
    let Ok(text) = plain_text(alloc, plain) else {
        return Status::NoMemory;
    };
    match write_whole(output, &text) {
        Ok(()) => Status::Ok,
        Err(end) => Status::from(end),
    }
}

/// Writes the report of a run, line by line.
fn write_report<K: Sink>(played: &Played, output: &mut K) -> Status
    ensures { EndsUnread (report_text played.now) (K.held output.old) (K.held output.new) (K.faults output.old) (K.faults output.new) result }
{
    match played.write(output) {
        Ok(()) => Status::Ok,
        Err(end) => Status::from(end),
    }
}

/// Runs the script of a group, and then writes its report, line by line.
fn run_group<R: Threads + Wait + Sync, K: Sink, C: Crew>(
    rt: &R,
    alloc: Global,
    crew: &mut C,
    script: &Script,
    output: &mut K,
) -> Status
    requires { HasGroup script.now }
    ensures { EndsPlay script.now (K.held output.old) (K.held output.new) (K.faults output.old) (K.faults output.new) result }
{
    match play(rt, alloc, crew, script) {
        Ok(Some(played)) => write_report(&played, output),
        Ok(None) => unreachable!(),
        Err(_) => Status::NoMemory,
    }
}

/// Reads a script whole, runs it, and writes what it comes to. The crew does the threads' work of races and live runs.
pub fn run<R: Threads + Wait + Sync, S: Source, K: Sink, C: Crew>(
    rt: &R,
    alloc: Global,
    input: &mut S,
    output: &mut K,
    crew: &mut C,
) -> Status
    ensures { Ends script_task
        (outside (S.left input.old) (K.held output.old) (S.faults input.old) (K.faults output.old))
        (outside (S.left input.new) (K.held output.new) (S.faults input.new) (K.faults output.new)) result }
{
    let text = match read_whole(alloc, input, MAX_SCRIPT_BYTES) {
        Ok(text) => text,
        Err(end) => return Status::from(end),
    };
    let script = match parse_script(alloc, &text) {
        Ok(script) => script,
        Err(fault) => return refusal(fault),
    };
    match plain_script(alloc, &script) {
        Ok(Some(plain)) => run_plain(alloc, &plain, output),
        Ok(None) => run_group(rt, alloc, crew, &script, output),
        Err(_) => Status::NoMemory,
    }
}
