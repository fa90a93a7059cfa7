// The events that the lines of a script give, carried out.
ghost use Rattle.std.specs.Prelude.{◌≡◌};

use crate::acting::{accuse, call, judge, leave, say, submit, tick};
use crate::corrupting::corrupt_line;
use crate::delivering::{cut, deliver, flow};
use crate::living::live;
use crate::racing::race;
use crate::run::Run;
use dn_crew::Crew;
use dn_memory::NoMemory;
use dn_puppets::ServerCall;
use dn_report::Event;
use dn_script::{Script, ScriptLine};
use std::sync::Wait;
use std::thread::Threads;

/// Passes over all messages in flight, so many times.
fn flows<R: Threads + Sync>(rt: &R, run: &mut Run, times: u32) -> Result<(), NoMemory>
    ensures { run.new.group ≡ run.old.group }
{
    for _ in 0..times {
        flow(rt, run)?;
    }
    Ok(())
}

/// So many units of time pass at each server.
fn ticks<R: Threads + Sync>(rt: &R, run: &mut Run, count: u32) -> Result<(), NoMemory>
    ensures { run.new.group ≡ run.old.group }
{
    for _ in 0..count {
        tick(rt, run)?;
    }
    Ok(())
}

/// Carries out a line of what a member does, honest or not.
fn member_line<R: Threads + Sync>(rt: &R, run: &mut Run, line: &ScriptLine) -> Result<(), NoMemory>
    ensures { run.new.group ≡ run.old.group }
{
    match line {
        ScriptLine::Say { client, text } => say(rt, run, *client, text),
        ScriptLine::Open { server, r } => call(rt, run, *server, ServerCall::Open(*r)),
        ScriptLine::Close { server } => call(rt, run, *server, ServerCall::Close),
        ScriptLine::Abandon { server } => call(rt, run, *server, ServerCall::Abandon),
        ScriptLine::Submit { client, server, r } => submit(rt, run, *client, *server, *r),
        ScriptLine::Leave { client } => leave(rt, run, *client),
        ScriptLine::Accuse { client, r, k } => accuse(rt, run, *client, *r, *k),
        ScriptLine::Judge { r, k } => judge(rt, run, *r, *k),
        _ => corrupt_line(rt, run, line),
    }
}

/// Carries out all events that a line gives.
fn run_line<R: Threads + Wait + Sync, C: Crew>(
    rt: &R,
    run: &mut Run,
    crew: &mut C,
    line: &ScriptLine,
) -> Result<(), NoMemory>
    ensures { run.new.group ≡ run.old.group }
{
    match line {
        ScriptLine::Deliver { id } => deliver(rt, run, *id),
        ScriptLine::Lose { id } => run.step(rt, Event::Lose { id: *id }),
        ScriptLine::Cut { from, to } => cut(rt, run, *from, *to),
        ScriptLine::Flow { times } => flows(rt, run, *times),
        ScriptLine::Tick { count } => ticks(rt, run, *count),
        ScriptLine::Race {
            server,
            workers,
            clients,
        } => race(rt, run, crew, *server, *workers, clients.get()),
        ScriptLine::Live { turns } => live(rt, run, crew, *turns),
        _ => member_line(rt, run, line),
    }
}

/// Carries out all lines of a script. The crew does the threads' work of races and live runs.
pub fn run_lines<R: Threads + Wait + Sync, C: Crew>(
    rt: &R,
    run: &mut Run,
    crew: &mut C,
    script: &Script,
) -> Result<(), NoMemory>
    ensures { run.new.group ≡ run.old.group }
{
    for line in script.lines() {
        run_line(rt, run, crew, &line.1)?;
    }
    Ok(())
}
