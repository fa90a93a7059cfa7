// The lines of an event and of what came of it.
ghost use Rattle.std.specs.Prelude.{◌≡◌, ◌++◌, map, IfOk, OnOk};
ghost use Rattle.dn_report.specs.declared.line.ReportLine.TheVariants as lines;
ghost use Rattle.dn_run_report.specs.Report.{sent_in, sent_payload, inject_line, whole_line, injected_lines, event_lines, step_lines, lines_text};

use dn_memory::NoMemory;
use dn_report::{Event, EventLine, Outcome, ReportLine, print_line};
use dn_wire::Member;
use dn_world::Step;
use std::alloc::Global;

/// The number of the payload that an outcome sends, or loses to a full flight.
fn sent_in(outcome: &Outcome) -> Option<u64>
    ensures { result ≡ sent_in outcome.now }
{
    match outcome {
        Outcome::Sent { payload, .. } | Outcome::Full { payload, .. } => Some(*payload),
        _ => None,
    }
}

/// The number of the first payload that is sent, or lost to a full flight, among what came of an event.
fn sent_payload(outcomes: &[Outcome]) -> Option<u64>
    ensures { result ≡ sent_payload outcomes.now }
{
    for outcome in outcomes {
        if let Some(payload) = sent_in(outcome) {
            return Some(payload);
        }
    }
    None
}

/// Appends the line of what is injected, where its payload has a number.
fn put_injected(
    from: Member,
    to: Member,
    payload: Option<u64>,
    out: &mut Vec<u8>,
) -> Result<(), NoMemory>
    ensures { OnOk result (out.new.items ≡ out.old.items ++ lines_text (inject_line from to payload)) }
{
    match payload {
        Some(payload) => print_line(
            &ReportLine::Event(EventLine::Inject { from, to, payload }),
            out,
        ),
        None => Ok(()),
    }
}

/// The line of an event that tells all of it; none for what is injected.
fn whole_line(alloc: Global, event: &Event) -> Result<Option<EventLine>, NoMemory>
    ensures { IfOk result (λ line. line ≡ whole_line event.now) }
{
    Ok(Some(match event {
        Event::Say { client, text } => EventLine::Say {
            client: *client,
            text: text.copy(alloc)?,
        },
        Event::OpenRound { server, r } => EventLine::Open {
            server: *server,
            r: *r,
        },
        Event::Submit { client, server, r } => EventLine::Submit {
            client: *client,
            server: *server,
            r: *r,
        },
        Event::Deliver { id } => EventLine::Deliver { id: *id },
        Event::Lose { id } => EventLine::Lose { id: *id },
        Event::Tick => EventLine::Tick,
        Event::Close { server } => EventLine::Close { server: *server },
        Event::Abandon { server } => EventLine::Abandon { server: *server },
        Event::Leave { client } => EventLine::Leave { client: *client },
        Event::Accuse { client, r, k } => EventLine::Accuse {
            client: *client,
            r: *r,
            k: *k,
        },
        Event::Judge { r, k } => EventLine::Judge { r: *r, k: *k },
        Event::Inject { .. } => return Ok(None),
    }))
}

/// Appends the line of an event that is injected; nothing for others.
fn put_injected_event(event: &Event, came: &[Outcome], out: &mut Vec<u8>) -> Result<(), NoMemory>
    ensures { OnOk result (out.new.items ≡ out.old.items ++ lines_text (injected_lines event.now came.now)) }
{
    match event {
        Event::Inject { from, to, .. } => put_injected(*from, *to, sent_payload(came), out),
        _ => Ok(()),
    }
}

/// Appends an event's line.
fn put_event(
    alloc: Global,
    event: &Event,
    came: &[Outcome],
    out: &mut Vec<u8>,
) -> Result<(), NoMemory>
    ensures { OnOk result (out.new.items ≡ out.old.items ++ lines_text (event_lines event.now came.now)) }
{
    match whole_line(alloc, event)? {
        Some(line) => print_line(&ReportLine::Event(line), out),
        None => put_injected_event(event, came, out),
    }
}

/// Appends the lines of what came of an event.
fn put_outcomes(alloc: Global, outcomes: &[Outcome], out: &mut Vec<u8>) -> Result<(), NoMemory>
    ensures { OnOk result (out.new.items ≡ out.old.items ++ lines_text (map lines.Outcome outcomes.now)) }
{
    for outcome in outcomes {
        print_line(&ReportLine::Outcome(outcome.copy(alloc)?), out)?;
    }
    Ok(())
}

/// Appends the lines of an event and of what came of it.
pub fn put_step(alloc: Global, step: &Step, out: &mut Vec<u8>) -> Result<(), NoMemory>
    ensures { OnOk result (out.new.items ≡ out.old.items ++ lines_text (step_lines step.now)) }
{
    put_event(alloc, &step.event, step.outcomes.get(), out)?;
    put_outcomes(alloc, step.outcomes.get(), out)
}
