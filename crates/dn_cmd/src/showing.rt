// The run of the large script of a number, told in five lines.
ghost use Rattle.std.specs.Prelude.{◌≡◌, ◌++◌, IfOk, IfSome, OnOk, count_by, codes, string_bytes};
ghost use Rattle.dn_io.specs.Task.{EndsUnread};
ghost use Rattle.hex.specs.Hex.{encode_lower};
ghost use Rattle.dn_hash.specs.Digests.{tagged_digest};
ghost use Rattle.dn_run_report.specs.Report.{report_text};
ghost use Rattle.dn_cmd.specs.Demo.{counts, count_in, word_of, audit_words, demo_text, IsDemoOf, EndsDemo};

use dn_crew::Crew;
use dn_gen::script;
use dn_hash::tagged;
use dn_io::{Sink, Status, SureSink, write_whole};
use dn_lines::put_number;
use dn_memory::NoMemory;
use dn_report::Outcome;
use dn_run_report::Played;
use dn_runner::play;
use dn_script::parse_script;
use dn_wire::put_bytes;
use dn_world::{Audit, Step};
use std::alloc::Global;
use std::sync::Wait;
use std::thread::Threads;

/// At most so many bytes of the report are kept in one call.
const PIECE: usize = 65_536;

/// What is counted of a run.
#[derive(Clone, Copy, Debug, PartialEq, Eq)]
pub enum Counted {
    /// The rounds that are certified.
    Rounds,
    Messages,
}

fn counts(counted: Counted, outcome: &Outcome) -> bool
    ensures { result ≡ counts counted outcome.now }
{
    match counted {
        Counted::Rounds => matches!(outcome, Outcome::Listed { .. }),
        Counted::Messages => matches!(outcome, Outcome::Message { .. }),
    }
}

/// How many outcomes of an event count.
fn count_of(counted: Counted, outcomes: &[Outcome]) -> u64
    ensures { result ≡ count_by (counts counted) outcomes.now }
{
    outcomes
        .iter()
        .filter(|outcome| counts(counted, outcome))
        .count() as u64
}

/// How many outcomes of a run count.
fn count_in(counted: Counted, steps: &[Step]) -> Result<u64, NoMemory>
    ensures { IfOk result (λ n. n ≡ count_in counted steps.now) }
{
    let mut count = 0u64;
    for step in steps {
        let Some(more) = count.checked_add(count_of(counted, step.outcomes.get())) else {
            return Err(NoMemory);
        };
        count = more;
    }
    Ok(count)
}

fn put_word(text: &mut Vec<u8>, word: bool) -> Result<(), NoMemory>
    ensures { OnOk result (text.new.items ≡ text.old.items ++ word_of word) }
{
    if word {
        put_bytes(text, b"yes")
    } else {
        put_bytes(text, b"no")
    }
}

fn put_audit(text: &mut Vec<u8>, audit: Audit) -> Result<(), NoMemory>
    ensures { OnOk result (text.new.items ≡ text.old.items ++ audit_words audit) }
{
    put_word(text, audit.signed)?;
    put_bytes(text, b" ")?;
    put_word(text, audit.digests)?;
    put_bytes(text, b" ")?;
    put_word(text, audit.honest)
}

/// The SHA-256 of the report of a run, in lower-case hex.
fn digest_of(alloc: Global, played: &Played) -> Result<String, NoMemory>
    ensures { IfOk result (λ hex. string_bytes hex ≡ encode_lower (tagged_digest (codes "") (report_text played.now) (codes ""))) }
{
    let mut report = SureSink::make(alloc, PIECE)?;
    let Ok(()) = played.write(&mut report) else {
        return Err(NoMemory);
    };
    let digest = tagged(b"", report.bytes(), b"");
    Ok(hex::encode(alloc, &digest)?)
}

/// The five lines.
fn demo_text(alloc: Global, num: u64, played: &Played) -> Result<Vec<u8>, NoMemory>
    ensures { IfOk result (λ text. text.items ≡ demo_text num played.now) }
{
    let digest = digest_of(alloc, played)?;
    let mut text = Vec::new(alloc);
    put_bytes(&mut text, b"demo ")?;
    put_number(&mut text, num)?;
    put_bytes(&mut text, b"\nrounds ")?;
    put_number(&mut text, count_in(Counted::Rounds, played.history())?)?;
    put_bytes(&mut text, b"\nmessages ")?;
    put_number(&mut text, count_in(Counted::Messages, played.history())?)?;
    put_bytes(&mut text, b"\naudit ")?;
    put_audit(&mut text, played.audit())?;
    put_bytes(&mut text, b"\nreport ")?;
    put_bytes(&mut text, digest.as_bytes())?;
    put_bytes(&mut text, b"\n")?;
    Ok(text)
}

/// Runs the large script of a number.
fn demo_run<R: Threads + Wait + Sync, C: Crew>(
    rt: &R,
    alloc: Global,
    crew: &mut C,
    num: u64,
) -> Result<Option<Played>, NoMemory>
    ensures { IfOk result (λ played. IfSome played (IsDemoOf num)) }
{
    let text = script(alloc, num)?;
    match parse_script(alloc, &text) {
        Ok(script) => play(rt, alloc, crew, &script),
        Err(_) => Ok(None),
    }
}

/// Writes the five lines of a run.
fn write_demo<K: Sink>(alloc: Global, num: u64, played: &Played, output: &mut K) -> Status
    ensures { EndsUnread (demo_text num played.now) (K.held output.old) (K.held output.new) (K.faults output.old) (K.faults output.new) result }
{
    let Ok(due) = demo_text(alloc, num, played) else {
        return Status::NoMemory;
    };
    match write_whole(output, &due) {
        Ok(()) => Status::Ok,
        Err(end) => Status::from(end),
    }
}

/// Runs the large script of a number into memory, and writes five lines: `demo NUM`, `rounds R`, the number of its certified rounds,
/// `messages T`, that of the messages in their outputs, `audit A B C`, and `report HEX`, the SHA-256 of the report's bytes.
pub fn demo<R: Threads + Wait + Sync, K: Sink, C: Crew>(
    rt: &R,
    alloc: Global,
    crew: &mut C,
    num: u64,
    output: &mut K,
) -> Status
    ensures { EndsDemo num (K.held output.old) (K.held output.new) (K.faults output.old) (K.faults output.new) result }
{
    match demo_run(rt, alloc, crew, num) {
        Ok(Some(played)) => write_demo(alloc, num, &played, output),
        _ => Status::NoMemory,
    }
}
