// The rules of outcome lines.

ghost use Rattle.std.specs.Prelude.{◌≡◌, ◌↔◌, ◌+◌, ◌-◌, ◌<◌, ◌^◌, ◌++◌, ℕ, All, IfNone, IfOk, IsTrue, List, OnOk, Some, None, drop};
ghost use Rattle.dn_report.specs.declared.line.ReportLine.{ReportLine};
ghost use Rattle.dn_report.specs.declared.line.ReportLine.TheVariants as forms;
ghost use Rattle.dn_seal.specs.Said.{IsUnder};
ghost use Rattle.dn_verify.specs.Course.{CourseView, actor_of, after_outcome, with_put};
ghost use Rattle.dn_verify.specs.Judged.{IsJudged, Unless, UnlessEither};
ghost use Rattle.dn_verify.specs.Kept.{course_of};
ghost use Rattle.dn_verify.specs.Payloads.{AreContents, Report};
ghost use Rattle.dn_verify.specs.Rules.{IsCertified, IsHeldRightly, IsNextMessage, IsNextPayload, IsProperPost, IsToldRightly, from_put, posted_by};
ghost use Rattle.dn_verify.specs.Under.{IsContentUnder};
ghost use Rattle.dn_seal.specs.Said.{SaidView};
ghost use Rattle.dn_verify.specs.Kept.{known_of};
ghost use Rattle.dn_verify.specs.Known.{Adds, Follows, IsGiven};
ghost use Rattle.dn_verify.specs.Payloads.{body_in, carried_at, heard_put};

use crate::content::Content;
use crate::course::Course;
use crate::fold::Fold;
use crate::hearing::hear_put;
use crate::honesty::is_corrupt;
use crate::mail::Flying;
use crate::receipts::{certificate_of, content_at, is_own_post};
use crate::round_lines::tell_round;
use crate::scene::Scene;
use crate::telling::{certificate_delivered, certificate_put, is_told_rightly};
use crate::told::ToldKey;
use dn_cert::{Certificate, Chain};
use dn_memory::NoMemory;
use dn_report::{Outcome, ReportLine};
use dn_roster::Roster;
use dn_seal::Said;
use dn_told::WindowTold;
use dn_wire::{Member, Round, ServerId};
use std::alloc::Global;

/// Gives a certificate that was put to the chain of the run's certificates.
fn give(alloc: Global, chain: &mut Chain, certificate: &Certificate) -> Result<(), NoMemory>
    ensures { OnOk result (Follows chain.old certificate.now.body chain.new) }
{
    match chain.refusal(certificate.body()) {
        Some(_) => return Ok(()),
        None => {}
    }
    let copy = certificate.copy(alloc)?;
    match chain.hold(alloc, copy) {
        Ok(()) => Ok(()),
        Err(_) => Err(NoMemory),
    }
}

/// The same of a payload, where it is a certificate.
fn give_payload(
    alloc: Global,
    chain: &mut Chain,
    contents: &[Content],
    payload: usize,
) -> Result<(), NoMemory>
    ensures { (report : Report) → AreContents report contents.now → OnOk result (IsGiven chain.old (body_in (carried_at report payload)) chain.new) }
{
    match certificate_of(content_at(contents, payload)) {
        Some(certificate) => give(alloc, chain, certificate),
        None => Ok(()),
    }
}

/// Whether a payload is one of an honest member's own, or nobody asks it.
fn is_proper_post(
    corrupt: &[Member],
    contents: &[Content],
    scene: Scene,
    payload: usize,
    by: Member,
) -> bool
    ensures { (report : Report) → AreContents report contents.now → report.corrupt ≡ corrupt.now → IsTrue result ↔ IsProperPost report scene payload by }
{
    if scene.is_inject() {
        return true;
    }
    if is_corrupt(corrupt, by) {
        return true;
    }
    is_own_post(content_at(contents, payload), by)
}

/// Hears a payload that was posted.
fn hear_post(
    alloc: Global,
    roster: &Roster,
    contents: &[Content],
    heard: &mut Vec<Said>,
    payload: usize,
) -> Result<(), NoMemory>
    requires contents { All (IsContentUnder roster.now) contents.now }
    requires heard { All (IsUnder roster.now) heard.old.items }
    ensures under { OnOk result (All (IsUnder roster.now) heard.new.items) }
    ensures heard { (report : Report) → AreContents report contents.now → OnOk result (heard.new.items ≡ heard.old.items ++ heard_put (carried_at report payload)) }
{
    match content_at(contents, payload) {
        Some(content) => hear_put(alloc, roster, heard, content),
        None => Ok(()),
    }
}

/// The payload has the next number, and this member had put it.
fn note_post(course: &mut Course, by: Member) -> Result<(), NoMemory>
    requires { course.old.posted < 2 ^ 64 - 1 }
    ensures { OnOk result (course_of course.new ≡ record (course_of course.old) { posted = course.old.posted + 1; puts = with_put (Some by) course.old.posted ((course_of course.old).puts) }) }
{
    let payload = course.posted;
    course.puts.note(payload, Some(by))?;
    course.posted = payload + 1;
    Ok(())
}

/// A payload is posted. The rule that the line breaks.
fn post(
    alloc: Global,
    roster: &Roster,
    corrupt: &[Member],
    contents: &[Content],
    heard: &mut Vec<Said>,
    course: &mut Course,
    fold: &mut Fold,
    number: u64,
    by: Member,
) -> Result<Option<u32>, NoMemory>
    requires contents { All (IsContentUnder roster.now) contents.now }
    requires heard { All (IsUnder roster.now) heard.old.items }
    ensures heard { OnOk result (All (IsUnder roster.now) heard.new.items) }
    ensures rule { (report : Report) → AreContents report contents.now → report.corrupt ≡ corrupt.now
        → IfOk result (UnlessEither 1 (IsNextPayload report (course_of course.old) number) 7 (IsProperPost report course.old.scene number by)) }
    ensures adds { (report : Report) (behind : List ReportLine) (bytes : List ℕ) → AreContents report contents.now
        → IfOk result (λ rule. IfNone rule (Adds report (course_of course.old) (known_of fold.old heard.old.items) (forms.Outcome (Outcome.Post number by bytes)) behind (known_of fold.new heard.new.items))) }
    ensures goes { IfOk result (λ rule. IfNone rule (course_of course.new ≡ record (course_of course.old) { posted = course.old.posted + 1; puts = with_put (Some by) number ((course_of course.old).puts) })) }
{
    let payload = course.posted;
    if number != payload as u64 || payload >= contents.len() {
        return Ok(Some(1));
    }
    let proper = is_proper_post(corrupt, contents, course.scene, payload, by);
    note_post(course, by)?;
    give_payload(alloc, &mut fold.chain, contents, payload)?;
    hear_post(alloc, roster, contents, heard, payload)?;
    Ok(if proper { None } else { Some(7) })
}

/// The member that sends now had put a payload.
fn note_put(course: &mut Course, payload: usize) -> Result<(), NoMemory>
    ensures { OnOk result (course_of course.new ≡ record (course_of course.old) { puts = with_put (actor_of (course_of course.old)) payload ((course_of course.old).puts) }) }
{
    let actor = course.actor();
    course.puts.note(payload, actor)?;
    Ok(())
}

/// A message is sent. The rule that the line breaks.
fn sent(
    alloc: Global,
    contents: &[Content],
    course: &mut Course,
    fold: &mut Fold,
    id: u64,
    number: u64,
    to: Member,
) -> Result<Option<u32>, NoMemory>
    ensures rule { IfOk result (Unless 1 (IsNextMessage (course_of course.old) id number)) }
    ensures adds { (report : Report) (behind : List ReportLine) (said : List SaidView) → AreContents report contents.now
        → IfOk result (λ rule. IfNone rule (Adds report (course_of course.old) (known_of fold.old said) (forms.Outcome (Outcome.Sent id number to)) behind (known_of fold.new said))) }
    ensures goes { IfOk result (λ rule. IfNone rule (course_of course.new ≡ after_outcome (Outcome.Sent id number to) (course_of course.old))) }
{
    let Some(payload) = course.payload(number) else {
        return Ok(Some(1));
    };
    if id != course.mail.next() || id == u64::MAX {
        return Ok(Some(1));
    }
    let from = course.actor();
    note_put(course, payload)?;
    course.mail.send(Flying { from, to, payload })?;
    give_payload(alloc, &mut fold.chain, contents, payload)?;
    Ok(None)
}

/// A message is lost to a full flight. The rule that the line breaks.
fn full(
    alloc: Global,
    contents: &[Content],
    course: &mut Course,
    fold: &mut Fold,
    number: u64,
) -> Result<Option<u32>, NoMemory>
    ensures rule { IfOk result (Unless 1 (number < course.old.posted)) }
    ensures adds { (report : Report) (behind : List ReportLine) (said : List SaidView) (to : Member) → AreContents report contents.now
        → IfOk result (λ rule. IfNone rule (Adds report (course_of course.old) (known_of fold.old said) (forms.Outcome (Outcome.Full number to)) behind (known_of fold.new said))) }
    ensures goes { IfOk result (λ rule. IfNone rule (course_of course.new ≡ record (course_of course.old) { puts = with_put (actor_of (course_of course.old)) number ((course_of course.old).puts) })) }
{
    let Some(payload) = course.payload(number) else {
        return Ok(Some(1));
    };
    note_put(course, payload)?;
    give_payload(alloc, &mut fold.chain, contents, payload)?;
    Ok(None)
}

/// A client is told. The rule that the line breaks.
fn told(
    contents: &[Content],
    course: &mut Course,
    lines: &[ReportLine],
    next: usize,
    key: ToldKey,
    told: WindowTold,
) -> Result<Option<u32>, NoMemory>
    requires { next < 2 ^ 64 - 1 }
    ensures rule { (report : Report) → AreContents report contents.now → IfOk result (Unless 3 (IsToldRightly report (course_of course.old) key told (drop next lines.now))) }
    ensures goes { OnOk result (course_of course.new ≡ after_outcome (Outcome.Told key.client key.server key.r told) (course_of course.old)) }
{
    let right = is_told_rightly(contents, course, lines, next, key, told);
    course.told.note(key)?;
    Ok(if right { None } else { Some(3) })
}

/// A server has a certificate, which it puts at the place `put`. The rule that the line breaks.
fn certified(
    alloc: Global,
    contents: &[Content],
    course: &Course,
    fold: &mut Fold,
    lines: &[ReportLine],
    put: usize,
    server: ServerId,
    r: Round,
) -> Result<Option<u32>, NoMemory>
    ensures adds { (report : Report) (behind : List ReportLine) (said : List SaidView) → AreContents report contents.now → from_put behind ≡ drop put lines.now
        → IfOk result (λ rule. IfNone rule (Adds report (course_of course.now) (known_of fold.old said) (forms.Outcome (Outcome.Certified server r)) behind (known_of fold.new said))) }
    ensures rule { (report : Report) (behind : List ReportLine) → AreContents report contents.now → from_put behind ≡ drop put lines.now
        → IfOk result (Unless 4 (IsCertified report (course_of course.now) server r behind)) }
{
    let Some(certificate) = certificate_put(contents, course, lines, put, server, r) else {
        return Ok(Some(4));
    };
    give(alloc, &mut fold.chain, certificate)?;
    tell_round(
        alloc,
        &fold.chain,
        &mut fold.told,
        certificate.body(),
        &mut fold.due,
    )?;
    Ok(None)
}

/// A member holds the certificate that was delivered to it. The rule that the line breaks.
fn held(
    alloc: Global,
    contents: &[Content],
    scene: Scene,
    fold: &mut Fold,
    member: Member,
    r: Round,
) -> Result<Option<u32>, NoMemory>
    ensures adds { (report : Report) (c : CourseView) (behind : List ReportLine) (said : List SaidView) → AreContents report contents.now → c.scene ≡ scene
        → IfOk result (λ rule. IfNone rule (Adds report c (known_of fold.old said) (forms.Outcome (Outcome.Held member r)) behind (known_of fold.new said))) }
    ensures rule { (report : Report) (c : CourseView) → AreContents report contents.now → c.scene ≡ scene
        → IfOk result (Unless 4 (IsHeldRightly report c member r)) }
{
    let Some(certificate) = certificate_delivered(contents, scene, member, r) else {
        return Ok(Some(4));
    };
    tell_round(
        alloc,
        &fold.chain,
        &mut fold.told,
        certificate.body(),
        &mut fold.due,
    )?;
    Ok(None)
}

/// A server closed.
fn close(course: &mut Course, server: ServerId)
    ensures { course_of course.new ≡ record (course_of course.old) { closed = Some server } }
{
    course.closed = Some(server);
}

/// An outcome, whose line stands before the place `next`; `put` is the next place at which something is put. The rule that the line
/// breaks.
pub fn outcome(
    alloc: Global,
    roster: &Roster,
    corrupt: &[Member],
    contents: &[Content],
    heard: &mut Vec<Said>,
    course: &mut Course,
    fold: &mut Fold,
    lines: &[ReportLine],
    next: usize,
    put: usize,
    outcome: &Outcome,
) -> Result<Option<u32>, NoMemory>
    requires next { next < 2 ^ 64 - 1 }
    requires contents { All (IsContentUnder roster.now) contents.now }
    requires heard { All (IsUnder roster.now) heard.old.items }
    ensures heard { OnOk result (All (IsUnder roster.now) heard.new.items) }
    ensures rule { (report : Report) → AreContents report contents.now → report.corrupt ≡ corrupt.now → from_put (drop next lines.now) ≡ drop put lines.now
        → IfOk result (IsJudged report (course_of course.old) (forms.Outcome outcome.now) (drop next lines.now)) }
    ensures adds { (report : Report) → AreContents report contents.now → report.roster ≡ roster.now → report.corrupt ≡ corrupt.now → from_put (drop next lines.now) ≡ drop put lines.now
        → IfOk result (λ rule. IfNone rule (Adds report (course_of course.old) (known_of fold.old heard.old.items) (forms.Outcome outcome.now) (drop next lines.now) (known_of fold.new heard.new.items))) }
    ensures goes { IfOk result (λ rule. IfNone rule (course_of course.new ≡ after_outcome outcome.now (course_of course.old))) }
{
    match outcome {
        Outcome::Post { payload, by, .. } => {
            post(
                alloc, roster, corrupt, contents, heard, course, fold, *payload, *by,
            )
        }
        other => other_outcome(alloc, contents, course, fold, lines, next, put, other),
    }
}

fn other_outcome(
    alloc: Global,
    contents: &[Content],
    course: &mut Course,
    fold: &mut Fold,
    lines: &[ReportLine],
    next: usize,
    put: usize,
    outcome: &Outcome,
) -> Result<Option<u32>, NoMemory>
    requires next { next < 2 ^ 64 - 1 }
    requires other { posted_by outcome.now ≡ None }
    ensures rule { (report : Report) → AreContents report contents.now → from_put (drop next lines.now) ≡ drop put lines.now
        → IfOk result (IsJudged report (course_of course.old) (forms.Outcome outcome.now) (drop next lines.now)) }
    ensures adds { (report : Report) (said : List SaidView) → AreContents report contents.now → from_put (drop next lines.now) ≡ drop put lines.now
        → IfOk result (λ rule. IfNone rule (Adds report (course_of course.old) (known_of fold.old said) (forms.Outcome outcome.now) (drop next lines.now) (known_of fold.new said))) }
    ensures goes { IfOk result (λ rule. IfNone rule (course_of course.new ≡ after_outcome outcome.now (course_of course.old))) }
{
    match outcome {
        Outcome::Sent { id, payload, to } => sent(
            alloc, contents, course, fold, *id, *payload, *to,
        ),
        Outcome::Full { payload, .. } => full(alloc, contents, course, fold, *payload),
        Outcome::Told {
            client,
            server,
            r,
            told: word,
        } => {
            let key = ToldKey {
                client: *client,
                server: *server,
                r: *r,
            };
            told(contents, course, lines, next, key, *word)
        }
        Outcome::Certified { server, r } => {
            certified(alloc, contents, course, fold, lines, put, *server, *r)
        }
        Outcome::Held { member, r } => held(alloc, contents, course.scene, fold, *member, *r),
        Outcome::Closed { server, .. } => {
            close(course, *server);
            Ok(None)
        }
        Outcome::Listed { .. } => {
            fold.rounds = fold.rounds.saturating_add(1);
            Ok(None)
        }
        _ => Ok(None),
    }
}
