// The rules of event lines.

ghost use Rattle.std.specs.Prelude.{◌≡◌, ◌⊎◌, ◌<◌, ◌++◌, All, ◌↔◌, IfOk, IsSome, IsTrue, List, ℕ, MatchBool, OnOk, Some, drop};
ghost use Rattle.dn_seal.specs.Said.{IsUnder};
ghost use Rattle.dn_verify.specs.Course.{CourseView, after_delivery, after_event, first_outcome, is_early, is_for_nothing, tells_nothing, under};
ghost use Rattle.dn_verify.specs.Judged.{IsPlainEvent, Unless};
ghost use Rattle.dn_verify.specs.Flight.{without_client, without_message};
ghost use Rattle.dn_report.specs.declared.line.ReportLine.{ReportLine};
ghost use Rattle.dn_verify.specs.Kept.{course_of};
ghost use Rattle.dn_verify.specs.Rules.{IsHonest, IsOrderlyEvent, IsRightInject, PostsBy};
ghost use Rattle.dn_verify.specs.Payloads.{Report};
ghost use Rattle.dn_verify.specs.Under.{IsContentUnder};
ghost use Rattle.dn_verify.specs.Kept.{has_mark, known_of};
ghost use Rattle.dn_verify.specs.Known.{Adds, OpensDelivery, arriving, at_server, heard_of, with_reached};
ghost use Rattle.dn_verify.specs.Payloads.{AreContents};
ghost use Rattle.dn_verify.specs.Telling.{with_number};
ghost use Rattle.dn_report.specs.declared.outcome.Outcome.{Outcome as OutcomeOf};
ghost use Rattle.dn_report.specs.declared.line.ReportLine.TheVariants as forms;
ghost use Rattle.dn_report.specs.declared.line.EventLine.TheVariants as events;

use crate::content::Content;
use crate::course::Course;
use crate::fold::Fold;
use crate::hearing::hear_delivered;
use crate::honesty::is_corrupt;
use crate::judging::judge_place;
use crate::mail::Flying;
use crate::marks::Marks;
use crate::receipts::{closed_word, content_at};
use crate::report_lines::outcome_at;
use crate::scene::Scene;
use dn_memory::NoMemory;
use dn_report::{EventLine, IgnoredWord, Outcome, ReportLine};
use dn_roster::Roster;
use dn_seal::Said;
use dn_wire::{ClientId, Member, Round};
use std::alloc::Global;
use std::collections::VecDeque;

/// Whether the line at a place says that the server that a message reached isn't that far yet: the message stays in flight.
fn is_early_at(lines: &[ReportLine], at: usize) -> bool
    ensures { result ≡ is_early (drop at lines.now) }
{
    match outcome_at(lines, at) {
        Some(Outcome::Early) => true,
        _ => false,
    }
}

/// Whether an outcome says that no message has the number of a delivery.
fn is_nothing(outcome: &Outcome) -> bool
    ensures { result ≡ tells_nothing (Some outcome.now) }
{
    match outcome {
        Outcome::Ignored(IgnoredWord::None) => true,
        _ => false,
    }
}

/// The same of the line at a place.
fn is_for_nothing_at(lines: &[ReportLine], at: usize) -> bool
    ensures { result ≡ is_for_nothing (drop at lines.now) }
{
    match outcome_at(lines, at) {
        Some(outcome) => is_nothing(outcome),
        None => false,
    }
}

/// Hears what a payload carries that reached a server, where it does so for the first time.
fn reach(
    alloc: Global,
    roster: &Roster,
    contents: &[Content],
    heard: &mut Vec<Said>,
    reached: &mut Marks,
    payload: usize,
) -> Result<(), NoMemory>
    requires contents { All (IsContentUnder roster.now) contents.now }
    requires heard { All (IsUnder roster.now) heard.old.items }
    ensures under { OnOk result (All (IsUnder roster.now) heard.new.items) }
    ensures heard { (report : Report) → AreContents report contents.now → OnOk result (heard.new.items ≡ heard.old.items ++ heard_of report (has_mark reached.old) (Some payload)) }
    ensures reached { OnOk result (has_mark reached.new ≡ with_number payload (has_mark reached.old)) }
{
    let known = reached.has(payload as u64);
    reached.note(payload as u64)?;
    if known {
        return Ok(());
    }
    match content_at(contents, payload) {
        Some(content) => hear_delivered(alloc, roster, heard, content),
        None => Ok(()),
    }
}

/// The line that is due where a payload that doesn't open reached an honest member.
fn expect_unopened(
    corrupt: &[Member],
    contents: &[Content],
    due: &mut VecDeque<Outcome>,
    message: Flying,
) -> Result<(), NoMemory>
    ensures { (report : Report) → AreContents report contents.now → report.corrupt ≡ corrupt.now
        → OnOk result ((opened : List OutcomeOf) × OpensDelivery report (Some message) opened × (due.new.items ≡ due.old.items ++ opened)) }
{
    if is_corrupt(corrupt, message.to) {
        return Ok(());
    }
    match closed_word(content_at(contents, message.payload)) {
        Some(word) => {
            due.push_back(Outcome::Unopened(word))?;
            Ok(())
        }
        None => Ok(()),
    }
}

/// The payload, where a server gets it.
fn at_server(to: Member, payload: usize) -> Option<usize>
    ensures { result ≡ at_server to payload }
{
    match to {
        Member::Server(_) => Some(payload),
        Member::Client(_) => None,
    }
}

/// The payload of a message that arrives at a server, where it doesn't come early.
fn arriving(message: Flying, early: bool) -> Option<usize>
    ensures { (behind : List ReportLine) → early ≡ is_early behind → result ≡ arriving (Some message) behind }
{
    if early {
        None
    } else {
        at_server(message.to, message.payload)
    }
}

/// The same of the payload that reaches a server, if one does.
fn reach_some(
    alloc: Global,
    roster: &Roster,
    contents: &[Content],
    heard: &mut Vec<Said>,
    reached: &mut Marks,
    payload: Option<usize>,
) -> Result<(), NoMemory>
    requires contents { All (IsContentUnder roster.now) contents.now }
    requires heard { All (IsUnder roster.now) heard.old.items }
    ensures under { OnOk result (All (IsUnder roster.now) heard.new.items) }
    ensures heard { (report : Report) → AreContents report contents.now → OnOk result (heard.new.items ≡ heard.old.items ++ heard_of report (has_mark reached.old) payload) }
    ensures reached { OnOk result (has_mark reached.new ≡ with_reached payload (has_mark reached.old)) }
{
    match payload {
        Some(payload) => reach(alloc, roster, contents, heard, reached, payload),
        None => Ok(()),
    }
}

/// A message arrives, and leaves the flight where it isn't early.
fn take_message(course: &mut Course, id: u64, message: Flying, early: bool)
    ensures { (behind : List ReportLine) → early ≡ is_early behind → course_of course.new ≡ after_delivery id (Some message) behind (course_of course.old) }
{
    course.scene = Scene::Delivery {
        to: message.to,
        payload: message.payload,
    };
    if !early {
        course.mail.remove(id);
    }
}

/// The line stands under this event.
fn stand(course: &mut Course, scene: Scene)
    ensures { course_of course.new ≡ under scene (course_of course.old) }
{
    course.scene = scene;
}

/// A message arrives. The rule that the line breaks.
fn deliver(
    alloc: Global,
    roster: &Roster,
    corrupt: &[Member],
    contents: &[Content],
    heard: &mut Vec<Said>,
    course: &mut Course,
    fold: &mut Fold,
    lines: &[ReportLine],
    next: usize,
    id: u64,
) -> Result<Option<u32>, NoMemory>
    requires contents { All (IsContentUnder roster.now) contents.now }
    requires heard { All (IsUnder roster.now) heard.old.items }
    ensures heard { OnOk result (All (IsUnder roster.now) heard.new.items) }
    ensures rule { IfOk result (Unless 1 (IsSome ((course_of course.old).flight id) ⊎ IsTrue (is_for_nothing (drop next lines.now)))) }
    ensures adds { (report : Report) → AreContents report contents.now → report.roster ≡ roster.now → report.corrupt ≡ corrupt.now
        → OnOk result (Adds report (course_of course.old) (known_of fold.old heard.old.items) (forms.Event (events.Deliver id)) (drop next lines.now) (known_of fold.new heard.new.items)) }
    ensures goes { OnOk result (course_of course.new ≡ after_delivery id ((course_of course.old).flight id) (drop next lines.now) (course_of course.old)) }
{
    let Some(message) = course.mail.find(id) else {
        stand(course, Scene::Of(None));
        let rule = if is_for_nothing_at(lines, next) {
            None
        } else {
            Some(1)
        };
        return Ok(rule);
    };
    let early = is_early_at(lines, next);
    expect_unopened(corrupt, contents, &mut fold.due, message)?;
    let reaching = arriving(message, early);
    reach_some(alloc, roster, contents, heard, &mut fold.reached, reaching)?;
    take_message(course, id, message, early);
    Ok(None)
}

/// Whether the line at this place posts this payload by this member.
fn is_post_of(lines: &[ReportLine], at: usize, payload: u64, by: Member) -> bool
    ensures { IsTrue result ↔ PostsBy payload by (first_outcome (drop at lines.now)) }
{
    match outcome_at(lines, at) {
        Some(
            Outcome::Post {
                payload: number,
                by: member,
                ..
            },
        ) => *number == payload && *member == by,
        _ => false,
    }
}

/// Whether a member may inject a payload: it is corrupt, or had put it.
fn may_inject(corrupt: &[Member], course: &Course, from: Member, payload: u64) -> bool
    ensures { IsTrue result ↔ (IsHonest corrupt.now from → (payload < course.now.posted) × IsTrue ((course_of course.now).puts payload from)) }
{
    if is_corrupt(corrupt, from) {
        return true;
    }
    match course.payload(payload) {
        Some(payload) => course.puts.has(payload, from),
        None => false,
    }
}

/// A member puts a payload. The rule that the line breaks.
fn inject(
    corrupt: &[Member],
    course: &mut Course,
    lines: &[ReportLine],
    next: usize,
    from: Member,
    payload: u64,
) -> Option<u32>
    ensures rule { Unless 1 (IsRightInject corrupt.now (course_of course.old) from payload (drop next lines.now)) result }
    ensures goes { course_of course.new ≡ under (Scene.Inject from) (course_of course.old) }
{
    let posted = course.payload(payload).is_some() || is_post_of(lines, next, payload, from);
    let right = posted && may_inject(corrupt, course, from, payload);
    stand(course, Scene::Inject(from));
    if right { None } else { Some(1) }
}

/// A verdict is told: its lines are due.
fn judge(
    alloc: Global,
    roster: &Roster,
    heard: &[Said],
    fold: &mut Fold,
    r: Round,
    k: u32,
) -> Result<(), NoMemory>
    requires { All (IsUnder roster.now) heard.now }
    ensures { (report : Report) (c : CourseView) (behind : List ReportLine) → report.roster ≡ roster.now
        → OnOk result (Adds report c (known_of fold.old heard.now) (forms.Event (events.Judge r k)) behind (known_of fold.new heard.now)) }
{
    let found = judge_place(alloc, roster, &fold.chain, heard, r, k, &mut fold.due)?;
    fold.verdicts = fold.verdicts.saturating_add(u64::from(found));
    Ok(())
}

/// A message is lost.
fn lose(course: &mut Course, id: u64)
    ensures { course_of course.new ≡ record (course_of course.old) { scene = Scene.Of None; flight = without_message ((course_of course.old).flight) id } }
{
    course.scene = Scene::Of(None);
    course.mail.remove(id);
}

/// A client leaves, and its messages with it.
fn leave(course: &mut Course, i: ClientId) -> Result<(), NoMemory>
    ensures { OnOk result (course_of course.new ≡ record (course_of course.old) { scene = Scene.Of None; flight = without_client ((course_of course.old).flight) i }) }
{
    course.scene = Scene::Of(None);
    course.mail.drop_from(i)
}

/// The scene of an event of which no rule speaks, and by which no message leaves the flight.
fn scene_under(event: &EventLine) -> Scene
    requires { IsPlainEvent event.now }
    ensures { (behind : List ReportLine) (c : CourseView) → after_event event.now behind c ≡ under result c }
{
    match event {
        EventLine::Say { .. } => Scene::Of(None),
        EventLine::Tick => Scene::Tick,
        EventLine::Open { server, .. } => Scene::Of(Some(Member::Server(*server))),
        EventLine::Close { server } => Scene::Of(Some(Member::Server(*server))),
        EventLine::Abandon { server } => Scene::Of(Some(Member::Server(*server))),
        EventLine::Submit { client, .. } => Scene::Of(Some(Member::Client(*client))),
        EventLine::Accuse { client, .. } => Scene::Of(Some(Member::Client(*client))),
        _ => unreachable!(),
    }
}

/// An event, whose line stands before the place `next`. The rule that the line breaks.
pub fn event(
    alloc: Global,
    roster: &Roster,
    corrupt: &[Member],
    contents: &[Content],
    heard: &mut Vec<Said>,
    course: &mut Course,
    fold: &mut Fold,
    lines: &[ReportLine],
    next: usize,
    event: &EventLine,
) -> Result<Option<u32>, NoMemory>
    requires contents { All (IsContentUnder roster.now) contents.now }
    requires heard { All (IsUnder roster.now) heard.old.items }
    ensures heard { OnOk result (All (IsUnder roster.now) heard.new.items) }
    ensures rule { (report : Report) → report.corrupt ≡ corrupt.now → IfOk result (Unless 1 (IsOrderlyEvent report (course_of course.old) event.now (drop next lines.now))) }
    ensures adds { (report : Report) → AreContents report contents.now → report.roster ≡ roster.now → report.corrupt ≡ corrupt.now
        → OnOk result (Adds report (course_of course.old) (known_of fold.old heard.old.items) (forms.Event event.now) (drop next lines.now) (known_of fold.new heard.new.items)) }
    ensures goes { OnOk result (course_of course.new ≡ after_event event.now (drop next lines.now) (course_of course.old)) }
{
    match event {
        EventLine::Deliver { id } => deliver(
            alloc, roster, corrupt, contents, heard, course, fold, lines, next, *id,
        ),
        EventLine::Judge { r, k } => {
            stand(course, Scene::Judge);
            judge(alloc, roster, heard, fold, *r, *k)?;
            Ok(None)
        }
        EventLine::Inject { from, payload, .. } => {
            Ok(inject(corrupt, course, lines, next, *from, *payload))
        }
        EventLine::Lose { id } => {
            lose(course, *id);
            Ok(None)
        }
        EventLine::Leave { client } => {
            leave(course, *client)?;
            Ok(None)
        }
        other => {
            stand(course, scene_under(other));
            Ok(None)
        }
    }
}
