// What clients are told, and which certificates are told of: the rules of `told`, `certified` and `held` lines.

ghost use Rattle.std.specs.Prelude.{◌≡◌, ◌+◌, None, Some, ◌-◌, ◌<◌, ◌^◌, ◌↔◌, IsTrue, List, MatchOption, drop};
ghost use Rattle.std.specs.Option.{option_copied};
ghost use Rattle.dn_verify.specs.Course.{CourseView, first_outcome};
ghost use Rattle.dn_report.specs.declared.line.ReportLine.{ReportLine};
ghost use Rattle.dn_verify.specs.Kept.{course_of};
ghost use Rattle.dn_verify.specs.Payloads.{AreContents, Report};
ghost use Rattle.dn_verify.specs.Rules.{HasReceipt, IsCertified, IsHeldRightly, IsToldRightly, from_put, put_in, puts_next, sends_by};
ghost use Rattle.dn_verify.specs.Known.{certificate_in, delivered_to};

use crate::content::Content;
use crate::course::Course;
use crate::receipts::{certificate_for, content_at, is_receipt, named, post_number, submitted};
use crate::report_lines::outcome_at;
use crate::scene::Scene;
use crate::told::ToldKey;
use dn_cert::Certificate;
use dn_records::WordTold;
use dn_report::{Outcome, ReportLine};
use dn_told::WindowTold;
use dn_wire::{Member, Round, ServerId};

/// The payload that this outcome sends, or the one behind it where it is a `post`, with its receiver.
fn sent_by(course: &Course, outcome: &Outcome, later: Option<&Outcome>) -> Option<(usize, Member)>
    ensures { result ≡ sends_by (course_of course.now) (Some outcome.now) (option_copied later.entry) }
{
    let Some(number) = post_number(outcome) else {
        let (number, to) = named(outcome)?;
        return Some((course.payload(number)?, to));
    };
    let (payload, to) = named(later?)?;
    if payload == number && payload == course.posted as u64 {
        Some((course.posted, to))
    } else {
        None
    }
}

/// The payload that is sent behind this place, with its receiver, where only its `post` line may stand between.
fn sent_next(course: &Course, lines: &[ReportLine], next: usize) -> Option<(usize, Member)>
    requires { next < 2 ^ 64 - 1 }
    ensures { result ≡ sends_by (course_of course.now) (first_outcome (drop next lines.now)) (first_outcome (drop (next + 1) lines.now)) }
{
    let outcome = outcome_at(lines, next)?;
    sent_by(course, outcome, outcome_at(lines, next + 1))
}

/// Whether a server told a client rightly that it is included or late: by its receipt, on a submission that was delivered to it.
fn has_receipt(
    contents: &[Content],
    course: &Course,
    lines: &[ReportLine],
    next: usize,
    key: ToldKey,
    word: WordTold,
) -> bool
    requires { next < 2 ^ 64 - 1 }
    ensures { (report : Report) → AreContents report contents.now → IsTrue result ↔ HasReceipt report (course_of course.now) key word (drop next lines.now) }
{
    let Scene::Delivery { to, payload } = course.scene else {
        return false;
    };
    if to != Member::Server(key.server) {
        return false;
    }
    let Some(digest) = submitted(content_at(contents, payload), key.client, key.r) else {
        return false;
    };
    let Some((receipt, receiver)) = sent_next(course, lines, next) else {
        return false;
    };
    receiver == Member::Client(key.client)
        && is_receipt(
            content_at(contents, receipt),
            key.server,
            key.client,
            key.r,
            &digest,
            word,
        )
}

/// Whether a client is told rightly.
pub fn is_told_rightly(
    contents: &[Content],
    course: &Course,
    lines: &[ReportLine],
    next: usize,
    key: ToldKey,
    told: WindowTold,
) -> bool
    requires { next < 2 ^ 64 - 1 }
    ensures { (report : Report) → AreContents report contents.now → IsTrue result ↔ IsToldRightly report (course_of course.now) key told (drop next lines.now) }
{
    match told {
        WindowTold::Included => {
            has_receipt(contents, course, lines, next, key, WordTold::Included)
        }
        WindowTold::Late => has_receipt(contents, course, lines, next, key, WordTold::Late),
        WindowTold::Repeat => course.told.has(key),
    }
}

/// The payload that this server puts at a place.
fn put_at(course: &Course, lines: &[ReportLine], at: usize, server: ServerId) -> Option<usize>
    ensures { result ≡ put_in (course_of course.now) server (first_outcome (drop at lines.now)) }
{
    match outcome_at(lines, at)? {
        Outcome::Post { payload, by, .. } => {
            if *by == Member::Server(server) && *payload == course.posted as u64 {
                Some(course.posted)
            } else {
                None
            }
        }
        Outcome::Sent { payload, .. } => course.payload(*payload),
        Outcome::Full { payload, .. } => course.payload(*payload),
        _ => None,
    }
}

/// The certificate of this round that this server puts at a place.
pub fn certificate_put<'a>(
    contents: &'a [Content],
    course: &Course,
    lines: &[ReportLine],
    put: usize,
    server: ServerId,
    r: Round,
) -> Option<&'a Certificate>
    ensures body { (report : Report) (behind : List ReportLine) → AreContents report contents.now → from_put behind ≡ drop put lines.now
        → MatchOption result (certificate_in report r (puts_next (course_of course.now) server behind) ≡ None)
        (λ x. certificate_in report r (puts_next (course_of course.now) server behind) ≡ Some x.now.body) }
    ensures rule { (report : Report) (behind : List ReportLine) → AreContents report contents.now → from_put behind ≡ drop put lines.now
        → MatchOption result (IsCertified report (course_of course.now) server r behind → ⊥) (λ _. IsCertified report (course_of course.now) server r behind) }
{
    let payload = put_at(course, lines, put, server)?;
    certificate_for(content_at(contents, payload), r)
}

/// The certificate of this round that was delivered to this member.
pub fn certificate_delivered<'a>(
    contents: &'a [Content],
    scene: Scene,
    member: Member,
    r: Round,
) -> Option<&'a Certificate>
    ensures body { (report : Report) → AreContents report contents.now
        → MatchOption result (certificate_in report r (delivered_to scene member) ≡ None) (λ x. certificate_in report r (delivered_to scene member) ≡ Some x.now.body) }
    ensures rule { (report : Report) (c : CourseView) → AreContents report contents.now → c.scene ≡ scene
        → MatchOption result (IsHeldRightly report c member r → ⊥) (λ _. IsHeldRightly report c member r) }
{
    let Scene::Delivery { to, payload } = scene else {
        return None;
    };
    if to != member {
        return None;
    }
    certificate_for(content_at(contents, payload), r)
}
