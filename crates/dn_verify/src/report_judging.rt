// A report as a whole.

ghost use Rattle.std.specs.Prelude.{◌≡◌, ◌+◌, ◌-◌, ◌<◌, ◌≤◌, ◌^◌, [], ℕ, All, OnOk, IfErr, IfNone, IfOk, MatchResult, IsSome, List, drop, length, slice_index, vec_len};
ghost use Rattle.dn_report.specs.declared.line.ReportLine.{ReportLine};
ghost use Rattle.dn_seal.specs.Said.{IsUnder};
ghost use Rattle.dn_verify.specs.Course.{CourseView, after, after_told, no_course};
ghost use Rattle.dn_verify.specs.Judged.{IsJudged, IsMark, IsStepped, stopped};
ghost use Rattle.dn_verify.specs.Kept.{course_of, known_of};
ghost use Rattle.dn_verify.specs.Known.{Adds, GoesOn, Known, no_known};
ghost use Rattle.dn_verify.specs.Payloads.{AreContents, Report};
ghost use Rattle.dn_verify.specs.Rules.{IsHonestWord, from_put, is_put};
ghost use Rattle.dn_verify.specs.Steps.{Passes, StopsSo, behind_at, course_before, line_at, posts_of};
ghost use Rattle.dn_verify.specs.Under.{IsContentUnder};
ghost use Rattle.dn_verify.specs.Acceptance.{Keeps};
ghost use Rattle.dn_verify.specs.Verify.{IsReportText, StopsText};

use crate::content::Content;
use crate::course::{Course, Ending};
use crate::due::least;
use crate::events::event;
use crate::fold::Fold;
use crate::header::read_header;
use crate::honesty::some_honest_server;
use crate::opening::contents;
use crate::outcomes::outcome;
use crate::report_lines::read_lines;
use crate::scene::Scene;
use crate::stop::{Stop, misplaced};
use dn_cert::Chain;
use dn_memory::NoMemory;
use dn_report::{Outcome, ReportLine};
use dn_roster::Roster;
use dn_seal::Said;
use dn_wire::Member;
use std::alloc::Global;

/// How many rounds an accepted report tells, and how many verdicts.
#[derive(Clone, Copy, Debug, PartialEq, Eq)]
pub struct Counts {
    pub rounds: u64,
    pub verdicts: u64,
}

/// Whether a line puts something.
fn is_put(line: &ReportLine) -> bool
    ensures { result ≡ is_put line.now }
{
    match line {
        ReportLine::Outcome(Outcome::Post { .. }) => true,
        ReportLine::Outcome(Outcome::Sent { .. }) => true,
        ReportLine::Outcome(Outcome::Full { .. }) => true,
        _ => false,
    }
}

/// For each line the place of the next line behind it that puts something, and the number of lines where there is none.
fn next_puts(alloc: Global, lines: &[ReportLine]) -> Result<Vec<usize>, NoMemory>
    ensures len { IfOk result (λ v. vec_len v ≡ length lines.now) }
    ensures puts { IfOk result (λ v. (k : ℕ) → k < length lines.now → from_put (behind_at lines.now k) ≡ drop (slice_index v.items k) lines.now) }
{
    let count = lines.len();
    let mut next = vec![in alloc; count; count]?;
    let mut last = count;
    let mut i = count;
    while i > 0 {
        i -= 1;
        next[i] = last;
        if is_put(&lines[i]) {
            last = i;
        }
    }
    Ok(next)
}

/// The rule that a mark or one of the last lines breaks.
fn mark_rule(
    corrupt: &[Member],
    course: &mut Course,
    servers: u32,
    line: &ReportLine,
) -> Option<u32>
    requires { IsMark line.now }
    ensures rule { (report : Report) (c : CourseView) (behind : List ReportLine) → report.corrupt ≡ corrupt.now → length report.roster.servers ≡ servers
        → IsJudged report c line.now behind result }
    ensures goes { (behind : List ReportLine) → course_of course.new ≡ after_told line.now behind (course_of course.old) }
{
    course.scene = Scene::Idle;
    match line {
        ReportLine::Audit { honest, .. } => {
            if *honest == some_honest_server(corrupt, servers) {
                None
            } else {
                Some(8)
            }
        }
        _ => None,
    }
}

/// The rule that a line breaks by what it says itself, wherever it stands.
fn own_rule(
    alloc: Global,
    roster: &Roster,
    corrupt: &[Member],
    contents: &[Content],
    heard: &mut Vec<Said>,
    course: &mut Course,
    fold: &mut Fold,
    lines: &[ReportLine],
    next: usize,
    put: usize,
    line: &ReportLine,
) -> Result<Option<u32>, NoMemory>
    requires next { next < 2 ^ 64 - 1 }
    requires contents { All (IsContentUnder roster.now) contents.now }
    requires heard { All (IsUnder roster.now) heard.old.items }
    ensures heard { OnOk result (All (IsUnder roster.now) heard.new.items) }
    ensures rule { (report : Report) → AreContents report contents.now → report.roster ≡ roster.now → report.corrupt ≡ corrupt.now → from_put (drop next lines.now) ≡ drop put lines.now
        → IfOk result (IsJudged report (course_of course.old) line.now (drop next lines.now)) }
    ensures adds { (report : Report) → AreContents report contents.now → report.roster ≡ roster.now → report.corrupt ≡ corrupt.now → from_put (drop next lines.now) ≡ drop put lines.now
        → IfOk result (λ rule. IfNone rule (Adds report (course_of course.old) (known_of fold.old heard.old.items) line.now (drop next lines.now) (known_of fold.new heard.new.items))) }
    ensures goes { IfOk result (λ rule. IfNone rule (course_of course.new ≡ after_told line.now (drop next lines.now) (course_of course.old))) }
{
    match line {
        ReportLine::Event(e) => event(
            alloc, roster, corrupt, contents, heard, course, fold, lines, next, e,
        ),
        ReportLine::Outcome(o) => outcome(
            alloc, roster, corrupt, contents, heard, course, fold, lines, next, put, o,
        ),
        other => Ok(mark_rule(corrupt, course, roster.servers(), other)),
    }
}

/// The line at a place is refused by the rule, if there is one.
fn stop_at(at: usize, rule: Option<u32>) -> Result<(), Stop>
    ensures { result ≡ stopped at rule }
{
    match rule {
        Some(rule) => Err(Stop::Broken { at, rule }),
        None => Ok(()),
    }
}

/// Takes the line at a place. It is broken where the line breaks a rule.
fn step(
    alloc: Global,
    roster: &Roster,
    corrupt: &[Member],
    contents: &[Content],
    heard: &mut Vec<Said>,
    course: &mut Course,
    fold: &mut Fold,
    lines: &[ReportLine],
    at: usize,
    put: usize,
) -> Result<(), Stop>
    requires within { at < length lines.now }
    requires contents { All (IsContentUnder roster.now) contents.now }
    requires heard { All (IsUnder roster.now) heard.old.items }
    ensures heard { OnOk result (All (IsUnder roster.now) heard.new.items) }
    ensures rule { (report : Report) → AreContents report contents.now → report.roster ≡ roster.now → report.corrupt ≡ corrupt.now → from_put (behind_at lines.now at) ≡ drop put lines.now
        → IsStepped report (course_of course.old) (known_of fold.old heard.old.items) (line_at lines.now at) (behind_at lines.now at) at result }
    ensures adds { (report : Report) → AreContents report contents.now → report.roster ≡ roster.now → report.corrupt ≡ corrupt.now → from_put (behind_at lines.now at) ≡ drop put lines.now
        → OnOk result (GoesOn report (course_of course.old) (known_of fold.old heard.old.items) (line_at lines.now at) (behind_at lines.now at) (known_of fold.new heard.new.items)) }
    ensures goes { OnOk result (course_of course.new ≡ after (course_of course.old) (line_at lines.now at) (behind_at lines.now at)) }
{
    let line = &lines[at];
    let Some(ending) = course.ending.behind(line) else {
        return Err(misplaced(at));
    };
    let due = fold.due_rule(line, course.scene);
    let own = own_rule(
        alloc,
        roster,
        corrupt,
        contents,
        heard,
        course,
        fold,
        lines,
        at + 1,
        put,
        line,
    )?;
    course.ending = ending;
    stop_at(at, least(due, own))
}

/// Takes the lines from a place on.
fn steps(
    alloc: Global,
    roster: &Roster,
    corrupt: &[Member],
    contents: &[Content],
    course: &mut Course,
    fold: &mut Fold,
    lines: &[ReportLine],
    first: usize,
) -> Result<(), Stop>
    requires contents { All (IsContentUnder roster.now) contents.now }
    requires start { course_of course.old ≡ no_course }
    requires known { known_of fold.old [] ≡ no_known (length roster.now.clients) }
    requires first { first ≤ length lines.now }
    ensures passed { (report : Report) → AreContents report contents.now → report.roster ≡ roster.now → report.corrupt ≡ corrupt.now
        → MatchResult result (λ _. (g : Known) × Passes report lines.now first (length lines.now) g) (StopsSo report lines.now first) }
    ensures goes { OnOk result (course_of course.new ≡ course_before lines.now first (length lines.now)) }
{
    let puts = next_puts(alloc, lines)?;
    let mut heard = Vec::new(alloc);
    for at in first..lines.len() {
        step(
            alloc, roster, corrupt, contents, &mut heard, course, fold, lines, at, puts[at],
        )?;
    }
    Ok(())
}

/// The counts of a report that is accepted.
pub fn judged(alloc: Global, text: &[u8]) -> Result<Counts, Stop>
    ensures text { IfOk result (λ _. IsReportText text.now) }
    ensures keeps { IfOk result (λ _. Keeps text.now) }
    ensures stops { IfErr result (StopsText text.now) }
{
    let report = read_lines(alloc, text)?;
    let lines = report.lines.as_slice();
    let header = read_header(alloc, lines)?;
    let corrupt = header.corrupt.as_slice();
    let contents = contents(alloc, &header.roster, lines)?;
    let opened = contents.as_slice();
    let clients = header.roster.clients();
    prove!(1 <= clients && clients <= 512);
    let chain = Chain::make(alloc, clients)?;
    let mut fold = Fold::new(alloc, chain);
    let mut course = Course::new(alloc);
    steps(
        alloc,
        &header.roster,
        corrupt,
        opened,
        &mut course,
        &mut fold,
        lines,
        header.first,
    )?;
    if !report.whole {
        return Err(misplaced(lines.len()));
    }
    if course.ending != Ending::Ended {
        return Err(misplaced(lines.len()));
    }
    Ok(Counts {
        rounds: fold.rounds,
        verdicts: fold.verdicts,
    })
}
