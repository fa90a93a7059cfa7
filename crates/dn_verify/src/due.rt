// Lines that stand only where they are due.

ghost use Rattle.std.specs.Prelude.{◌≡◌, ◌↔◌, IsTrue, Some};
ghost use Rattle.std.specs.Option.{option_copied};
ghost use Rattle.dn_report.specs.declared.outcome.Outcome.{Outcome as OutcomeOf};
ghost use Rattle.dn_verify.specs.Breaks.{rule_in, rule_of};
ghost use Rattle.dn_verify.specs.Judged.{IsJudgedBetween, IsLeastOf, StandsWhereDue};

use crate::scene::Scene;
use dn_report::{BlameWord, IgnoredWord, ListedPairs, Outcome, UnopenedWord};
use dn_wire::{Bytes, Member, Round, SlotId};

fn is_unopened(due: &Outcome, word: UnopenedWord) -> bool
    ensures { IsTrue result ↔ (due.now ≡ Outcome.Unopened word) }
{
    match due {
        Outcome::Unopened(other) => *other == word,
        _ => false,
    }
}

fn is_listed(due: &Outcome, r: Round, pairs: &ListedPairs) -> bool
    ensures { IsTrue result ↔ (due.now ≡ Outcome.Listed r pairs.now) }
{
    match due {
        Outcome::Listed {
            r: round,
            pairs: other,
        } => *round == r && other.equals(pairs),
        _ => false,
    }
}

fn is_out(due: &Outcome, r: Round, bytes: &Bytes) -> bool
    ensures { IsTrue result ↔ (due.now ≡ Outcome.Out r bytes.now) }
{
    match due {
        Outcome::Out {
            r: round,
            bytes: other,
        } => *round == r && other.equals(bytes),
        _ => false,
    }
}

fn is_thin(due: &Outcome, r: Round, count: u32, last: u32) -> bool
    ensures { IsTrue result ↔ (due.now ≡ Outcome.Thin r count last) }
{
    match due {
        Outcome::Thin {
            r: round,
            count: counted,
            last: before,
        } => *round == r && *counted == count && *before == last,
        _ => false,
    }
}

fn is_message(due: &Outcome, r: Round, slot: SlotId, text: &Bytes) -> bool
    ensures { IsTrue result ↔ (due.now ≡ Outcome.Message r slot text.now) }
{
    match due {
        Outcome::Message {
            r: round,
            slot: of,
            text: other,
        } => *round == r && *of == slot && other.equals(text),
        _ => false,
    }
}

fn is_garbled(due: &Outcome, r: Round, slot: SlotId) -> bool
    ensures { IsTrue result ↔ (due.now ≡ Outcome.Garbled r slot) }
{
    match due {
        Outcome::Garbled { r: round, slot: of } => *round == r && *of == slot,
        _ => false,
    }
}

fn is_ignored(due: &Outcome, word: IgnoredWord) -> bool
    ensures { IsTrue result ↔ (due.now ≡ Outcome.Ignored word) }
{
    match due {
        Outcome::Ignored(other) => *other == word,
        _ => false,
    }
}

fn is_blame(due: &Outcome, member: Member, reason: BlameWord) -> bool
    ensures { IsTrue result ↔ (due.now ≡ Outcome.Blame member reason) }
{
    match due {
        Outcome::Blame {
            member: blamed,
            reason: word,
        } => *blamed == member && *word == reason,
        _ => false,
    }
}

fn is_silent(due: &Outcome, member: Member) -> bool
    ensures { IsTrue result ↔ (due.now ≡ Outcome.Silent member) }
{
    match due {
        Outcome::Silent { member: other } => *other == member,
        _ => false,
    }
}

/// Whether a line that stands only where it is due is the one that is due.
fn is_due(told: &Outcome, due: &Outcome) -> bool
    ensures yes { IsTrue result → due.now ≡ told.now }
    ensures no { StandsWhereDue told.now → due.now ≡ told.now → IsTrue result }
{
    match told {
        Outcome::Unopened(word) => is_unopened(due, *word),
        Outcome::Listed { r, pairs } => is_listed(due, *r, pairs),
        Outcome::Out { r, bytes } => is_out(due, *r, bytes),
        Outcome::Thin { r, count, last } => is_thin(due, *r, *count, *last),
        Outcome::Message { r, slot, text } => is_message(due, *r, *slot, text),
        Outcome::Garbled { r, slot } => is_garbled(due, *r, *slot),
        Outcome::Ignored(word) => is_ignored(due, *word),
        Outcome::Blame { member, reason } => is_blame(due, *member, *reason),
        Outcome::Silent { member } => is_silent(due, *member),
        _ => false,
    }
}

/// The rule of a line that stands only where it is due, under this event.
fn rule_of(outcome: &Outcome, scene: Scene) -> Option<u32>
    ensures { result ≡ rule_of scene outcome.now }
{
    match outcome {
        Outcome::Unopened(_) => Some(2),
        Outcome::Listed { .. } => Some(5),
        Outcome::Out { .. } => Some(5),
        Outcome::Thin { .. } => Some(5),
        Outcome::Message { .. } => Some(5),
        Outcome::Garbled { .. } => Some(5),
        Outcome::Blame { .. } => Some(6),
        Outcome::Silent { .. } => Some(6),
        Outcome::Ignored(IgnoredWord::None) => scene.judge_rule(),
        _ => None,
    }
}

/// The same, where there is a line.
fn rule_in(outcome: Option<&Outcome>, scene: Scene) -> Option<u32>
    ensures { result ≡ rule_in scene (option_copied outcome.entry) }
{
    rule_of(outcome?, scene)
}

/// The lesser of two rules that are broken.
pub fn least(a: Option<u32>, b: Option<u32>) -> Option<u32>
    ensures { IsLeastOf a b result }
{
    match (a, b) {
        (Some(x), Some(y)) => Some(x.min(y)),
        (Some(x), None) => Some(x),
        (None, y) => y,
    }
}

/// Whether the line that stands is the one that is due.
fn is_as_due(told: Option<&Outcome>, due: Option<&Outcome>) -> bool
    ensures yes { IsTrue result → option_copied told.entry ≡ option_copied due.entry }
    ensures no { (o : OutcomeOf) → option_copied told.entry ≡ Some o → option_copied due.entry ≡ Some o → StandsWhereDue o → IsTrue result }
{
    let Some(told) = told else {
        return false;
    };
    let Some(due) = due else {
        return false;
    };
    is_due(told, due)
}

/// The rule that is broken where the one line stands and the other is due.
pub fn broken_due(told: Option<&Outcome>, due: Option<&Outcome>, scene: Scene) -> Option<u32>
    ensures { IsJudgedBetween scene (option_copied told.entry) (option_copied due.entry) result }
{
    if is_as_due(told, due) {
        return None;
    }
    least(rule_in(told, scene), rule_in(due, scene))
}
