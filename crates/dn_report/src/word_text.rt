// The text of each word, and the word of a text.

ghost use Rattle.std.specs.Prelude.{◌≡◌};
ghost use Rattle.dn_lines.specs.Field.{Reads};
ghost use Rattle.dn_lines.specs.Form.{take_field};
ghost use Rattle.dn_report.specs.Words.{told_text, told_word, ignored_text, ignored_word, spoil_text, spoil_word, unopened_text, unopened_word, blame_text, blame_word, yes_text, yes_word};

use crate::words::{BlameWord, IgnoredWord, SpoilWord, UnopenedWord};
use dn_lines::{Fields, LineFault, text_of};
use dn_told::WindowTold;

/// The word of what a client is told.
pub fn told_text(word: WindowTold) -> &'static [u8]
    ensures { result.now ≡ told_text word }
{
    match word {
        WindowTold::Included => b"included",
        WindowTold::Late => b"late",
        WindowTold::Repeat => b"repeat",
    }
}

fn told_in(text: &[u8]) -> Option<WindowTold>
    ensures { result ≡ told_word.read text.now }
{
    if text == b"included".as_slice() {
        return Some(WindowTold::Included);
    }
    if text == b"late".as_slice() {
        return Some(WindowTold::Late);
    }
    if text == b"repeat".as_slice() {
        return Some(WindowTold::Repeat);
    }
    None
}

/// The next field: what a client is told.
pub fn told_of(fields: &mut Fields) -> Result<WindowTold, LineFault>
    ensures { Reads (λ x. x) result fields.new (take_field told_word fields.old) }
{
    told_in(text_of(fields)?).ok_or(LineFault::Grammar)
}

/// The word of why a call was ignored.
pub fn ignored_text(word: IgnoredWord) -> &'static [u8]
    ensures { result.now ≡ ignored_text word }
{
    match word {
        IgnoredWord::Old => b"old",
        IgnoredWord::Idle => b"idle",
        IgnoredWord::Running => b"running",
        IgnoredWord::Repeat => b"repeat",
        IgnoredWord::Kind => b"kind",
        IgnoredWord::Prev => b"prev",
        IgnoredWord::Length => b"length",
        IgnoredWord::Digest => b"digest",
        IgnoredWord::Spent => b"spent",
        IgnoredWord::Body => b"body",
        IgnoredWord::Place => b"place",
        IgnoredWord::Zero => b"zero",
        IgnoredWord::Key => b"key",
        IgnoredWord::Left => b"left",
        IgnoredWord::Known => b"known",
        IgnoredWord::Cert => b"cert",
        IgnoredWord::Evidence => b"evidence",
        IgnoredWord::Calm => b"calm",
        IgnoredWord::Truth => b"truth",
        IgnoredWord::None => b"none",
        IgnoredWord::Shut => b"shut",
        IgnoredWord::Floor => b"floor",
    }
}

fn ignored_in(text: &[u8]) -> Option<IgnoredWord>
    ensures { result ≡ ignored_word.read text.now }
{
    if text == b"old".as_slice() {
        return Some(IgnoredWord::Old);
    }
    if text == b"idle".as_slice() {
        return Some(IgnoredWord::Idle);
    }
    if text == b"running".as_slice() {
        return Some(IgnoredWord::Running);
    }
    if text == b"repeat".as_slice() {
        return Some(IgnoredWord::Repeat);
    }
    if text == b"kind".as_slice() {
        return Some(IgnoredWord::Kind);
    }
    if text == b"prev".as_slice() {
        return Some(IgnoredWord::Prev);
    }
    if text == b"length".as_slice() {
        return Some(IgnoredWord::Length);
    }
    if text == b"digest".as_slice() {
        return Some(IgnoredWord::Digest);
    }
    if text == b"spent".as_slice() {
        return Some(IgnoredWord::Spent);
    }
    if text == b"body".as_slice() {
        return Some(IgnoredWord::Body);
    }
    if text == b"place".as_slice() {
        return Some(IgnoredWord::Place);
    }
    if text == b"zero".as_slice() {
        return Some(IgnoredWord::Zero);
    }
    if text == b"key".as_slice() {
        return Some(IgnoredWord::Key);
    }
    if text == b"left".as_slice() {
        return Some(IgnoredWord::Left);
    }
    if text == b"known".as_slice() {
        return Some(IgnoredWord::Known);
    }
    if text == b"cert".as_slice() {
        return Some(IgnoredWord::Cert);
    }
    if text == b"evidence".as_slice() {
        return Some(IgnoredWord::Evidence);
    }
    if text == b"calm".as_slice() {
        return Some(IgnoredWord::Calm);
    }
    if text == b"truth".as_slice() {
        return Some(IgnoredWord::Truth);
    }
    if text == b"none".as_slice() {
        return Some(IgnoredWord::None);
    }
    if text == b"shut".as_slice() {
        return Some(IgnoredWord::Shut);
    }
    if text == b"floor".as_slice() {
        return Some(IgnoredWord::Floor);
    }
    None
}

/// The next field: why a call was ignored.
pub fn ignored_of(fields: &mut Fields) -> Result<IgnoredWord, LineFault>
    ensures { Reads (λ x. x) result fields.new (take_field ignored_word fields.old) }
{
    ignored_in(text_of(fields)?).ok_or(LineFault::Grammar)
}

/// The word of why a round was spoiled.
pub fn spoil_text(word: SpoilWord) -> &'static [u8]
    ensures { result.now ≡ spoil_text word }
{
    match word {
        SpoilWord::Twice => b"twice",
        SpoilWord::Prev => b"prev",
        SpoilWord::Entry => b"entry",
        SpoilWord::Length => b"length",
        SpoilWord::Commit => b"commit",
        SpoilWord::Body => b"body",
    }
}

fn spoil_in(text: &[u8]) -> Option<SpoilWord>
    ensures { result ≡ spoil_word.read text.now }
{
    if text == b"twice".as_slice() {
        return Some(SpoilWord::Twice);
    }
    if text == b"prev".as_slice() {
        return Some(SpoilWord::Prev);
    }
    if text == b"entry".as_slice() {
        return Some(SpoilWord::Entry);
    }
    if text == b"length".as_slice() {
        return Some(SpoilWord::Length);
    }
    if text == b"commit".as_slice() {
        return Some(SpoilWord::Commit);
    }
    if text == b"body".as_slice() {
        return Some(SpoilWord::Body);
    }
    None
}

/// The next field: why a round was spoiled.
pub fn spoil_of(fields: &mut Fields) -> Result<SpoilWord, LineFault>
    ensures { Reads (λ x. x) result fields.new (take_field spoil_word fields.old) }
{
    spoil_in(text_of(fields)?).ok_or(LineFault::Grammar)
}

/// The word of why a payload didn't unseal.
pub fn unopened_text(word: UnopenedWord) -> &'static [u8]
    ensures { result.now ≡ unopened_text word }
{
    match word {
        UnopenedWord::Form => b"form",
        UnopenedWord::Stranger => b"stranger",
        UnopenedWord::Signature => b"signature",
    }
}

fn unopened_in(text: &[u8]) -> Option<UnopenedWord>
    ensures { result ≡ unopened_word.read text.now }
{
    if text == b"form".as_slice() {
        return Some(UnopenedWord::Form);
    }
    if text == b"stranger".as_slice() {
        return Some(UnopenedWord::Stranger);
    }
    if text == b"signature".as_slice() {
        return Some(UnopenedWord::Signature);
    }
    None
}

/// The next field: why a payload didn't unseal.
pub fn unopened_of(fields: &mut Fields) -> Result<UnopenedWord, LineFault>
    ensures { Reads (λ x. x) result fields.new (take_field unopened_word fields.old) }
{
    unopened_in(text_of(fields)?).ok_or(LineFault::Grammar)
}

/// The word of why a member is blamed.
pub fn blame_text(word: BlameWord) -> &'static [u8]
    ensures { result.now ≡ blame_text word }
{
    match word {
        BlameWord::Twice => b"twice",
        BlameWord::Entry => b"entry",
        BlameWord::Commit => b"commit",
        BlameWord::Shown => b"shown",
        BlameWord::Sum => b"sum",
        BlameWord::Pad => b"pad",
        BlameWord::Output => b"output",
        BlameWord::Double => b"double",
        BlameWord::Rebuttal => b"rebuttal",
        BlameWord::Conceded => b"conceded",
    }
}

fn blame_in(text: &[u8]) -> Option<BlameWord>
    ensures { result ≡ blame_word.read text.now }
{
    if text == b"twice".as_slice() {
        return Some(BlameWord::Twice);
    }
    if text == b"entry".as_slice() {
        return Some(BlameWord::Entry);
    }
    if text == b"commit".as_slice() {
        return Some(BlameWord::Commit);
    }
    if text == b"shown".as_slice() {
        return Some(BlameWord::Shown);
    }
    if text == b"sum".as_slice() {
        return Some(BlameWord::Sum);
    }
    if text == b"pad".as_slice() {
        return Some(BlameWord::Pad);
    }
    if text == b"output".as_slice() {
        return Some(BlameWord::Output);
    }
    if text == b"double".as_slice() {
        return Some(BlameWord::Double);
    }
    if text == b"rebuttal".as_slice() {
        return Some(BlameWord::Rebuttal);
    }
    if text == b"conceded".as_slice() {
        return Some(BlameWord::Conceded);
    }
    None
}

/// The next field: why a member is blamed.
pub fn blame_of(fields: &mut Fields) -> Result<BlameWord, LineFault>
    ensures { Reads (λ x. x) result fields.new (take_field blame_word fields.old) }
{
    blame_in(text_of(fields)?).ok_or(LineFault::Grammar)
}

/// `yes` or `no`.
pub fn yes_text(word: bool) -> &'static [u8]
    ensures { result.now ≡ yes_text word }
{
    if word { b"yes" } else { b"no" }
}

fn yes_in(text: &[u8]) -> Option<bool>
    ensures { result ≡ yes_word.read text.now }
{
    if text == b"yes".as_slice() {
        return Some(true);
    }
    if text == b"no".as_slice() {
        return Some(false);
    }
    None
}

/// The next field: `yes` or `no`.
pub fn yes_of(fields: &mut Fields) -> Result<bool, LineFault>
    ensures { Reads (λ x. x) result fields.new (take_field yes_word fields.old) }
{
    yes_in(text_of(fields)?).ok_or(LineFault::Grammar)
}
