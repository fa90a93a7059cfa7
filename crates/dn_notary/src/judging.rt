// Judging a signed list of entries.

ghost use Rattle.std.specs.Prelude.{◌≡◌, ◌<◌, ◌-◌, ◌^◌, ◌↔◌, IfOk, IsTrue, List, MatchOption, length, ℕ};
ghost use Rattle.dn_script.specs.Script.{parts_of};
ghost use Rattle.dn_notary.specs.Signed.{end_text, head_text};
ghost use Rattle.dn_notary.specs.Notarized.{HasItsLeaves, HasLine, IsVerified, Judges, JudgesText};
ghost use Rattle.dn_notary.specs.Judging.{BreaksAt, Steps};

use crate::sign_line::{SignLine, read_key_line};
use crate::verdict::Verdict;
use dn_hss::{hss_leaves, hss_verify};
use dn_io::Rule;
use dn_lines::{LineFault, split};
use dn_memory::NoMemory;
use std::alloc::Global;

/// The leaves of a tree of the notary's key.
const TREE_LEAVES: u64 = 32;

/// Whether a signed entry behind so many others has its number, and its signature carries the leaves of this number.
fn has_its_leaves(key: &[u8], count: u64, line: &SignLine) -> bool
    requires { length key.now ≡ 60 }
    ensures { IsTrue result ↔ HasItsLeaves key.now count line.now }
{
    if line.q != count {
        return false;
    }
    match hss_leaves(key, line.signature.get()) {
        Some((top, second)) => {
            u64::from(top) == count / TREE_LEAVES && u64::from(second) == count % TREE_LEAVES
        }
        None => false,
    }
}

/// The rule that a signed entry behind so many others breaks, the lesser first.
fn broken_by(key: &[u8], count: u64, line: &SignLine) -> Option<Rule>
    requires { length key.now ≡ 60 }
    ensures { MatchOption result (HasItsLeaves key.now count line.now × IsVerified key.now line.now) (BreaksAt key.now count line.now) }
{
    if !has_its_leaves(key, count, line) {
        return Some(Rule::N(2));
    }
    if !hss_verify(key, line.entry.get(), line.signature.get()) {
        return Some(Rule::N(3));
    }
    None
}

/// Whether a line is the first one.
fn is_head(line: &[u8]) -> bool
    ensures { IsTrue result ↔ (line.now ≡ head_text) }
{
    line == b"dissent-notary 1".as_slice()
}

/// Whether a line is the last one.
fn is_end(line: &[u8]) -> bool
    ensures { IsTrue result ↔ (line.now ≡ end_text) }
{
    line == b"end".as_slice()
}

/// The line of this number breaks the first rule.
fn no_line(line: u64) -> Verdict
    ensures { result ≡ Verdict.Broken line (Rule.N 1) }
{
    Verdict::Broken {
        line,
        rule: Rule::N(1),
    }
}

/// The verdict where the line of this number is the last, by what stands behind it.
fn behind_last(after: &[u8], line: u64, count: u64) -> Verdict
    requires { line < 2 ^ 64 - 1 }
    ensures { (key : List ℕ) (parts : List (List ℕ)) → HasLine end_text parts (parts_of after.now) → Judges key parts line count result }
{
    if after.is_empty() {
        Verdict::Accepted { count }
    } else {
        no_line(line + 1)
    }
}

/// Judges the line of this number, which a line feed ends and behind which the rest stands. None where it is a signed entry that breaks
/// no rule.
fn judge_line(
    alloc: Global,
    key: &[u8],
    text: &[u8],
    after: &[u8],
    line: u64,
    count: u64,
) -> Result<Option<Verdict>, NoMemory>
    requires key { length key.now ≡ 60 }
    requires line { line < 2 ^ 64 - 1 }
    ensures { (parts : List (List ℕ)) → HasLine text.now parts (parts_of after.now)
        → IfOk result (Steps key.now parts (parts_of after.now) line count) }
{
    if is_end(text) {
        return Ok(Some(behind_last(after, line, count)));
    }
    match SignLine::read(alloc, text) {
        Ok(signed) => match broken_by(key, count, &signed) {
            Some(rule) => Ok(Some(Verdict::Broken { line, rule })),
            None => Ok(None),
        },
        Err(LineFault::Grammar) => Ok(Some(no_line(line))),
        Err(LineFault::NoMemory) => Err(NoMemory),
    }
}

/// Judges what stands behind the public key.
fn judge_entries(alloc: Global, key: &[u8], text: &[u8]) -> Result<Verdict, NoMemory>
    requires { length key.now ≡ 60 }
    ensures { IfOk result (Judges key.now (parts_of text.now) 3 0) }
{
    let mut rest = text;
    let mut line = 3u64;
    let mut count = 0u64;
    while let Some((part, after)) = split(b'\n', rest) {
        if let Some(verdict) = judge_line(alloc, key, part, after, line, count)? {
            return Ok(verdict);
        }
        rest = after;
        line += 1;
        count += 1;
    }
    Ok(no_line(line))
}

/// Judges the line of the public key and what stands behind it.
fn judge_key(alloc: Global, text: &[u8]) -> Result<Verdict, NoMemory>
    ensures { (parts : List (List ℕ)) → HasLine head_text parts (parts_of text.now) → IfOk result (JudgesText parts) }
{
    let Some((line, rest)) = split(b'\n', text) else {
        return Ok(no_line(2));
    };
    match read_key_line(alloc, line) {
        Ok(key) => judge_entries(alloc, key.get(), rest),
        Err(LineFault::Grammar) => Ok(no_line(2)),
        Err(LineFault::NoMemory) => Err(NoMemory),
    }
}

/// Judges a signed list of entries.
pub fn judge(alloc: Global, text: &[u8]) -> Result<Verdict, NoMemory>
    ensures { IfOk result (JudgesText (parts_of text.now)) }
{
    let Some((line, rest)) = split(b'\n', text) else {
        return Ok(no_line(1));
    };
    if !is_head(line) {
        return Ok(no_line(1));
    }
    judge_key(alloc, rest)
}
