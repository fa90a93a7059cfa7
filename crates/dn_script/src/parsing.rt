ghost use Rattle.std.specs.Prelude.{◌≡◌, ◌<◌, ◌≤◌, ◌+◌, ◌-◌, ◌^◌, ◌∷◌, ◌==◌, [], ℕ, slice_index};
ghost use Rattle.std.specs.List.{list_all};
ghost use Rattle.dn_script.specs.Context.{Context};
ghost use Rattle.dn_script.specs.Parsed.{GivesScript, GoesOn};
ghost use Rattle.dn_script.specs.Row.{Tells};
ghost use Rattle.dn_script.specs.Script.{Parsed, at_end, behind, is_plain_byte, is_word, line_in, read_counted, read_next, read_parts, script_of, without_return};

use crate::context::Reading;
use crate::flaw::LineFault;
use crate::line_words::{is_group_word, is_opening_word, is_plain_word};
use crate::script::{Script, ScriptFault};
use crate::script_line::ScriptLine;
use crate::words::Words;
use dn_io::Cause;
use dn_lines::split;
use dn_wire::MAX_SCRIPT_LINES;
use std::alloc::Global;

/// Whether it is a tab, or a character from the blank to the tilde.
fn is_plain_byte(byte: u8) -> bool
    ensures { result ≡ is_plain_byte byte }
{
    byte == b'\t' || (32 <= byte && byte <= 126)
}

/// Whether all bytes of a line are tabs or characters from the blank to the tilde.
pub fn is_plain_text(line: &[u8]) -> bool
    ensures { result ≡ list_all is_plain_byte line.now }
{
    for b in line {
        if !is_plain_byte(*b) {
            return false;
        }
    }
    true
}

/// Whether it is a word of either form of script.
fn is_word(word: &[u8]) -> bool
    ensures { result ≡ is_word word.now }
{
    is_opening_word(word) || is_plain_word(word) || is_group_word(word)
}

/// What a line says that is the count-th of those that count: its causes are looked for in their order.
#[tactic(auto, unfolding(crate::specs::Script::read_counted))]
fn counted_line(
    alloc: Global,
    reading: &Reading,
    count: u64,
    line: &[u8],
    word: &[u8],
    words: &mut Words,
) -> Result<ScriptLine, LineFault>
    ensures { Tells (λ x. x) result (read_counted reading.now count line.now (word.now ∷ words.old)) }
{
    if !is_plain_text(line) {
        return Err(LineFault::Bad(Cause::Bytes));
    }
    if count > MAX_SCRIPT_LINES {
        return Err(LineFault::Bad(Cause::Many));
    }
    if !is_word(word) {
        return Err(LineFault::Bad(Cause::Word));
    }
    if reading.is_misplaced(word, words) {
        return Err(LineFault::Bad(Cause::Order));
    }
    reading.line(alloc, word, words)
}

/// Whether a line with this first word is a comment.
pub fn is_comment(word: &[u8]) -> bool
    ensures { result ≡ slice_index word.now 0 == 35 }
{
    match word {
        [first, ..] => *first == b'#',
        [] => false,
    }
}

/// What a line says where it counts, behind so many that count.
fn line_of(
    alloc: Global,
    reading: &Reading,
    count: u64,
    line: &[u8],
) -> Result<Option<ScriptLine>, LineFault>
    requires { count < 2 ^ 64 - 1 }
    ensures { Tells (λ x. x) result (line_in reading.now count line.now) }
{
    let mut words = Words::new(line);
    let Some(word) = words.take() else {
        return Ok(None);
    };
    if is_comment(word) {
        return Ok(None);
    }
    let said = counted_line(alloc, reading, count + 1, line, word, &mut words)?;
    Ok(Some(said))
}

/// What has been read: what it says about lines to come, how many lines counted, and these lines.
#[derive(Drop)]
struct Parser {
    reading: Reading,
    count: u64,
    lines: Vec<(u64, ScriptLine)>,
}

/// Reads a line of this number.
fn take_line(
    alloc: Global,
    parser: &mut Parser,
    number: u64,
    line: &[u8],
) -> Result<(), ScriptFault>
    requires { parser.old.count < 2 ^ 64 - 1 }
    ensures read { (rest : Context → ℕ → Parsed) → GoesOn result
        (behind parser.old.lines.items (read_next parser.old.reading number parser.old.count line.now rest))
        (behind parser.new.lines.items (rest parser.new.reading parser.new.count)) }
    ensures count { parser.new.count ≤ parser.old.count + 1 }
{
    match line_of(alloc, &parser.reading, parser.count, line) {
        Ok(None) => Ok(()),
        Ok(Some(said)) => {
            parser.reading.note(alloc, &said)?;
            parser.lines.push((number, said))?;
            parser.count += 1;
            Ok(())
        }
        Err(LineFault::Bad(cause)) => Err(ScriptFault::BadLine { number, cause }),
        Err(LineFault::NoMemory) => Err(ScriptFault::NoMemory),
    }
}

/// The line without the carriage return before its end.
pub fn without_return(line: &[u8]) -> &[u8]
    ensures { result.now ≡ without_return line.now }
{
    let len = line.len();
    if 0 < len && line[len - 1] == b'\r' {
        return &line[..len - 1];
    }
    line
}

/// The text ends before the line of this number.
fn ended(read: Parser, number: u64) -> Result<Script, ScriptFault>
    ensures { GivesScript result (behind read.lines.items (at_end read.reading number)) }
{
    if !read.reading.is_ended() {
        return Err(ScriptFault::BadLine {
            number,
            cause: Cause::Missing,
        });
    }
    Ok(Script::of(read.lines))
}

/// Reads what stands behind the last line feed, as the line of this number.
fn finish(alloc: Global, read: Parser, number: u64, rest: &[u8]) -> Result<Script, ScriptFault>
    requires count { read.count < 2 ^ 64 - 1 }
    requires number { number < 2 ^ 64 - 1 }
    ensures { GivesScript result (behind read.lines.items (read_parts (rest.now ∷ []) read.reading number read.count)) }
{
    if rest.is_empty() {
        return ended(read, number);
    }
    let mut parser = read;
    match take_line(alloc, &mut parser, number, rest) {
        Ok(()) => ended(parser, number + 1),
        Err(fault) => Err(fault),
    }
}

/// The script that a text is. `BadLine` tells the first bad line and the first cause that holds there, in the order of
/// `Cause`; `Missing` stands at the number of lines plus 1, where the text ends without its last line.
#[tactic(auto, unfolding(crate::specs::Script::script_of))]
pub fn parse_script(alloc: Global, text: &[u8]) -> Result<Script, ScriptFault>
    ensures { GivesScript result (script_of text.now) }
{
    let mut parser = Parser {
        reading: Reading::new(alloc),
        count: 0,
        lines: Vec::new(alloc),
    };
    let mut rest = text;
    let mut number = 1u64;
    while let Some((line, after)) = split(b'\n', rest) {
        if let Err(fault) = take_line(alloc, &mut parser, number, without_return(line)) {
            return Err(fault);
        }
        rest = after;
        number += 1;
    }
    finish(alloc, parser, number, rest)
}
