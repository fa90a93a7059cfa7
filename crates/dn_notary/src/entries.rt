// Reading a list of entries.

ghost use Rattle.std.specs.Prelude.{◌≡◌, ◌<◌, ◌+◌, ◌^◌, ◌-◌, ◌∷◌, [], ℕ, Some, OnOk};
ghost use Rattle.dn_script.specs.Row.{Tells};
ghost use Rattle.dn_notary.specs.Entries.{Listed, Read, at_end, entries_of, is_entry_word, is_too_many, is_word, line_in, nothing_yet, read_counted, read_end, read_entry, read_next, read_parts, with_line};
ghost use Rattle.dn_notary.specs.Listing.{GivesEntries, GoesOn};

use crate::limits::{MAX_ENTRIES, MAX_ENTRY};
use crate::list_line::ListLine;
use dn_io::Cause;
use dn_lines::split;
use dn_memory::NoMemory;
use dn_script::{
    LineFault, Words, bytes_at, end_of, expect, is_comment, is_plain_text, without_return,
};
use dn_wire::Bytes;
use std::alloc::{AllocFailed, Global};
use std::marker::Model;

/// Why a text lists no entries.
#[derive(Clone, Copy, Debug, PartialEq, Eq)]
pub enum ListFault {
    /// The first bad line, counted from 1, and the first of the causes that hold there.
    BadLine { number: u64, cause: Cause },
    /// The allocator refused a growth.
    NoMemory,
}

impl From<NoMemory> for ListFault {
    ghost use Rattle.std.specs.Prelude.{◌≡◌};
    ghost use Rattle.dn_notary.specs.declared.entries.ListFault.TheVariants.{NoMemory as Refused};

    ghost from_gives = { λ _ e. e ≡ Refused };

    fn from(_: NoMemory) -> Self {
        ListFault::NoMemory
    }
}

impl<T: Drop> From<AllocFailed<T>> for ListFault {
    ghost use Rattle.std.specs.Prelude.{◌≡◌};
    ghost use Rattle.dn_notary.specs.declared.entries.ListFault.TheVariants.{NoMemory as Refused};

    ghost from_gives = { λ _ e. e ≡ Refused };

    fn from(_: AllocFailed<T>) -> Self {
        ListFault::NoMemory
    }
}

/// What has been read of a list.
#[derive(Drop)]
pub struct Listing {
    entries: Vec<Bytes>,
    ended: bool,
}

impl Model for Listing {
    ghost use Rattle.dn_notary.specs.Entries.{Listed};

    ghost Value = { Listed };

    ghost view = { λ l. record { entries = l.entries.items; ended = l.ended } };
}

fn is_entry_word(word: &[u8]) -> bool
    ensures { result ≡ is_entry_word word.now }
{
    word == b"entry".as_slice()
}

/// Whether it is a word of a list's lines.
fn is_word(word: &[u8]) -> bool
    ensures { result ≡ is_word word.now }
{
    is_entry_word(word) || word == b"end".as_slice()
}

#[tactic(auto, unfolding(crate::specs::Entries::read_entry))]
fn entry_line(alloc: Global, words: &mut Words) -> Result<ListLine, LineFault>
    ensures { Tells (λ x. x) result (read_entry words.old) }
{
    expect(words, 1, 1)?;
    let entry = bytes_at(alloc, words, 1, 0, MAX_ENTRY)?;
    end_of(words)?;
    Ok(ListLine::Entry(entry))
}

#[tactic(auto, unfolding(crate::specs::Entries::read_end))]
fn end_line(words: &Words) -> Result<ListLine, LineFault>
    ensures { Tells (λ x. x) result (read_end words.now) }
{
    expect(words, 0, 0)?;
    Ok(ListLine::End)
}

impl Listing {
    fn new(alloc: Global) -> Listing
        ensures { result ≡ nothing_yet }
    {
        Listing {
            entries: Vec::new(alloc),
            ended: false,
        }
    }

    /// Whether a line of this word is one entry more than a list may have.
    fn is_too_many(&self, word: &[u8]) -> bool
        ensures { result ≡ is_too_many self.now word.now }
    {
        is_entry_word(word) && MAX_ENTRIES <= self.entries.len()
    }

    fn is_ended(&self) -> bool
        ensures { result ≡ self.now.ended }
    {
        self.ended
    }

    /// Takes in what a line says.
    fn note(&mut self, line: ListLine) -> Result<(), NoMemory>
        ensures { OnOk result (self.new ≡ with_line self.old (Some line)) }
    {
        match line {
            ListLine::Entry(entry) => self.entries.push(entry)?,
            ListLine::End => self.ended = true,
        }
        Ok(())
    }

    /// The entries.
    fn into_entries(self) -> Vec<Bytes>
        ensures { result.items ≡ self.entries }
    {
        let Listing { entries, ended: _ } = self;
        entries
    }
}

/// What a line that counts says: its causes are looked for in their order.
#[tactic(auto, unfolding(crate::specs::Entries::read_counted))]
fn counted_line(
    alloc: Global,
    listing: &Listing,
    line: &[u8],
    word: &[u8],
    words: &mut Words,
) -> Result<ListLine, LineFault>
    ensures { Tells (λ x. x) result (read_counted listing.now line.now (word.now ∷ words.old)) }
{
    if !is_plain_text(line) {
        return Err(LineFault::Bad(Cause::Bytes));
    }
    if listing.is_too_many(word) {
        return Err(LineFault::Bad(Cause::Many));
    }
    if !is_word(word) {
        return Err(LineFault::Bad(Cause::Word));
    }
    if listing.is_ended() {
        return Err(LineFault::Bad(Cause::Order));
    }
    if is_entry_word(word) {
        return entry_line(alloc, words);
    }
    end_line(words)
}

/// What a line says where it counts.
fn line_of(alloc: Global, listing: &Listing, line: &[u8]) -> Result<Option<ListLine>, LineFault>
    ensures { Tells (λ x. x) result (line_in listing.now line.now) }
{
    let mut words = Words::new(line);
    let Some(word) = words.take() else {
        return Ok(None);
    };
    if is_comment(word) {
        return Ok(None);
    }
    let said = counted_line(alloc, listing, line, word, &mut words)?;
    Ok(Some(said))
}

/// Reads a line of this number.
fn take_line(
    alloc: Global,
    listing: &mut Listing,
    number: u64,
    line: &[u8],
) -> Result<(), ListFault>
    ensures { (rest : Listed → Read) → GoesOn result (read_next listing.old number line.now rest) (rest listing.new) }
{
    match line_of(alloc, listing, line) {
        Ok(None) => Ok(()),
        Ok(Some(said)) => {
            listing.note(said)?;
            Ok(())
        }
        Err(LineFault::Bad(cause)) => Err(ListFault::BadLine { number, cause }),
        Err(LineFault::NoMemory) => Err(ListFault::NoMemory),
    }
}

/// The text ends before the line of this number.
fn ended(listing: Listing, number: u64) -> Result<Vec<Bytes>, ListFault>
    ensures { GivesEntries (λ v. v.items) result (at_end listing number) }
{
    if !listing.is_ended() {
        return Err(ListFault::BadLine {
            number,
            cause: Cause::Missing,
        });
    }
    Ok(listing.into_entries())
}

/// Reads what stands behind the last line feed, as the line of this number.
fn finish(
    alloc: Global,
    listing: Listing,
    number: u64,
    rest: &[u8],
) -> Result<Vec<Bytes>, ListFault>
    requires { number < 2 ^ 64 - 1 }
    ensures { GivesEntries (λ v. v.items) result (read_parts (rest.now ∷ []) listing number) }
{
    if rest.is_empty() {
        return ended(listing, number);
    }
    let mut listing = listing;
    match take_line(alloc, &mut listing, number, rest) {
        Ok(()) => ended(listing, number + 1),
        Err(fault) => Err(fault),
    }
}

/// The entries that a text lists. `BadLine` tells the first bad line and the first cause that holds there; `Missing` stands at the number
/// of lines plus 1, where the text ends without its last line.
#[tactic(auto, unfolding(crate::specs::Entries::entries_of))]
pub fn parse_entries(alloc: Global, text: &[u8]) -> Result<Vec<Bytes>, ListFault>
    ensures { GivesEntries (λ v. v.items) result (entries_of text.now) }
{
    let mut listing = Listing::new(alloc);
    let mut rest = text;
    let mut number = 1u64;
    while let Some((line, after)) = split(b'\n', rest) {
        if let Err(fault) = take_line(alloc, &mut listing, number, without_return(line)) {
            return Err(fault);
        }
        rest = after;
        number += 1;
    }
    finish(alloc, listing, number, rest)
}
