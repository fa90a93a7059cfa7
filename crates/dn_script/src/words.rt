ghost use Rattle.std.specs.Prelude.{◌≡◌, ◌∷◌, ◌++◌, [], ◌<◌, ◌≤◌, length, take, drop, slice_index, true, false, MatchOption};
ghost use Rattle.std.specs.List.{All};
ghost use Rattle.dn_script.specs.Words.{words_in, is_gap, has};

use std::marker::Model;

/// The words of a line that are left to read. Blanks and tabs stand between them.
#[derive(Drop)]
pub struct Words<'a> {
    rest: &'a [u8],
}

impl<'a> Model for Words<'a> {
    ghost use Rattle.std.specs.Prelude.{ℕ, List};
    ghost use Rattle.dn_script.specs.Words.{words_in};

    ghost Value = { List (List ℕ) };

    ghost view = { λ w. words_in w.rest.now };
}

fn is_gap(byte: u8) -> bool
    ensures { result ≡ is_gap byte }
{
    byte == b' ' || byte == b'\t'
}

/// The line from its first word on.
fn without_gap(line: &[u8]) -> &[u8]
    ensures same { words_in result.now ≡ words_in line.now }
    ensures word { 0 < length result.now → is_gap (slice_index result.now 0) ≡ false }
{
    for i in 0..line.len() {
        if !is_gap(line[i]) {
            return &line[i..];
        }
    }
    &[]
}

/// How many bytes stand before the first gap.
fn word_length(line: &[u8]) -> usize
    ensures within { result ≤ length line.now }
    ensures word { All (λ b. is_gap b ≡ false) (take result line.now) }
    ensures end { result < length line.now → is_gap (slice_index line.now result) ≡ true }
{
    for i in 0..line.len() {
        if is_gap(line[i]) {
            return i;
        }
    }
    line.len()
}

impl<'a> Words<'a> {
    /// All words of a line.
    pub fn new(line: &'a [u8]) -> Words<'a>
        ensures { result ≡ words_in line.now }
    {
        Words { rest: line }
    }

    /// The next word; None where none is left.
    pub fn take(&mut self) -> Option<&'a [u8]>
        ensures { MatchOption result (self.old ≡ []) (λ word. self.old ≡ word.now ∷ self.new) }
    {
        let line = without_gap(self.rest);
        if line.is_empty() {
            return None;
        }
        let (word, rest) = line.split_at(word_length(line));
        self.rest = rest;
        Some(word)
    }

    /// The next word, which stays; None where none is left.
    pub fn first(&self) -> Option<&'a [u8]>
        ensures { MatchOption result (self.now ≡ []) (λ word. self.now ≡ word.now ∷ drop 1 self.now) }
    {
        let mut words = Words { rest: self.rest };
        words.take()
    }

    /// Whether so many words are left, from low to high.
    pub fn has(&self, low: u32, high: u32) -> bool
        ensures { result ≡ has low high self.now }
    {
        let mut words = Words { rest: self.rest };
        let mut count = 0u32;
        while words.take().is_some() {
            if count == high {
                return false;
            }
            count += 1;
        }
        low <= count
    }
}
