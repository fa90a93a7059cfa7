ghost use Rattle.std.specs.Prelude.{◌≡◌, ◌++◌, ◌∷◌, ◌==◌, ◌&&◌, OnOk, true};
ghost use Rattle.std.specs.Str.Parse.{digits_value};
ghost use Rattle.dn_script.specs.Context.{nothing_yet, group_in};
ghost use Rattle.dn_script.specs.Judged.{seen_as, is_numeral, same_member};
ghost use Rattle.dn_script.specs.Row.{Tells};
ghost use Rattle.dn_script.specs.Script.{client_number, says_again, speaks_again, is_misplaced, kinds_of, read_kind, words_of, is_listed, with_line};

use crate::flaw::LineFault;
use crate::judging::{GroupView, is_numeral};
use crate::line_kinds::{behind_group, behind_plain, opening};
use crate::line_words::{is_group_word, is_opening_word, is_plain_word};
use crate::script_line::ScriptLine;
use crate::words::Words;
use dn_memory::NoMemory;
use dn_wire::Member;
use std::alloc::Global;
use std::marker::Model;

/// Which form of script has begun.
#[derive(Clone, Copy, Debug, PartialEq, Eq)]
pub enum Form {
    Nothing,
    Plain,
    Group,
}

/// What the lines read so far say about those behind them.
#[derive(Drop)]
pub struct Reading {
    form: Form,
    clients: u32,
    servers: u32,
    bits: u32,
    corrupt: Vec<Member>,
    said: Vec<Member>,
    after_group: bool,
    ended: bool,
}

impl Model for Reading {
    ghost use Rattle.dn_script.specs.Context.{Context};

    ghost Value = { Context };

    ghost view = { λ r. record {
      form = r.form;
      clients = r.clients;
      servers = r.servers;
      bits = r.bits;
      corrupt = r.corrupt.items;
      said = r.said.items;
      after_group = r.after_group;
      ended = r.ended;
    } };
}

/// Whether a numeral is the number of this member, which is a client.
fn is_number_of(text: &[u8], m: Member) -> bool
    requires { is_numeral text.now ≡ true }
    ensures { result ≡ same_member (Member.Client ((client_number 0).value text.now)) m }
{
    match m {
        Member::Client(i) => {
            let number = u64::from(i.0);
            match dn_lines::value_of(text, number) {
                Some(value) => value == number,
                None => false,
            }
        }
        Member::Server(_) => false,
    }
}

/// Whether the first field spells a client for which something was said.
fn says_again(said: &[Member], words: &Words) -> bool
    ensures { result ≡ says_again said.now words.now }
{
    let Some(text) = words.first() else {
        return false;
    };
    if !is_numeral(text) {
        return false;
    }
    for m in said {
        if is_number_of(text, *m) {
            return true;
        }
    }
    false
}

impl Reading {
    /// Nothing is read yet.
    pub fn new(alloc: Global) -> Reading
        ensures { result ≡ nothing_yet }
    {
        Reading {
            form: Form::Nothing,
            clients: 0,
            servers: 0,
            bits: 0,
            corrupt: Vec::new(alloc),
            said: Vec::new(alloc),
            after_group: false,
            ended: false,
        }
    }

    /// Whether the last line was read.
    pub fn is_ended(&self) -> bool
        ensures { result ≡ self.now.ended }
    {
        self.ended
    }

    fn group(&self) -> GroupView<'_>
        ensures { seen_as result ≡ group_in self.now }
    {
        GroupView {
            clients: self.clients,
            servers: self.servers,
            corrupt: &self.corrupt,
        }
    }

    /// Whether it is a word of the lines that may be next, but for their order.
    fn knows(&self, word: &[u8]) -> bool
        ensures { result ≡ is_listed (words_of self.now.form) word.now }
    {
        match self.form {
            Form::Nothing => is_opening_word(word),
            Form::Plain => is_plain_word(word),
            Form::Group => is_group_word(word),
        }
    }

    /// Whether a line of a plain script speaks for a client again.
    fn speaks_again(&self, word: &[u8], words: &Words) -> bool
        ensures { result ≡ speaks_again self.now.form self.now word.now words.now }
    {
        match self.form {
            Form::Plain => word == b"say".as_slice() && says_again(&self.said, words),
            _ => false,
        }
    }

    /// Whether a line of this word and these fields may not be next.
    pub fn is_misplaced(&self, word: &[u8], words: &Words) -> bool
        ensures { result ≡ is_misplaced self.now word.now words.now }
    {
        !self.knows(word)
            || self.ended
            || (word == b"corrupt".as_slice() && !self.after_group)
            || self.speaks_again(word, words)
    }

    /// What the next line says, which has this word.
    pub fn line(
        &self,
        alloc: Global,
        word: &[u8],
        words: &mut Words,
    ) -> Result<ScriptLine, LineFault>
        ensures { Tells (λ x. x) result (read_kind (kinds_of self.now.form self.now) word.now words.old) }
    {
        match self.form {
            Form::Nothing => opening(alloc, word, words),
            Form::Plain => behind_plain(alloc, self.clients, self.bits, word, words),
            Form::Group => behind_group(alloc, self.group(), word, words),
        }
    }

    /// Takes a line into account.
    #[tactic(auto, unfolding(crate::specs::Script::with_line))]
    pub fn note(&mut self, alloc: Global, line: &ScriptLine) -> Result<(), NoMemory>
        ensures { OnOk result (self.new ≡ with_line self.old line.now) }
    {
        self.after_group = false;
        match line {
            ScriptLine::Plain {
                clients,
                servers,
                bits,
                ..
            } => {
                self.form = Form::Plain;
                self.clients = *clients;
                self.servers = *servers;
                self.bits = *bits;
            }
            ScriptLine::Group {
                clients,
                servers,
                ..
            } => {
                self.form = Form::Group;
                self.clients = *clients;
                self.servers = *servers;
                self.after_group = true;
            }
            ScriptLine::PlainSay { client, .. } => self.said.push(Member::Client(*client))?,
            ScriptLine::Corrupt(members) => {
                self.corrupt = Vec::from_slice(alloc, members.get())?;
            }
            ScriptLine::End => self.ended = true,
            _ => {}
        }
        Ok(())
    }
}
