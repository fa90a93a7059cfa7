ghost use Rattle.std.specs.Prelude.{◌≡◌, ◌++◌, ◌∷◌, [], length, IfOk, OnOk, MatchOption, None, Some, slice_get};
ghost use Rattle.dn_payloads.specs.Payloads.{IsNumbered, IsFound};

use crate::content::{Content, content_of};
use dn_memory::NoMemory;
use dn_roster::Roster;
use indexmap::IndexMap;
use std::alloc::Global;
use std::marker::Model;

/// The number of a payload that was put, and whether its bytes were put for the first time.
#[derive(Clone, Copy, Debug, PartialEq, Eq)]
pub struct Numbered {
    pub number: u64,
    pub is_new: bool,
}

/// The payloads of a run.
#[derive(Drop)]
pub struct Payloads {
    alloc: Global,
    roster: Roster,
    contents: IndexMap<Vec<u8>, Content>,
}

impl Model for Payloads {
    ghost use Rattle.dn_payloads.specs.Payloads.{PayloadsView};
    ghost use Rattle.dn_payloads.specs.Inside.{items_of, AreKept};

    ghost Value = { PayloadsView };

    ghost view = { λ p. record { roster = p.roster; items = items_of p.contents.entries } };

    ghost invariant = { λ p. AreKept p.roster p.contents.entries };
}

/// Lets a content go.
fn let_go(_content: Option<Content>) {}

impl Payloads {
    /// No payloads, for a group with this roster.
    pub fn make(alloc: Global, roster: Roster) -> Payloads
        ensures { result ≡ record { roster = roster; items = [] } }
    {
        Payloads {
            alloc,
            roster,
            contents: IndexMap::new(alloc),
        }
    }

    /// The roster under which payloads open.
    pub fn roster(&self) -> &Roster
        ensures { result.now ≡ self.now.roster }
    {
        &self.roster
    }

    /// How many payloads there are.
    pub fn len(&self) -> u64
        ensures { result ≡ length self.now.items }
    {
        self.contents.len() as u64
    }

    /// The bytes of payload `p`; None exactly where `p` isn't below their number.
    pub fn bytes(&self, p: u64) -> Option<&[u8]>
        ensures { MatchOption result (slice_get self.now.items p ≡ None) (λ b. IsFound self.now p (λ x. x.bytes ≡ b.now)) }
    {
        let (bytes, _) = self.contents.get_index(p as usize)?;
        Some(bytes)
    }

    /// What payload `p` opens to; None exactly where `p` isn't below their number.
    pub fn content(&self, p: u64) -> Option<&Content>
        ensures { MatchOption result (slice_get self.now.items p ≡ None) (λ c. IsFound self.now p (λ x. x.content ≡ c.now)) }
    {
        let (_, content) = self.contents.get_index(p as usize)?;
        Some(content)
    }

    /// The number of these bytes: the one that they have, and else the next one; then they are opened.
    pub fn put(&mut self, bytes: Vec<u8>) -> Result<Numbered, NoMemory>
        ensures numbered { IfOk result (IsNumbered self.old bytes.items self.new) }
        ensures roster { self.new.roster ≡ self.old.roster }
    {
        if let Some(number) = self.contents.get_index_of(&bytes) {
            return Ok(Numbered {
                number: number as u64,
                is_new: false,
            });
        }
        let number = self.contents.len() as u64;
        let content = content_of(self.alloc, &self.roster, &bytes)?;
        let_go(self.contents.insert(bytes, content)?);
        Ok(Numbered {
            number,
            is_new: true,
        })
    }
}
