// The entries of inventories.
ghost use Rattle.std.specs.Prelude.{◌≡◌, ◌↔◌, ◌++◌, ◌∷◌, [], if◌then◌else◌, IfOk, IsTrue};
ghost use Rattle.dn_cert.specs.Signed.{EntryVerifies};
ghost use Rattle.dn_trace.specs.Tables.{AreEntries, AreAdded, TellsAllVerify, submitted_of};

use crate::case::Case;
use crate::flags::{mark, no_flags};
use dn_cert::entry_verifies;
use dn_memory::NoMemory;
use dn_records::{Entry, Inventory, Statement};
use dn_wire::{ClientId, Round, SignerId};
use std::alloc::Global;

/// A submission for the judged round: the round before, the client that it names, and the digest of the ciphertext.
#[derive(Clone, Copy, Debug, PartialEq, Eq)]
pub struct Submitted {
    pub prev: Round,
    pub client: ClientId,
    pub digest: [u8; 32],
}

/// What entries show: the submissions of those that verify, and of each server whether an inventory of its own has an entry that doesn't.
#[derive(Drop)]
pub struct Entries {
    pub submitted: Vec<Submitted>,
    pub is_false: Vec<bool>,
}

/// Adds the submission of an entry that verifies, and tells whether it does.
fn enter_one(
    alloc: Global,
    case: &Case,
    r: Round,
    prev: Round,
    entry: &Entry,
    submitted: &mut Vec<Submitted>,
) -> Result<bool, NoMemory>
    ensures verifies { IfOk result (λ b. IsTrue b ↔ EntryVerifies case.now.roster r prev entry.now) }
    ensures adds { IfOk result (λ b. submitted.new.items ≡ (if b then submitted.old.items ++ submitted_of prev entry.now ∷ [] else submitted.old.items)) }
{
    let verifies = entry_verifies(alloc, case.roster(), r, prev, entry)?;
    if verifies {
        submitted.push(Submitted {
            prev,
            client: entry.client,
            digest: entry.digest,
        })?;
    }
    Ok(verifies)
}

/// Adds the submissions of the inventory's entries that verify, and tells whether each of them does.
fn enter(
    alloc: Global,
    case: &Case,
    v: &Inventory,
    submitted: &mut Vec<Submitted>,
) -> Result<bool, NoMemory>
    ensures verify { IfOk result (TellsAllVerify case.now.roster v.now.r v.now.prev v.now.entries) }
    ensures added { IfOk result (λ b. AreAdded case.now.roster v.now.r v.now.prev v.now.entries submitted.old.items submitted.new.items) }
{
    let mut all = true;
    for entry in v.entries.get() {
        if !enter_one(alloc, case, v.r, v.prev, entry, submitted)? {
            all = false;
        }
    }
    Ok(all)
}

/// What the entries show of all inventories of the judged round.
pub fn heard_entries(alloc: Global, case: &Case) -> Result<Entries, NoMemory>
    ensures { IfOk result (λ e. AreEntries case.now e.submitted.items e.is_false.items) }
{
    let mut submitted = Vec::new(alloc);
    let mut is_false = no_flags(alloc, case.servers())?;
    for said in case.given() {
        let Statement::Inventory(v) = said.statement() else {
            continue;
        };
        if v.r != case.round() || enter(alloc, case, v, &mut submitted)? {
            continue;
        }
        if let SignerId::Server(j) = said.signer() {
            mark(&mut is_false, j.0);
        }
    }
    Ok(Entries {
        submitted,
        is_false,
    })
}
