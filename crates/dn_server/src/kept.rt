ghost use Rattle.std.specs.Prelude.{◌≡◌, ◌≢◌, ◌++◌, ◌∷◌, ◌↔◌, ◌<◌, [], find, true, false, Some, None, IsSome, IsTrue, IfOk, OnOk, MatchOption};
ghost use Rattle.dn_records.specs.Records.{kind_byte};
ghost use Rattle.dn_record_types.specs.declared.statement.Statement.TheVariants as kinds;
ghost use Rattle.dn_server.specs.Server.{is_of, kept_of, statement_of, AreKept};
ghost use Rattle.dn_server.specs.Keeping.{byte_for, round_of, AreOfRound, HasAll, IsMissing};

use dn_bits::Bits;
use dn_memory::NoMemory;
use dn_records::{Inventory, Statement};
use dn_seal::Said;
use dn_wire::{Round, ServerId, SignerId};
use std::alloc::Global;
use std::marker::Model;

/// What servers say to each other of a round.
#[derive(Clone, Copy, Debug, PartialEq, Eq)]
pub enum RoundKind {
    Inventory,
    Commit,
    Reveal,
    Sign,
}

/// Whether a statement is of the kind.
fn is_kind(kind: RoundKind, s: &Statement) -> bool
    ensures { IsTrue result ↔ (kind_byte s.now ≡ byte_for kind) }
{
    match (kind, s) {
        (RoundKind::Inventory, Statement::Inventory(_)) => true,
        (RoundKind::Commit, Statement::Commit { .. }) => true,
        (RoundKind::Reveal, Statement::Reveal { .. }) => true,
        (RoundKind::Sign, Statement::Sign(_)) => true,
        _ => false,
    }
}

/// Whether it is a statement of the kind by server `j`.
fn is_of(kind: RoundKind, j: ServerId, said: &Said) -> bool
    ensures { result ≡ is_of (byte_for kind) j.0 said.now }
{
    said.signer() == SignerId::Server(j) && is_kind(kind, said.statement())
}

/// The first statement of the kind by server `j`.
fn find(kept: &[Said], kind: RoundKind, j: ServerId) -> Option<&Said>
    ensures { MatchOption result (kept_of kept.now (byte_for kind) j.0 ≡ None) (λ s. kept_of kept.now (byte_for kind) j.0 ≡ Some s.now) }
{
    for said in kept {
        if is_of(kind, j, said) {
            return Some(said);
        }
    }
    None
}

/// Equal statements.
fn copies(alloc: Global, kept: &[Said]) -> Result<Vec<Said>, NoMemory>
    ensures { IfOk result (λ v. v.items ≡ kept.now) }
{
    let mut copies = Vec::new(alloc);
    for said in kept {
        copies.push(said.copy(alloc)?)?;
    }
    Ok(copies)
}

/// Statements that a server keeps, in the order in which they came.
#[derive(Drop)]
pub struct Kept {
    said: Vec<Said>,
}

impl Model for Kept {
    ghost use Rattle.std.specs.Prelude.{List};
    ghost use Rattle.dn_seal.specs.Said.{SaidView};

    ghost Value = { List SaidView };

    ghost view = { λ k. k.said.items };
}

impl Kept {
    /// Nothing kept.
    pub fn none(alloc: Global) -> Kept
        ensures { result ≡ [] }
    {
        Kept {
            said: Vec::new(alloc),
        }
    }

    /// Equal statements.
    pub fn copy(&self, alloc: Global) -> Result<Kept, NoMemory>
        ensures { IfOk result (λ k. k ≡ self.now) }
    {
        Ok(Kept {
            said: copies(alloc, &self.said)?,
        })
    }

    /// The statements, in their order.
    pub fn get(&self) -> &[Said]
        ensures { result.now ≡ self.now }
    {
        &self.said
    }

    /// The statement of the kind that is kept of server `j`.
    pub fn of(&self, kind: RoundKind, j: ServerId) -> Option<&Said>
        ensures { MatchOption result (kept_of self.now (byte_for kind) j.0 ≡ None) (λ s. kept_of self.now (byte_for kind) j.0 ≡ Some s.now) }
    {
        find(&self.said, kind, j)
    }

    /// Keeps a statement more.
    pub fn push(&mut self, said: Said) -> Result<(), NoMemory>
        ensures { OnOk result (self.new ≡ self.old ++ said ∷ []) }
    {
        self.said.push(said)?;
        Ok(())
    }

    /// Whether a statement of the kind is kept of each of `n` servers.
    pub fn is_full(&self, kind: RoundKind, n: u32) -> bool
        ensures full { result ≡ true → HasAll (byte_for kind) self.now n }
        ensures missing { result ≡ false → IsMissing (byte_for kind) self.now n }
    {
        for j in 0..n {
            if self.of(kind, ServerId(j)).is_none() {
                return false;
            }
        }
        true
    }
}
