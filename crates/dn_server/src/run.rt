ghost use Rattle.std.specs.Prelude.{◌≡◌, IfOk, OnOk};

use crate::claims::Claims;
use crate::kept::Kept;
use dn_bits::Bits;
use dn_memory::NoMemory;
use dn_records::{Rows, Shows};
use dn_window::Window;
use dn_wire::Round;
use std::alloc::Global;

/// What a server has signed in a round.
#[derive(Clone, Copy, Debug, PartialEq, Eq)]
pub enum Stage {
    /// No statement to the other servers.
    Collecting,
    /// Its inventory.
    Listed,
    /// Its commitment besides.
    Committed,
    /// Its ciphertext besides.
    Revealed,
    /// The round's body besides; in a round without data, after its inventory.
    Signed,
}

/// A server's ciphertext of a round, the list that it is for, and the ciphertexts of the clients that the list gives to the server.
#[derive(Drop)]
pub struct Sum {
    pub listed: Rows,
    pub s: Bits,
    pub own: Shows,
}

impl Sum {
    /// An equal sum.
    pub fn copy(&self, alloc: Global) -> Result<Sum, NoMemory>
        ensures { IfOk result (λ s. s ≡ self.now) }
    {
        Ok(Sum {
            listed: self.listed.copy(alloc)?,
            s: self.s.copy(alloc)?,
            own: self.own.copy(alloc)?,
        })
    }
}

/// An equal sum, where there is one.
fn copy_of(alloc: Global, sum: &Option<Sum>) -> Result<Option<Sum>, NoMemory>
    ensures { IfOk result (λ s. s ≡ sum.now) }
{
    match sum {
        Some(sum) => Ok(Some(sum.copy(alloc)?)),
        None => Ok(None),
    }
}

/// The record of the round that a server opened last. It outlives the run's end. Before any round was opened it is that of round 0,
/// which doesn't run and whose window is shut.
#[derive(Drop)]
pub struct Run {
    pub r: Round,
    /// The round that it follows.
    pub prev: Round,
    /// How many bits the round has.
    pub bits: u32,
    pub is_running: bool,
    pub stage: Stage,
    pub window: Window,
    pub claims: Claims,
    /// The statements of the round that servers made, one of a kind from each.
    pub kept: Kept,
    /// From the commitment on.
    pub sum: Option<Sum>,
}

impl Run {
    /// An equal record.
    pub fn copy(&self, alloc: Global) -> Result<Run, NoMemory>
        ensures { IfOk result (λ run. run ≡ self.now) }
    {
        Ok(Run {
            r: self.r,
            prev: self.prev,
            bits: self.bits,
            is_running: self.is_running,
            stage: self.stage,
            window: self.window.copy(alloc)?,
            claims: self.claims.copy(alloc)?,
            kept: self.kept.copy(alloc)?,
            sum: copy_of(alloc, &self.sum)?,
        })
    }
}
