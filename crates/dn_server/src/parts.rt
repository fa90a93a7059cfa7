ghost use Rattle.std.specs.Prelude.{◌≡◌, IfOk};
ghost use Rattle.dn_server.specs.Parts.{live};

use crate::identity::Identity;
use crate::kept::Kept;
use crate::past::Pasts;
use crate::places::Places;
use crate::run::Run;
use dn_cert::Chain;
use dn_memory::NoMemory;
use dn_pads::Seed;
use std::alloc::Global;

/// What a server is made of.
#[derive(Drop)]
pub struct Parts {
    pub alloc: Global,
    /// How many workers a sum has.
    pub workers: u32,
    pub identity: Identity,
    /// The seeds that it shares with the clients, by client.
    pub seeds: Vec<Seed>,
    pub chain: Chain,
    /// The record of the round that was opened last.
    pub run: Run,
    /// What is kept of rounds whose bodies the server signed.
    pub pasts: Pasts,
    /// The places that the server opened.
    pub opened: Places,
    /// Openings of servers, and what clients answer to challenges, in the order in which they came.
    pub evidence: Kept,
    /// The places whose openings were complete, so that the server looked for clients to challenge.
    pub challenged: Places,
    /// The leaves that are set aside for the round that runs.
    pub aside: u32,
    /// The place at which the next sum is changed.
    pub bend: Option<u32>,
    /// Whether it ever did more than the rules say.
    pub bent: bool,
}

impl Parts {
    /// Equal parts, whose key has leaves of its own.
    pub fn twin(&self) -> Result<Parts, NoMemory>
        ensures { IfOk result (λ p. live p ≡ live self.now) }
    {
        let alloc = self.alloc;
        Ok(Parts {
            alloc,
            workers: self.workers,
            identity: self.identity.twin(alloc)?,
            seeds: Vec::from_slice(alloc, &self.seeds)?,
            chain: self.chain.copy(alloc)?,
            run: self.run.copy(alloc)?,
            pasts: self.pasts.copy(alloc)?,
            opened: self.opened.copy(alloc)?,
            evidence: self.evidence.copy(alloc)?,
            challenged: self.challenged.copy(alloc)?,
            aside: self.aside,
            bend: self.bend,
            bent: self.bent,
        })
    }
}
