ghost use Rattle.std.specs.Prelude.{◌≡◌, ◌<◌, MatchOption, Some, None, IfOk, replicate, length, slice_get, slice_set};
ghost use Rattle.dn_server.specs.declared.claims.Claim.{Claim as ClaimOf};

use dn_bits::Bits;
use dn_memory::NoMemory;
use dn_records::WordTold;
use dn_wire::{Bytes, ClientId};
use std::alloc::Global;
use std::marker::Model;

/// A client's submission of a round as a server first met it, and what the client was told.
#[derive(Drop)]
pub struct Claim {
    pub told: WordTold,
    /// The digest of the ciphertext.
    pub digest: [u8; 32],
    /// The client's signature of its submission.
    pub signature: Bytes,
    pub cipher: Bits,
}

impl Claim {
    /// An equal claim.
    pub fn copy(&self, alloc: Global) -> Result<Claim, NoMemory>
        ensures { IfOk result (λ c. c ≡ self.now) }
    {
        Ok(Claim {
            told: self.told,
            digest: self.digest,
            signature: self.signature.copy(alloc)?,
            cipher: self.cipher.copy(alloc)?,
        })
    }
}

/// An equal claim, where there is one.
fn copy_of(alloc: Global, claim: &Option<Claim>) -> Result<Option<Claim>, NoMemory>
    ensures { IfOk result (λ c. c ≡ claim.now) }
{
    match claim {
        Some(claim) => Ok(Some(claim.copy(alloc)?)),
        None => Ok(None),
    }
}

/// Equal claims.
fn copies(alloc: Global, claims: &[Option<Claim>]) -> Result<Vec<Option<Claim>>, NoMemory>
    ensures { IfOk result (λ v. v.items ≡ claims.now) }
{
    let mut copies = Vec::new(alloc);
    for claim in claims {
        copies.push(copy_of(alloc, claim)?)?;
    }
    Ok(copies)
}

/// The claims of a round, by client; nothing for a client that made none.
#[derive(Drop)]
pub struct Claims {
    claims: Vec<Option<Claim>>,
}

impl Model for Claims {
    ghost use Rattle.std.specs.Prelude.{List, Option};
    ghost use Rattle.dn_server.specs.declared.claims.Claim.{Claim};

    ghost Value = { List (Option Claim) };

    ghost view = { λ c. c.claims.items };
}

impl Claims {
    /// No claim of any of `n` clients.
    pub fn none(alloc: Global, n: u32) -> Result<Claims, NoMemory>
        ensures { IfOk result (λ c. c ≡ replicate n None) }
    {
        let mut claims = Vec::with_capacity(alloc, n as usize)?;
        for _ in 0..n {
            claims.push(None)?;
        }
        Ok(Claims { claims })
    }

    /// Equal claims.
    pub fn copy(&self, alloc: Global) -> Result<Claims, NoMemory>
        ensures { IfOk result (λ c. c ≡ self.now) }
    {
        Ok(Claims {
            claims: copies(alloc, &self.claims)?,
        })
    }

    /// The claim of client `i`.
    pub fn get(&self, i: ClientId) -> Option<&Claim>
        ensures { MatchOption result ((c : ClaimOf) → slice_get self.now i.0 ≡ Some (Some c) → ⊥) (λ c. slice_get self.now i.0 ≡ Some (Some c.now)) }
    {
        match self.claims.get(i.0 as usize) {
            Some(Some(claim)) => Some(claim),
            _ => None,
        }
    }

    /// All claims, by client.
    pub fn all(&self) -> &[Option<Claim>]
        ensures { result.now ≡ self.now }
    {
        &self.claims
    }

    /// Puts down the claim of client `i`.
    pub fn set(&mut self, i: ClientId, claim: Claim)
        requires { i.0 < length self.old }
        ensures { self.new ≡ slice_set self.old i.0 (Some claim) }
    {
        self.claims[i.0 as usize] = Some(claim);
    }
}
