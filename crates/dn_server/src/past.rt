ghost use Rattle.std.specs.Prelude.{◌≡◌, ◌++◌, ◌∷◌, [], IfOk, OnOk, MatchOption, Some, None};
ghost use Rattle.dn_server.specs.Server.{past_of};

use dn_bits::Bits;
use dn_memory::NoMemory;
use dn_records::{Body, Shows};
use dn_wire::Round;
use std::alloc::Global;
use std::marker::Model;

/// What a server keeps of a round whose body it signed: its ciphertext, and those of the clients that the body gives to it. Of a round
/// without data it keeps an empty ciphertext, and none of clients.
#[derive(Drop)]
pub struct Past {
    pub body: Body,
    /// The server's ciphertext.
    pub s: Bits,
    /// The ciphertexts of the clients that the body gives to the server.
    pub own: Shows,
}

impl Past {
    /// Equal ciphertexts of an equal body.
    pub fn copy(&self, alloc: Global) -> Result<Past, NoMemory>
        ensures { IfOk result (λ p. p ≡ self.now) }
    {
        Ok(Past {
            body: self.body.copy(alloc)?,
            s: self.s.copy(alloc)?,
            own: self.own.copy(alloc)?,
        })
    }
}

/// Equal ones.
fn copies(alloc: Global, pasts: &[Past]) -> Result<Vec<Past>, NoMemory>
    ensures { IfOk result (λ v. v.items ≡ pasts.now) }
{
    let mut copies = Vec::new(alloc);
    for past in pasts {
        copies.push(past.copy(alloc)?)?;
    }
    Ok(copies)
}

/// The first that is kept of round `r`.
fn find(pasts: &[Past], r: Round) -> Option<&Past>
    ensures { MatchOption result (past_of pasts.now r.0 ≡ None) (λ p. past_of pasts.now r.0 ≡ Some p.now) }
{
    for past in pasts {
        if past.body.r.0 == r.0 {
            return Some(past);
        }
    }
    None
}

/// What a server keeps of such rounds, in the order in which it signed their bodies.
#[derive(Drop)]
pub struct Pasts {
    pasts: Vec<Past>,
}

impl Model for Pasts {
    ghost use Rattle.std.specs.Prelude.{List};
    ghost use Rattle.dn_server.specs.declared.past.Past.{Past};

    ghost Value = { List Past };

    ghost view = { λ p. p.pasts.items };
}

impl Pasts {
    /// Nothing kept.
    pub fn none(alloc: Global) -> Pasts
        ensures { result ≡ [] }
    {
        Pasts {
            pasts: Vec::new(alloc),
        }
    }

    /// An equal list.
    pub fn copy(&self, alloc: Global) -> Result<Pasts, NoMemory>
        ensures { IfOk result (λ p. p ≡ self.now) }
    {
        Ok(Pasts {
            pasts: copies(alloc, &self.pasts)?,
        })
    }

    /// What is kept of round `r`.
    pub fn of(&self, r: Round) -> Option<&Past>
        ensures { MatchOption result (past_of self.now r.0 ≡ None) (λ p. past_of self.now r.0 ≡ Some p.now) }
    {
        find(&self.pasts, r)
    }

    /// Keeps one more.
    pub fn push(&mut self, past: Past) -> Result<(), NoMemory>
        ensures { OnOk result (self.new ≡ self.old ++ past ∷ []) }
    {
        self.pasts.push(past)?;
        Ok(())
    }
}
