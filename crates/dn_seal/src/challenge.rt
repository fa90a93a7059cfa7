ghost use Rattle.std.specs.Prelude.{◌≡◌, ◌⊎◌, IfOk, IfErr};
ghost use Rattle.dn_record_types.specs.declared.payload.Payload.TheVariants as payloads;
ghost use Rattle.dn_seal.specs.Challenge.{IsChallenge, envelopes_of, AreOpened, IsFirstUnopened};

use crate::said::{Said, unseal};
use crate::unopened::Unopened;
use dn_records::Payload;
use dn_roster::Roster;
use dn_wire::{Bytes, Round};
use std::alloc::Global;

/// What servers say of round `r` at place `k`, to clients that are asked.
#[derive(Drop)]
pub struct Challenge {
    pub r: Round,
    pub k: u32,
    /// What was shown, in the order of the envelopes.
    pub shown: Vec<Said>,
}

fn unseal_all(alloc: Global, roster: &Roster, envelopes: &[Bytes]) -> Result<Vec<Said>, Unopened>
    ensures opened { IfOk result (λ shown. AreOpened roster.now envelopes.now shown.items) }
    ensures unopened { IfErr result (λ fault. (fault ≡ Unopened.NoMemory) ⊎ IsFirstUnopened roster.now envelopes.now fault) }
{
    let mut shown = Vec::new(alloc);
    for envelope in envelopes {
        let said = match unseal(alloc, roster, envelope.get()) {
            Ok(said) => said,
            Err(fault) => return Err(fault),
        };
        shown.push(said)?;
    }
    Ok(shown)
}

impl Challenge {
    /// Opens the envelopes of a challenge. The refusal is that of the first envelope that doesn't unseal.
    pub fn open(alloc: Global, roster: &Roster, payload: &Payload) -> Result<Challenge, Unopened>
        requires { IsChallenge payload.now }
        ensures same { IfOk result (λ c. payload.now ≡ payloads.Challenge c.r c.k (envelopes_of payload.now)) }
        ensures opened { IfOk result (λ c. AreOpened roster.now (envelopes_of payload.now) c.shown.items) }
        ensures unopened { IfErr result (λ fault. (fault ≡ Unopened.NoMemory) ⊎ IsFirstUnopened roster.now (envelopes_of payload.now) fault) }
    {
        let Payload::Challenge { r, k, envelopes } = payload else {
            unreachable!()
        };
        let shown = unseal_all(alloc, roster, envelopes.get())?;
        Ok(Challenge {
            r: *r,
            k: *k,
            shown,
        })
    }
}
