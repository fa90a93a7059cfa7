// Who is challenged.
ghost use Rattle.std.specs.Prelude.{◌≡◌, ◌<◌, ◌↔◌, ℕ, false, MatchOption, IfOk, IsTrue};
ghost use Rattle.dn_trace.specs.Challenged.{NamesNone, IsOpened, IsChallenged};
ghost use Rattle.dn_trace.specs.Evidence.{AreCarried, Tells};
ghost use Rattle.dn_trace.specs.Tables.{clients_of};
ghost use Rattle.dn_trace.specs.Trial.{CanJudge, servers_of};
ghost use Rattle.dn_trace.specs.Openings.{AreOpenings, Differs};

use crate::case::Case;
use crate::flags::{mark, no_flags};
use crate::openings::{Opening, opening_of, pads_for};
use dn_memory::NoMemory;
use dn_seal::Said;
use dn_wire::ServerId;
use std::alloc::Global;

/// What every server opened; nothing where one didn't.
pub fn openings<'a>(
    alloc: Global,
    case: &Case<'a>,
    carried: &'a [Said],
) -> Result<Option<Vec<Opening<'a>>>, NoMemory>
    requires { AreCarried case.now carried.now }
    ensures { IfOk result (λ o. MatchOption o ((j : ℕ) × (j < servers_of case.now) × ¬ IsOpened case.now j) (λ v. AreOpenings case.now v.items)) }
{
    let mut all = Vec::new(alloc);
    for j in 0..case.servers() {
        match opening_of(case, carried, ServerId(j)) {
            Some(opening) => all.push(opening)?,
            None => return Ok(None),
        }
    }
    Ok(Some(all))
}

/// Of each client, whether a ciphertext of it that was shown has another bit at the judged place than all pads add up to.
pub fn differing(alloc: Global, case: &Case, openings: &[Opening]) -> Result<Vec<bool>, NoMemory>
    ensures { IfOk result (λ v. Tells v.items (clients_of case.now) (Differs case.now openings.now)) }
{
    let mut flags = no_flags(alloc, case.clients())?;
    for opening in openings {
        for x in opening.shown {
            if x.cipher.get_or_zero(case.place()) != pads_for(openings, x.client) {
                mark(&mut flags, x.client.0);
            }
        }
    }
    Ok(flags)
}

/// Of each client, whether it is challenged. `names` tells whether a reason but a rebuttal names a server.
pub fn challenged<'a>(
    alloc: Global,
    case: &Case<'a>,
    carried: &'a [Said],
    names: bool,
) -> Result<Vec<bool>, NoMemory>
    requires can { CanJudge case.now }
    requires carried { AreCarried case.now carried.now }
    requires none { NamesNone case.now ↔ (names ≡ false) }
    ensures { IfOk result (λ v. Tells v.items (clients_of case.now) (IsChallenged case.now)) }
{
    if !names {
        if let Some(openings) = openings(alloc, case, carried)? {
            return differing(alloc, case, &openings);
        }
    }
    no_flags(alloc, case.clients())
}
