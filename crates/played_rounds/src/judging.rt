ghost use Rattle.std.specs.Prelude.{All, IfOk, length, ◌<◌, ◌↔◌, IsTrue};
ghost use Rattle.dn_seal.specs.Said.{IsUnder};

use crate::fault::PlayFault;
use crate::playing::Played;
use dn_accuse::Judging;
use dn_cert::Valid;
use dn_records::Listed;
use dn_roster::Roster;
use dn_seal::{Said, unseal};
use dn_trace::{Verdict, judge};
use dn_wire::SlotId;
use std::alloc::Global;

/// What the envelopes say; unfit where one doesn't unseal.
pub fn opened(alloc: Global, roster: &Roster, envelopes: &[Vec<u8>]) -> Result<Vec<Said>, PlayFault>
    ensures { IfOk result (λ v. All (IsUnder roster.now) v.items) }
{
    let mut heard = Vec::new(alloc);
    for envelope in envelopes {
        match unseal(alloc, roster, envelope) {
            Ok(said) => heard.push(said)?,
            Err(_) => return Err(PlayFault::Unfit),
        }
    }
    Ok(heard)
}

fn are_within(rows: &[Listed], clients: u32, servers: u32) -> bool
    ensures { IsTrue result ↔ All (λ l. (l.client.0 < clients) × (l.server.0 < servers)) rows.now }
{
    rows.iter()
        .all(|row| row.client.0 < clients && row.server.0 < servers)
}

/// The verdict on the played round, at its place.
pub fn judged(alloc: Global, played: &Played, heard: &[Said]) -> Result<Verdict, PlayFault>
    requires { All (IsUnder played.now.dealt.roster) heard.now }
{
    let roster = &played.dealt.roster;
    let body = &played.body;
    if played.k >= played.layout.bits()
        || body.digests.get().len() != roster.servers() as usize
        || !are_within(body.listed.get(), roster.clients(), roster.servers())
    {
        return Err(PlayFault::Unfit);
    }
    let v = Valid {
        r: body.r,
        slot: SlotId(0),
        k: played.k,
    };
    Ok(judge(alloc, &Judging, roster, body, &played.layout, &v, heard)?)
}

/// What was said, again and again, up to so many.
pub fn repeated(
    alloc: Global,
    roster: &Roster,
    said: &[Said],
    count: usize,
) -> Result<Vec<Said>, PlayFault>
    requires { All (IsUnder roster.now) said.now }
    ensures { IfOk result (λ v. All (IsUnder roster.now) v.items) }
{
    let mut heard = Vec::new(alloc);
    for n in 0..count {
        let place = n.checked_rem(said.len()).ok_or(PlayFault::Unfit)?;
        heard.push(said[place].copy(alloc)?)?;
    }
    Ok(heard)
}
