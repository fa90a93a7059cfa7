// Whom a server challenges.
ghost use Rattle.std.specs.Prelude.{◌≡◌, ◌<◌, ◌^◌, ◌++◌, ◌∷◌, ◌≤◌, ◌≢◌, ℕ, List, [], true, length, All, Contains, IfOk, OnOk};
ghost use Rattle.dn_records.specs.Records.{payload_bytes};
ghost use Rattle.dn_record_types.specs.declared.payload.Payload.TheVariants as payloads;
ghost use Rattle.dn_layout.specs.Layout.{bits_of};
ghost use Rattle.dn_seal.specs.Said.{IsUnder};
ghost use Rattle.dn_trace.specs.Trial.{Trial};
ghost use Rattle.dn_server.specs.declared.act.Act.{Act};
ghost use Rattle.dn_server.specs.Parts.{live};
ghost use Rattle.dn_openings.specs.Evidence.{is_opening, AreEnvelopes, HasOpened};
ghost use Rattle.dn_openings.specs.Challenging.{IsComplete, AreDue, AreDueAt, CanLook, IsCall, LooksOn};

use crate::keeping::{all_opened, first_pad, is_among, openings_of};
use dn_cert::{Rules, Valid};
use dn_layout::Layout;
use dn_memory::NoMemory;
use dn_records::{Body, ByteLists, Payload, encode_payload};
use dn_roster::Roster;
use dn_seal::{Said, statements_fit};
use dn_server::{Act, Parts, Place};
use dn_trace::judge;
use dn_wire::{Bytes, MemberList, ServerId, SlotId};
use std::alloc::Global;

/// Whom the openings of a place have a server challenge. All of `given` opens the place.
fn due<R: Rules>(
    alloc: Global,
    rules: &R,
    roster: &Roster,
    body: &Body,
    layout: &Layout,
    place: Place,
    given: &[Said],
) -> Result<MemberList, NoMemory>
    requires round { place.r ≡ body.now.r }
    requires within { place.k < bits_of layout.now }
    requires digests { length body.now.digests ≡ length roster.now.servers }
    requires listed { All (λ l. (l.client.0 < length roster.now.clients) × (l.server.0 < length roster.now.servers)) body.now.listed }
    requires under { All (IsUnder roster.now) given.now }
    requires open { All (λ x. is_opening place.r place.k x.statement ≡ true) given.now }
    requires complete { IsComplete record { roster = roster.now; body = body.now; layout = layout.now; k = place.k; given = given.now } }
    ensures { IfOk result (AreDue record { roster = roster.now; body = body.now; layout = layout.now; k = place.k; given = given.now }) }
{
    let servers = roster.servers();
    prove!(servers > 0);
    let accused = Valid {
        r: place.r,
        slot: SlotId(0),
        k: place.k,
    };
    let verdict = judge(alloc, rules, roster, body, layout, &accused, given)?;
    if verdict.blamed.get().is_empty() {
        Ok(verdict.silent)
    } else {
        Ok(MemberList::of(Vec::new(alloc)))
    }
}

/// Whom the server challenges at a place that all have opened.
fn due_at<R: Rules>(
    alloc: Global,
    rules: &R,
    parts: &Parts,
    place: Place,
) -> Result<MemberList, NoMemory>
    requires can { CanLook (live parts.now) place }
    requires complete { (j : ℕ) → j < length parts.now.identity.roster.servers → HasOpened parts.now.evidence place j }
    ensures { IfOk result (AreDueAt (live parts.now) place) }
{
    let Some(body) = parts.chain.body(place.r) else {
        unreachable!()
    };
    let Some(layout) = parts.chain.layout(body.prev) else {
        unreachable!()
    };
    let given = openings_of(alloc, parts.evidence.get(), place)?;
    due(
        alloc,
        rules,
        parts.identity.roster(),
        body,
        layout,
        place,
        &given,
    )
}

/// The envelopes of the first pad bits of the place of each of `n` servers, which all have opened it.
fn envelopes(alloc: Global, kept: &[Said], place: Place, n: u32) -> Result<Vec<Bytes>, NoMemory>
    requires { (j : ℕ) → j < n → HasOpened kept.now place j }
    ensures envelopes { IfOk result (λ v. AreEnvelopes kept.now place n v.items) }
    ensures count { IfOk result (λ v. length v.items ≡ n) }
    ensures short { IfOk result (λ v. All (λ e. length e < 2 ^ 32) v.items) }
{
    let mut list = Vec::new(alloc);
    for j in 0..n {
        let Some(pad) = first_pad(kept, place, ServerId(j)) else {
            unreachable!()
        };
        list.push(Bytes::of(Vec::from_slice(alloc, pad.bytes())?))?;
    }
    Ok(list)
}

/// Posts a challenge to these clients.
fn post_challenge(
    alloc: Global,
    acts: &mut Vec<Act>,
    to: MemberList,
    place: Place,
    envelopes: Vec<Bytes>,
) -> Result<(), NoMemory>
    requires few { length envelopes.items ≤ 16 }
    requires short { All (λ e. length e < 2 ^ 32) envelopes.items }
    ensures { OnOk result (acts.new.items ≡ acts.old.items ++ Act.Post to (payload_bytes (payloads.Challenge place.r place.k envelopes.items)) ∷ []) }
{
    let payload = Payload::Challenge {
        r: place.r,
        k: place.k,
        envelopes: ByteLists::of(envelopes),
    };
    let payload = Bytes::of(encode_payload(alloc, &payload)?);
    acts.push(Act::Post { to, payload })?;
    Ok(())
}

/// Challenges these clients, if there are any, at a place that each of `n` servers has opened.
fn challenge(
    alloc: Global,
    acts: &mut Vec<Act>,
    to: MemberList,
    kept: &[Said],
    place: Place,
    n: u32,
) -> Result<(), NoMemory>
    requires few { n ≤ 16 }
    requires opened { (j : ℕ) → j < n → HasOpened kept.now place j }
    ensures { OnOk result ((did : List Act) × (acts.new.items ≡ acts.old.items ++ did) × IsCall kept.now place n to did) }
{
    if to.get().is_empty() {
        return Ok(());
    }
    let envelopes = envelopes(alloc, kept, place, n)?;
    post_challenge(alloc, acts, to, place, envelopes)
}

/// Looks for clients to challenge at a place that the server opened, where all have opened it and it hasn't looked there before.
pub(crate) fn look_at<R: Rules>(
    rules: &R,
    parts: &mut Parts,
    acts: &mut Vec<Act>,
    place: Place,
) -> Result<(), NoMemory>
    requires { CanLook (live parts.old) place }
    ensures { OnOk result (LooksOn (live parts.old) place acts.old.items acts.new.items (live parts.new)) }
{
    let alloc = parts.alloc;
    let n = parts.identity.roster().servers();
    if is_among(parts.challenged.get(), place) {
        return Ok(());
    }
    if !all_opened(parts.evidence.get(), place, n) {
        return Ok(());
    }
    let to = due_at(alloc, rules, parts, place)?;
    challenge(alloc, acts, to, parts.evidence.get(), place, n)?;
    parts.challenged.push(place)?;
    Ok(())
}
