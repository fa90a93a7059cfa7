// What members put.
ghost use Rattle.std.specs.Prelude.{◌≡◌, ◌++◌, ◌∷◌, [], List, None, Some, IfSome, OnOk, OnErr, MatchOption, if◌then◌else◌};
ghost use Rattle.dn_report.specs.declared.outcome.Outcome.{Outcome as OutcomeOf};
ghost use Rattle.dn_audit.specs.Auditor.{AddsStrings};
ghost use Rattle.dn_state.specs.Sound.{IsInFront};
ghost use Rattle.dn_state.specs.Putting.{front_of, server_said, accused_with, with_shown_in, post_lines, Follows, FollowsIn, NotesOwn, LooksIfNew, Sends, SendsEach, Puts};

use crate::state::State;
use dn_audit::{Auditor, Group};
use dn_cert::{Certificate, Chain, Opened};
use dn_flight::{Flight, PutFault};
use dn_memory::NoMemory;
use dn_payloads::{Content, Numbered};
use dn_records::Statement;
use dn_report::Outcome;
use dn_roster::Roster;
use dn_seal::Said;
use dn_wire::{Bytes, Member, SignerId};
use std::alloc::Global;
use std::collections::BTreeMap;

/// Who puts something: by its own core, or by what is injected.
#[derive(Clone, Copy, Debug, PartialEq, Eq)]
pub struct Sender {
    pub member: Member,
    pub is_own: bool,
}

/// What was said in the envelope in front of a payload that opens.
pub fn said_in(content: &Content) -> Option<&Said>
    ensures front { IfSome result (λ said. IsInFront content.now said.now) }
    ensures value { MatchOption result (front_of content.now ≡ None) (λ said. front_of content.now ≡ Some said.now) }
{
    match content {
        Content::Opened(Opened::Submission { said, .. }) => Some(said),
        Content::Opened(Opened::Plain { said }) => Some(said),
        _ => None,
    }
}

/// Gives a certificate to the run's chain, if it can follow there.
pub fn follow(alloc: Global, chain: &mut Chain, certificate: &Certificate) -> Result<(), NoMemory>
    ensures { OnOk result (Follows chain.old certificate.now.body chain.new) }
{
    match chain.refusal(certificate.body()) {
        Some(_) => return Ok(()),
        None => {}
    }
    let copy = certificate.copy(alloc)?;
    match chain.hold(alloc, copy) {
        Ok(()) => Ok(()),
        Err(_) => Err(NoMemory),
    }
}

/// Gives a payload's certificate to the run's chain.
fn follow_in(alloc: Global, chain: &mut Chain, content: &Content) -> Result<(), NoMemory>
    ensures { OnOk result (FollowsIn chain.old content.now chain.new) }
{
    match content {
        Content::Opened(Opened::Certificate { certificate }) => follow(alloc, chain, certificate),
        _ => Ok(()),
    }
}

/// Notes what an honest member signed, where its own core puts it.
fn note_own(
    auditor: &mut Auditor,
    roster: &Roster,
    content: &Content,
    is_own: bool,
) -> Result<(), NoMemory>
    ensures { OnOk result (NotesOwn roster.now is_own (front_of content.now) auditor.old auditor.new) }
{
    if !is_own {
        return Ok(());
    }
    match said_in(content) {
        Some(said) => auditor.note_signed(roster, said),
        None => Ok(()),
    }
}

/// Notes the strings that a payload shows.
fn note_strings(auditor: &mut Auditor, content: &Content) -> Result<(), NoMemory>
    ensures { OnOk result (AddsStrings auditor.old auditor.new (with_shown_in content.now)) }
{
    match content {
        Content::Opened(Opened::Submission { cipher, said }) => match said.statement() {
            Statement::Submission { r, client, .. } => auditor.add_cipher(*r, *client, cipher),
            _ => Ok(()),
        },
        Content::Opened(Opened::Plain { said }) => auditor.add_strings(said),
        _ => Ok(()),
    }
}

/// Looks whether the signatures in a payload are theirs, and notes the strings that it shows, where it is new.
fn look_into(
    auditor: &mut Auditor,
    roster: &Roster,
    group: &Group,
    bytes: &[u8],
    content: &Content,
    is_new: bool,
) -> Result<(), NoMemory>
    ensures { OnOk result (LooksIfNew roster.now group.now is_new bytes.now content.now auditor.old auditor.new) }
{
    if !is_new {
        return Ok(());
    }
    auditor.look(roster, group, bytes)?;
    note_strings(auditor, content)
}

/// Hears what a server says in a plain payload that is new.
fn hear_server(
    alloc: Global,
    heard: &mut Vec<Said>,
    content: &Content,
    is_new: bool,
) -> Result<(), NoMemory>
    ensures heard { OnOk result (heard.new.items ≡ (if is_new then heard.old.items ++ server_said content.now else heard.old.items)) }
    ensures same { OnErr result (heard.new.items ≡ heard.old.items) }
{
    if !is_new {
        return Ok(());
    }
    let Content::Opened(Opened::Plain { said }) = content else {
        return Ok(());
    };
    match said.signer() {
        SignerId::Server(_) => {
            heard.push(said.copy(alloc)?)?;
            Ok(())
        }
        _ => Ok(()),
    }
}

/// Notes the place of an accusation that is put.
fn note_accusation(accused: &mut BTreeMap<u64, u32>, content: &Content) -> Result<(), NoMemory>
    ensures { OnOk result (accused.new.entries ≡ accused_with content.now accused.old.entries) }
{
    let Content::Opened(Opened::Plain { said }) = content else {
        return Ok(());
    };
    match said.statement() {
        Statement::Accusation { r, k, .. } => {
            accused.insert(r.0, *k)?;
            Ok(())
        }
        _ => Ok(()),
    }
}

/// Tells of bytes that weren't put before.
fn tell_new(
    alloc: Global,
    numbered: Numbered,
    by: Member,
    bytes: &[u8],
    outcomes: &mut Vec<Outcome>,
) -> Result<(), NoMemory>
    ensures { OnOk result (outcomes.new.items ≡ outcomes.old.items ++ post_lines numbered by bytes.now) }
{
    if !numbered.is_new {
        return Ok(());
    }
    outcomes.push(Outcome::Post {
        payload: numbered.number,
        by,
        bytes: Bytes::of(Vec::from_slice(alloc, bytes)?),
    })?;
    Ok(())
}

/// Sends a payload to a member, or loses it to a full flight.
fn send(
    flight: &mut Flight,
    from: Member,
    payload: u64,
    to: Member,
    outcomes: &mut Vec<Outcome>,
) -> Result<(), NoMemory>
    ensures { OnOk result ((line : OutcomeOf) × Sends from payload to flight.old flight.new line × (outcomes.new.items ≡ outcomes.old.items ++ line ∷ [])) }
{
    match flight.put(from, to, payload) {
        Ok(id) => outcomes.push(Outcome::Sent { id, payload, to })?,
        Err(PutFault::Full) => outcomes.push(Outcome::Full { payload, to })?,
        Err(PutFault::NoMemory) => return Err(NoMemory),
    }
    Ok(())
}

/// Sends a payload to each of the members.
fn send_each(
    flight: &mut Flight,
    from: Member,
    payload: u64,
    to: &[Member],
    outcomes: &mut Vec<Outcome>,
) -> Result<(), NoMemory>
    ensures { OnOk result ((lines : List OutcomeOf) × SendsEach from payload to.now flight.old flight.new lines × (outcomes.new.items ≡ outcomes.old.items ++ lines)) }
{
    for member in to {
        send(flight, from, payload, *member, outcomes)?;
    }
    Ok(())
}

/// A member puts bytes to members, in this order.
pub fn put(
    state: &mut State,
    sender: Sender,
    to: &[Member],
    bytes: &[u8],
    outcomes: &mut Vec<Outcome>,
) -> Result<(), NoMemory>
    ensures roster { state.new.roster ≡ state.old.roster }
    ensures puts { OnOk result ((lines : List OutcomeOf) × Puts state.old sender to.now bytes.now state.new lines × (outcomes.new.items ≡ outcomes.old.items ++ lines)) }
{
    let numbered = state.payloads.put(Vec::from_slice(state.alloc, bytes)?)?;
    let Some(content) = state.payloads.content(numbered.number) else {
        return Ok(());
    };
    let roster = state.payloads.roster();
    note_own(&mut state.auditor, roster, content, sender.is_own)?;
    look_into(
        &mut state.auditor,
        roster,
        &state.group,
        bytes,
        content,
        numbered.is_new,
    )?;
    follow_in(state.alloc, &mut state.chain, content)?;
    note_accusation(&mut state.accused, content)?;
    tell_new(state.alloc, numbered, sender.member, bytes, outcomes)?;
    send_each(
        &mut state.flight,
        sender.member,
        numbered.number,
        to,
        outcomes,
    )?;
    hear_server(state.alloc, &mut state.heard, content, numbered.is_new)
}
