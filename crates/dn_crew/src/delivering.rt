// A server's core is handed payloads.
ghost use Rattle.std.specs.Prelude.{◌≡◌, ◌≢◌, ◌==◌, ◌++◌, ◌∷◌, [], List, IfOk, OnOk};
ghost use Rattle.std.specs.List.{filter_map, list_any};
ghost use Rattle.dn_server.specs.declared.act.Act.{Act as ActOf};
ghost use Rattle.dn_crew.specs.Live.{IsOfGroup, Answers, acts_of, IsHanded, letter_to, letters_by, letters_of, server_of, Makes};

use dn_accuse::Judging;
use dn_board::Letter;
use dn_cert::{Opened, PayloadFault, open_payload};
use dn_exchange::ServerCore;
use dn_memory::NoMemory;
use dn_roster::Roster;
use dn_server::{Act, Answer, Reason};
use dn_wire::{Bytes, Member, ServerId};
use std::alloc::Global;
use std::thread::Threads;

/// What a core answers to what a payload carries.
#[tactic(auto, using(dn_exchange::proofs::SeatStays::submits_seat, dn_exchange::proofs::SeatStays::hears_seat, dn_exchange::proofs::SeatStays::holds_seat))]
fn answer_of<R: Threads + Sync>(
    rt: &R,
    core: &mut ServerCore,
    opened: &Opened,
) -> Result<Answer, NoMemory>
    requires { IsOfGroup core.old.seat.roster opened.now }
    ensures answers { IfOk result (λ a. Answers core.old opened.now a core.new) }
    ensures seat { OnOk result (core.new.seat ≡ core.old.seat) }
{
    match opened {
        Opened::Submission { cipher, said } => Ok(core.submitted(said, cipher)?),
        Opened::Plain { said } => Ok(core.hear(rt, &Judging, said)?),
        Opened::Certificate { certificate } => Ok(core.hold(certificate)?),
        Opened::Challenge { .. } => Ok(Answer::Ignored(Reason::Kind)),
    }
}

/// Whether a server is one of these.
fn is_among(servers: &[ServerId], j: ServerId) -> bool
    ensures { result ≡ list_any (λ s. s.0 == j.0) servers.now }
{
    servers.iter().any(|s| s.0 == j.0)
}

/// The letter to a member, where it is a server of the run.
fn letter_for(
    alloc: Global,
    servers: &[ServerId],
    from: ServerId,
    payload: &Bytes,
    member: Member,
) -> Result<Option<Letter>, NoMemory>
    ensures { IfOk result (λ l. l ≡ letter_to servers.now from payload.now member) }
{
    let Member::Server(to) = member else {
        return Ok(None);
    };
    if !is_among(servers, to) {
        return Ok(None);
    }
    let payload = payload.copy(alloc)?;
    Ok(Some(Letter { from, to, payload }))
}

/// Puts the letter to a member, where it is a server of the run.
fn put_letter(
    alloc: Global,
    servers: &[ServerId],
    from: ServerId,
    payload: &Bytes,
    member: Member,
    made: &mut Vec<Letter>,
) -> Result<(), NoMemory>
    ensures { OnOk result (made.new.items ≡ made.old.items ++ filter_map (letter_to servers.now from payload.now) (member ∷ [])) }
{
    match letter_for(alloc, servers, from, payload, member)? {
        Some(letter) => {
            made.push(letter)?;
            Ok(())
        }
        None => Ok(()),
    }
}

/// Puts the letters of one post.
fn put_post(
    alloc: Global,
    servers: &[ServerId],
    from: ServerId,
    to: &[Member],
    payload: &Bytes,
    made: &mut Vec<Letter>,
) -> Result<(), NoMemory>
    ensures { OnOk result (made.new.items ≡ made.old.items ++ filter_map (letter_to servers.now from payload.now) to.now) }
{
    for member in to {
        put_letter(alloc, servers, from, payload, *member, made)?;
    }
    Ok(())
}

/// Puts the letters of one act.
fn put_act(
    alloc: Global,
    servers: &[ServerId],
    from: ServerId,
    act: &Act,
    made: &mut Vec<Letter>,
) -> Result<(), NoMemory>
    ensures { OnOk result (made.new.items ≡ made.old.items ++ letters_by servers.now from act.now) }
{
    match act {
        Act::Post { to, payload } => put_post(alloc, servers, from, to.get(), payload, made),
        _ => Ok(()),
    }
}

/// Puts the letters of all acts.
fn put_acts(
    alloc: Global,
    servers: &[ServerId],
    from: ServerId,
    did: &[Act],
    made: &mut Vec<Letter>,
) -> Result<(), NoMemory>
    ensures { OnOk result (made.new.items ≡ made.old.items ++ letters_of servers.now from did.now) }
{
    for act in did {
        put_act(alloc, servers, from, act, made)?;
    }
    Ok(())
}

/// Puts the letters of an answer.
pub(crate) fn put_answer(
    alloc: Global,
    servers: &[ServerId],
    from: ServerId,
    answer: &Answer,
    made: &mut Vec<Letter>,
) -> Result<(), NoMemory>
    ensures { OnOk result (made.new.items ≡ made.old.items ++ letters_of servers.now from (acts_of answer.now)) }
{
    match answer {
        Answer::Acts(did) => put_acts(alloc, servers, from, did.get(), made),
        _ => Ok(()),
    }
}

/// Passes over what doesn't open.
fn pass_over(fault: PayloadFault) -> Result<(), NoMemory>
    ensures { OnOk result (fault ≢ PayloadFault.NoMemory) }
{
    match fault {
        PayloadFault::NoMemory => Err(NoMemory),
        PayloadFault::Form => Ok(()),
        PayloadFault::Stranger => Ok(()),
        PayloadFault::Signature => Ok(()),
    }
}

/// Hands the core a payload, and puts the letters that it makes.
fn hand<R: Threads + Sync>(
    rt: &R,
    alloc: Global,
    roster: &Roster,
    servers: &[ServerId],
    core: &mut ServerCore,
    bytes: &Bytes,
    made: &mut Vec<Letter>,
) -> Result<(), NoMemory>
    requires { core.old.seat.roster ≡ roster.now }
    ensures seat { OnOk result (core.new.seat ≡ core.old.seat) }
    ensures handed { OnOk result ((did : List ActOf) × IsHanded roster.now core.old bytes.now did core.new × (made.new.items ≡ made.old.items ++ letters_of servers.now (server_of core.old) did)) }
{
    match open_payload(alloc, roster, bytes.get()) {
        Ok(opened) => {
            let from = core.number();
            let answer = answer_of(rt, core, &opened)?;
            put_answer(alloc, servers, from, &answer, made)?;
            Ok(())
        }
        Err(fault) => {
            pass_over(fault)?;
            Ok(())
        }
    }
}

/// Hands the core payloads, and gives the letters that it makes.
pub(crate) fn work<R: Threads + Sync>(
    rt: &R,
    alloc: Global,
    roster: &Roster,
    servers: &[ServerId],
    core: &mut ServerCore,
    payloads: &[Bytes],
) -> Result<Vec<Letter>, NoMemory>
    requires { core.old.seat.roster ≡ roster.now }
    ensures seat { IfOk result (λ _. core.new.seat ≡ core.old.seat) }
    ensures made { IfOk result (λ made. Makes roster.now servers.now core.old payloads.now made.items core.new) }
{
    let mut made = Vec::new(alloc);
    for bytes in payloads {
        hand(rt, alloc, roster, servers, core, bytes, &mut made)?;
    }
    Ok(made)
}
