// Messages that arrive.
ghost use Rattle.std.specs.Prelude.{◌≡◌, ◌≢◌, ◌⊎◌, ◌++◌, List, Some, None, drop, IfOk, IfSome, OnOk, OnErr, MatchOption, IsTrue, ◌↔◌, [], slice_get, true};
ghost use Rattle.std.specs.Option.{option_and_then};
ghost use Rattle.dn_flight.specs.Flight.{with_id};
ghost use Rattle.dn_server.specs.declared.answer.Answer.{Answer as AnswerTo};
ghost use Rattle.dn_client.specs.Client.{ClientView};
ghost use Rattle.dn_cert.specs.declared.opened.Opened.{Opened as OpenedOf};
ghost use Rattle.dn_server.specs.Server.{ServerView};
ghost use Rattle.dn_report.specs.declared.outcome.Outcome.{Outcome as OutcomeOf};
ghost use Rattle.dn_state.specs.Sound.{IsOfGroup};
ghost use Rattle.dn_state.specs.Words.{unopened_word_of};
ghost use Rattle.dn_state.specs.Members.{server_at, Turns, HasNone};
ghost use Rattle.dn_state.specs.Delivering.{IsAnswerOn, IsRuled, NotesReply, Replies, IsReached, ReachesServer, ReachesClient, ComesOfReached, ComesOfReply, ComesOfMessage, IsHeard, IsTaken, Reaches, Delivers, TellsBody, client_said, content_of, opened_of, opened_at, body_in, body_of, tells_held, is_held, is_receipt_for, is_ahead, is_early_now, is_submission_ahead, is_phase_ahead, without_msg};

use crate::acting::act_on;
use crate::calling::{
    ignore, note_sum, put_client, put_server, put_to_servers, take_client, take_server,
};
use crate::putting::said_in;
use crate::round_lines::tell_round;
use crate::state::State;
use crate::words::{answer_word, hold_word, unopened_word};
use dn_accuse::Judging;
use dn_audit::Auditor;
use dn_cert::Opened;
use dn_client::Client;
use dn_exchange::ServerCore;
use dn_flight::{Flight, Msg};
use dn_memory::NoMemory;
use dn_payloads::{Content, Payloads};
use dn_records::{Body, Statement};
use dn_report::{IgnoredWord, Outcome, UnopenedWord};
use dn_seal::Said;
use dn_server::{Answer, Reason};
use dn_wire::{ClientId, Member, Round, ServerId, SignerId};
use std::alloc::Global;
use std::thread::Threads;

/// What a payload carries; none where it isn't there, or doesn't open.
pub fn opened_in(payloads: &Payloads, payload: u64) -> Option<&Opened>
    ensures value { MatchOption result (opened_of payloads.now payload ≡ None) (λ x. opened_of payloads.now payload ≡ Some x.now) }
    ensures group { IfSome result (λ x. IsOfGroup payloads.now.roster x.now) }
{
    match payloads.content(payload) {
        Some(Content::Opened(opened)) => Some(opened),
        _ => None,
    }
}

/// The word for why a payload doesn't open; none where it opens, or isn't there.
fn unopened_in(payloads: &Payloads, payload: u64) -> Option<UnopenedWord>
    ensures { result ≡ option_and_then unopened_word_of (content_of payloads.now payload) }
{
    match payloads.content(payload) {
        Some(content) => unopened_word(content),
        None => None,
    }
}

/// A copy of the body of the certificate that a payload carries; none where it carries none.
fn copy_of_body(alloc: Global, payloads: &Payloads, payload: u64) -> Result<Option<Body>, NoMemory>
    ensures { IfOk result (λ body. body ≡ body_in (opened_of payloads.now payload)) }
{
    match opened_in(payloads, payload) {
        Some(Opened::Certificate { certificate }) => Ok(Some(certificate.body().copy(alloc)?)),
        _ => Ok(None),
    }
}

/// Takes a message out of flight.
fn take_message(flight: &mut Flight, id: u64)
    ensures { flight.new ≡ without_msg flight.old id }
{
    flight.take(id);
}

/// Hears what a client or a slot said in front of a payload.
fn hear_client(alloc: Global, heard: &mut Vec<Said>, content: &Content) -> Result<(), NoMemory>
    ensures heard { OnOk result (heard.new.items ≡ heard.old.items ++ client_said content.now) }
    ensures same { OnErr result (heard.new.items ≡ heard.old.items) }
{
    let Some(said) = said_in(content) else {
        return Ok(());
    };
    match said.signer() {
        SignerId::Server(_) => Ok(()),
        _ => {
            heard.push(said.copy(alloc)?)?;
            Ok(())
        }
    }
}

/// Hears what a payload says that reaches a server for the first time.
fn hear(state: &mut State, payload: u64) -> Result<(), NoMemory>
    ensures roster { state.new.roster ≡ state.old.roster }
    ensures heard { OnOk result (IsHeard payload state.old state.new) }
{
    if state.delivered.contains(&payload) {
        return Ok(());
    }
    state.delivered.insert(payload)?;
    match state.payloads.content(payload) {
        Some(content) => hear_client(state.alloc, &mut state.heard, content),
        None => Ok(()),
    }
}

/// What a server answers to what reaches it.
fn answer_of<R: Threads + Sync>(
    rt: &R,
    core: &mut ServerCore,
    opened: &Opened,
) -> Result<Answer, NoMemory>
    requires { IsOfGroup core.old.seat.roster opened.now }
    ensures answers { IfOk result (λ a. IsAnswerOn opened.now core.old a core.new) }
    ensures rules { OnOk result (IsRuled opened.now core.old core.new) }
{
    match opened {
        Opened::Submission { cipher, said } => core.submitted(said, cipher),
        Opened::Plain { said } => core.hear(rt, &Judging, said),
        Opened::Certificate { certificate } => core.hold(certificate),
        Opened::Challenge { .. } => Ok(Answer::Ignored(Reason::Kind)),
    }
}

/// Tells the auditor the ciphertext that a server made for its round, but where it answers that a message is early.
fn note_reply(
    auditor: &mut Auditor,
    core: &ServerCore,
    server: ServerId,
    answer: &Answer,
) -> Result<(), NoMemory>
    ensures { OnOk result (NotesReply answer.now server core.now auditor.old auditor.new) }
{
    match answer {
        Answer::Acts(_) => note_sum(auditor, core, server),
        Answer::Ignored(_) => note_sum(auditor, core, server),
        Answer::Early => Ok(()),
    }
}

/// What a server answers to a message, and the round that it opened last.
#[derive(Drop)]
struct Reply {
    answer: Answer,
    last: Round,
}

/// What an honest server answers to a payload that reaches it; none where there is no such server, or nothing that opens.
fn answer_to<R: Threads + Sync>(
    rt: &R,
    state: &mut State,
    payload: u64,
    server: ServerId,
) -> Result<Option<Reply>, NoMemory>
    ensures roster { state.new.roster ≡ state.old.roster }
    ensures replies { IfOk result (λ found. MatchOption found
        ((state.new ≡ state.old) × ((opened_at state.old payload ≡ None) ⊎ (server_at state.old server ≡ None)))
        (λ reply. (x : OpenedOf) × (before : ServerView) × (opened_at state.old payload ≡ Some x) × (server_at state.old server ≡ Some before)
        × Replies server x before reply.answer reply.last state.old state.new)) }
{
    let Some(opened) = opened_in(&state.payloads, payload) else {
        return Ok(None);
    };
    let Some(mut core) = take_server(&mut state.servers, server) else {
        return Ok(None);
    };
    let answer = answer_of(rt, &mut core, opened)?;
    note_reply(&mut state.auditor, &core, server, &answer)?;
    let last = core.last_opened();
    put_server(&mut state.servers, server, core);
    Ok(Some(Reply { answer, last }))
}

/// Whether an answer has no acts: the server kept what it heard, and nothing else came of it.
fn is_kept(answer: &Answer) -> bool
    ensures { IsTrue result ↔ (answer.now ≡ AnswerTo.Acts []) }
{
    match answer {
        Answer::Acts(acts) => acts.get().is_empty(),
        _ => false,
    }
}

/// Whether the first of the outcomes from a place on tells that a certificate is held.
fn has_held(outcomes: &[Outcome], from: usize) -> bool
    ensures { result ≡ tells_held (drop from outcomes.now) }
{
    match outcomes.get(from) {
        Some(Outcome::Held { .. }) => true,
        _ => false,
    }
}

/// Tells what a round with this body came to, if there is one.
fn tell_body(
    state: &mut State,
    body: &Option<Body>,
    outcomes: &mut Vec<Outcome>,
) -> Result<(), NoMemory>
    ensures roster { state.new.roster ≡ state.old.roster }
    ensures tells { OnOk result ((lines : List OutcomeOf) × TellsBody body.now state.old state.new lines × (outcomes.new.items ≡ outcomes.old.items ++ lines)) }
{
    match body {
        Some(body) => tell_round(state, body, outcomes),
        None => Ok(()),
    }
}

/// What comes of a reply to a message that was taken up.
fn carry_out(
    state: &mut State,
    server: ServerId,
    reply: &Reply,
    body: &Option<Body>,
    outcomes: &mut Vec<Outcome>,
) -> Result<(), NoMemory>
    ensures roster { state.new.roster ≡ state.old.roster }
    ensures comes { OnOk result ((lines : List OutcomeOf) × ComesOfMessage server reply.now.last reply.now.answer body.now state.old state.new lines
        × (outcomes.new.items ≡ outcomes.old.items ++ lines)) }
{
    if is_kept(&reply.answer) {
        outcomes.push(Outcome::Kept)?;
        return Ok(());
    }
    let start = outcomes.len();
    act_on(state, server, reply.last, &reply.answer, outcomes)?;
    if has_held(outcomes, start) {
        tell_body(state, body, outcomes)?;
    }
    Ok(())
}

/// What comes of a reply to a message: it stays in flight where it is early.
fn take_up(
    state: &mut State,
    msg: Msg,
    server: ServerId,
    reply: &Reply,
    outcomes: &mut Vec<Outcome>,
) -> Result<(), NoMemory>
    ensures roster { state.new.roster ≡ state.old.roster }
    ensures comes { OnOk result ((lines : List OutcomeOf)
        × ComesOfReply msg server reply.now.last reply.now.answer (body_in (opened_at state.old msg.payload)) state.old state.new lines
        × (outcomes.new.items ≡ outcomes.old.items ++ lines)) }
{
    if let Answer::Early = reply.answer {
        outcomes.push(Outcome::Early)?;
        return Ok(());
    }
    let body = copy_of_body(state.alloc, &state.payloads, msg.payload)?;
    take_message(&mut state.flight, msg.id);
    hear(state, msg.payload)?;
    carry_out(state, server, reply, &body, outcomes)
}

/// A message reaches an honest server.
fn reach_server<R: Threads + Sync>(
    rt: &R,
    state: &mut State,
    msg: Msg,
    server: ServerId,
    outcomes: &mut Vec<Outcome>,
) -> Result<(), NoMemory>
    ensures roster { state.new.roster ≡ state.old.roster }
    ensures reaches { OnOk result ((lines : List OutcomeOf) × ReachesServer msg server state.old state.new lines × (outcomes.new.items ≡ outcomes.old.items ++ lines)) }
{
    match answer_to(rt, state, msg.payload, server)? {
        Some(reply) => take_up(state, msg, server, &reply, outcomes),
        None => {
            take_message(&mut state.flight, msg.id);
            Ok(())
        }
    }
}

/// What comes of a message for a client that has not left.
#[derive(Drop)]
pub enum Reached {
    Noted,
    Held(Round),
    Rebutted(Vec<u8>),
    Ignored(Option<IgnoredWord>),
}

/// Whether a statement is a receipt for a client.
fn is_receipt(client: ClientId, statement: &Statement) -> bool
    ensures { result ≡ is_receipt_for client statement.now }
{
    match statement {
        Statement::Receipt { client: named, .. } => named.0 == client.0,
        _ => false,
    }
}

/// What a client's core makes of what reaches it.
fn reached_client(core: &mut Client, client: ClientId, opened: &Opened) -> Reached
    ensures { IsReached client opened.now core.old result core.new }
{
    match opened {
        Opened::Submission { .. } => Reached::Ignored(Some(IgnoredWord::Kind)),
        Opened::Plain { said } => {
            if is_receipt(client, said.statement()) {
                Reached::Noted
            } else {
                Reached::Ignored(Some(IgnoredWord::Kind))
            }
        }
        Opened::Certificate { certificate } => match core.hold(certificate) {
            Ok(()) => Reached::Held(certificate.body().r),
            Err(fault) => Reached::Ignored(hold_word(fault)),
        },
        Opened::Challenge { challenge } => match core.answer(challenge) {
            Ok(envelope) => Reached::Rebutted(envelope),
            Err(fault) => Reached::Ignored(answer_word(fault)),
        },
    }
}

/// What an honest client's core makes of what reaches it; none where the client is corrupt or out of range.
fn reached_at(
    clients: &mut Vec<Option<Client>>,
    client: ClientId,
    opened: &Opened,
) -> Option<Reached>
    ensures { MatchOption result (HasNone clients.old.items clients.new.items client.0)
        (λ reached. Turns clients.old.items clients.new.items client.0 (λ before after. IsReached client opened.now before reached after)) }
{
    let Some(mut core) = take_client(clients, client) else {
        return None;
    };
    let reached = reached_client(&mut core, client, opened);
    put_client(clients, client, core);
    Some(reached)
}

/// What comes of what a client's core made of a message.
fn carry_reached(
    state: &mut State,
    client: ClientId,
    reached: Reached,
    body: &Option<Body>,
    outcomes: &mut Vec<Outcome>,
) -> Result<(), NoMemory>
    ensures roster { state.new.roster ≡ state.old.roster }
    ensures comes { OnOk result ((lines : List OutcomeOf) × ComesOfReached client body.now reached state.old state.new lines × (outcomes.new.items ≡ outcomes.old.items ++ lines)) }
{
    match reached {
        Reached::Noted => {
            outcomes.push(Outcome::Noted)?;
            Ok(())
        }
        Reached::Held(r) => {
            outcomes.push(Outcome::Held {
                member: Member::Client(client),
                r,
            })?;
            tell_body(state, body, outcomes)
        }
        Reached::Rebutted(envelope) => put_to_servers(state, client, envelope, outcomes),
        Reached::Ignored(word) => ignore(word, outcomes),
    }
}

/// Whether a client has left.
fn has_left(left: &[bool], client: ClientId) -> bool
    ensures { IsTrue result ↔ (slice_get left.now client.0 ≡ Some true) }
{
    left.get(client.0 as usize) == Some(&true)
}

/// A message, which was taken out of flight, reaches an honest client.
fn reach_client(
    state: &mut State,
    payload: u64,
    client: ClientId,
    outcomes: &mut Vec<Outcome>,
) -> Result<(), NoMemory>
    ensures roster { state.new.roster ≡ state.old.roster }
    ensures reaches { OnOk result ((lines : List OutcomeOf) × ReachesClient client payload state.old state.new lines × (outcomes.new.items ≡ outcomes.old.items ++ lines)) }
{
    if has_left(&state.left, client) {
        outcomes.push(Outcome::Ignored(IgnoredWord::Left))?;
        return Ok(());
    }
    let body = copy_of_body(state.alloc, &state.payloads, payload)?;
    let Some(opened) = opened_in(&state.payloads, payload) else {
        return Ok(());
    };
    let Some(reached) = reached_at(&mut state.clients, client, opened) else {
        return Ok(());
    };
    carry_reached(state, client, reached, &body, outcomes)
}

/// A message reaches a corrupt member.
fn reach_corrupt(state: &mut State, payload: u64, to: Member) -> Result<(), NoMemory>
    ensures roster { state.new.roster ≡ state.old.roster }
    ensures taken { OnOk result (IsTaken payload to state.old state.new) }
{
    match to {
        Member::Client(_) => Ok(()),
        Member::Server(_) => hear(state, payload),
    }
}

/// A message that opens reaches an honest member. A client takes it out of flight.
fn reach<R: Threads + Sync>(
    rt: &R,
    state: &mut State,
    msg: Msg,
    outcomes: &mut Vec<Outcome>,
) -> Result<(), NoMemory>
    ensures roster { state.new.roster ≡ state.old.roster }
    ensures reaches { OnOk result ((lines : List OutcomeOf) × Reaches msg msg.to state.old state.new lines × (outcomes.new.items ≡ outcomes.old.items ++ lines)) }
{
    match msg.to {
        Member::Client(client) => {
            take_message(&mut state.flight, msg.id);
            reach_client(state, msg.payload, client, outcomes)
        }
        Member::Server(server) => reach_server(rt, state, msg, server, outcomes),
    }
}

/// A message arrives.
pub fn deliver<R: Threads + Sync>(
    rt: &R,
    state: &mut State,
    id: u64,
    outcomes: &mut Vec<Outcome>,
) -> Result<(), NoMemory>
    ensures roster { state.new.roster ≡ state.old.roster }
    ensures delivers { OnOk result ((lines : List OutcomeOf) × Delivers id state.old state.new lines × (outcomes.new.items ≡ outcomes.old.items ++ lines)) }
{
    let Some(msg) = state.flight.get(id) else {
        outcomes.push(Outcome::Ignored(IgnoredWord::None))?;
        return Ok(());
    };
    if state.group.is_corrupt(msg.to) {
        take_message(&mut state.flight, id);
        reach_corrupt(state, msg.payload, msg.to)?;
        outcomes.push(Outcome::Taken)?;
        return Ok(());
    }
    match unopened_in(&state.payloads, msg.payload) {
        Some(word) => {
            take_message(&mut state.flight, id);
            outcomes.push(Outcome::Unopened(word))?;
            Ok(())
        }
        None => reach(rt, state, msg, outcomes),
    }
}

/// Whether a submission is of a round above the one that a server opened last, so that it can't be taken yet.
fn is_submission_above(statement: &Statement, last: Round) -> bool
    ensures { result ≡ is_submission_ahead last statement.now }
{
    match statement {
        Statement::Submission { r, .. } => r.0 > last.0,
        _ => false,
    }
}

/// Whether what a server said is of a round above the one that another opened last, so that it can't be heard yet.
fn is_phase_above(statement: &Statement, last: Round) -> bool
    ensures { result ≡ is_phase_ahead last statement.now }
{
    match statement {
        Statement::Inventory(inventory) => inventory.r.0 > last.0,
        Statement::Commit { r, .. } => r.0 > last.0,
        Statement::Reveal { r, .. } => r.0 > last.0,
        Statement::Sign(body) => body.r.0 > last.0,
        _ => false,
    }
}

/// Whether what was said is of a round above the one that a server opened last, so that it can't be heard yet.
fn is_above(opened: &Opened, last: Round) -> bool
    ensures { result ≡ is_ahead opened.now last }
{
    match opened {
        Opened::Submission { said, .. } => is_submission_above(said.statement(), last),
        Opened::Plain { said } => match said.signer() {
            SignerId::Server(_) => is_phase_above(said.statement(), last),
            _ => false,
        },
        _ => false,
    }
}

/// Whether a message in flight would now be early.
pub fn is_early(state: &State, id: u64) -> bool
    ensures { result ≡ is_early_now state.now (with_id id state.now.flight.msgs) }
{
    let Some(msg) = state.flight.get(id) else {
        return false;
    };
    let Member::Server(server) = msg.to else {
        return false;
    };
    let Some(opened) = opened_in(&state.payloads, msg.payload) else {
        return false;
    };
    match state.servers.get(server.0 as usize) {
        Some(Some(core)) => is_above(opened, core.last_opened()),
        _ => false,
    }
}
