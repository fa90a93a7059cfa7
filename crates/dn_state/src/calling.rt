// Events in which a member's core is called: what it answers, and what it puts.
ghost use Rattle.std.specs.Prelude.{◌≡◌, ◌≢◌, ◌⊎◌, ◌<◌, ◌≤◌, ◌++◌, ◌∷◌, [], List, Some, None, map, length, true, IfOk, IfSome, OnOk, MatchOption, slice_set, count_by};
ghost use Rattle.dn_roster.specs.Roster.{RosterView};
ghost use Rattle.dn_wire.specs.declared.limits.TheConstants.{MAX_BITS, MAX_TEXT};
ghost use Rattle.dn_bits.specs.Bits.{below};
ghost use Rattle.dn_record_types.specs.Records.{payload_bytes};
ghost use Rattle.dn_record_types.specs.declared.payload.Payload.TheVariants as payloads;
ghost use Rattle.dn_flight.specs.Flight.{is_from};
ghost use Rattle.dn_report.specs.declared.outcome.Outcome.{Outcome as OutcomeOf};
ghost use Rattle.dn_report.specs.declared.words.IgnoredWord.{IgnoredWord as WordOf};
ghost use Rattle.dn_state.specs.Sound.{AreOfGroup};
ghost use Rattle.dn_state.specs.Members.{core_at, server_member, Turns, HasNone};
ghost use Rattle.dn_state.specs.Calling.{IsAnswerTo, KeepsRules, NotesSum, CallsServer, TicksAll, PutsToServers, PutsSubmission, GivesSubmission, GivesAccusation, SaysText, Submits, AccusesAt, Leaves, with_text, left_in, without_from};

use crate::acting::act_on;
use crate::putting::{Sender, put};
use crate::state::State;
use crate::words::{accuse_word, submit_word};
use dn_audit::Auditor;
use dn_client::{AccuseFault, Client, Submission, SubmitFault};
use dn_exchange::ServerCore;
use dn_flight::Flight;
use dn_memory::NoMemory;
use dn_nodes::Steps;
use dn_records::{Payload, encode_payload};
use dn_report::{IgnoredWord, Outcome};
use dn_server::Answer;
use dn_wire::{Bytes, ClientId, Member, Round, ServerId};
use std::alloc::Global;
use std::marker::Brand;
use std::sync::ledger::{Blank, Ledger};
use std::thread::Threads;

/// What a server is called to do.
#[derive(Clone, Copy, Debug, PartialEq, Eq)]
pub enum Call {
    Open(Round),
    Tick,
    Close,
    Abandon,
}

/// What a server answers to a call.
fn answer_of<R: Threads + Sync>(
    rt: &R,
    core: &mut ServerCore,
    call: Call,
) -> Result<Answer, NoMemory>
    ensures answers { IfOk result (λ a. IsAnswerTo call core.old a core.new) }
    ensures rules { OnOk result (KeepsRules core.old core.new) }
{
    match call {
        Call::Open(r) => core.open_round(r),
        Call::Tick => core.tick(rt),
        Call::Close => core.close(rt),
        Call::Abandon => core.abandon(),
    }
}

/// Tells the auditor the ciphertext that a server made for its round, if it made one.
pub fn note_sum(auditor: &mut Auditor, core: &ServerCore, server: ServerId) -> Result<(), NoMemory>
    ensures { OnOk result (NotesSum server core.now.run.r core.now.run.sum auditor.old auditor.new) }
{
    match core.sum() {
        Some(sum) => auditor.add_sum(core.last_opened(), server, sum),
        None => Ok(()),
    }
}

/// Takes a server out of its place.
pub fn take_server(servers: &mut Vec<Option<ServerCore>>, server: ServerId) -> Option<ServerCore>
    ensures group { (roster : RosterView) → AreOfGroup roster servers.old.items
        → AreOfGroup roster servers.new.items × IfSome result (λ v. v.seat.roster ≡ roster) }
    ensures taken { result ≡ core_at servers.old.items server.0 }
    ensures left { servers.new.items ≡ slice_set servers.old.items server.0 None }
{
    servers.get_mut(server.0 as usize)?.take()
}

/// Puts a server into its place.
pub fn put_server(servers: &mut Vec<Option<ServerCore>>, server: ServerId, core: ServerCore)
    ensures group { (roster : RosterView) → AreOfGroup roster servers.old.items → core.seat.roster ≡ roster → AreOfGroup roster servers.new.items }
    ensures put { servers.new.items ≡ slice_set servers.old.items server.0 (Some core) }
{
    if let Some(place) = servers.get_mut(server.0 as usize) {
        *place = Some(core);
    }
}

/// Takes a client out of its place.
pub fn take_client(clients: &mut Vec<Option<Client>>, client: ClientId) -> Option<Client>
    ensures taken { result ≡ core_at clients.old.items client.0 }
    ensures left { clients.new.items ≡ slice_set clients.old.items client.0 None }
{
    clients.get_mut(client.0 as usize)?.take()
}

/// Puts a client into its place.
pub fn put_client(clients: &mut Vec<Option<Client>>, client: ClientId, core: Client)
    ensures { clients.new.items ≡ slice_set clients.old.items client.0 (Some core) }
{
    if let Some(place) = clients.get_mut(client.0 as usize) {
        *place = Some(core);
    }
}

/// A server is called, and what it answers is carried out.
pub fn call_server<R: Threads + Sync>(
    rt: &R,
    state: &mut State,
    server: ServerId,
    call: Call,
    outcomes: &mut Vec<Outcome>,
) -> Result<(), NoMemory>
    ensures roster { state.new.roster ≡ state.old.roster }
    ensures calls { OnOk result ((lines : List OutcomeOf) × CallsServer call server state.old state.new lines × (outcomes.new.items ≡ outcomes.old.items ++ lines)) }
{
    let Some(mut core) = take_server(&mut state.servers, server) else {
        return Ok(());
    };
    let answer = answer_of(rt, &mut core, call)?;
    note_sum(&mut state.auditor, &core, server)?;
    let last = core.last_opened();
    put_server(&mut state.servers, server, core);
    act_on(state, server, last, &answer, outcomes)
}

/// A unit of time passes at each honest server, by number.
pub fn tick<R: Threads + Sync>(
    rt: &R,
    state: &mut State,
    outcomes: &mut Vec<Outcome>,
) -> Result<(), NoMemory>
    ensures roster { state.new.roster ≡ state.old.roster }
    ensures ticks { OnOk result ((lines : List OutcomeOf) × TicksAll state.old state.new lines × (outcomes.new.items ≡ outcomes.old.items ++ lines)) }
{
    for j in 0..state.payloads.roster().servers() {
        call_server(rt, state, ServerId(j), Call::Tick, outcomes)?;
    }
    Ok(())
}

/// The bytes of a plain payload.
pub fn plain_bytes(alloc: Global, envelope: Vec<u8>) -> Result<Vec<u8>, NoMemory>
    ensures { IfOk result (λ v. v.items ≡ payload_bytes (payloads.Plain envelope.items)) }
{
    let envelope = Bytes::of(envelope);
    encode_payload(alloc, &Payload::Plain { envelope })
}

/// All servers, by number.
pub fn members_of(alloc: Global, servers: u32) -> Result<Vec<Member>, NoMemory>
    ensures { IfOk result (λ v. v.items ≡ map server_member (below servers)) }
{
    let mut members = Vec::new(alloc);
    for j in 0..servers {
        members.push(Member::Server(ServerId(j)))?;
    }
    Ok(members)
}

/// A client puts an envelope to every server.
pub fn put_to_servers(
    state: &mut State,
    client: ClientId,
    envelope: Vec<u8>,
    outcomes: &mut Vec<Outcome>,
) -> Result<(), NoMemory>
    ensures roster { state.new.roster ≡ state.old.roster }
    ensures puts { OnOk result ((lines : List OutcomeOf) × PutsToServers client envelope.items state.old state.new lines × (outcomes.new.items ≡ outcomes.old.items ++ lines)) }
{
    let bytes = plain_bytes(state.alloc, envelope)?;
    let to = members_of(state.alloc, state.payloads.roster().servers())?;
    let sender = Sender {
        member: Member::Client(client),
        is_own: true,
    };
    put(state, sender, &to, &bytes, outcomes)
}

/// The line for a word, or want of memory for none.
pub fn ignore(word: Option<IgnoredWord>, outcomes: &mut Vec<Outcome>) -> Result<(), NoMemory>
    ensures { OnOk result ((why : WordOf) × (word ≡ Some why) × (outcomes.new.items ≡ outcomes.old.items ++ OutcomeOf.Ignored why ∷ [])) }
{
    match word {
        Some(word) => {
            outcomes.push(Outcome::Ignored(word))?;
            Ok(())
        }
        None => Err(NoMemory),
    }
}

/// The bytes of a submission's payload.
fn submission_bytes(alloc: Global, submission: Submission) -> Result<Vec<u8>, NoMemory>
    requires { length submission.cipher ≤ MAX_BITS }
    ensures { IfOk result (λ v. v.items ≡ payload_bytes (payloads.Submission submission.cipher submission.envelope)) }
{
    let Submission { envelope, cipher } = submission;
    encode_payload(alloc, &Payload::Submission { cipher, envelope })
}

/// What an honest client's core answers where it is to submit for a round; none where the client is corrupt or out of range.
fn submission_of(
    clients: &mut Vec<Option<Client>>,
    client: ClientId,
    r: Round,
) -> Option<Result<Submission, SubmitFault>>
    requires { r.0 ≢ 0 }
    ensures { MatchOption result (HasNone clients.old.items clients.new.items client.0)
        (λ given. Turns clients.old.items clients.new.items client.0 (λ before after. GivesSubmission r before given after)) }
{
    let Some(mut core) = take_client(clients, client) else {
        return None;
    };
    let given = core.submission(r);
    put_client(clients, client, core);
    Some(given)
}

/// A client puts a submission to a server.
fn put_submission(
    state: &mut State,
    client: ClientId,
    server: ServerId,
    submission: Submission,
    outcomes: &mut Vec<Outcome>,
) -> Result<(), NoMemory>
    requires { length submission.cipher ≤ MAX_BITS }
    ensures roster { state.new.roster ≡ state.old.roster }
    ensures puts { OnOk result ((lines : List OutcomeOf) × PutsSubmission client server submission state.old state.new lines × (outcomes.new.items ≡ outcomes.old.items ++ lines)) }
{
    let bytes = submission_bytes(state.alloc, submission)?;
    let sender = Sender {
        member: Member::Client(client),
        is_own: true,
    };
    put(state, sender, &[Member::Server(server)], &bytes, outcomes)
}

/// A client's submission of a round is put to a server.
pub fn submit(
    state: &mut State,
    client: ClientId,
    server: ServerId,
    r: Round,
    outcomes: &mut Vec<Outcome>,
) -> Result<(), NoMemory>
    requires { r.0 ≢ 0 }
    ensures roster { state.new.roster ≡ state.old.roster }
    ensures submits { OnOk result ((lines : List OutcomeOf) × Submits client server r state.old state.new lines × (outcomes.new.items ≡ outcomes.old.items ++ lines)) }
{
    let Some(given) = submission_of(&mut state.clients, client, r) else {
        return Ok(());
    };
    match given {
        Ok(submission) => put_submission(state, client, server, submission, outcomes),
        Err(fault) => ignore(submit_word(fault), outcomes),
    }
}

/// What an honest client's core answers where it is to accuse at a place; none where the client is corrupt or out of range.
fn accusation_of(
    clients: &mut Vec<Option<Client>>,
    client: ClientId,
    r: Round,
    k: u32,
) -> Option<Result<Vec<u8>, AccuseFault>>
    ensures { MatchOption result (HasNone clients.old.items clients.new.items client.0)
        (λ given. Turns clients.old.items clients.new.items client.0 (λ before after. GivesAccusation r k before given after)) }
{
    let Some(mut core) = take_client(clients, client) else {
        return None;
    };
    let given = core.accuse(r, k);
    put_client(clients, client, core);
    Some(given)
}

/// A client's accusation is put to every server.
pub fn accuse(
    state: &mut State,
    client: ClientId,
    r: Round,
    k: u32,
    outcomes: &mut Vec<Outcome>,
) -> Result<(), NoMemory>
    ensures roster { state.new.roster ≡ state.old.roster }
    ensures accuses { OnOk result ((lines : List OutcomeOf) × AccusesAt client r k state.old state.new lines × (outcomes.new.items ≡ outcomes.old.items ++ lines)) }
{
    let Some(given) = accusation_of(&mut state.clients, client, r, k) else {
        return Ok(());
    };
    match given {
        Ok(envelope) => put_to_servers(state, client, envelope, outcomes),
        Err(fault) => ignore(accuse_word(fault), outcomes),
    }
}

/// A text joins an honest client's queue, if there is such a client.
fn say_to(clients: &mut Vec<Option<Client>>, client: ClientId, text: &[u8]) -> Result<(), NoMemory>
    requires { length text.now ≤ MAX_TEXT }
    ensures { OnOk result (HasNone clients.old.items clients.new.items client.0
        ⊎ Turns clients.old.items clients.new.items client.0 (λ before after. after ≡ with_text before text.now)) }
{
    let Some(mut core) = take_client(clients, client) else {
        return Ok(());
    };
    let said = core.say(text);
    put_client(clients, client, core);
    said
}

/// A text joins a client's queue.
pub fn say(state: &mut State, client: ClientId, text: &[u8]) -> Result<(), NoMemory>
    requires { length text.now ≤ MAX_TEXT }
    ensures roster { state.new.roster ≡ state.old.roster }
    ensures says { OnOk result (SaysText client text.now state.old state.new []) }
{
    say_to(&mut state.clients, client, text)
}

/// Takes all messages of a member out of flight, and tells how many.
fn drop_from<L: Ledger>(flight: &mut Flight, member: Member, blank: Blank) -> u32
    requires { (blank.name ≡ L.name) × (blank.parts ≡ L.parts) × (0 < L.parts) }
    ensures left { flight.new ≡ without_from member flight.old }
    ensures count { result ≡ count_by (is_from member) flight.old.msgs }
{
    let mut steps: Steps<L> = Steps::none(blank);
    flight.drop_from(member, &mut steps)
}

/// An honest client's core leaves, if there is such a client.
fn leave_core(clients: &mut Vec<Option<Client>>, client: ClientId)
    ensures { clients.new.items ≡ left_in clients.old.items client.0 (core_at clients.old.items client.0) }
{
    let Some(mut core) = take_client(clients, client) else {
        return;
    };
    core.leave();
    put_client(clients, client, core);
}

/// Notes that a client has left.
fn note_left(left: &mut Vec<bool>, client: ClientId)
    ensures { left.new.items ≡ slice_set left.old.items client.0 true }
{
    if let Some(flag) = left.get_mut(client.0 as usize) {
        *flag = true;
    }
}

/// A client leaves, and its messages in flight are dropped.
pub fn leave(
    state: &mut State,
    client: ClientId,
    outcomes: &mut Vec<Outcome>,
) -> Result<(), NoMemory>
    ensures roster { state.new.roster ≡ state.old.roster }
    ensures leaves { OnOk result ((lines : List OutcomeOf) × Leaves client state.old state.new lines × (outcomes.new.items ≡ outcomes.old.items ++ lines)) }
{
    leave_core(&mut state.clients, client);
    note_left(&mut state.left, client);
    let member = Member::Client(client);
    let count = drop_from::<Brand>(&mut state.flight, member, Blank::new(1));
    outcomes.push(Outcome::Dropped { count })?;
    Ok(())
}
