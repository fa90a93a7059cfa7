ghost use Rattle.std.specs.Prelude.{◌≡◌, ◌≢◌, ◌<◌, ◌^◌, ◌↔◌, ◌++◌, ◌&&◌, not, ℕ, false, [], List, None, All, map, length, slice_index_or, IfOk, OnOk, IsTrue};
ghost use Rattle.dn_bits.specs.Bits.{below};
ghost use Rattle.dn_layout.specs.Layout.{bits_of};
ghost use Rattle.dn_record_types.specs.declared.statement.Statement.{Statement};
ghost use Rattle.dn_wire.specs.declared.ids.SignerId.{SignerId};
ghost use Rattle.dn_seal.specs.Said.{IsUnder};
ghost use Rattle.dn_cert.specs.Evidence.{IsValid};
ghost use Rattle.dn_trace.specs.Trial.{CanJudge, servers_of};
ghost use Rattle.dn_trace.specs.Reasons.{HasFalseEntry, ShowsWrong};
ghost use Rattle.dn_trace.specs.Challenged.{IsOpened};
ghost use Rattle.dn_trace.specs.Evidence.{AreCarried, Tells};
ghost use Rattle.dn_trace.specs.Tables.{AreOwn, clients_of, server_fault_of, client_fault_of, blames_from, members_from, a_server, a_client};
ghost use Rattle.dn_trace.specs.Verdict.{IsVerdict};

use crate::answers::heard_answers;
use crate::blames::Blames;
use crate::carried::carried;
use crate::case::Case;
use crate::challenging::challenged;
use crate::doubles::double_submitters;
use crate::entries::heard_entries;
use crate::fault::Fault;
use crate::openings::opening_of;
use crate::own_faults::{has_false_output, own_fault};
use crate::showing::shows_wrong;
use dn_cert::{Rules, Valid};
use dn_layout::Layout;
use dn_memory::NoMemory;
use dn_records::Body;
use dn_roster::Roster;
use dn_seal::Said;
use dn_wire::{ClientId, Member, MemberList, ServerId};
use std::alloc::Global;

/// Who is blamed, each with the first reason, and who is silent. Both lists have servers first, then clients, each by number.
#[derive(Drop)]
pub struct Verdict {
    pub blamed: Blames,
    pub silent: MemberList,
}

/// Of each server, whether it shows wrong.
fn wrong_showers(alloc: Global, case: &Case) -> Result<Vec<bool>, NoMemory>
    ensures { IfOk result (λ v. Tells v.items (servers_of case.now) (ShowsWrong case.now)) }
{
    let mut flags = Vec::new(alloc);
    for j in 0..case.servers() {
        flags.push(shows_wrong(alloc, case, ServerId(j))?)?;
    }
    Ok(flags)
}

/// Of each server, the first of its faults that its own statements show.
fn own_faults<'a>(
    alloc: Global,
    case: &Case<'a>,
    carried: &'a [Said],
    enter_false: &[bool],
    show_wrong: &[bool],
) -> Result<Vec<Option<Fault>>, NoMemory>
    requires carried { AreCarried case.now carried.now }
    requires entries { Tells enter_false.now (servers_of case.now) (HasFalseEntry case.now) }
    requires shown { Tells show_wrong.now (servers_of case.now) (ShowsWrong case.now) }
    ensures { IfOk result (λ v. AreOwn case.now v.items) }
{
    let mut faults = Vec::new(alloc);
    for j in 0..case.servers() {
        let at = j as usize;
        let opening = opening_of(case, carried, ServerId(j));
        let fault = own_fault(
            alloc,
            case,
            carried,
            ServerId(j),
            enter_false[at],
            show_wrong[at],
            opening.as_ref(),
        )?;
        faults.push(fault)?;
    }
    Ok(faults)
}

/// Whether some server has a fault of its own.
fn names_one(own: &[Option<Fault>]) -> bool
    ensures { IsTrue result ↔ ((j : ℕ) × (j < length own.now) × (slice_index_or own.now j None ≢ None)) }
{
    for fault in own {
        if fault.is_some() {
            return true;
        }
    }
    false
}

/// The first fault of a server, from the first of its own, and from what rebuttals and the output show.
fn server_fault(own: Option<Fault>, is_rebutted: bool, false_output: bool) -> Option<Fault>
    ensures { result ≡ server_fault_of own is_rebutted false_output }
{
    match own {
        Some(fault) => Some(fault),
        None => {
            if is_rebutted {
                Some(Fault::Pad)
            } else if false_output {
                Some(Fault::Output)
            } else {
                None
            }
        }
    }
}

/// Of each server, its first fault.
fn server_faults(
    alloc: Global,
    own: &[Option<Fault>],
    is_rebutted: &[bool],
    false_output: bool,
) -> Result<Vec<Option<Fault>>, NoMemory>
    requires { length own.now ≡ length is_rebutted.now }
    ensures { IfOk result (λ v. v.items ≡ map (λ j. server_fault_of (slice_index_or own.now j None) (slice_index_or is_rebutted.now j false) false_output) (below (length own.now))) }
{
    let mut faults = Vec::new(alloc);
    for j in 0..own.len() {
        faults.push(server_fault(own[j], is_rebutted[j], false_output))?;
    }
    Ok(faults)
}

/// The first fault of a client.
fn client_fault(
    is_double: bool,
    is_challenged: bool,
    rebuts_badly: bool,
    concedes: bool,
) -> Option<Fault>
    ensures { result ≡ client_fault_of is_double is_challenged rebuts_badly concedes }
{
    if is_double {
        Some(Fault::Double)
    } else if is_challenged && rebuts_badly {
        Some(Fault::Rebuttal)
    } else if is_challenged && concedes {
        Some(Fault::Conceded)
    } else {
        None
    }
}

/// Of each client, its first fault.
fn client_faults(
    alloc: Global,
    is_double: &[bool],
    is_challenged: &[bool],
    rebuts_badly: &[bool],
    concedes: &[bool],
) -> Result<Vec<Option<Fault>>, NoMemory>
    requires challenged { length is_challenged.now ≡ length is_double.now }
    requires rebuts { length rebuts_badly.now ≡ length is_double.now }
    requires concedes { length concedes.now ≡ length is_double.now }
    ensures { IfOk result (λ v. v.items ≡ map (λ i. client_fault_of (slice_index_or is_double.now i false) (slice_index_or is_challenged.now i false) (slice_index_or rebuts_badly.now i false) (slice_index_or concedes.now i false)) (below (length is_double.now))) }
{
    let mut faults = Vec::new(alloc);
    for i in 0..is_double.len() {
        faults.push(client_fault(is_double[i], is_challenged[i], rebuts_badly[i], concedes[i]))?;
    }
    Ok(faults)
}

/// Of each server, whether it lacks an opening.
fn closed_servers<'a>(
    alloc: Global,
    case: &Case<'a>,
    carried: &'a [Said],
) -> Result<Vec<bool>, NoMemory>
    requires { AreCarried case.now carried.now }
    ensures { IfOk result (λ v. Tells v.items (servers_of case.now) (λ j. ¬ IsOpened case.now j)) }
{
    let mut flags = Vec::new(alloc);
    for j in 0..case.servers() {
        let is_closed = match opening_of(case, carried, ServerId(j)) {
            Some(_) => false,
            None => true,
        };
        flags.push(is_closed)?;
    }
    Ok(flags)
}

/// Of each client, whether it is challenged and doesn't answer, where no server is blamed.
fn silent_clients(
    alloc: Global,
    is_challenged: &[bool],
    answers: &[bool],
    is_blamed: bool,
) -> Result<Vec<bool>, NoMemory>
    requires { length answers.now ≡ length is_challenged.now }
    ensures { IfOk result (λ v. v.items ≡ map (λ i. not is_blamed && slice_index_or is_challenged.now i false && not (slice_index_or answers.now i false)) (below (length is_challenged.now))) }
{
    let mut flags = Vec::new(alloc);
    for i in 0..is_challenged.len() {
        flags.push(!is_blamed && is_challenged[i] && !answers[i])?;
    }
    Ok(flags)
}

/// Adds the servers with a fault.
fn blame_servers(
    faults: &[Option<Fault>],
    blamed: &mut Vec<(Member, Fault)>,
) -> Result<(), NoMemory>
    requires { length faults.now < 2 ^ 32 }
    ensures { OnOk result (blamed.new.items ≡ blamed.old.items ++ blames_from a_server 0 faults.now) }
{
    for j in 0..faults.len() {
        if let Some(fault) = faults[j] {
            blamed.push((Member::Server(ServerId(j as u32)), fault))?;
        }
    }
    Ok(())
}

/// Adds the clients with a fault.
fn blame_clients(
    faults: &[Option<Fault>],
    blamed: &mut Vec<(Member, Fault)>,
) -> Result<(), NoMemory>
    requires { length faults.now < 2 ^ 32 }
    ensures { OnOk result (blamed.new.items ≡ blamed.old.items ++ blames_from a_client 0 faults.now) }
{
    for i in 0..faults.len() {
        if let Some(fault) = faults[i] {
            blamed.push((Member::Client(ClientId(i as u32)), fault))?;
        }
    }
    Ok(())
}

/// Adds the servers whose flag is set.
fn list_servers(flags: &[bool], list: &mut Vec<Member>) -> Result<(), NoMemory>
    requires { length flags.now < 2 ^ 32 }
    ensures { OnOk result (list.new.items ≡ list.old.items ++ members_from a_server 0 flags.now) }
{
    for j in 0..flags.len() {
        if flags[j] {
            list.push(Member::Server(ServerId(j as u32)))?;
        }
    }
    Ok(())
}

/// Adds the clients whose flag is set.
fn list_clients(flags: &[bool], list: &mut Vec<Member>) -> Result<(), NoMemory>
    requires { length flags.now < 2 ^ 32 }
    ensures { OnOk result (list.new.items ≡ list.old.items ++ members_from a_client 0 flags.now) }
{
    for i in 0..flags.len() {
        if flags[i] {
            list.push(Member::Client(ClientId(i as u32)))?;
        }
    }
    Ok(())
}

/// The verdict, from what was found of each member.
fn verdict_of(
    alloc: Global,
    servers: &[Option<Fault>],
    clients: &[Option<Fault>],
    closed: &[bool],
    unanswering: &[bool],
) -> Result<Verdict, NoMemory>
    requires servers { length servers.now < 2 ^ 32 }
    requires clients { length clients.now < 2 ^ 32 }
    requires closed { length closed.now < 2 ^ 32 }
    requires unanswering { length unanswering.now < 2 ^ 32 }
    ensures { IfOk result (λ v. (v.blamed ≡ blames_from a_server 0 servers.now ++ blames_from a_client 0 clients.now) × (v.silent ≡ members_from a_server 0 closed.now ++ members_from a_client 0 unanswering.now)) }
{
    let mut blamed = Vec::new(alloc);
    blame_servers(servers, &mut blamed)?;
    blame_clients(clients, &mut blamed)?;
    let mut silent = Vec::new(alloc);
    list_servers(closed, &mut silent)?;
    list_clients(unanswering, &mut silent)?;
    Ok(Verdict {
        blamed: Blames::of(blamed),
        silent: MemberList::of(silent),
    })
}

/// The verdict on a case.
fn verdict_on<'a, R: Rules>(
    alloc: Global,
    rules: &R,
    case: &Case<'a>,
    carried: &'a [Said],
) -> Result<Verdict, NoMemory>
    requires can { CanJudge case.now }
    requires small { (servers_of case.now < 2 ^ 32) × (clients_of case.now < 2 ^ 32) }
    requires carried { AreCarried case.now carried.now }
    ensures { IfOk result (λ v. IsVerdict case.now v.blamed v.silent) }
{
    let entries = heard_entries(alloc, case)?;
    let is_double = double_submitters(alloc, case, &entries.submitted)?;
    let answers = heard_answers(alloc, rules, case)?;
    let show_wrong = wrong_showers(alloc, case)?;
    let own = own_faults(alloc, case, carried, &entries.is_false, &show_wrong)?;
    let false_output = has_false_output(alloc, case, &show_wrong)?;
    let names = false_output || names_one(&own);
    let is_challenged = challenged(alloc, case, carried, names)?;
    let servers = server_faults(alloc, &own, &answers.is_rebutted, false_output)?;
    let clients = client_faults(
        alloc,
        &is_double,
        &is_challenged,
        &answers.rebuts_badly,
        &answers.concedes,
    )?;
    let closed = closed_servers(alloc, case, carried)?;
    let is_blamed = names_one(&servers);
    let unanswering = silent_clients(alloc, &is_challenged, &answers.answers, is_blamed)?;
    verdict_of(alloc, &servers, &clients, &closed, &unanswering)
}

/// Who is to blame for a 1 at the place of an accusation that holds, on what was said: the envelopes that servers put, and those of clients
/// and slots that reached a server, in the order in which they were heard. `layout` is the one after the body's prev.
pub fn judge<R: Rules>(
    alloc: Global,
    rules: &R,
    roster: &Roster,
    body: &Body,
    layout: &Layout,
    v: &Valid,
    heard: &[Said],
) -> Result<Verdict, NoMemory>
    requires round { v.now.r ≡ body.now.r }
    requires place { v.now.k < bits_of layout.now }
    requires digests { length body.now.digests ≡ length roster.now.servers }
    requires listed { All (λ l. (l.client.0 < length roster.now.clients) × (l.server.0 < length roster.now.servers)) body.now.listed }
    requires under { All (IsUnder roster.now) heard.now }
    ensures verdict { IfOk result (λ verdict. IsVerdict record { roster = roster.now; body = body.now; layout = layout.now; k = v.now.k; given = heard.now } verdict.blamed verdict.silent) }
    // Where the accusation holds and nobody is silent, somebody is blamed.
    ensures somebody { IfOk result (λ verdict. (who : SignerId) → (s : Statement) → IsValid layout.now body.now who s v.now → verdict.silent ≡ [] → verdict.blamed ≢ []) }
{
    let servers = roster.servers();
    prove!(servers > 0);
    let case = Case::new(roster, body, layout, v.k, heard);
    let carried = carried(alloc, &case)?;
    verdict_on(alloc, rules, &case, &carried)
}
