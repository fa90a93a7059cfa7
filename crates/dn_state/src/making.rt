// A world as it is made.
ghost use Rattle.std.specs.Prelude.{◌≡◌, ◌<◌, ◌≤◌, ◌++◌, IfOk, OnOk};
ghost use Rattle.dn_wire.specs.declared.ids.Member.{Member as MemberOf};
ghost use Rattle.dn_audit.specs.Group.{is_corrupt};
ghost use Rattle.dn_audit.specs.Auditor.{AddsStrings};
ghost use Rattle.dn_state.specs.Sound.{AreOfGroup, IsOfRoster};
ghost use Rattle.dn_state.specs.Beginning.{Begins, IsClientPlace, AreClients, IsFirstAuditor, server_place, first_servers, seeds_of};

use crate::state::State;
use dn_audit::{Auditor, Group};
use dn_cert::Chain;
use dn_client::Client;
use dn_exchange::ServerCore;
use dn_flight::Flight;
use dn_memory::NoMemory;
use dn_payloads::Payloads;
use dn_roster::{GroupSpec, pair_seed};
use dn_seal::Dealt;
use dn_wire::{ClientId, Member, ServerId};
use std::alloc::Global;
use std::collections::{BTreeMap, BTreeSet};

/// The core of a client; none where it is corrupt.
fn honest_client(
    alloc: Global,
    dealt: &Dealt,
    group: &Group,
    client: ClientId,
) -> Result<Option<Client>, NoMemory>
    requires within { client.0 < dealt.now.spec.clients }
    ensures { IfOk result (IsClientPlace dealt.now.spec dealt.now.roster client (is_corrupt group.now (MemberOf.Client client))) }
{
    if group.is_corrupt(Member::Client(client)) {
        return Ok(None);
    }
    Ok(Some(Client::make(alloc, dealt, client)?))
}

/// The cores of the clients that aren't corrupt.
fn honest_clients(
    alloc: Global,
    dealt: &Dealt,
    group: &Group,
) -> Result<Vec<Option<Client>>, NoMemory>
    ensures { IfOk result (λ v. AreClients dealt.now.spec dealt.now.roster group.now v.items dealt.now.spec.clients) }
{
    let mut clients = Vec::new(alloc);
    for i in 0..dealt.spec.clients {
        clients.push(honest_client(alloc, dealt, group, ClientId(i))?)?;
    }
    Ok(clients)
}

/// The core of a server; none where it is corrupt.
fn honest_server(
    alloc: Global,
    dealt: &Dealt,
    group: &Group,
    server: ServerId,
    workers: u32,
) -> Result<Option<ServerCore>, NoMemory>
    requires within { server.0 < dealt.now.spec.servers }
    requires some { 1 ≤ workers }
    requires few { workers ≤ 16 }
    ensures roster { IfOk result (IsOfRoster dealt.now.roster) }
    ensures place { IfOk result (λ core. core ≡ server_place dealt.now.spec dealt.now.roster workers server.0 (is_corrupt group.now (MemberOf.Server server))) }
{
    if group.is_corrupt(Member::Server(server)) {
        return Ok(None);
    }
    Ok(Some(ServerCore::make(alloc, dealt, server, workers)?))
}

/// The cores of the servers that aren't corrupt.
fn honest_servers(
    alloc: Global,
    dealt: &Dealt,
    group: &Group,
    workers: u32,
) -> Result<Vec<Option<ServerCore>>, NoMemory>
    requires some { 1 ≤ workers }
    requires few { workers ≤ 16 }
    ensures group { IfOk result (λ v. AreOfGroup dealt.now.roster v.items) }
    ensures first { IfOk result (λ v. v.items ≡ first_servers dealt.now.spec dealt.now.roster workers group.now dealt.now.spec.servers) }
{
    let mut servers = Vec::new(alloc);
    for j in 0..dealt.spec.servers {
        servers.push(honest_server(alloc, dealt, group, ServerId(j), workers)?)?;
    }
    Ok(servers)
}

/// Tells the audit the seeds that were dealt to a client, by server.
fn add_seeds(auditor: &mut Auditor, spec: &GroupSpec, client: ClientId) -> Result<(), NoMemory>
    ensures { OnOk result (AddsStrings auditor.old auditor.new (λ x. record x { seeds = x.seeds ++ seeds_of spec.now client.0 })) }
{
    for j in 0..spec.servers {
        let server = ServerId(j);
        auditor.add_seed(client, server, &pair_seed(spec, client, server))?;
    }
    Ok(())
}

/// The audit before anything is put: it knows the seeds that were dealt.
fn auditor_of(alloc: Global, spec: &GroupSpec) -> Result<Auditor, NoMemory>
    ensures { IfOk result (IsFirstAuditor spec.now) }
{
    let mut auditor = Auditor::make(alloc);
    for i in 0..spec.clients {
        add_seeds(&mut auditor, spec, ClientId(i))?;
    }
    Ok(auditor)
}

impl State {
    /// A dealt group with these corrupt members, in which nothing has happened. Its servers' sums have so many workers.
    pub fn make(
        alloc: Global,
        dealt: &Dealt,
        corrupt: &[Member],
        workers: u32,
    ) -> Result<State, NoMemory>
        requires some { 1 ≤ workers }
        requires few { workers ≤ 16 }
        ensures roster { IfOk result (λ s. s.roster ≡ dealt.now.roster) }
        ensures begins { IfOk result (Begins dealt.now.spec dealt.now.roster dealt.now.owners.items corrupt.now workers) }
    {
        let clients = dealt.spec.clients;
        let group = Group::make(alloc, &dealt.owners, clients, dealt.spec.servers, corrupt)?;
        Ok(State {
            alloc,
            clients: honest_clients(alloc, dealt, &group)?,
            servers: honest_servers(alloc, dealt, &group, workers)?,
            group,
            left: vec![in alloc; false; clients as usize]?,
            payloads: Payloads::make(alloc, dealt.roster.copy(alloc)?),
            flight: Flight::make(alloc)?,
            chain: Chain::make(alloc, clients)?,
            told: BTreeSet::new(alloc),
            heard: Vec::new(alloc),
            delivered: BTreeSet::new(alloc),
            accused: BTreeMap::new(alloc),
            auditor: auditor_of(alloc, &dealt.spec)?,
        })
    }
}
