// The corrupt members in the order of their line.
ghost use Rattle.std.specs.Prelude.{◌≡◌, ◌++◌, IfOk, OnOk};
ghost use Rattle.std.specs.List.{list_any};
ghost use Rattle.dn_runner.specs.Play.{is_client, is_server, clients_among, in_order, servers_among};

use dn_memory::NoMemory;
use dn_roster::GroupSpec;
use dn_wire::{ClientId, Member, MemberList, ServerId};
use std::alloc::Global;

fn is_server(member: &Member, j: u32) -> bool
    ensures { result ≡ is_server j member.now }
{
    match member {
        Member::Server(server) => server.0 == j,
        Member::Client(_) => false,
    }
}

fn is_client(member: &Member, i: u32) -> bool
    ensures { result ≡ is_client i member.now }
{
    match member {
        Member::Client(client) => client.0 == i,
        Member::Server(_) => false,
    }
}

/// Whether server `j` is among these members.
fn has_server(named: &[Member], j: u32) -> bool
    ensures { result ≡ list_any (is_server j) named.now }
{
    named.iter().any(|member| is_server(member, j))
}

/// Whether client `i` is among these members.
fn has_client(named: &[Member], i: u32) -> bool
    ensures { result ≡ list_any (is_client i) named.now }
{
    named.iter().any(|member| is_client(member, i))
}

/// Adds the servers among these members, by number.
fn add_servers(named: &[Member], servers: u32, members: &mut Vec<Member>) -> Result<(), NoMemory>
    ensures { OnOk result (members.new.items ≡ members.old.items ++ servers_among named.now servers) }
{
    for j in 0..servers {
        if has_server(named, j) {
            members.push(Member::Server(ServerId(j)))?;
        }
    }
    Ok(())
}

/// Adds the clients among these members, by number.
fn add_clients(named: &[Member], clients: u32, members: &mut Vec<Member>) -> Result<(), NoMemory>
    ensures { OnOk result (members.new.items ≡ members.old.items ++ clients_among named.now clients) }
{
    for i in 0..clients {
        if has_client(named, i) {
            members.push(Member::Client(ClientId(i)))?;
        }
    }
    Ok(())
}

/// The corrupt members: servers first, each by number.
pub fn in_order(
    alloc: Global,
    group: &GroupSpec,
    corrupt: &[Member],
) -> Result<MemberList, NoMemory>
    ensures { IfOk result (λ list. list ≡ in_order group.now corrupt.now) }
{
    let mut members = Vec::new(alloc);
    add_servers(corrupt, group.servers, &mut members)?;
    add_clients(corrupt, group.clients, &mut members)?;
    Ok(MemberList::of(members))
}
