use dn_client::Client;
use dn_exchange::ServerCore;
use dn_roster::GroupSpec;
use dn_seal::{Dealt, deal};
use dn_wire::{ClientId, ServerId};
use played_rounds::{PlayFault, group};
use std::alloc::Global;

/// A dealt group of this version, with the shortest keys.
pub fn dealt(alloc: Global, version: u8, clients: u32, servers: u32) -> Result<Dealt, PlayFault> {
    let spec = group(clients, servers).ok_or(PlayFault::Unfit)?;
    if version != 1 && version != 2 {
        return Err(PlayFault::Unfit);
    }
    let spec = GroupSpec { version, ..spec };
    Ok(deal(alloc, &spec)?)
}

/// Server `j` of the group, whose sums have so many workers.
pub fn server(alloc: Global, dealt: &Dealt, j: u32, workers: u32) -> Result<ServerCore, PlayFault> {
    if dealt.spec.servers <= j || workers < 1 || 16 < workers {
        return Err(PlayFault::Unfit);
    }
    Ok(ServerCore::make(alloc, dealt, ServerId(j), workers)?)
}

/// The clients and the servers of a group.
#[derive(Drop)]
pub struct Members {
    pub clients: Vec<Client>,
    pub servers: Vec<ServerCore>,
}

pub fn members_of(alloc: Global, dealt: &Dealt) -> Result<Members, PlayFault> {
    let mut clients = Vec::new(alloc);
    for i in 0..dealt.spec.clients {
        clients.push(Client::make(alloc, dealt, ClientId(i))?)?;
    }
    let mut servers = Vec::new(alloc);
    for j in 0..dealt.spec.servers {
        servers.push(server(alloc, dealt, j, 1)?)?;
    }
    Ok(Members { clients, servers })
}
