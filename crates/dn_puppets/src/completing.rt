// A certificate that a corrupt server puts together of the signatures that were put.
ghost use Rattle.std.specs.Prelude.{◌≡◌, ◌≤◌, ◌<◌, ◌^◌, ◌==◌, ◌++◌, not, map, filter, length, IfOk, IfSome};
ghost use Rattle.dn_bits.specs.Bits.{below};
ghost use Rattle.dn_server.specs.Server.{client_member, server_member};
ghost use Rattle.dn_puppets.specs.Carried.{CanStand, AreShort};

use crate::watch::Shown;
use dn_cert::Opened;
use dn_memory::NoMemory;
use dn_records::{Body, ByteLists, Payload, Statement, encode_payload};
use dn_seal::Said;
use dn_server::other_servers;
use dn_wire::{Bytes, ClientId, Member, ServerId};
use dn_world::World;
use std::alloc::Global;

/// The payloads in which servers signed one body, by server.
#[derive(Drop)]
struct Gathered {
    /// The first payload.
    first: u64,
    payloads: Vec<Option<u64>>,
    count: u32,
}

/// What a plain payload says.
fn said_in(world: &World, payload: u64) -> Option<&Said> {
    match world.opened(payload)? {
        Opened::Plain { said } => Some(said),
        _ => None,
    }
}

/// The body that was signed in a payload.
fn body_in(world: &World, payload: u64) -> Option<&Body>
    ensures { IfSome result (λ b. CanStand b.now) }
{
    match said_in(world, payload)?.statement() {
        Statement::Sign(body) => Some(body),
        _ => None,
    }
}

/// Whether two payloads have signatures of one body.
fn have_one_body(world: &World, payload: u64, other: u64) -> bool {
    match (body_in(world, payload), body_in(world, other)) {
        (Some(body), Some(same)) => body.equals(same),
        _ => false,
    }
}

/// The place of a payload's body among those that have signatures; their number where it has none.
fn place_of(world: &World, gathered: &[Gathered], payload: u64) -> usize
    ensures { result ≤ length gathered.now }
{
    for (i, each) in gathered.iter().enumerate() {
        if have_one_body(world, each.first, payload) {
            return i;
        }
    }
    gathered.len()
}

/// Notes a server's first signature of a body, and tells whether all servers' are there.
fn note(gathered: &mut Gathered, shown: Shown) -> bool {
    if let Some(place) = gathered.payloads.get_mut(shown.server.0 as usize) {
        if place.is_none() {
            *place = Some(shown.payload);
            gathered.count = gathered.count.saturating_add(1);
        }
    }
    gathered.count as usize == gathered.payloads.len()
}

/// The payloads in which every server signed one body: the body whose signatures were whole first.
fn whole(
    alloc: Global,
    world: &World,
    servers: u32,
    signs: &[Shown],
) -> Result<Option<Vec<Option<u64>>>, NoMemory> {
    let mut gathered: Vec<Gathered> = Vec::new(alloc);
    for shown in signs {
        let place = place_of(world, &gathered, shown.payload);
        if place == gathered.len() {
            gathered.push(Gathered {
                first: shown.payload,
                payloads: vec![in alloc; None; servers as usize]?,
                count: 0,
            })?;
        }
        if let Some(each) = gathered.get_mut(place) {
            if note(each, *shown) {
                return Ok(Some(Vec::from_slice(alloc, &each.payloads)?));
            }
        }
    }
    Ok(None)
}

/// The signature in a plain payload.
fn signature_in(alloc: Global, world: &World, payload: u64) -> Result<Option<Bytes>, NoMemory>
    ensures { IfOk result (λ o. IfSome o (λ s. length s < 2 ^ 16)) }
{
    match said_in(world, payload) {
        Some(said) => Ok(Some(Bytes::of(Vec::from_slice(alloc, said.signature())?))),
        None => Ok(None),
    }
}

/// The signatures in the payloads of so many servers, by server.
fn signatures_in(
    alloc: Global,
    world: &World,
    payloads: &[Option<u64>],
    servers: u32,
) -> Result<Vec<Bytes>, NoMemory>
    ensures short { IfOk result (λ v. AreShort v.items) }
    ensures few { IfOk result (λ v. length v.items ≤ servers) }
{
    let mut signatures = Vec::new(alloc);
    for j in 0..servers {
        if let Some(Some(payload)) = payloads.get(j as usize) {
            if let Some(signature) = signature_in(alloc, world, *payload)? {
                signatures.push(signature)?;
            }
        }
    }
    Ok(signatures)
}

/// The certificate of a round that the signatures that were put make, if they make one; it need not check.
pub fn certificate_of(
    alloc: Global,
    world: &World,
    servers: u32,
    signs: &[Shown],
) -> Result<Option<Vec<u8>>, NoMemory> {
    let Some(payloads) = whole(alloc, world, servers, signs)? else {
        return Ok(None);
    };
    let Some(Some(first)) = payloads.first() else {
        return Ok(None);
    };
    let Some(body) = body_in(world, *first) else {
        return Ok(None);
    };
    let body = body.copy(alloc)?;
    let signatures = ByteLists::of(signatures_in(alloc, world, &payloads, servers)?);
    let payload = Payload::Certificate { body, signatures };
    Ok(Some(encode_payload(alloc, &payload)?))
}

/// All clients and the other servers, each by number.
pub fn others(
    alloc: Global,
    server: ServerId,
    clients: u32,
    servers: u32,
) -> Result<Vec<Member>, NoMemory>
    ensures { IfOk result (λ v. v.items ≡ map client_member (below clients) ++ map server_member (filter (λ j. not (j == server.0)) (below servers))) }
{
    let mut members = Vec::new(alloc);
    for i in 0..clients {
        members.push(Member::Client(ClientId(i)))?;
    }
    let servers = other_servers(alloc, server, servers)?;
    members.extend_from_slice(servers.get())?;
    Ok(members)
}
