// A challenge that a corrupt server makes to have a client show a seed.
ghost use Rattle.std.specs.Prelude.{◌≡◌, ◌≤◌, ◌↔◌, IsTrue, IfOk, IfSome, length};
ghost use Rattle.dn_wire.specs.declared.limits.TheConstants.{MAX_BITS, MAX_SERVERS};
ghost use Rattle.dn_records.specs.Records.{payload_bytes};
ghost use Rattle.dn_record_types.specs.declared.payload.Payload.TheVariants as payloads;
ghost use Rattle.dn_puppets.specs.Statements.{IsSignable};
ghost use Rattle.dn_puppets.specs.Carried.{AreTellable};
ghost use Rattle.dn_puppets.specs.Lures.{shared_bit, lured_in};

use crate::statements::pad_bits;
use dn_bits::Bits;
use dn_memory::NoMemory;
use dn_pads::{Seed, pad_bit};
use dn_records::{ByteLists, Listed, Payload, Statement, encode_payload};
use dn_roster::Roster;
use dn_server::Place;
use dn_wire::{Bytes, ClientId, ServerId};
use std::alloc::Global;

/// Whether the pad of a client and a server of so many has 1 at a place.
fn is_padded(seeds: &[Seed], servers: u32, client: ClientId, server: ServerId, place: Place) -> bool
    ensures { result ≡ shared_bit seeds.now servers client.0 server.0 place }
{
    let pair = u64::from(client.0) * u64::from(servers) + u64::from(server.0);
    let pair = pair as usize;
    pair < seeds.len() && pad_bit(&seeds[pair], place.r, place.k)
}

/// The bits, with that of a client turned.
fn turned_for(mut bits: Bits, client: Option<ClientId>) -> Bits
    ensures { result ≡ lured_in client bits }
{
    let Some(client) = client else {
        return bits;
    };
    if client.0 < bits.len() {
        bits.flip(client.0);
    }
    bits
}

/// The bits of a server's pads at a place: the true one of each client that the rows list, and 0 of the others.
fn true_bits(
    alloc: Global,
    seeds: &[Seed],
    roster: &Roster,
    server: ServerId,
    rows: &[Listed],
    place: Place,
) -> Result<Bits, NoMemory>
    ensures few { IfOk result (λ b. length b ≤ MAX_BITS) }
    ensures long { IfOk result (λ b. length b ≡ length roster.now.clients) }
{
    let servers = roster.servers();
    let mut bits = Bits::zeros(alloc, roster.clients())?;
    for row in rows {
        let client = row.client;
        let is_true = bits.get_or_zero(client.0)
            == is_padded(seeds, servers, client, server, place);
        bits = turned_for(bits, if is_true { None } else { Some(client) });
    }
    Ok(bits)
}

/// What a corrupt server says of a place: the true bits, but for the client that is lured by this server.
pub fn bits_for(
    alloc: Global,
    seeds: &[Seed],
    roster: &Roster,
    server: ServerId,
    lured: Option<ClientId>,
    rows: &[Listed],
    place: Place,
) -> Result<Statement, NoMemory>
    ensures { IfOk result IsSignable }
{
    let bits = true_bits(alloc, seeds, roster, server, rows, place)?;
    let bits = turned_for(bits, lured);
    Ok(pad_bits(place.r.0, place.k, bits))
}

/// Whether the number of each envelope's bytes is one that a challenge can tell.
fn can_be_told(envelopes: &[Bytes]) -> bool
    ensures { IsTrue result ↔ AreTellable envelopes.now }
{
    envelopes
        .iter()
        .all(|envelope| envelope.get().len() <= u32::MAX as usize)
}

/// The payload of a challenge that holds these envelopes; nothing where one is too long for it.
pub fn challenge_of(
    alloc: Global,
    place: Place,
    envelopes: Vec<Bytes>,
) -> Result<Option<Vec<u8>>, NoMemory>
    requires { length envelopes.items ≤ MAX_SERVERS }
    ensures { IfOk result (λ o. IfSome o (λ v. v.items ≡ payload_bytes (payloads.Challenge place.r place.k envelopes.items))) }
{
    if !can_be_told(&envelopes) {
        return Ok(None);
    }
    let payload = Payload::Challenge {
        r: place.r,
        k: place.k,
        envelopes: ByteLists::of(envelopes),
    };
    Ok(Some(encode_payload(alloc, &payload)?))
}
