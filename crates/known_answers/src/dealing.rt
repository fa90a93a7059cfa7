// Lines `dealt SEED ..`: what a group's dealer deals from its seed. `pair_seed I J of_m M VALUE`,
// `mask_secret I VALUE`, `key_of_stream_S I ID KEYSEED`, where stream 2 deals the clients' keys, 3 the servers' and 4
// the slots', `slot_owners N OWNERS ..`, `group_digest version V VALUE` of the group `3 2 4 5 5`, and
// `roster N M OTS CLMS SLMS BYTES`, which `roster.rt` reads.

use crate::fields::{array_at, bytes_at, ends_in, number_at, text};
use crate::memory::given;
use crate::roster;
use anyhow::{Result, bail, ensure};
use dn_roster::{GroupSpec, mask_secret, member_key, pair_seed, slot_owners};
use dn_wire::{ClientId, ServerId, SignerId, SlotId};
use std::alloc::Global;

/// A group of this seed with so many servers. What is dealt to a single member depends on nothing else.
fn group_of(seed: [u8; 32], servers: u32) -> GroupSpec {
    GroupSpec {
        version: 1,
        clients: 1,
        servers,
        ots: 1,
        client_lms: 5,
        server_lms: 5,
        seed,
    }
}

/// Whether the seed of a client and a server is the one of the line.
fn deals_pair(alloc: Global, seed: [u8; 32], fields: &[&str]) -> Result<bool> {
    ensure!(text(fields, 2)? == "of_m", "no number of servers");
    let group = group_of(seed, number_at(fields, 3)?);
    let client = ClientId(number_at(fields, 0)?);
    let server = ServerId(number_at(fields, 1)?);
    ends_in(alloc, fields, 4, &pair_seed(&group, client, server))
}

/// Whether the mask secret of a client is the one of the line.
fn deals_secret(alloc: Global, seed: [u8; 32], fields: &[&str]) -> Result<bool> {
    let client = ClientId(number_at(fields, 0)?);
    ends_in(alloc, fields, 1, &mask_secret(&group_of(seed, 1), client))
}

/// Whether a signer's key is the one of the line.
fn deals_key(alloc: Global, seed: [u8; 32], who: SignerId, fields: &[&str]) -> Result<bool> {
    let key = member_key(&group_of(seed, 1), who);
    Ok(
        bytes_at(alloc, fields, 1)?.as_slice() == key.id.as_slice()
            && ends_in(alloc, fields, 2, &key.seed)?,
    )
}

/// Whether the owners of the slots are those of the line.
fn deals_owners(alloc: Global, seed: [u8; 32], fields: &[&str]) -> Result<bool> {
    let mut group = group_of(seed, 1);
    group.clients = number_at(fields, 0)?;
    ensure!(group.clients <= 512, "no such clients");
    let owners = given(slot_owners(alloc, &group))?;
    let due = fields.get(1..).unwrap_or(&[]);
    if owners.len() != due.len() {
        return Ok(false);
    }
    for place in 0..owners.len() {
        if owners[place].0 != number_at(due, place)? {
            return Ok(false);
        }
    }
    Ok(true)
}

/// Whether the digest of the group of a version is the one of the line.
fn deals_digest(alloc: Global, seed: [u8; 32], fields: &[&str]) -> Result<bool> {
    ensure!(text(fields, 0)? == "version", "no version");
    let version: u8 = number_at(fields, 1)?;
    ensure!(1 <= version && version <= 2, "no such version");
    let roster = roster::roster_of(alloc, version, seed, &["3", "2", "4", "5", "5"])?;
    ends_in(alloc, fields, 2, &roster.digest())
}

/// Whether what is dealt is the one of the line.
pub fn passes(alloc: Global, fields: &[&str]) -> Result<bool> {
    let seed = array_at(fields, 0)?;
    let rest = fields.get(2..).unwrap_or(&[]);
    match text(fields, 1)? {
        "pair_seed" => deals_pair(alloc, seed, rest),
        "mask_secret" => deals_secret(alloc, seed, rest),
        "key_of_stream_2" => {
            let who = SignerId::Client(ClientId(number_at(rest, 0)?));
            deals_key(alloc, seed, who, rest)
        }
        "key_of_stream_3" => {
            let who = SignerId::Server(ServerId(number_at(rest, 0)?));
            deals_key(alloc, seed, who, rest)
        }
        "key_of_stream_4" => {
            let who = SignerId::Slot(SlotId(number_at(rest, 0)?));
            deals_key(alloc, seed, who, rest)
        }
        "slot_owners" => deals_owners(alloc, seed, rest),
        "group_digest" => deals_digest(alloc, seed, rest),
        "roster" => roster::passes(alloc, seed, rest),
        word => bail!("nothing dealt is called {word}"),
    }
}
