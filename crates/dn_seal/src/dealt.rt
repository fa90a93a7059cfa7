ghost use Rattle.std.specs.Prelude.{◌≡◌, ◌++◌, map, length, IfOk, OnOk, All};
ghost use Rattle.std.specs.List.{range_with_len};
ghost use Rattle.dn_lms.specs.Key.{IsKey};
ghost use Rattle.dn_lms.specs.Signature.{public_key};
ghost use Rattle.dn_roster.specs.Group.{IsWithinLimits};
ghost use Rattle.dn_roster.specs.Dealing.{mask_secret_of};
ghost use Rattle.dn_seal.specs.Dealt.{IsDealt, key_dealt_to, keys_dealt_to, nth_signer, each_pair, seed_dealt_to, commitment_dealt_to};

use dn_hash::seed_commitment;
use dn_lms::{KeyFault, KeyPair, SigKey};
use dn_memory::NoMemory;
use dn_roster::{GroupSpec, Roster, mask_secret, member_key, pair_seed, slot_owners};
use dn_wire::{ClientId, ServerId, SignerId, SlotId};
use std::alloc::Global;

/// All that is dealt in a group. It keeps that it is what its `spec` gives.
#[derive(Drop)]
pub struct Dealt {
    pub spec: GroupSpec,
    pub roster: Roster,
    /// The owner of each slot.
    pub owners: Vec<ClientId>,
    pub client_keys: Vec<KeyPair>,
    pub server_keys: Vec<KeyPair>,
    pub slot_keys: Vec<KeyPair>,
    /// The seeds of the pairs, client by client and within each server by server.
    pub seeds: Vec<[u8; 32]>,
    /// The mask secret of each client.
    pub masks: Vec<[u8; 32]>,
    ghost dealt: { IsDealt spec roster owners.items client_keys.items server_keys.items slot_keys.items seeds.items masks.items },
}

#[derive(Clone, Copy)]
enum Kind {
    Client,
    Server,
    Slot,
}

fn signer(kind: Kind, number: u32) -> SignerId
    ensures { result ≡ nth_signer kind number }
{
    match kind {
        Kind::Client => SignerId::Client(ClientId(number)),
        Kind::Server => SignerId::Server(ServerId(number)),
        Kind::Slot => SignerId::Slot(SlotId(number)),
    }
}

fn deal_key(alloc: Global, spec: &GroupSpec, who: SignerId) -> Result<KeyPair, NoMemory>
    requires { IsWithinLimits spec.now }
    ensures { IfOk result (λ key. (key ≡ key_dealt_to spec.now who) × IsKey key) }
{
    let lms = match who {
        SignerId::Server(_) => spec.server_lms,
        _ => spec.client_lms,
    };
    let dealt = member_key(spec, who);
    match KeyPair::make(alloc, lms, spec.ots, dealt.id, dealt.seed) {
        Ok(key) => Ok(key),
        Err(KeyFault::NoMemory) => Err(NoMemory),
        // The typecodes are known ones.
        Err(KeyFault::UnknownLms { .. } | KeyFault::UnknownOts { .. }) => unreachable!(),
    }
}

fn deal_keys(
    alloc: Global,
    spec: &GroupSpec,
    kind: Kind,
    count: u32,
) -> Result<Vec<KeyPair>, NoMemory>
    requires { IsWithinLimits spec.now }
    ensures dealt { IfOk result (λ keys. keys.items ≡ keys_dealt_to spec.now (nth_signer kind) count) }
    ensures keys { IfOk result (λ keys. All IsKey keys.items) }
{
    let mut keys = Vec::with_capacity(alloc, count as usize)?;
    for number in 0..count {
        let key = deal_key(alloc, spec, signer(kind, number))?;
        keys.push(key)?;
    }
    Ok(keys)
}

fn public_key(alloc: Global, key: &KeyPair) -> Result<[u8; 56], NoMemory>
    requires { IsKey key.now }
    ensures { IfOk result (λ public. public ≡ public_key key.now) }
{
    let bytes = key.public(alloc)?;
    let mut public = [0; 56];
    public.copy_from_slice(&bytes);
    Ok(public)
}

fn public_keys(alloc: Global, keys: &[KeyPair]) -> Result<Vec<[u8; 56]>, NoMemory>
    requires { All IsKey keys.now }
    ensures { IfOk result (λ v. v.items ≡ map public_key keys.now) }
{
    let mut all = Vec::with_capacity(alloc, keys.len())?;
    for key in keys {
        let public = public_key(alloc, key)?;
        all.push(public)?;
    }
    Ok(all)
}

/// Appends the seeds of a client, server by server.
fn put_seeds(out: &mut Vec<[u8; 32]>, spec: &GroupSpec, i: u32) -> Result<(), NoMemory>
    ensures { OnOk result (out.new.items ≡ out.old.items ++ map (seed_dealt_to spec.now i) (range_with_len 0 spec.now.servers)) }
{
    for j in 0..spec.servers {
        out.push(pair_seed(spec, ClientId(i), ServerId(j)))?;
    }
    Ok(())
}

fn pair_seeds(alloc: Global, spec: &GroupSpec) -> Result<Vec<[u8; 32]>, NoMemory>
    ensures { IfOk result (λ v. v.items ≡ each_pair (seed_dealt_to spec.now) spec.now.clients spec.now.servers) }
{
    let mut seeds = Vec::new(alloc);
    for i in 0..spec.clients {
        put_seeds(&mut seeds, spec, i)?;
    }
    Ok(seeds)
}

/// Appends the commitments to the seeds of a client, server by server.
fn put_commitments(out: &mut Vec<[u8; 32]>, spec: &GroupSpec, i: u32) -> Result<(), NoMemory>
    ensures { OnOk result (out.new.items ≡ out.old.items ++ map (commitment_dealt_to spec.now i) (range_with_len 0 spec.now.servers)) }
{
    for j in 0..spec.servers {
        let seed = pair_seed(spec, ClientId(i), ServerId(j));
        out.push(seed_commitment(i, j, &seed))?;
    }
    Ok(())
}

fn commitments(alloc: Global, spec: &GroupSpec) -> Result<Vec<[u8; 32]>, NoMemory>
    ensures { IfOk result (λ v. v.items ≡ each_pair (commitment_dealt_to spec.now) spec.now.clients spec.now.servers) }
{
    let mut seals = Vec::new(alloc);
    for i in 0..spec.clients {
        put_commitments(&mut seals, spec, i)?;
    }
    Ok(seals)
}

fn mask_secrets(alloc: Global, spec: &GroupSpec) -> Result<Vec<[u8; 32]>, NoMemory>
    ensures { IfOk result (λ v. v.items ≡ map (mask_secret_of spec.now.seed) (range_with_len 0 spec.now.clients)) }
{
    let mut masks = Vec::with_capacity(alloc, spec.clients as usize)?;
    for i in 0..spec.clients {
        masks.push(mask_secret(spec, ClientId(i)))?;
    }
    Ok(masks)
}

/// Deals all keys and seeds of a group, and its roster.
pub fn deal(alloc: Global, spec: &GroupSpec) -> Result<Dealt, NoMemory>
    requires { IsWithinLimits spec.now }
    ensures { IfOk result (λ dealt. dealt.spec ≡ spec.now) }
{
    let client_keys = deal_keys(alloc, spec, Kind::Client, spec.clients)?;
    let server_keys = deal_keys(alloc, spec, Kind::Server, spec.servers)?;
    let slot_keys = deal_keys(alloc, spec, Kind::Slot, spec.clients)?;
    let roster = Roster::make(
        spec.version,
        spec.ots,
        spec.client_lms,
        spec.server_lms,
        public_keys(alloc, &client_keys)?,
        public_keys(alloc, &server_keys)?,
        public_keys(alloc, &slot_keys)?,
        commitments(alloc, spec)?,
    );
    let owners = slot_owners(alloc, spec)?;
    let seeds = pair_seeds(alloc, spec)?;
    let masks = mask_secrets(alloc, spec)?;
    Ok(Dealt {
        spec: *spec,
        roster,
        owners,
        client_keys,
        server_keys,
        slot_keys,
        seeds,
        masks,
    })
}
