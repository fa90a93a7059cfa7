ghost use Rattle.std.specs.Prelude.{◌≡◌, ◌≤◌, IfSome};
ghost use Rattle.dn_roster.specs.Group.{IsWithinLimits};

use crate::fault::PlayFault;
use dn_bits::Bits;
use dn_hash::{cipher_digest, server_digest};
use dn_layout::Layout;
use dn_memory::NoMemory;
use dn_pads::{Seed, add_pad};
use dn_records::{Body, Digests, Listed, Rows};
use dn_roster::GroupSpec;
use dn_seal::{Dealt, deal};
use dn_wire::{ClientId, Round, ServerId};
use std::alloc::Global;

/// Whose bit is turned at a place, if anybody's.
#[derive(Clone, Copy, Debug, PartialEq, Eq)]
pub enum Jam {
    Nobody,
    /// The client sends a 1 there.
    Client(u32),
    /// The server turns the bit of its ciphertext.
    Server(u32),
}

/// Round `r` of a group of M servers after the round before it, in which slot 0 alone is open, with 64 bytes. Client i is with server
/// i mod M. All plain texts are zeros.
#[derive(Drop)]
pub struct Played {
    pub dealt: Dealt,
    pub layout: Layout,
    pub k: u32,
    pub ciphers: Vec<Bits>,
    pub sums: Vec<Bits>,
    pub body: Body,
}

/// A group of version 1, with the shortest keys.
pub fn group(clients: u32, servers: u32) -> Option<GroupSpec>
    ensures { IfSome result IsWithinLimits }
{
    if clients < 1 || 512 < clients || servers < 1 || 16 < servers {
        return None;
    }
    Some(GroupSpec {
        version: 1,
        clients,
        servers,
        ots: 2,
        client_lms: 5,
        server_lms: 5,
        seed: [7; 32],
    })
}

/// The seed that client i and server j share.
pub fn seed(dealt: &Dealt, i: u32, j: u32) -> Result<Seed, PlayFault> {
    let place = u64::from(i) * u64::from(dealt.roster.servers()) + u64::from(j);
    dealt
        .seeds
        .get(place as usize)
        .copied()
        .ok_or(PlayFault::Unfit)
}

/// The server with which a client is.
pub fn server_of(dealt: &Dealt, i: u32) -> u32 {
    i.checked_rem(dealt.roster.servers()).unwrap_or(0)
}

/// The bytes of a string.
pub fn bytes_of(alloc: Global, bits: &Bits) -> Result<Vec<u8>, NoMemory> {
    let mut bytes = Vec::new(alloc);
    bits.write_bytes(alloc, &mut bytes)?;
    Ok(bytes)
}

fn turn(bits: &mut Bits, k: u32) {
    if k < bits.len() {
        bits.flip(k);
    }
}

fn add(sum: &mut Bits, x: &Bits) {
    if sum.len() == x.len() {
        sum.xor_into(x);
    }
}

fn cipher(alloc: Global, dealt: &Dealt, r: Round, bits: u32, i: u32) -> Result<Bits, PlayFault> {
    let mut cipher = Bits::zeros(alloc, bits)?;
    for j in 0..dealt.roster.servers() {
        add_pad(&mut cipher, &seed(dealt, i, j)?, r);
    }
    Ok(cipher)
}

/// The ciphertext of server j.
fn sum_of(
    alloc: Global,
    dealt: &Dealt,
    r: Round,
    ciphers: &[Bits],
    bits: u32,
    j: u32,
) -> Result<Bits, PlayFault> {
    let mut sum = Bits::zeros(alloc, bits)?;
    for i in 0..dealt.roster.clients() {
        add_pad(&mut sum, &seed(dealt, i, j)?, r);
        if server_of(dealt, i) == j {
            add(&mut sum, ciphers.get(i as usize).ok_or(PlayFault::Unfit)?);
        }
    }
    Ok(sum)
}

fn rows(alloc: Global, dealt: &Dealt, r: Round, ciphers: &[Bits]) -> Result<Rows, PlayFault> {
    let mut rows = Vec::new(alloc);
    for i in 0..dealt.roster.clients() {
        let bytes = bytes_of(alloc, ciphers.get(i as usize).ok_or(PlayFault::Unfit)?)?;
        rows.push(Listed {
            client: ClientId(i),
            server: ServerId(server_of(dealt, i)),
            digest: cipher_digest(r.0, i, &bytes),
        })?;
    }
    Ok(Rows::of(rows))
}

fn digests(alloc: Global, dealt: &Dealt, r: Round, sums: &[Bits]) -> Result<Digests, PlayFault> {
    let mut digests = Vec::new(alloc);
    for j in 0..dealt.roster.servers() {
        let bytes = bytes_of(alloc, sums.get(j as usize).ok_or(PlayFault::Unfit)?)?;
        digests.push(server_digest(r.0, j, &bytes))?;
    }
    Ok(Digests::of(digests))
}

fn layout(alloc: Global, clients: u32) -> Result<Layout, PlayFault> {
    let mut lengths = vec![in alloc; 0; clients as usize]?;
    if let Some(first) = lengths.get_mut(0) {
        *first = 64;
    }
    Layout::of(lengths).ok_or(PlayFault::Unfit)
}

fn ciphers(alloc: Global, dealt: &Dealt, r: Round, bits: u32) -> Result<Vec<Bits>, PlayFault> {
    let mut ciphers = Vec::new(alloc);
    for i in 0..dealt.roster.clients() {
        ciphers.push(cipher(alloc, dealt, r, bits, i)?)?;
    }
    Ok(ciphers)
}

fn sums(
    alloc: Global,
    dealt: &Dealt,
    r: Round,
    ciphers: &[Bits],
    bits: u32,
) -> Result<Vec<Bits>, PlayFault> {
    let mut sums = Vec::new(alloc);
    for j in 0..dealt.roster.servers() {
        sums.push(sum_of(alloc, dealt, r, ciphers, bits, j)?)?;
    }
    Ok(sums)
}

/// The round, with a bit turned at place `k`.
pub fn play(alloc: Global, spec: &GroupSpec, k: u32, jam: Jam) -> Result<Played, PlayFault>
    requires { IsWithinLimits spec.now }
{
    let r = Round(2);
    let dealt = deal(alloc, spec)?;
    let layout = layout(alloc, dealt.roster.clients())?;
    let bits = layout.bits();
    let mut ciphers = ciphers(alloc, &dealt, r, bits)?;
    if let Jam::Client(i) = jam {
        turn(ciphers.get_mut(i as usize).ok_or(PlayFault::Unfit)?, k);
    }
    let mut sums = sums(alloc, &dealt, r, &ciphers, bits)?;
    if let Jam::Server(j) = jam {
        turn(sums.get_mut(j as usize).ok_or(PlayFault::Unfit)?, k);
    }
    let mut out = Bits::zeros(alloc, bits)?;
    for sum in &sums {
        add(&mut out, sum);
    }
    let body = Body {
        version: 1,
        r,
        prev: Round(1),
        thin: false,
        listed: rows(alloc, &dealt, r, &ciphers)?,
        digests: digests(alloc, &dealt, r, &sums)?,
        out,
    };
    Ok(Played {
        dealt,
        layout,
        k,
        ciphers,
        sums,
        body,
    })
}
