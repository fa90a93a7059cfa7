ghost use Rattle.std.specs.Prelude.{◌≡◌, ◌⊎◌, ◌≤◌, ◌*◌, ◌+◌, ◌/◌, ◌%◌, ◌<◌, ◌^◌, IfErr, IfOk, MatchOption, OnOk, None, Some, length, slice_get, vec_len};
ghost use Rattle.dn_verify.specs.Header.{AreSizes, IsHeader, IsLineOf, Tells, bytes_from, bytes_in, corrupt_in, version_in};
ghost use Rattle.dn_verify.specs.Header.Place.{corrupt, numbers, seal_of, version};
ghost use Rattle.dn_verify.specs.HeaderParts.{AreSizesIn, Holds, StopsAmong, StopsInHeader, place_of};

use crate::key_of::KeyOf;
use crate::sizes::Sizes;
use crate::stop::{Stop, misplaced};
use dn_report::ReportLine;
use dn_roster::Roster;
use dn_wire::{Bytes, Member};
use std::alloc::Global;

/// What the lines before the first event say: the roster, the corrupt members, and the place of the line behind them.
#[derive(Drop)]
pub struct Header {
    pub roster: Roster,
    pub corrupt: Vec<Member>,
    pub first: usize,
}

/// The version that the line gives.
fn version_in(line: &ReportLine) -> Option<u8>
    ensures { MatchOption result (IsLineOf version line.now → ⊥) (λ v. (1 ≤ v) × (v ≤ 2) × (v ≡ version_in (Some line.now))) }
{
    match line {
        ReportLine::Report { version } => {
            if 1 <= *version && *version <= 2 {
                Some(*version)
            } else {
                None
            }
        }
        _ => None,
    }
}

fn version_of(lines: &[ReportLine]) -> Result<u8, Stop>
    ensures low { IfOk result (λ v. 1 ≤ v) }
    ensures high { IfOk result (λ v. v ≤ 2) }
    ensures tells { IfOk result (λ v. Tells version (slice_get lines.now 0) × (v ≡ version_in (slice_get lines.now 0))) }
    ensures wrong { IfErr result (λ stop. (stop ≡ Stop.Broken 0 1) × (Tells version (slice_get lines.now 0) → ⊥)) }
{
    let Some(line) = line_at(lines, 0) else {
        return Err(misplaced(0));
    };
    match version_in(line) {
        Some(version) => Ok(version),
        None => Err(misplaced(0)),
    }
}

/// The line at a place.
fn line_at(lines: &[ReportLine], at: usize) -> Option<&ReportLine>
    ensures { MatchOption result (slice_get lines.now at ≡ None) (λ line. slice_get lines.now at ≡ Some line.now) }
{
    lines.get(at)
}

fn sizes_within(
    clients: u32,
    servers: u32,
    ots: u32,
    client_lms: u32,
    server_lms: u32,
) -> Option<Sizes>
    ensures { MatchOption result (AreSizes clients servers ots client_lms server_lms → ⊥)
        (λ sizes. AreSizes clients servers ots client_lms server_lms × (sizes.clients ≡ clients) × (sizes.servers ≡ servers)
        × (sizes.ots ≡ ots) × (sizes.client_lms ≡ client_lms) × (sizes.server_lms ≡ server_lms)) }
{
    if clients < 1 || 512 < clients || servers < 1 || 16 < servers || ots < 1 || 4 < ots {
        return None;
    }
    if client_lms < 5 || 6 < client_lms || server_lms < 5 || 7 < server_lms {
        return None;
    }
    Some(Sizes {
        clients,
        servers,
        ots,
        client_lms,
        server_lms,
    })
}

/// The numbers that the line gives.
fn sizes_in(line: &ReportLine) -> Option<Sizes>
    ensures { MatchOption result (IsLineOf numbers line.now → ⊥) (λ sizes. IsLineOf numbers line.now × AreSizesIn sizes (Some line.now)) }
{
    match line {
        ReportLine::Group {
            clients,
            servers,
            ots,
            client_lms,
            server_lms,
        } => sizes_within(*clients, *servers, *ots, *client_lms, *server_lms),
        _ => None,
    }
}

fn sizes_of(lines: &[ReportLine]) -> Result<Sizes, Stop>
    ensures tells { IfOk result (λ sizes. Tells numbers (slice_get lines.now 1) × AreSizesIn sizes (slice_get lines.now 1)) }
    ensures wrong { IfErr result (λ stop. (stop ≡ Stop.Broken 1 1) × (Tells numbers (slice_get lines.now 1) → ⊥)) }
{
    let Some(line) = line_at(lines, 1) else {
        return Err(misplaced(1));
    };
    match sizes_in(line) {
        Some(sizes) => Ok(sizes),
        None => Err(misplaced(1)),
    }
}

/// A key of 56 bytes.
fn key_of(bytes: &Bytes) -> Option<[u8; 56]>
    ensures { MatchOption result (length bytes.now ≡ 56 → ⊥) (λ key. (length bytes.now ≡ 56) × (key ≡ bytes.now)) }
{
    let bytes = bytes.get();
    if bytes.len() != 56 {
        return None;
    }
    let mut key = [0; 56];
    key.copy_from_slice(bytes);
    Some(key)
}

/// A commitment of 32 bytes.
fn seal_of(bytes: &Bytes) -> Option<[u8; 32]>
    ensures { MatchOption result (length bytes.now ≡ 32 → ⊥) (λ seal. (length bytes.now ≡ 32) × (seal ≡ bytes.now)) }
{
    let bytes = bytes.get();
    if bytes.len() != 32 {
        return None;
    }
    let mut seal = [0; 32];
    seal.copy_from_slice(bytes);
    Some(seal)
}

/// The key of this number that the line gives.
fn key_in(line: &ReportLine, of: KeyOf, i: u32) -> Option<[u8; 56]>
    ensures { MatchOption result (IsLineOf (place_of of i) line.now → ⊥) (λ key. IsLineOf (place_of of i) line.now × (key ≡ bytes_in (Some line.now))) }
{
    match (of, line) {
        (KeyOf::Client, ReportLine::ClientKey { client, key }) if client.0 == i => key_of(key),
        (KeyOf::Server, ReportLine::ServerKey { server, key }) if server.0 == i => key_of(key),
        (KeyOf::Slot, ReportLine::SlotKey { slot, key }) if slot.0 == i => key_of(key),
        _ => None,
    }
}

/// The same of the line at a place.
fn key_at(lines: &[ReportLine], at: usize, of: KeyOf, i: u32) -> Result<[u8; 56], Stop>
    ensures tells { IfOk result (λ key. Tells (place_of of i) (slice_get lines.now at) × (key ≡ bytes_in (slice_get lines.now at))) }
    ensures wrong { IfErr result (λ stop. (stop ≡ Stop.Broken at 1) × (Tells (place_of of i) (slice_get lines.now at) → ⊥)) }
{
    let Some(line) = line_at(lines, at) else {
        return Err(misplaced(at));
    };
    match key_in(line, of, i) {
        Some(key) => Ok(key),
        None => Err(misplaced(at)),
    }
}

/// The commitment to the seed of client `i` and server `j` that the line gives.
fn seal_in(line: &ReportLine, i: u32, j: u32) -> Option<[u8; 32]>
    ensures { MatchOption result (IsLineOf (seal_of i j) line.now → ⊥) (λ seal. IsLineOf (seal_of i j) line.now × (seal ≡ bytes_in (Some line.now))) }
{
    match line {
        ReportLine::Seal {
            client,
            server,
            seal,
        } if client.0 == i && server.0 == j => seal_of(seal),
        _ => None,
    }
}

/// The same of the line at a place.
fn seal_at(lines: &[ReportLine], at: usize, i: u32, j: u32) -> Result<[u8; 32], Stop>
    ensures tells { IfOk result (λ seal. Tells (seal_of i j) (slice_get lines.now at) × (seal ≡ bytes_in (slice_get lines.now at))) }
    ensures wrong { IfErr result (λ stop. (stop ≡ Stop.Broken at 1) × (Tells (seal_of i j) (slice_get lines.now at) → ⊥)) }
{
    let Some(line) = line_at(lines, at) else {
        return Err(misplaced(at));
    };
    match seal_in(line, i, j) {
        Some(seal) => Ok(seal),
        None => Err(misplaced(at)),
    }
}

/// The keys that so many lines from a place on give.
fn keys(
    alloc: Global,
    lines: &[ReportLine],
    of: KeyOf,
    first: usize,
    count: u32,
) -> Result<Vec<[u8; 56]>, Stop>
    requires { first < 2 ^ 32 }
    ensures len { IfOk result (λ v. vec_len v ≡ count) }
    ensures tells { OnOk result (Holds (place_of of) lines.now first count) }
    ensures keys { IfOk result (λ v. v.items ≡ bytes_from lines.now first count) }
    ensures stops { IfErr result (StopsAmong (place_of of) lines.now first count) }
{
    let mut keys = Vec::new(alloc);
    for i in 0..count {
        let key = key_at(lines, first + i as usize, of, i)?;
        keys.push(key)?;
    }
    Ok(keys)
}

/// The commitments that so many lines from a place on give, client by client.
fn seals(
    alloc: Global,
    lines: &[ReportLine],
    first: usize,
    clients: u32,
    servers: u32,
) -> Result<Vec<[u8; 32]>, Stop>
    requires place { first < 2 ^ 32 }
    requires some { 1 ≤ servers }
    requires few { clients * servers < 2 ^ 32 }
    ensures len { IfOk result (λ v. vec_len v ≡ clients * servers) }
    ensures tells { OnOk result (Holds (λ k. seal_of (k / servers) (k % servers)) lines.now first (clients * servers)) }
    ensures seals { IfOk result (λ v. v.items ≡ bytes_from lines.now first (clients * servers)) }
    ensures stops { IfErr result (StopsAmong (λ k. seal_of (k / servers) (k % servers)) lines.now first (clients * servers)) }
{
    let mut seals = Vec::new(alloc);
    for pair in 0..clients * servers {
        let seal = seal_at(lines, first + pair as usize, pair / servers, pair % servers)?;
        seals.push(seal)?;
    }
    Ok(seals)
}

fn members_of(alloc: Global, lines: &[ReportLine], at: usize) -> Result<Vec<Member>, Stop>
    ensures tells { IfOk result (λ v. Tells corrupt (slice_get lines.now at) × (v.items ≡ corrupt_in (slice_get lines.now at))) }
    ensures wrong { IfErr result (λ stop. (stop ≡ Stop.NoMemory) ⊎ ((stop ≡ Stop.Broken at 1) × (Tells corrupt (slice_get lines.now at) → ⊥))) }
{
    let Some(line) = line_at(lines, at) else {
        return Err(misplaced(at));
    };
    match line {
        ReportLine::Corrupt(members) => Ok(Vec::from_slice(alloc, members.get())?),
        _ => Err(misplaced(at)),
    }
}

/// The lines before the first event.
pub fn read_header(alloc: Global, lines: &[ReportLine]) -> Result<Header, Stop>
    ensures header { IfOk result (λ h. IsHeader lines.now h.roster h.corrupt.items h.first) }
    ensures stops { IfErr result (StopsInHeader lines.now) }
{
    let version = version_of(lines)?;
    let sizes = sizes_of(lines)?;
    let (clients, servers) = (sizes.clients, sizes.servers);
    let (n, m) = (clients as usize, servers as usize);
    let client_keys = keys(alloc, lines, KeyOf::Client, 2, clients)?;
    let server_keys = keys(alloc, lines, KeyOf::Server, 2 + n, servers)?;
    let slots = keys(alloc, lines, KeyOf::Slot, 2 + n + m, clients)?;
    let pairs = 2 + n + m + n;
    let seals = seals(alloc, lines, pairs, clients, servers)?;
    let last = pairs + n * m;
    let corrupt = members_of(alloc, lines, last)?;
    let roster = Roster::make(
        version,
        sizes.ots,
        sizes.client_lms,
        sizes.server_lms,
        client_keys,
        server_keys,
        slots,
        seals,
    );
    Ok(Header {
        roster,
        corrupt,
        first: last + 1,
    })
}
