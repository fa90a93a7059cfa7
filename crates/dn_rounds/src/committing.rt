// How a server commits itself to its ciphertext.
ghost use Rattle.std.specs.Prelude.{◌≡◌, ◌≤◌, ◌<◌, true, false, ◌∷◌, ◌++◌, map, length, All, IfOk, Some, slice_index_or, slice_get, [], List};
ghost use Rattle.dn_record_types.specs.declared.body.Listed.{Listed as Row};
ghost use Rattle.dn_record_types.specs.declared.inventory.Inventory.{Inventory as InventoryOf};
ghost use Rattle.dn_record_types.specs.declared.statement.Statement.TheVariants as kinds;
ghost use Rattle.dn_seal.specs.Dealt.{server};
ghost use Rattle.dn_seal.specs.Signer.{CanSign};
ghost use Rattle.dn_cert.specs.Trim.{IsTrim, IsInventory, given_to};
ghost use Rattle.dn_server.specs.Justified.{IsOfRow, AreOfRows, AreIncluded, submission_of, server_string};
ghost use Rattle.dn_server.specs.Server.{AreKept, WasIncluded, course_of, servers_in};
ghost use Rattle.dn_server.specs.Keeping.{HasAll};
ghost use Rattle.dn_rounds.specs.Going.{turned, IsSum, IsListing, commitment_of};
ghost use Rattle.dn_server.specs.Parts.{live};
ghost use Rattle.dn_rounds.specs.Sound.{IsClaimed, AreClaimed, IsSayable, ListingsFit, AreSound, Stepped, with_sum_if, ThinBodiesFit};

use crate::gathering::inventory_by;
use crate::going::{Due, has_moved, say_due};
use crate::signing::{keep_past, sign_due, thin_past};
use dn_bits::Bits;
use dn_cert::{is_due_thin, list_with, make_body};
use dn_combine::server_sum;
use dn_hash::server_digest;
use dn_memory::NoMemory;
use dn_pads::Seed;
use dn_records::{Listed, Rows, ShownCipher, Shows, Statement};
use dn_server::{Act, Parts, RoundKind, Run, Stage, Sum};
use dn_wire::{Round, ServerId};
use std::alloc::Global;
use std::thread::Threads;

/// The list of those who count, by the inventories of all servers.
fn list(parts: &Parts) -> Result<Vec<Listed>, NoMemory>
    requires { HasAll 3 parts.now.run.kept (servers_in (live parts.now)) }
    ensures { IfOk result (λ listed. (all : List InventoryOf) × AreKept kinds.Inventory 3 parts.now.run.kept (servers_in (live parts.now)) all
        × IsTrim all listed.items) }
{
    let mut listed = Vec::new(parts.alloc);
    for j in 0..parts.identity.roster().servers() {
        let server = ServerId(j);
        let inventory = inventory_by(&parts.run.kept, server);
        listed = list_with(parts.alloc, &listed, server, inventory)?;
    }
    Ok(listed)
}

/// The ciphertext that is claimed for a row of a list.
fn cipher_for(alloc: Global, run: &Run, row: &Listed) -> Result<ShownCipher, NoMemory>
    requires { IsClaimed run.now row.now }
    ensures of_row { IfOk result (IsOfRow (course_of run.now) row.now) }
    ensures told { IfOk result (λ s. WasIncluded run.now (submission_of (course_of run.now) row.now) s.cipher) }
{
    let Some(claim) = run.claims.get(row.client) else {
        unreachable!()
    };
    Ok(ShownCipher {
        client: row.client,
        cipher: claim.cipher.copy(alloc)?,
    })
}

/// The ciphertexts of the clients that a list gives to the server.
fn own_ciphers(
    alloc: Global,
    run: &Run,
    listed: &[Listed],
    own: ServerId,
) -> Result<Vec<ShownCipher>, NoMemory>
    requires { AreClaimed run.now (given_to listed.now own.0) }
    ensures rows { IfOk result (λ v. AreOfRows (course_of run.now) (given_to listed.now own.0) v.items) }
    ensures told { IfOk result (λ v. AreIncluded (WasIncluded run.now) (course_of run.now) (given_to listed.now own.0) v.items) }
{
    let mut all = Vec::new(alloc);
    for row in listed {
        if row.server.0 == own.0 {
            let cipher = cipher_for(alloc, run, row)?;
            all.push(cipher)?;
        }
    }
    Ok(all)
}

/// The seeds that the server shares with the clients of a list.
fn seeds_for(alloc: Global, seeds: &[Seed], listed: &[Listed]) -> Result<Vec<Seed>, NoMemory>
    requires { All (λ l. l.client.0 < length seeds.now) listed.now }
    ensures { IfOk result (λ v. v.items ≡ map (λ l. slice_index_or seeds.now l.client.0 []) listed.now) }
{
    let mut all = Vec::new(alloc);
    for row in listed {
        all.push(seeds[row.client.0 as usize])?;
    }
    Ok(all)
}

/// The strings of some ciphertexts.
fn strings_of(alloc: Global, shown: &[ShownCipher]) -> Result<Vec<Bits>, NoMemory>
    ensures { IfOk result (λ v. v.items ≡ map (λ s. s.cipher) shown.now) }
{
    let mut all = Vec::new(alloc);
    for cipher in shown {
        all.push(cipher.cipher.copy(alloc)?)?;
    }
    Ok(all)
}

/// A string with the bit at the place turned, where there is a place and the string has it.
fn turn(at: Option<u32>, mut s: Bits) -> Bits
    ensures { result ≡ turned at s }
{
    if let Some(k) = at {
        if k < s.len() {
            s.flip(k);
        }
    }
    s
}

/// The sum for a list: the server's ciphertext, and what it holds of the clients that the list gives to it.
fn sum_for<R: Threads + Sync>(rt: &R, parts: &Parts, listed: Vec<Listed>) -> Result<Sum, NoMemory>
    requires claimed { AreClaimed parts.now.run (given_to listed.items parts.now.identity.number) }
    requires seeds { All (λ l. l.client.0 < length parts.now.seeds.items) listed.items }
    requires workers { (1 ≤ parts.now.workers) × (parts.now.workers ≤ 16) }
    ensures list { IfOk result (λ sum. sum.listed ≡ listed.items) }
    ensures sum { IfOk result (IsSum (live parts.now)) }
    ensures long { IfOk result (λ sum. length sum.s ≡ parts.now.run.bits) }
{
    let run = &parts.run;
    let own = own_ciphers(parts.alloc, run, &listed, parts.identity.number())?;
    let seeds = seeds_for(parts.alloc, &parts.seeds, &listed)?;
    let held = strings_of(parts.alloc, &own)?;
    let s = server_sum(
        rt,
        parts.alloc,
        &seeds,
        run.r,
        run.bits,
        &held,
        parts.workers,
    )?;
    Ok(Sum {
        listed: Rows::of(listed),
        s: turn(parts.bend, s),
        own: Shows::of(own),
    })
}

/// The statement of server `own` that it is committed in round `r` to a ciphertext with this digest.
fn commit_of(_own: u32, r: u64, digest: [u8; 32]) -> Statement
    ensures value { result ≡ kinds.Commit record { 0 = r } digest }
    ensures fits { CanSign (server _own) result }
{
    Statement::Commit {
        r: Round(r),
        digest,
    }
}

/// The commitment to a sum.
fn commitment(parts: &Parts, sum: &Sum) -> Result<Statement, NoMemory>
    ensures value { IfOk result (λ s. s ≡ commitment_of (live parts.now) sum.now) }
    ensures fits { IfOk result (IsSayable parts.now) }
{
    let mut bytes = Vec::new(parts.alloc);
    sum.s.write_bytes(parts.alloc, &mut bytes)?;
    let own = parts.identity.number().0;
    let digest = server_digest(parts.run.r.0, own, &bytes);
    Ok(commit_of(own, parts.run.r.0, digest))
}

/// Keeps a sum, where the commitment to it was said.
fn keep_sum(parts: &mut Parts, due: Due, sum: Sum)
    ensures { parts.new ≡ with_sum_if due parts.old sum }
{
    match due {
        Due::Opposed => parts.bend = None,
        Due::Said => {
            parts.bend = None;
            parts.run.sum = Some(sum);
        }
        Due::Stuck => {}
    }
}

/// In a round with data the server commits itself to its ciphertext.
fn commit<R: Threads + Sync>(
    rt: &R,
    parts: &mut Parts,
    acts: &mut Vec<Act>,
    listed: Vec<Listed>,
) -> Result<bool, NoMemory>
    requires stage { parts.old.run.stage ≡ Stage.Listed }
    requires listing { IsListing (live parts.old) false listed.items }
    requires sound { AreSound (live parts.old) parts.old.run.kept }
    requires fit { ListingsFit parts.old }
    requires workers { (1 ≤ parts.old.workers) × (parts.old.workers ≤ 16) }
    ensures { IfOk result (Stepped parts.old parts.new acts.old.items acts.new.items) }
{
    let sum = sum_for(rt, parts, listed)?;
    let s = commitment(parts, &sum)?;
    let due = say_due(parts, acts, RoundKind::Commit, s, Stage::Committed)?;
    keep_sum(parts, due, sum);
    Ok(has_moved(due))
}

/// In a round without data the server signs the body with the list alone.
fn sign_thin(parts: &mut Parts, acts: &mut Vec<Act>, listed: &[Listed]) -> Result<bool, NoMemory>
    requires stage { parts.old.run.stage ≡ Stage.Listed }
    requires version { parts.old.identity.roster.version ≡ 2 }
    requires listing { IsListing (live parts.old) true listed.now }
    requires fit { ThinBodiesFit parts.old }
    requires sound { AreSound (live parts.old) parts.old.run.kept }
    ensures { IfOk result (Stepped parts.old parts.new acts.old.items acts.new.items) }
{
    let (r, prev) = (parts.run.r, parts.run.prev);
    let out = Bits::zeros(parts.alloc, 0)?;
    let body = make_body(
        parts.alloc,
        parts.identity.roster(),
        r,
        prev,
        listed,
        &[],
        &out,
        true,
    )?;
    let past = thin_past(parts.alloc, &body)?;
    let due = sign_due(parts, acts, body)?;
    keep_past(parts, due, past)?;
    Ok(has_moved(due))
}

/// With an inventory of each server, the server signs or commits itself, by the floor.
pub(crate) fn list_up<R: Threads + Sync>(
    rt: &R,
    parts: &mut Parts,
    acts: &mut Vec<Act>,
) -> Result<bool, NoMemory>
    requires stage { parts.old.run.stage ≡ Stage.Listed }
    requires sound { AreSound (live parts.old) parts.old.run.kept }
    requires fit { ListingsFit parts.old }
    requires thin { ThinBodiesFit parts.old }
    requires seeds { length parts.old.seeds.items ≤ 512 }
    requires workers { (1 ≤ parts.old.workers) × (parts.old.workers ≤ 16) }
    ensures { IfOk result (Stepped parts.old parts.new acts.old.items acts.new.items) }
{
    let n = parts.identity.roster().servers();
    if !parts.run.kept.is_full(RoundKind::Inventory, n) {
        return Ok(false);
    }
    let listed = list(parts)?;
    let last = parts.chain.count(parts.run.prev);
    if is_due_thin(parts.identity.roster().version(), listed.len() as u32, last) {
        sign_thin(parts, acts, &listed)
    } else {
        commit(rt, parts, acts, listed)
    }
}
