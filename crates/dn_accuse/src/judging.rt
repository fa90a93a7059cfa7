ghost use Rattle.std.specs.Prelude.{◌≡◌, ◌≢◌, ◌<◌, ◌↔◌, List, Bool, length, Some, None, IfOk, IfSome, IsTrue};
ghost use Rattle.dn_hash.specs.Digests.{seed_commitment_of};
ghost use Rattle.dn_record_types.specs.declared.statement.Statement.TheVariants.{PadBits};
ghost use Rattle.dn_wire.specs.declared.ids.SignerId.TheVariants.{Server};
ghost use Rattle.dn_roster.specs.Roster.{commitment_of};
ghost use Rattle.dn_seal.specs.Said.{Unseals};
ghost use Rattle.dn_cert.specs.Evidence.{IsInSlot, shown_bit};

use dn_cert::{Invalid, Rules, Valid, shown_bit};
use dn_hash::seed_commitment;
use dn_layout::Layout;
use dn_memory::NoMemory;
use dn_pads::{Seed, pad_bit};
use dn_records::{Body, Statement};
use dn_roster::Roster;
use dn_seal::{Said, Unopened, unseal};
use dn_wire::{ClientId, Round, ServerId, SignerId, SlotId};
use std::alloc::Global;

/// The judge of accusations and rebuttals.
#[derive(Clone, Copy, Debug, PartialEq, Eq)]
pub struct Judging;

/// Whether place `k` is one of the slot.
fn is_in_slot(layout: &Layout, slot: SlotId, k: u32) -> bool
    ensures { IsTrue result ↔ IsInSlot layout.now slot.0 k }
{
    match layout.range(slot) {
        Some((first, past)) => first <= k && k < past,
        None => false,
    }
}

/// The bit that the server shows of the client, where what was said is its pad bits of this round and place.
fn bit_said(said: &Said, server: ServerId, r: Round, k: u32, client: ClientId) -> Option<bool>
    ensures some { IfSome result (λ bit. (bits : List Bool) × (said.now.signer ≡ Server server) × (said.now.statement ≡ PadBits r k bits) × (bit ≡ shown_bit bits client)) }
    ensures each { (bits : List Bool) → said.now.signer ≡ Server server → said.now.statement ≡ PadBits r k bits → result ≡ Some (shown_bit bits client) }
{
    if said.signer() != SignerId::Server(server) {
        return None;
    }
    match said.statement() {
        Statement::PadBits {
            r: round,
            k: place,
            bits,
        } if *round == r && *place == k => { Some(shown_bit(bits, client)) }
        _ => None,
    }
}

/// An envelope that doesn't unseal has no signed bit.
fn unsigned(fault: Unopened) -> Result<Option<bool>, NoMemory>
    ensures { IfOk result (λ signed. (signed ≡ None) × (fault ≢ Unopened.NoMemory)) }
{
    match fault {
        Unopened::NoMemory => Err(NoMemory),
        _ => Ok(None),
    }
}

/// The bit that the server signed for the client, where the envelope unseals as its pad bits of this round and place.
fn signed_bit(
    alloc: Global,
    roster: &Roster,
    envelope: &[u8],
    server: ServerId,
    r: Round,
    k: u32,
    client: ClientId,
) -> Result<Option<bool>, NoMemory>
    ensures some { IfOk result (λ signed. IfSome signed (λ bit. (bits : List Bool) × Unseals roster.now envelope.now (Server server) (PadBits r k bits) × (bit ≡ shown_bit bits client))) }
    ensures each { IfOk result (λ signed. (bits : List Bool) → Unseals roster.now envelope.now (Server server) (PadBits r k bits) → signed ≡ Some (shown_bit bits client)) }
{
    match unseal(alloc, roster, envelope) {
        Ok(said) => Ok(bit_said(&said, server, r, k, client)),
        Err(fault) => unsigned(fault),
    }
}

/// Whether the seed opens the commitment to the seed of the client and the server.
fn opens(roster: &Roster, client: ClientId, server: ServerId, seed: &Seed) -> bool
    requires { (client.0 < length roster.now.clients) × (server.0 < length roster.now.servers) }
    ensures { IsTrue result ↔ (commitment_of roster.now client.0 server.0 ≡ Some (seed_commitment_of client.0 server.0 seed.now)) }
{
    roster.commitment(client, server) == seed_commitment(client.0, server.0, seed)
}

impl Rules for Judging {
    fn valid(
        &self,
        _roster: &Roster,
        layout: &Layout,
        body: &Body,
        who: SignerId,
        s: &Statement,
    ) -> Result<Valid, Invalid> {
        let Statement::Accusation { r, slot, k } = s else {
            unreachable!()
        };
        if who != SignerId::Slot(*slot) || *r != body.r {
            return Err(Invalid::Key);
        }
        if !is_in_slot(layout, *slot, *k) {
            return Err(Invalid::Place);
        }
        if body.thin || !body.out.get_or_zero(*k) {
            return Err(Invalid::Zero);
        }
        Ok(Valid {
            r: *r,
            slot: *slot,
            k: *k,
        })
    }

    fn rebuttal_good(
        &self,
        alloc: Global,
        roster: &Roster,
        client: ClientId,
        s: &Statement,
    ) -> Result<bool, NoMemory> {
        let Statement::Rebuttal {
            r,
            k,
            server,
            seed,
            envelope,
        } = s
        else {
            unreachable!()
        };
        let Some(signed) = signed_bit(alloc, roster, envelope.get(), *server, *r, *k, client)?
        else {
            return Ok(false);
        };
        Ok(opens(roster, client, *server, seed) && pad_bit(seed, *r, *k) != signed)
    }
}
