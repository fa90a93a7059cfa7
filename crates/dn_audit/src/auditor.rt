ghost use Rattle.std.specs.Prelude.{◌≡◌, ◌↔◌, ◌<◌, ◌^◌, ◌++◌, ◌∷◌, ℕ, [], All, IsTrue, IfOk, OnOk, true, length, slice_index_or};
ghost use Rattle.std.specs.Int.{w32, w64, to_be_bytes};
ghost use Rattle.dn_wire.specs.declared.ids.SignerId.TheVariants.{Server};
ghost use Rattle.dn_bits.specs.Bits.{bytes_of as bits_bytes};
ghost use Rattle.dn_record_types.specs.declared.statement.Statement.TheVariants.{Sign};
ghost use Rattle.dn_records.specs.Records.{IsBody, IsStatement, statement_bytes};
ghost use Rattle.dn_roster.specs.Roster.{digest_of, signed_bytes_of};
ghost use Rattle.dn_audit.specs.Auditor.{MayStand, SealsAreTheirs, SignaturesAreTheirs, RunStrings, no_strings, TellsOf, NoStringsCollide, AddsStrings, NotesSigned, Looks, hashed_seed, hashed_cipher, hashed_sum, with_ciphers, with_shown};

use crate::envelopes::Known;
use crate::group::Group;
use crate::signings::Signings;
use crate::strings::Strings;
use dn_bits::Bits;
use dn_hash::{cipher_digest, seed_commitment, server_digest};
use dn_memory::NoMemory;
use dn_pads::Seed;
use dn_records::{Body, ByteLists, Payload, RecordFault, Shows, Statement, decode_payload};
use dn_roster::Roster;
use dn_seal::Said;
use dn_wire::{ClientId, Round, ServerId, SignerId, put_bytes, put_u32, put_u64};
use std::alloc::Global;
use std::marker::Model;

/// What the audit looks at, kept up at each put.
#[derive(Drop)]
pub struct Auditor {
    alloc: Global,
    signings: Signings,
    are_theirs: bool,
    seeds: Strings,
    ciphers: Strings,
    sums: Strings,
}

impl Model for Auditor {
    ghost use Rattle.dn_audit.specs.Auditor.{AuditorView};

    ghost Value = { AuditorView };

    ghost view = { λ a. record { signed = a.signings; are_theirs = a.are_theirs; seeds = a.seeds; ciphers = a.ciphers; sums = a.sums } };
}

fn bytes_of(alloc: Global, bits: &Bits) -> Result<Vec<u8>, NoMemory>
    ensures { IfOk result (λ v. v.items ≡ bits_bytes bits.now) }
{
    let mut bytes = Vec::new(alloc);
    bits.write_bytes(alloc, &mut bytes)?;
    Ok(bytes)
}

/// The bytes behind the numbers of a round and a member.
fn numbered(alloc: Global, r: Round, number: u32, bytes: &[u8]) -> Result<Vec<u8>, NoMemory>
    ensures { IfOk result (λ v. v.items ≡ to_be_bytes w64 r.0 ++ to_be_bytes w32 number ++ bytes.now) }
{
    let mut out = Vec::new(alloc);
    put_u64(&mut out, r.0)?;
    put_u32(&mut out, number)?;
    put_bytes(&mut out, bytes)?;
    Ok(out)
}

fn are_all(a: bool, b: bool, c: bool) -> bool
    ensures { IsTrue result ↔ (IsTrue a × IsTrue b × IsTrue c) }
{
    a && b && c
}

fn are_both(a: bool, b: bool) -> bool
    ensures { IsTrue result ↔ (IsTrue a × IsTrue b) }
{
    a && b
}

impl Auditor {
    /// Nothing is put yet.
    pub fn make(alloc: Global) -> Auditor
        ensures unsigned { result.signed ≡ [] }
        ensures theirs { result.are_theirs ≡ true }
        ensures tells { TellsOf result no_strings }
    {
        Auditor {
            alloc,
            signings: Signings::none(alloc),
            are_theirs: true,
            seeds: Strings::none(alloc),
            ciphers: Strings::none(alloc),
            sums: Strings::none(alloc),
        }
    }

    /// Whether each signature that was put was of a statement that its key had signed by then.
    pub fn are_theirs(&self) -> bool
        ensures { result ≡ self.now.are_theirs }
    {
        self.are_theirs
    }

    /// Whether no two different strings had one digest.
    pub fn digests_differ(&self) -> bool
        ensures { (x : RunStrings) → TellsOf self.now x → IsTrue result ↔ NoStringsCollide x }
    {
        are_all(
            self.seeds.differ(),
            self.ciphers.differ(),
            self.sums.differ(),
        )
    }

    /// Adds a seed of a client and a server.
    pub fn add_seed(&mut self, i: ClientId, j: ServerId, seed: &Seed) -> Result<(), NoMemory>
        ensures { OnOk result (AddsStrings self.old self.new (λ x. record x { seeds = x.seeds ++ hashed_seed i.0 j.0 seed.now ∷ [] })) }
    {
        let mut string = Vec::new(self.alloc);
        put_u32(&mut string, i.0)?;
        put_u32(&mut string, j.0)?;
        put_bytes(&mut string, seed)?;
        self.seeds.add(seed_commitment(i.0, j.0, seed), string)
    }

    /// Adds a client's ciphertext.
    pub fn add_cipher(&mut self, r: Round, i: ClientId, cipher: &Bits) -> Result<(), NoMemory>
        ensures { OnOk result (AddsStrings self.old self.new (λ x. record x { ciphers = x.ciphers ++ hashed_cipher r.0 i.0 cipher.now ∷ [] })) }
    {
        let bytes = bytes_of(self.alloc, cipher)?;
        let string = numbered(self.alloc, r, i.0, &bytes)?;
        self.ciphers.add(cipher_digest(r.0, i.0, &bytes), string)
    }

    /// Adds a server's ciphertext.
    pub fn add_sum(&mut self, r: Round, j: ServerId, sum: &Bits) -> Result<(), NoMemory>
        ensures { OnOk result (AddsStrings self.old self.new (λ x. record x { sums = x.sums ++ hashed_sum r.0 j.0 sum.now ∷ [] })) }
    {
        let bytes = bytes_of(self.alloc, sum)?;
        let string = numbered(self.alloc, r, j.0, &bytes)?;
        self.sums.add(server_digest(r.0, j.0, &bytes), string)
    }

    /// Notes a statement that an honest key signed.
    pub fn note_signed(&mut self, roster: &Roster, said: &Said) -> Result<(), NoMemory>
        ensures { OnOk result (NotesSigned self.old self.new (signed_bytes_of (digest_of roster.now) said.now.signer (statement_bytes said.now.statement))) }
    {
        let statement = dn_records::encode(self.alloc, said.statement())?;
        let signed = roster.signed_bytes(self.alloc, said.signer(), &statement)?;
        self.signings.add(signed)
    }

    /// Adds the clients' ciphertexts that a server shows.
    fn add_shown(&mut self, r: Round, shown: &Shows) -> Result<(), NoMemory>
        ensures { OnOk result (AddsStrings self.old self.new (with_ciphers r.0 shown.now)) }
    {
        for each in shown.get() {
            self.add_cipher(r, each.client, &each.cipher)?;
        }
        Ok(())
    }

    /// Adds the strings that a statement shows, by who signed it.
    pub fn add_strings(&mut self, said: &Said) -> Result<(), NoMemory>
        ensures { OnOk result (AddsStrings self.old self.new (λ x. with_shown x said.now.signer said.now.statement)) }
    {
        match (said.signer(), said.statement()) {
            (SignerId::Client(i), Statement::Rebuttal { server, seed, .. }) => {
                self.add_seed(i, *server, seed)
            }
            (SignerId::Server(j), Statement::Reveal { r, s }) => self.add_sum(*r, j, s),
            (SignerId::Server(j), Statement::Shown { r, s, shown }) => {
                self.add_sum(*r, j, s)?;
                self.add_shown(*r, shown)
            }
            _ => Ok(()),
        }
    }

    /// Looks at all signatures in the bytes of a payload that is put.
    pub fn look(&mut self, roster: &Roster, group: &Group, bytes: &[u8]) -> Result<(), NoMemory>
        ensures { OnOk result (Looks roster.now group.now self.old self.new bytes.now) }
    {
        let known = Known {
            alloc: self.alloc,
            roster,
            group,
            signings: &self.signings,
        };
        let may = may_put(&known, bytes)?;
        self.are_theirs = are_both(self.are_theirs, may);
        Ok(())
    }
}

/// Whether all signatures in the bytes of a payload may stand.
fn may_put(known: &Known, bytes: &[u8]) -> Result<bool, NoMemory>
    ensures { IfOk result (λ b. IsTrue b ↔ SignaturesAreTheirs known.now.roster.now known.now.group.now known.now.signings.now bytes.now) }
{
    match decode_payload(known.alloc, bytes) {
        Ok(Payload::Submission { envelope, .. }) => known.may_be_put(envelope.get()),
        Ok(Payload::Plain { envelope }) => known.may_be_put(envelope.get()),
        Ok(Payload::Certificate { body, signatures }) => may_certify(known, body, &signatures),
        Ok(Payload::Challenge { envelopes, .. }) => may_challenge(known, &envelopes),
        Err(RecordFault::NoMemory) => Err(NoMemory),
        Err(_) => Ok(true),
    }
}

/// The statement by which servers sign a body.
#[tactic(auto, unfolding(dn_record_types::specs::Records::IsStatement))]
fn sign(body: Body) -> Statement
    requires { IsBody body }
    ensures fits { IsStatement result }
    ensures value { result ≡ Sign body }
{
    Statement::Sign(body)
}

/// Whether signatures of a statement may stand, the one after the other by the servers from 0 on.
fn may_be_signed_by_all(
    known: &Known,
    statement: &Statement,
    signatures: &ByteLists,
) -> Result<bool, NoMemory>
    requires fits { IsStatement statement.now }
    requires few { length signatures.now < 2 ^ 32 }
    ensures { IfOk result (λ b. IsTrue b ↔ ((j : ℕ) → j < length signatures.now
        → MayStand known.now.roster.now known.now.group.now known.now.signings.now (Server record { 0 = j }) (statement_bytes statement.now) (slice_index_or signatures.now j []))) }
{
    let mut number = 0u32;
    for signature in signatures.get() {
        let who = SignerId::Server(ServerId(number));
        if !known.may_be_signed(who, statement, signature.get())? {
            return Ok(false);
        }
        number = number.saturating_add(1);
    }
    Ok(true)
}

/// Whether the signatures of a body may stand.
fn may_certify(known: &Known, body: Body, signatures: &ByteLists) -> Result<bool, NoMemory>
    requires fits { IsBody body }
    requires few { length signatures.now < 2 ^ 32 }
    ensures { IfOk result (λ b. IsTrue b ↔ ((j : ℕ) → j < length signatures.now
        → MayStand known.now.roster.now known.now.group.now known.now.signings.now (Server record { 0 = j }) (statement_bytes (Sign body)) (slice_index_or signatures.now j []))) }
{
    may_be_signed_by_all(known, &sign(body), signatures)
}

/// Whether the signatures in all envelopes of a challenge may stand.
fn may_challenge(known: &Known, envelopes: &ByteLists) -> Result<bool, NoMemory>
    ensures { IfOk result (λ b. IsTrue b ↔ All (SealsAreTheirs known.now.roster.now known.now.group.now known.now.signings.now) envelopes.now) }
{
    for envelope in envelopes.get() {
        if !known.may_be_put(envelope.get())? {
            return Ok(false);
        }
    }
    Ok(true)
}
