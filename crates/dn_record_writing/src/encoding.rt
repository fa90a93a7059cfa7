// Writing statements, envelopes and payloads.

ghost use Rattle.std.specs.Prelude.{◌≡◌, ◌<◌, ◌≤◌, ◌++◌, length, OnOk, IfOk};
ghost use Rattle.dn_wire.specs.declared.limits.TheConstants.{MAX_CARRIED_BYTES};
ghost use Rattle.dn_record_types.specs.Fields.{bits};
ghost use Rattle.dn_record_types.specs.Lists.{rows};
ghost use Rattle.dn_record_types.specs.Records.{told_byte, shown_cipher, kind_byte, spell_fields, submission, receipt, commit, reveal, pad_bits, shown, accusation, rebuttal, concede, statement_bytes, IsStatement, body_bytes, IsBody, envelope_bytes, IsEnvelope, payload_bytes, IsPayload, certificate, challenge};

use crate::writing::{
    put_bits, put_body, put_envelopes, put_inventory, put_long, put_shows, put_signatures,
    put_sized_word, put_word,
};
use dn_bits::Bits;
use dn_memory::NoMemory;
use dn_record_types::{Body, ByteLists, Envelope, Payload, Shows, Statement, WordTold};
use dn_wire::{Bytes, ClientId, Round, ServerId, SlotId, put_bytes, put_signer, put_u8};
use std::alloc::Global;

fn put_submission(
    out: &mut Vec<u8>,
    r: Round,
    prev: Round,
    client: ClientId,
    digest: &[u8; 32],
) -> Result<(), NoMemory>
    ensures { OnOk result (out.new.items ≡ out.old.items ++ submission.spell (r, (prev, (client, digest.now)))) }
{
    put_long(out, r.0)?;
    put_long(out, prev.0)?;
    put_word(out, client.0)?;
    put_bytes(out, digest)
}

fn told_byte(told: WordTold) -> u8
    ensures { result ≡ told_byte told }
{
    match told {
        WordTold::Included => 1,
        WordTold::Late => 2,
    }
}

fn put_receipt(
    out: &mut Vec<u8>,
    r: Round,
    client: ClientId,
    digest: &[u8; 32],
    told: WordTold,
) -> Result<(), NoMemory>
    ensures { OnOk result (out.new.items ≡ out.old.items ++ receipt.spell (r, (client, (digest.now, told)))) }
{
    put_long(out, r.0)?;
    put_word(out, client.0)?;
    put_bytes(out, digest)?;
    put_u8(out, told_byte(told))
}

fn put_commit(out: &mut Vec<u8>, r: Round, digest: &[u8; 32]) -> Result<(), NoMemory>
    ensures { OnOk result (out.new.items ≡ out.old.items ++ commit.spell (r, digest.now)) }
{
    put_long(out, r.0)?;
    put_bytes(out, digest)
}

fn put_reveal(alloc: Global, out: &mut Vec<u8>, r: Round, s: &Bits) -> Result<(), NoMemory>
    ensures { OnOk result (out.new.items ≡ out.old.items ++ reveal.spell (r, s.now)) }
{
    put_long(out, r.0)?;
    put_bits(alloc, out, s)
}

fn put_pad_bits(
    alloc: Global,
    out: &mut Vec<u8>,
    r: Round,
    k: u32,
    bits: &Bits,
) -> Result<(), NoMemory>
    ensures { OnOk result (out.new.items ≡ out.old.items ++ pad_bits.spell (r, (k, bits.now))) }
{
    put_long(out, r.0)?;
    put_word(out, k)?;
    put_bits(alloc, out, bits)
}

fn put_shown(
    alloc: Global,
    out: &mut Vec<u8>,
    r: Round,
    s: &Bits,
    list: &Shows,
) -> Result<(), NoMemory>
    requires { (rows shown_cipher).Fits list.now }
    ensures { OnOk result (out.new.items ≡ out.old.items ++ shown.spell (r, (s.now, list.now))) }
{
    put_long(out, r.0)?;
    put_bits(alloc, out, s)?;
    put_shows(alloc, out, list)
}

fn put_accusation(out: &mut Vec<u8>, r: Round, slot: SlotId, k: u32) -> Result<(), NoMemory>
    ensures { OnOk result (out.new.items ≡ out.old.items ++ accusation.spell (r, (slot, k))) }
{
    put_long(out, r.0)?;
    put_word(out, slot.0)?;
    put_word(out, k)
}

fn put_rebuttal(
    out: &mut Vec<u8>,
    r: Round,
    k: u32,
    server: ServerId,
    seed: &[u8; 32],
    envelope: &Bytes,
) -> Result<(), NoMemory>
    requires { length envelope.now ≤ MAX_CARRIED_BYTES }
    ensures { OnOk result (out.new.items ≡ out.old.items ++ rebuttal.spell (r, (k, (server, (seed.now, envelope.now))))) }
{
    put_long(out, r.0)?;
    put_word(out, k)?;
    put_word(out, server.0)?;
    put_bytes(out, seed)?;
    put_sized_word(out, envelope.get())
}

fn put_concede(out: &mut Vec<u8>, r: Round, k: u32) -> Result<(), NoMemory>
    ensures { OnOk result (out.new.items ≡ out.old.items ++ concede.spell (r, k)) }
{
    put_long(out, r.0)?;
    put_word(out, k)
}

fn kind_of(s: &Statement) -> u8
    ensures { result ≡ kind_byte s.now }
{
    match s {
        Statement::Submission { .. } => 1,
        Statement::Receipt { .. } => 2,
        Statement::Inventory(_) => 3,
        Statement::Commit { .. } => 4,
        Statement::Reveal { .. } => 5,
        Statement::Sign(_) => 6,
        Statement::PadBits { .. } => 7,
        Statement::Shown { .. } => 8,
        Statement::Accusation { .. } => 9,
        Statement::Rebuttal { .. } => 10,
        Statement::Concede { .. } => 11,
    }
}

fn put_fields(alloc: Global, out: &mut Vec<u8>, s: &Statement) -> Result<(), NoMemory>
    requires { IsStatement s.now }
    ensures { OnOk result (out.new.items ≡ out.old.items ++ spell_fields s.now) }
{
    match s {
        Statement::Submission {
            r,
            prev,
            client,
            digest,
        } => put_submission(out, *r, *prev, *client, digest),
        Statement::Receipt {
            r,
            client,
            digest,
            told,
        } => put_receipt(out, *r, *client, digest, *told),
        Statement::Inventory(v) => put_inventory(alloc, out, v),
        Statement::Commit { r, digest } => put_commit(out, *r, digest),
        Statement::Reveal { r, s } => put_reveal(alloc, out, *r, s),
        Statement::Sign(b) => put_body(alloc, out, b),
        Statement::PadBits { r, k, bits } => put_pad_bits(alloc, out, *r, *k, bits),
        Statement::Shown { r, s, shown } => put_shown(alloc, out, *r, s, shown),
        Statement::Accusation { r, slot, k } => put_accusation(out, *r, *slot, *k),
        Statement::Rebuttal {
            r,
            k,
            server,
            seed,
            envelope,
        } => put_rebuttal(out, *r, *k, *server, seed, envelope),
        Statement::Concede { r, k } => put_concede(out, *r, *k),
    }
}

/// The statement's bytes: its kind, and its fields.
#[tactic(auto, unfolding(dn_record_types::specs::Records::statement_bytes))]
pub fn encode(alloc: Global, s: &Statement) -> Result<Vec<u8>, NoMemory>
    requires { IsStatement s.now }
    ensures { IfOk result (λ v. v.items ≡ statement_bytes s.now) }
{
    let mut out = Vec::new(alloc);
    put_u8(&mut out, kind_of(s))?;
    put_fields(alloc, &mut out, s)?;
    Ok(out)
}

/// The body's bytes.
#[tactic(auto, unfolding(dn_record_types::specs::Records::body_bytes))]
pub fn encode_body(alloc: Global, b: &Body) -> Result<Vec<u8>, NoMemory>
    requires { IsBody b.now }
    ensures { IfOk result (λ v. v.items ≡ body_bytes b.now) }
{
    let mut out = Vec::new(alloc);
    put_body(alloc, &mut out, b)?;
    Ok(out)
}

/// The envelope's bytes: the signer, the statement behind its length, and the signature.
#[tactic(auto, unfolding(dn_record_types::specs::Records::envelope_bytes, dn_record_types::specs::Fields::spell_number))]
pub fn encode_envelope(alloc: Global, e: &Envelope) -> Result<Vec<u8>, NoMemory>
    requires { IsEnvelope e.now }
    ensures { IfOk result (λ v. v.items ≡ envelope_bytes e.now) }
{
    let statement = encode(alloc, &e.statement)?;
    let mut out = Vec::new(alloc);
    put_signer(&mut out, e.signer)?;
    put_sized_word(&mut out, &statement)?;
    put_bytes(&mut out, e.signature.get())?;
    Ok(out)
}

fn put_cipher(
    alloc: Global,
    out: &mut Vec<u8>,
    cipher: &Bits,
    envelope: &Bytes,
) -> Result<(), NoMemory>
    ensures { OnOk result (out.new.items ≡ out.old.items ++ bits.spell cipher.now ++ envelope.now) }
{
    put_bits(alloc, out, cipher)?;
    put_bytes(out, envelope.get())
}

#[tactic(auto, unfolding(dn_record_types::specs::Records::body_bytes))]
fn put_certificate(
    alloc: Global,
    out: &mut Vec<u8>,
    body: &Body,
    signatures: &ByteLists,
) -> Result<(), NoMemory>
    requires { certificate.Fits (body.now, signatures.now) }
    ensures { OnOk result (out.new.items ≡ out.old.items ++ certificate.spell (body.now, signatures.now)) }
{
    let bytes = encode_body(alloc, body)?;
    put_sized_word(out, &bytes)?;
    put_signatures(alloc, out, signatures)
}

fn put_challenge(
    alloc: Global,
    out: &mut Vec<u8>,
    r: Round,
    k: u32,
    envelopes: &ByteLists,
) -> Result<(), NoMemory>
    requires { challenge.Fits (r, (k, envelopes.now)) }
    ensures { OnOk result (out.new.items ≡ out.old.items ++ challenge.spell (r, (k, envelopes.now))) }
{
    put_long(out, r.0)?;
    put_word(out, k)?;
    put_envelopes(alloc, out, envelopes)
}

#[tactic(auto, unfolding(dn_record_types::specs::Records::payload_bytes))]
fn put_payload(alloc: Global, out: &mut Vec<u8>, p: &Payload) -> Result<(), NoMemory>
    requires { IsPayload p.now }
    ensures { OnOk result (out.new.items ≡ out.old.items ++ payload_bytes p.now) }
{
    match p {
        Payload::Submission { cipher, envelope } => {
            put_u8(out, 1)?;
            put_cipher(alloc, out, cipher, envelope)
        }
        Payload::Plain { envelope } => {
            put_u8(out, 2)?;
            put_bytes(out, envelope.get())
        }
        Payload::Certificate { body, signatures } => {
            put_u8(out, 3)?;
            put_certificate(alloc, out, body, signatures)
        }
        Payload::Challenge { r, k, envelopes } => {
            put_u8(out, 4)?;
            put_challenge(alloc, out, *r, *k, envelopes)
        }
    }
}

/// The payload's bytes: its tag, and its content.
pub fn encode_payload(alloc: Global, p: &Payload) -> Result<Vec<u8>, NoMemory>
    requires { IsPayload p.now }
    ensures { IfOk result (λ v. v.items ≡ payload_bytes p.now) }
{
    let mut out = Vec::new(alloc);
    put_payload(alloc, &mut out, p)?;
    Ok(out)
}
