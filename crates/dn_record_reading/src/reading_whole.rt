// Reading envelopes and payloads, and all of the bytes.

ghost use Rattle.std.specs.Prelude.{◌≡◌, ◌≤◌};
ghost use Rattle.dn_record_types.specs.Part.{Reads, Gives, whole};
ghost use Rattle.dn_record_types.specs.Fields.{up_to, word};
ghost use Rattle.dn_record_types.specs.Lists.{read_inside};
ghost use Rattle.dn_record_types.specs.Records.{body, signer, statement, certificate, challenge, statement_of, body_of, envelope_of, payload_of, read_tag, read_cipher, read_certificate, read_challenge};

use crate::reading::{bits_of, few_of, inner_of, limited_of, round_of, u8_of, u32_of};
use crate::reading_lists::{envelopes_of, signatures_of};
use crate::reading_statements::{body_of, statement_of};
use dn_record_types::{Body, Envelope, Payload, RecordFault, Statement};
use dn_wire::{Bytes, ClientId, MAX_STATEMENT_BYTES, Reader, ServerId, SignerId, SlotId};
use std::alloc::Global;

fn signer_of(reader: &mut Reader) -> Result<SignerId, RecordFault>
    ensures { Reads (λ x. x) result reader.new (signer.read reader.old) }
{
    let tag = few_of(reader, 3)?;
    let id = u32_of(reader)?;
    match tag {
        1 => Ok(SignerId::Client(ClientId(id))),
        2 => Ok(SignerId::Server(ServerId(id))),
        _ => Ok(SignerId::Slot(SlotId(id))),
    }
}

/// A statement behind the number of its bytes.
#[tactic(auto, unfolding(dn_record_types::specs::Lists::read_inside))]
fn inner_statement_of(alloc: Global, reader: &mut Reader) -> Result<Statement, RecordFault>
    ensures { Reads (λ x. x) result reader.new (read_inside (up_to MAX_STATEMENT_BYTES) statement reader.old) }
{
    let count = limited_of(reader, MAX_STATEMENT_BYTES)?;
    let mut inner = inner_of(reader, count as usize)?;
    let statement = statement_of(alloc, &mut inner)?;
    if !inner.rest().is_empty() {
        return Err(RecordFault::Trailing { at: inner.at() });
    }
    Ok(statement)
}

/// A body behind the number of its bytes.
#[tactic(auto, unfolding(dn_record_types::specs::Lists::read_inside))]
fn inner_body_of(alloc: Global, reader: &mut Reader) -> Result<Body, RecordFault>
    ensures { Reads (λ x. x) result reader.new (read_inside word body reader.old) }
{
    let count = u32_of(reader)?;
    let mut inner = inner_of(reader, count as usize)?;
    let body = body_of(alloc, &mut inner)?;
    if !inner.rest().is_empty() {
        return Err(RecordFault::Trailing { at: inner.at() });
    }
    Ok(body)
}

/// What is left, as bytes.
fn rest_of(alloc: Global, reader: &Reader) -> Result<Bytes, RecordFault>
    ensures { Gives result (Ok reader.now.rest) }
{
    Ok(Bytes::of(Vec::from_slice(alloc, reader.rest())?))
}

#[tactic(auto, unfolding(dn_record_types::specs::Records::read_cipher))]
fn cipher_of(alloc: Global, mut reader: Reader) -> Result<Payload, RecordFault>
    ensures { Gives result (read_cipher reader.entry) }
{
    let cipher = bits_of(alloc, &mut reader)?;
    let envelope = rest_of(alloc, &reader)?;
    Ok(Payload::Submission { cipher, envelope })
}

#[tactic(auto, unfolding(dn_record_types::specs::Records::read_certificate, dn_record_types::specs::Part::whole))]
fn certificate_of(alloc: Global, mut reader: Reader) -> Result<Payload, RecordFault>
    ensures { Gives result (read_certificate reader.entry) }
{
    let body = inner_body_of(alloc, &mut reader)?;
    let signatures = signatures_of(alloc, &mut reader)?;
    if !reader.rest().is_empty() {
        return Err(RecordFault::Trailing { at: reader.at() });
    }
    Ok(Payload::Certificate { body, signatures })
}

#[tactic(auto, unfolding(dn_record_types::specs::Records::read_challenge, dn_record_types::specs::Part::whole))]
fn challenge_of(alloc: Global, mut reader: Reader) -> Result<Payload, RecordFault>
    ensures { Gives result (read_challenge reader.entry) }
{
    let r = round_of(&mut reader)?;
    let k = u32_of(&mut reader)?;
    let envelopes = envelopes_of(alloc, &mut reader)?;
    if !reader.rest().is_empty() {
        return Err(RecordFault::Trailing { at: reader.at() });
    }
    Ok(Payload::Challenge { r, k, envelopes })
}

#[tactic(auto, unfolding(dn_record_types::specs::Records::read_tag))]
fn tag_of(alloc: Global, tag: u8, reader: Reader) -> Result<Payload, RecordFault>
    ensures { Gives result (read_tag tag reader.entry) }
{
    match tag {
        1 => cipher_of(alloc, reader),
        2 => {
            let envelope = rest_of(alloc, &reader)?;
            Ok(Payload::Plain { envelope })
        }
        3 => certificate_of(alloc, reader),
        4 => challenge_of(alloc, reader),
        _ => Err(RecordFault::Kind { byte: tag }),
    }
}

/// All of the bytes as a statement.
#[tactic(auto, unfolding(dn_record_types::specs::Records::statement_of, dn_record_types::specs::Part::whole))]
pub fn whole_statement(alloc: Global, bytes: &[u8]) -> Result<Statement, RecordFault>
    ensures { Gives result (statement_of bytes.now) }
{
    let mut reader = Reader::new(bytes);
    let statement = statement_of(alloc, &mut reader)?;
    if !reader.rest().is_empty() {
        return Err(RecordFault::Trailing { at: reader.at() });
    }
    Ok(statement)
}

/// All of the bytes as a body.
#[tactic(auto, unfolding(dn_record_types::specs::Records::body_of, dn_record_types::specs::Part::whole))]
pub fn whole_body(alloc: Global, bytes: &[u8]) -> Result<Body, RecordFault>
    ensures { Gives result (body_of bytes.now) }
{
    let mut reader = Reader::new(bytes);
    let body = body_of(alloc, &mut reader)?;
    if !reader.rest().is_empty() {
        return Err(RecordFault::Trailing { at: reader.at() });
    }
    Ok(body)
}

/// All of the bytes as an envelope.
#[tactic(auto, unfolding(dn_record_types::specs::Records::envelope_of))]
pub fn whole_envelope(alloc: Global, bytes: &[u8]) -> Result<Envelope, RecordFault>
    ensures { Gives result (envelope_of bytes.now) }
{
    let mut reader = Reader::new(bytes);
    let signer = signer_of(&mut reader)?;
    let statement = inner_statement_of(alloc, &mut reader)?;
    let signature = rest_of(alloc, &reader)?;
    Ok(Envelope {
        signer,
        statement,
        signature,
    })
}

/// All of the bytes as a payload.
#[tactic(auto, unfolding(dn_record_types::specs::Records::payload_of))]
pub fn whole_payload(alloc: Global, bytes: &[u8]) -> Result<Payload, RecordFault>
    ensures { Gives result (payload_of bytes.now) }
{
    let mut reader = Reader::new(bytes);
    let tag = u8_of(&mut reader)?;
    tag_of(alloc, tag, reader)
}
