// Reading all of the bytes, with what the calls promise.

ghost use Rattle.std.specs.Prelude.{◌≡◌, List, ℕ, IfOk, Ok};
ghost use Rattle.dn_record_types.specs.Part.{Gives};
ghost use Rattle.dn_record_types.specs.Records.{statement_bytes, IsStatement, statement_of, body_bytes, IsBody, body_of, envelope_bytes, IsEnvelope, envelope_of, payload_bytes, IsPayload, payload_of};
ghost use Rattle.dn_record_types.specs.declared.statement.Statement.{Statement};
ghost use Rattle.dn_record_types.specs.declared.body.Body.{Body};
ghost use Rattle.dn_record_types.specs.declared.envelope.Envelope.{Envelope};
ghost use Rattle.dn_record_types.specs.declared.payload.Payload.{Payload};

use crate::reading_whole::{whole_body, whole_envelope, whole_payload, whole_statement};
use dn_record_types::{Body, Envelope, Payload, RecordFault, Statement};
use std::alloc::Global;

/// The statement that the bytes spell, all of the bytes; or the first fault from the left.
pub fn decode(alloc: Global, bytes: &[u8]) -> Result<Statement, RecordFault>
    // What is read is spelled so.
    ensures found { IfOk result (λ x. IsStatement x × (bytes.now ≡ statement_bytes x)) }
    // What is spelled so is read, unless memory runs out.
    ensures only { (x : Statement) → IsStatement x → bytes.now ≡ statement_bytes x → Gives result (Ok x) }
    // Which fault it is.
    ensures exact { Gives result (statement_of bytes.now) }
{
    whole_statement(alloc, bytes)
}

/// The body that the bytes spell, all of the bytes; or the first fault from the left.
pub fn decode_body(alloc: Global, bytes: &[u8]) -> Result<Body, RecordFault>
    // What is read is spelled so.
    ensures found { IfOk result (λ x. IsBody x × (bytes.now ≡ body_bytes x)) }
    // What is spelled so is read, unless memory runs out.
    ensures only { (x : Body) → IsBody x → bytes.now ≡ body_bytes x → Gives result (Ok x) }
    // Which fault it is.
    ensures exact { Gives result (body_of bytes.now) }
{
    whole_body(alloc, bytes)
}

/// The envelope that the bytes spell, all of the bytes; or the first fault from the left.
pub fn decode_envelope(alloc: Global, bytes: &[u8]) -> Result<Envelope, RecordFault>
    // What is read is spelled so.
    ensures found { IfOk result (λ x. IsEnvelope x × (bytes.now ≡ envelope_bytes x)) }
    // What is spelled so is read, unless memory runs out.
    ensures only { (x : Envelope) → IsEnvelope x → bytes.now ≡ envelope_bytes x → Gives result (Ok x) }
    // Which fault it is.
    ensures exact { Gives result (envelope_of bytes.now) }
{
    whole_envelope(alloc, bytes)
}

/// The payload that the bytes spell, all of the bytes; or the first fault from the left.
pub fn decode_payload(alloc: Global, bytes: &[u8]) -> Result<Payload, RecordFault>
    // What is read is spelled so.
    ensures found { IfOk result (λ x. IsPayload x × (bytes.now ≡ payload_bytes x)) }
    // What is spelled so is read, unless memory runs out.
    ensures only { (x : Payload) → IsPayload x → bytes.now ≡ payload_bytes x → Gives result (Ok x) }
    // Which fault it is.
    ensures exact { Gives result (payload_of bytes.now) }
{
    whole_payload(alloc, bytes)
}
