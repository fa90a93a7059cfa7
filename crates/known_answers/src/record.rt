// Lines `statement V BYTES ANSWER`, `envelope V BYTES ANSWER` and `payload V BYTES ANSWER`: what reading the bytes
// answers in a group of version V, 1 or 2. Bodies of both versions are read in both. The answer is `ok`, and then writing
// gives the same bytes again, or the first fault with its numbers: `Cut AT`, `Kind BYTE`, `Over AT LIMIT`, `Shape AT`, `Trailing AT`.

use crate::fields::{bytes_at, end_at, number_at, text};
use anyhow::{Result, bail, ensure};
use dn_records::{
    RecordFault, decode, decode_envelope, decode_payload, encode, encode_envelope, encode_payload,
};
use std::alloc::Global;

/// The bytes of the statement that these bytes spell.
fn statement_again(alloc: Global, bytes: &[u8]) -> std::result::Result<Vec<u8>, RecordFault> {
    let statement = decode(alloc, bytes)?;
    Ok(encode(alloc, &statement)?)
}

/// The bytes of the envelope that these bytes spell.
fn envelope_again(alloc: Global, bytes: &[u8]) -> std::result::Result<Vec<u8>, RecordFault> {
    let envelope = decode_envelope(alloc, bytes)?;
    Ok(encode_envelope(alloc, &envelope)?)
}

/// The bytes of the payload that these bytes spell.
fn payload_again(alloc: Global, bytes: &[u8]) -> std::result::Result<Vec<u8>, RecordFault> {
    let payload = decode_payload(alloc, bytes)?;
    Ok(encode_payload(alloc, &payload)?)
}

/// The fault that an answer spells, or none for `ok`.
pub fn fault_of(answer: &[&str]) -> Result<Option<RecordFault>> {
    let word = text(answer, 0)?;
    end_at(
        answer,
        match word {
            "ok" => 1,
            "Over" => 3,
            _ => 2,
        },
    )?;
    Ok(match word {
        "ok" => None,
        "Cut" => Some(RecordFault::Cut {
            at: number_at(answer, 1)?,
        }),
        "Kind" => Some(RecordFault::Kind {
            byte: number_at(answer, 1)?,
        }),
        "Over" => Some(RecordFault::Over {
            at: number_at(answer, 1)?,
            limit: number_at(answer, 2)?,
        }),
        "Shape" => Some(RecordFault::Shape {
            at: number_at(answer, 1)?,
        }),
        "Trailing" => Some(RecordFault::Trailing {
            at: number_at(answer, 1)?,
        }),
        _ => bail!("no such answer: {word}"),
    })
}

/// Whether reading the bytes answers as the line says.
pub fn passes(alloc: Global, word: &str, fields: &[&str]) -> Result<bool> {
    let version = text(fields, 0)?;
    ensure!(
        version == "1" || version == "2",
        "no such version: {version}"
    );
    let bytes = bytes_at(alloc, fields, 1)?;
    let again = match word {
        "statement" => statement_again(alloc, &bytes),
        "envelope" => envelope_again(alloc, &bytes),
        "payload" => payload_again(alloc, &bytes),
        _ => bail!("no such record: {word}"),
    };
    let due = fault_of(fields.get(2..).unwrap_or(&[]))?;
    match again {
        Ok(again) => Ok(due.is_none() && again.as_slice() == bytes.as_slice()),
        Err(RecordFault::NoMemory) => bail!("no memory"),
        Err(fault) => Ok(due == Some(fault)),
    }
}
