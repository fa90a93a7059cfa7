//! The records of the protocol and their bytes: statements, bodies, envelopes and payloads. Each
//! record has one spelling. A decoder gives what the bytes spell, or the first fault from the left;
//! an encoder gives the spelling of a record that keeps the limits and orders of its format.
//! Contracts see a record as plain data, its list types as lists. Numbers are big-endian.
//!
//! What users name stands here; `dn_record_types` says what records are, `dn_record_writing` writes them and `dn_record_reading` reads
//! them.
#![tactic(auto)]

pub use dn_record_reading::{decode, decode_body, decode_envelope, decode_payload};
pub use dn_record_types::{
    Body, ByteLists, Digests, Entries, Entry, Envelope, Inventory, Listed, Payload, RecordFault,
    Rows, ShownCipher, Shows, Statement, WordTold, fields_are_exact, spelled_once,
};
pub use dn_record_writing::{encode, encode_body, encode_envelope, encode_payload};

#[cfg(test)]
mod tests;
