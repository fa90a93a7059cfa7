//! The reading of records: a decoder gives what the bytes spell, all of the bytes, or the first fault from the left.
#![tactic(auto)]

mod decoding;
mod reading;
mod reading_lists;
mod reading_statements;
mod reading_whole;

pub use decoding::{decode, decode_body, decode_envelope, decode_payload};
