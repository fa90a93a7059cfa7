//! The writing of records: an encoder gives the spelling of a record that keeps the limits and orders of its format.
#![tactic(auto)]

mod encoding;
mod writing;

pub use encoding::{encode, encode_body, encode_envelope, encode_payload};
