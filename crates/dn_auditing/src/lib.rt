//! What an auditor knows of a run that was told of all that was put, as laws.
//!
//! An auditor (`dn_audit`) is told of payloads one by one: which of them members' own cores put, all signatures in them, and the strings that they
//! show. `specs/Known.antt` says when it knows exactly what a run (`dn_headline`) has of these (`Knows`). The laws: it knows so where nothing was
//! put; it still does with each put more, be the bytes new or not, and with each ciphertext that a server makes; and then its words are yes exactly
//! where the run's signatures and digests are clean. Nothing here runs.
#![tactic(auto)]

mod laws;

pub use laws::{
    ciphertexts_are_told, nothing_is_known, puts_are_known, repeats_are_known, words_are_right,
};
