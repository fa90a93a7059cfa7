//! HSS with two levels as definitions (RFC 8554 section 6): keys of two levels and the derivation of their trees, public keys, signatures
//! and when one verifies (`specs/Hss.antt`), and what each leaf of such a key signs (`specs/Signed.antt`). What follows from them stands in
//! `proofs/`: that what a key signs verifies under its public key, and that no leaf signs two different byte strings; the crate has no
//! code.
#![tactic(auto)]
