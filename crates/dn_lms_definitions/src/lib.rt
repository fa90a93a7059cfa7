//! LMS as definitions, by the sections of RFC 8554: keys and heights (5.1, `specs/Key.antt`), the tree from its root (5.3,
//! `specs/Tree.antt`), public keys, signatures and when one verifies (5.3 and 5.4, `specs/Signature.antt`). What follows from them stands
//! in `proofs/`, first of all that what a key signs verifies under its public key; the crate has no code.
#![tactic(auto)]
