//! Counting in lists, for the rules of shared tables: how often a number stands in a list, sums over the views of all passes, and the
//! numbers of passes. Definitions stand in `specs/`, and what follows from them in `proofs/`; the crate has no code.
#![tactic(auto)]
