//! How a server goes on in the round that it runs, as far as it can.
//!
//! With an inventory of each server it lists who counts, and commits itself to its ciphertext, or signs a body without data where the
//! floor says so; with all commitments it reveals the ciphertext; with all ciphertexts it signs the body with their sum; with all
//! signatures of that body it has the certificate, holds it, and puts it to everyone. `specs/Going.antt` has a relation for each of these
//! steps, with what stands in its way; `GoesOn` is the whole.
#![tactic(auto)]

mod certifying;
mod committing;
mod gathering;
mod going;
mod saying;
mod signing;
mod stepping;

pub use gathering::{body_by, digest_by, inventory_by, string_by};
pub use going::{Due, conflict, say_due};
pub use stepping::go_on;
