//! One client: what it sends in a round, which certificates it holds, and how it accuses and answers.
//!
//! Contracts see a client as `ClientView` of `specs/Client.antt`: who it is, the certificates that it holds, the texts that it was given,
//! what it made for each round, and all that its keys signed. `specs/Plain.antt` says what an honest client sends, and `specs/` has a file
//! for each call that says what it gives, what it changes, and when it refuses.
#![tactic(auto)]

mod accused;
mod accusing;
mod answered;
mod answering;
mod client;
mod holding;
mod laws;
mod made;
mod openings;
mod plain_text;
mod readers;
mod rows;
mod signing;
mod submitting;

pub use accusing::AccuseFault;
pub use answering::AnswerFault;
pub use client::Client;
pub use holding::HoldFault;
pub use laws::{
    accusations_hold, ciphertexts_fill_their_rounds, clients_sign_their_own, envelopes_unseal,
    rebuttals_are_good,
};
pub use submitting::{Submission, SubmitFault};
