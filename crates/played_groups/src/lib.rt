//! Rounds that the clients and the servers of a dealt group play, for tests and measures of servers. No part of the product.
//!
//! What a member puts is a `Letter` for each server that gets it; `deliver` hands it to the server, as one that reads its bytes alone.
//! A `PlayedGroup` has all members, which are called one by one; what servers answer it gives as plain data.
#![tactic(auto)]

mod delivering;
mod done;
mod getting;
mod jamming;
mod members;
mod outcome;
mod played_group;
mod playing;
mod signing;
mod words;

pub use delivering::{
    Letter, deliver, deliver_all, opened, plain_payload, put_letters, same_letters,
};
pub use done::Done;
pub use members::{Members, dealt, members_of, server};
pub use outcome::{Outcome, ones_in};
pub use played_group::PlayedGroup;
pub use playing::{close_all, open_all, play, submission_letters, submits};
pub use words::Word;
