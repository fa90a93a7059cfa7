//! The board of the servers: a log of posts under the turn lock.
//!
//! A `Post` tells what its author had read and has the letters that the author made of it. A `Board` is a `Log` of posts:
//! contracts see its first letters, which no pass gave, and the list of its posts, each under the number of the pass that gave
//! it. The first letters are entry 0, and the posts have the places from 1. A post fits where its read is the place of the
//! last post under its number, or 0 where there is none. So what a post had read stands before the post, and the reads under
//! a number never fall.
#![tactic(auto)]

mod board;
mod laws;
mod letters;
mod post;
#[cfg(test)]
mod tests;

pub use board::Board;
pub use laws::read_laws;
pub use letters::{Letter, Letters};
pub use post::Post;
