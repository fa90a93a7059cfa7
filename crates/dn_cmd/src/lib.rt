//! The commands of the program, over a source of bytes and a sink for them. `run` reads a plain
//! script, deals a seed to each pair of a client and a server, computes the round as the clients and
//! the servers do, and writes its text. `check` reads a script and counts its lines, and `gen` writes the large script of a number,
//! and `demo` runs that script and tells of it in five lines.
#![tactic(auto)]

mod checking;
mod command;
mod generating;
mod round;
mod running;
mod showing;
mod text;
mod window;

pub use checking::check_script;
pub use command::dissent;
pub use generating::gen_script;
pub use showing::{Counted, demo};

#[cfg(test)]
mod checking_tests;
#[cfg(test)]
mod tests;
