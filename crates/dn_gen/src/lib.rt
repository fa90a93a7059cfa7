//! The large script of a group, as a text that is a function of a number: 48 clients and 3 servers, who talk for three rounds. It is for
//! hosts who try the program, and for measures.
#![tactic(auto)]

mod generating;
mod putting;

pub use generating::script;
