//! The corrupt members of a run. Each has a puppet: the same core as an honest member, called by a script's lines and by the messages that
//! reach the member, whose posts a script can change. What puppets put is handed out as injections, in order, one for each receiver.
//!
//! A twist waits for its member's next post of its kind and is then spent; a post spends only the first waiting twist of its kind. A changed
//! statement is signed anew at the next leaf, after all that the core signed in that call.
#![tactic(auto)]

mod accusing;
mod acts;
mod client_core;
mod client_puppet;
mod completing;
mod injection;
mod jamming;
mod luring;
mod puppets;
mod server_core;
mod server_puppet;
mod servers;
mod speaking;
mod statements;
mod submitting;
mod twisting;
mod waiting;
mod watch;

pub use injection::Injection;
pub use puppets::Puppets;
pub use server_core::ServerCall;
