//! Scripts of groups, run: each line of a script gives events, the world carries them out, and the puppets of the corrupt members do what
//! is asked of them. A race and a live run are handed to a crew, and the events follow the order in which its threads met. `specs/Play.antt`
//! says which runs a script can come to.
#![tactic(auto)]

mod acting;
mod building;
mod corrupting;
mod delivering;
mod expanding;
mod living;
mod members;
mod playing;
mod racing;
mod run;

pub use playing::play;
