//! What all rules of a server speak of: what it does and answers, what it keeps of its rounds, and its key at work.
//!
//! Contracts see a server as a `ServerView` (`specs/Server.antt`): its place in the group, its chain, the record of the round that it
//! opened last, what it keeps of bodies that it signed and of openings, and all that its key ever signed. `Parts` are what a server is
//! made of. What justifies a signed body is in `specs/Justified.antt`.
#![tactic(auto)]

mod act;
mod answer;
mod claims;
mod identity;
mod kept;
mod parts;
mod past;
mod places;
mod run;
mod saying;

pub use act::{Act, Acts, SpoilReason};
pub use answer::{Answer, Reason, does_one};
pub use claims::{Claim, Claims};
pub use identity::Identity;
pub use kept::{Kept, RoundKind};
pub use parts::Parts;
pub use past::{Past, Pasts};
pub use places::{Place, Places};
pub use run::{Run, Stage, Sum};
pub use saying::{end_run, other_servers, plain_payload, post, say, spoil};
