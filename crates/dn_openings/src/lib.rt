//! What a server does where a slot's owner accuses: it opens its pads, keeps the openings of others, and challenges clients.
//!
//! `hear` takes what was said by others than servers in a round that runs: accusations, openings of servers, and answers of clients. Its
//! contract is exact: `specs/Hearing.antt` says what a server answers to each and what it is afterwards, `specs/Accusing.antt` when and
//! how it opens a place, and `specs/Challenging.antt` whom it challenges. `specs/Open.antt` says what a server keeps true of its openings,
//! and `specs/Discipline.antt` what holds of all openings that it ever signed; the laws are public functions. Servers are seen as in the
//! crate of what servers share.
#![tactic(auto)]

mod accusing;
mod evidence;
mod hearing;
mod keeping;
mod laws;
mod looking;
mod opening;
mod pads;

pub use evidence::hear;
pub use laws::{openings_keep_discipline, openings_stay, shown_ciphertexts_fit};
