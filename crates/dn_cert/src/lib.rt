//! Who counts in a round, what a certificate is, and how rounds hang together; and the rules by which accusations and rebuttals
//! are judged.
//!
//! `trim` makes one list of the inventories of all servers. `check` reads a payload as a certificate under a roster: a body that
//! every server signed; `certify` makes one of signatures that are known to verify. `open_payload` opens a payload of any kind,
//! with all that it carries. A `Chain` holds the bodies of certificates by their rounds, each after that of its prev, with the
//! layout after each round, and asks each to be thin exactly where the floor of `is_due_thin` says so. `Rules` says when an
//! accusation holds and when a rebuttal is good. `specs/` has a definition for each of these, and the laws are public functions.
#![tactic(auto)]

mod certificate;
mod certifying;
mod chain;
mod chain_laws;
mod checking;
mod entry;
mod fault;
mod floor;
mod held;
mod hold_fault;
mod making;
mod opened;
mod opening;
mod payload_fault;
mod rules;
mod shown;
mod trim_laws;
mod trimming;

pub use certificate::Certificate;
pub use certifying::certify;
pub use chain::Chain;
pub use chain_laws::{
    chains_agree, counts_are_of_bodies, layout_is_one, layouts_have_all_slots,
    thin_rounds_give_nothing, what_is_held_stays,
};
pub use checking::check;
pub use entry::entry_verifies;
pub use fault::CertFault;
pub use floor::is_due_thin;
pub use hold_fault::HoldFault;
pub use making::make_body;
pub use opened::Opened;
pub use opening::open_payload;
pub use payload_fault::PayloadFault;
pub use rules::{Invalid, Rules, Valid};
pub use shown::{bit_in, shown_bit};
pub use trim_laws::{servers_part_the_list, trims_are_one, trims_follow_inventories};
pub use trimming::{list_with, trim};

#[cfg(test)]
mod opening_tests;
#[cfg(test)]
mod tests;
#[cfg(test)]
mod trimming_tests;
