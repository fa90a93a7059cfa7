//! The slots of a round and their blocks. Contracts see a layout as the list of its slots' lengths in bytes, 0 for a closed slot, and a
//! block as its bytes; `specs/Layout.antt` says where a slot lies and which lengths follow on an output, `specs/Block.antt` what a
//! block's bytes are and what bytes are read as.
#![tactic(auto)]

mod laws;
mod layout;
mod mask;
mod plain;
mod reading;
mod writing;

pub use laws::{block_round_trip, blocks_fill_their_slots, ranges_part_the_round, slots_stay};
pub use layout::Layout;
pub use reading::{Block, read_block};
pub use writing::{BlockFault, block};

#[cfg(test)]
mod tests;
