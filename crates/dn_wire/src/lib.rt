//! What all formats are made of: the numbers of members, slots and rounds, the limits that all
//! crates share, lists of bytes and of members, and the reading and writing of single fields.
//! Numbers are big-endian. A reader is seen as a place and the bytes from that place on.
#![tactic(auto)]

mod bytes;
mod ids;
mod limits;
mod members;
mod reader;
mod writing;

pub use bytes::Bytes;
pub use ids::{ClientId, Member, Round, ServerId, SignerId, SlotId};
pub use limits::{
    MAX_BITS, MAX_CARRIED_BYTES, MAX_CLIENTS, MAX_FLIGHT, MAX_FLOW, MAX_LIVE_TURNS, MAX_RACE_LIST,
    MAX_RACE_WORKERS, MAX_REPORT_BYTES, MAX_ROUND, MAX_SCRIPT_BYTES, MAX_SCRIPT_LINES, MAX_SERVERS,
    MAX_SLOT_BYTES, MAX_STATEMENT_BYTES, MAX_TEXT, MAX_TICKS, MIN_SLOT_BYTES,
};
pub use members::MemberList;
pub use reader::{FieldFault, Reader};
pub use writing::{put_bytes, put_signer, put_u8, put_u16, put_u32, put_u64};

#[cfg(test)]
mod tests;
