//! What the records of the protocol are: statements, bodies, envelopes and payloads, how each is spelled in bytes and read from them
//! (`specs/Records.antt`), and their copies and comparisons. Contracts see a record as plain data, its list types as lists. Each record
//! has one spelling; numbers are big-endian.
#![tactic(auto)]

mod body;
mod byte_lists;
mod comparing;
mod envelope;
mod fault;
mod inventory;
mod one_spelling;
mod payload;
mod sequence;
mod shown;
mod statement;

pub use body::{Body, Digests, Listed, Rows};
pub use byte_lists::ByteLists;
pub use envelope::Envelope;
pub use fault::RecordFault;
pub use inventory::{Entries, Entry, Inventory};
pub use one_spelling::{fields_are_exact, spelled_once};
pub use payload::Payload;
pub use sequence::{Listable, Sequence};
pub use shown::{ShownCipher, Shows};
pub use statement::{Statement, WordTold};
