//! The fields that lines of text are made of, and how they are read and spelled: numbers in decimal,
//! bytes in hex, members, rounds, slots and words. A line is seen as the list of its fields. Each field and
//! each line has one spelling, and reading and spelling undo each other.
#![tactic(auto)]

mod cutting;
mod fault;
mod fields;
mod hex_text;
mod laws;
mod members;
mod numbers;
mod putting;
mod reading;

pub use cutting::{halves, split};
pub use fault::LineFault;
pub use fields::Fields;
pub use hex_text::{bytes, put_hex};
pub use laws::fields_are_exact;
pub use members::{client, member, server, small};
pub use numbers::{number, put_number, value_of};
pub use putting::{
    add_client, add_hex, add_member, add_number, add_server, add_text, put_client, put_member,
    put_server,
};
pub use reading::{
    bytes_of, client_of, end_of, long_number_of, member_of, number_of, round_of, server_of,
    slot_of, text_of,
};
