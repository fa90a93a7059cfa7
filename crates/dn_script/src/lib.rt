//! Scripts of both forms: their lines as data, and how a text is read as a script, with the first line with which something is
//! wrong and what that is. Fields are separated by blanks and tabs, lines end in a line feed with or without a carriage return,
//! and blank lines and lines that begin with `#` don't count. A script is seen as the list of its lines with their numbers. What such lines
//! are read with (`Words`, `is_plain_text`, `bytes_at` and the like) is there for other texts in this form too.
#![tactic(auto)]

mod context;
mod fields;
mod flaw;
mod judging;
mod laws;
mod line_kinds;
mod line_words;
mod lists;
mod other_rows;
mod parsing;
mod plain;
mod plain_line;
mod rows;
mod script;
mod script_line;
mod words;

pub use fields::{bytes_at, end_of, expect};
pub use flaw::LineFault;
pub use laws::{read_again, spelled};
pub use parsing::{is_comment, is_plain_text, parse_script, without_return};
pub use plain::{PlainScript, plain_script};
pub use plain_line::PlainLine;
pub use script::{Script, ScriptFault};
pub use script_line::{ScriptLine, Twist};
pub use words::Words;
