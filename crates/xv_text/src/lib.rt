//! A text as lines, a line as fields, and the fields of a line read by their kinds; and lines that are written.
//! Texts are bytes, since what is read may hold any.
//!
//! Contracts see `Fields` as a list of fields, and a `Row` as its numbers and its bytes. Nothing here takes memory
//! but the two calls that append a line and what a table takes, and each byte of a text is passed over a few times. The layer above may
//! rely on this: a line of fields without spaces and line feeds is taken apart into the same fields, a text without
//! bytes behind its last line feed is its lines put together, fields that are read without a fault are the one
//! spelling of what they say, and lines that are read by a table, a `ReadsLines`, are refused by the first faulty one.

#![tactic(auto)]

mod digits;
mod fields;
mod limits;
mod lines;
mod print;
mod reading;
mod row;
mod words;

pub use fields::{Fields, first_field};
pub use limits::{
    LIMIT_OF_BLOCKS, LIMIT_OF_BYTES, LIMIT_OF_CANCEL, LIMIT_OF_CREDIT, LIMIT_OF_DIRTY,
    LIMIT_OF_DISKS, LIMIT_OF_EVENTS, LIMIT_OF_FAULTS, LIMIT_OF_GROUP, LIMIT_OF_GUESTS,
    LIMIT_OF_INPUT, LIMIT_OF_OUTBOX, LIMIT_OF_PAGES, LIMIT_OF_PLANNED, LIMIT_OF_REGION,
    LIMIT_OF_ROUNDS, LIMIT_OF_SIZE, LIMIT_OF_STREAMS, LIMIT_OF_UNITS,
};
pub use lines::next_line;
pub use print::{push_line, push_line_with};
pub use reading::{Place, ReadsLines, Stop, at_line, read_lines};
pub use row::{Kind, Row, read_fields};
pub use words::{TextWord, first_spelled, is_spelled};
