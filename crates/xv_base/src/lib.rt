// The plain data that every crate of the repository speaks of: units and their layout, patterns,
// operations, events and their answers, faults, limits, statuses, lines of text.
//
// Contracts see a `Layout` as its shape, a `Pattern` and a `LineBuf` as their bytes, and `PlannedCalls` as a plan with
// what it counts; every other type here is seen as its fields. All but `PlannedCalls` are plain values that can be
// copied, and take no memory. The layer above may rely on this: a shape that a layout has is good (each accessor says
// so), and of every good shape the laws hold. Its numbers are within the limits; its units, the pages and then the
// blocks of each disk, lie one after another over all bytes; each unit past the pages is one block of one disk; and
// some unit has the greatest size.
#![tactic(auto)]

mod answer;
mod calls;
mod disks;
mod event;
mod laws;
mod layout;
mod limits;
mod operation;
mod pattern;
mod status;
mod text;
mod unit;

pub use answer::{Cause, Entry, Note, Turn, Why};
pub use calls::{PlannedCalls, is_listed, one_more};
pub use event::{Event, Phase, Probe, Side, Totals};
pub use laws::{
    greatest_size_is_had, layouts_keep_limits, units_number_blocks, units_partition_bytes,
};
pub use layout::{Layout, LayoutFault};
pub use limits::{
    Config, Fault, GROUP_FORMAT, LEAST_SIZE, MOST_BYTES, MOST_CREDIT, MOST_DIRTY, MOST_DISKS,
    MOST_FAULTS, MOST_GROUP, MOST_GUESTS, MOST_INPUT, MOST_MADE, MOST_OPERATIONS, MOST_OUTBOX,
    MOST_PATTERN, MOST_REGION, MOST_ROUNDS, MOST_SIZE, MOST_STREAMS, MOST_UNITS, MOST_WORLD_EVENTS,
    SINGLE_FORMAT,
};
pub use operation::{Ended, Outcome, UnitHead, Waiting};
pub use pattern::{Init, Pattern, UnitOp};
pub use status::Status;
pub use text::{LineBuf, LineFault, LineWhy, TextError};
pub use unit::{DiskShape, Failed, GuestId, NoMemory, UnitId};
