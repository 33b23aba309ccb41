// Where bytes come from and where they go: the traits of a source and a sink, both in memory and over std, and
// the two calls that take a whole input and write a whole text.
//
// Contracts see a source as the bytes that are left, where it tells them, and a sink as the bytes taken, where
// it tells them, each beside a count of faults, and a sink also as whether it keeps something back. The layer
// above may rely on this: an input comes whole or not at all, and at most one byte past its limit is taken; a
// text that is not written whole has left a front of itself; a count of faults rises exactly where a fault is
// answered; and a flush that does not fail leaves nothing kept back.
#![tactic(auto)]

mod memory;
mod reading;
mod sink;
mod source;
mod standard;
mod writing;

pub use memory::{MemSink, MemSource};
pub use reading::{ReadAll, read_all};
pub use sink::Sink;
pub use source::Source;
pub use standard::{StdSink, StdSource};
pub use writing::{WriteFault, write_text};
