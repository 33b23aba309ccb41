// Messages in frames over some wires, and acknowledgements over one back.
//
// Contracts see each stream as the list of its groups of messages, in order, beside what its wire tells and the bytes that
// were gathered of a frame that is not whole yet: the bytes gathered and those in transit are the spellings of the groups.
// In format 1 each group is one message, in format 2 it has at most `MOST_GROUP`, which are added one after another and sent
// together. The layer above may rely on this: a send appends a group, a receipt takes the first one off, a call that fails
// changes no list, and no call of one stream touches another. Only `Streams::new` takes memory.
#![tactic(auto)]

mod back;
mod filling;
mod framing;
mod lane;
mod making;
mod received;
mod streams;

pub use back::BackWire;
pub use streams::Streams;
