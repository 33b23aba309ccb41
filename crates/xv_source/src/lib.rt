// The source's half of a migration: the copy of each disk, the queues of writes that wait for it, the pages and their
// rounds, the messages made and not sent, the credit, and the device.
//
// Contracts see a `SourceHalf` as numbers that are the source's part of a view, with the contents of the blocks read and
// of the messages, and what its device tells. The layer above may rely on this: in whatever migration the half is part
// of, each call answers as the machine does, leaves all as it was where it waits, and else is afterwards the source's
// part of the view and of the contents that the machine makes; it makes exactly the one call of the device that the
// event is made of, and answers that it failed exactly where that call did. No call but `new` takes memory.
#![tactic(auto)]

mod copies;
mod copying;
mod disk;
mod guests;
mod messages;
mod pages;
mod pairing;
mod parts;
mod sending;
mod source;
mod waiting;

pub use source::SourceHalf;
