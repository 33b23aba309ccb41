// The destination's half of a migration: the messages that are held, the versions written, those not acknowledged, and
// the device.
//
// Contracts see a `DestHalf` as numbers that are the destination's part of a view, with the contents of the messages, and
// what its device tells. The layer above may rely on this: in whatever migration the half is part of, each call answers
// as the machine does, leaves all as it was where it waits, and else is afterwards the destination's part of the view and
// of the contents that the machine makes; it makes exactly the one call of the device that the event is made of, and
// answers that it failed exactly where that call did. No call but `new` takes memory.
#![tactic(auto)]

mod acknowledging;
mod applying;
mod delivering;
mod dest;
mod guests;

pub use dest::DestHalf;
