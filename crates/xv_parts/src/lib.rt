// A migration in memory: the migration over two devices and some wires in memory, whose calls fail where the job's faults
// name their numbers.
//
// Contracts see it as they see every migration. The layer above may rely on this: it begins as its job says, and from then
// on, whatever happens, exactly the planned calls fail, both sides hold what the unmigrated guest's contents say, unit by
// unit, each read gives that guest's bytes, and each side has counted the writes that the history says.
#![tactic(auto)]

mod beginning;
mod laws;
mod plans;

pub use beginning::{Machine, begin, make_devices, make_wires};
pub use laws::{
    begins_in_memory, planned_calls_fail_alone, reads_are_the_guests, sides_are_the_guests,
    steps_are_planned, steps_stay_in_memory, writes_are_the_guests,
};
