// What has to hold of a run in which planned calls of devices and wires fail, and tests of each call of some jobs that fails
// by itself, and of each two together. They stand apart so that the driver is not proved again for them.
//
// The crates above may ask here whether the calls of a run have failed as its job plans, whether it has ended as its answers
// make it end, and whether the guests' owner holds what the same guests leave without a migration.
#![tactic(auto)]

mod calls;
#[cfg(test)]
mod cases;
#[cfg(test)]
mod pair_tests;
mod phases;
mod plain;
#[cfg(test)]
mod runs;
#[cfg(test)]
mod single_tests;

pub use calls::{Call, calls_of, count_of, fails_as_planned, faults};
pub use phases::ends;
pub use plain::agrees;
