// The driver: what it steps next, and a whole run by it.
//
// The driver tries the events of a job in one fixed order, from a place that moves on with the journal. The layer above may
// rely on this: `next` answers the first event that can act, and none exactly where the run is finished; `finish` steps by
// `next` until then, each of its steps goes on, and it takes no memory.
#![tactic(auto)]

mod finding;
mod finishing;
mod laws;
mod order;

pub use finding::next;
pub use finishing::finish;
pub use laws::{driven_without_faults_switches, finished_runs_are_driven};
