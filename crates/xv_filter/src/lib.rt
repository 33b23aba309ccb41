// The filter of a guest's block writes: on which side of the copy a block stands, and the queue in which writes to
// the blocks that are being copied wait.
//
// Contracts see a `Queue` as the list of the writes that wait, in order of joining. The layer above may rely on
// this: each block stands on exactly one side; and no guest waits in a queue twice, so that one place for each
// guest that there may be, which a queue has from the start, is enough.
#![tactic(auto)]

mod queue;
mod side;

pub use queue::Queue;
pub use side::place;
pub use xv_base::Waiting;
