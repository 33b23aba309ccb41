// The two counts that bound how many messages are under way: the credit that a sender still has, and the
// messages that were written and are not yet acknowledged.
//
// Contracts see a `Credit` as the number that is left and the whole, and a `Freed` as a number. The layer above may
// rely on this: the credit left is never above the whole, and each change is an exact sum.
#![tactic(auto)]

mod credit;
mod freed;

pub use credit::Credit;
pub use freed::Freed;
