// The outbox: the messages that were made and not sent yet, in order, each with its content.
//
// Contracts see an `Outbox` as its layout, its limit, the list of its messages and, for each unit, how many versions
// were issued. The layer above may rely on this: a message is appended with its unit's next version and its content,
// none is lost but by `take`, which takes the front, and there are never more than the limit. All memory is taken by
// `new`.
#![tactic(auto)]

mod outbox;

pub use outbox::Outbox;
pub use xv_base::UnitHead;
