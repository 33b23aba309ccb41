// What the guests did: the history of ended unit operations, and the unmigrated guest that did the same.
//
// Contracts see a `History` as its log, the list of entries in order and the room that was reserved for them.
// The layer above may rely on this: an entry is appended without memory and nothing else changes the list, and
// the number of a guest's entries is known without a walk over them. They see a `PlainGuest` as its units' contents
// and the bytes read, which are those of the model's unmigrated guest after the whole history.
#![tactic(auto)]

mod history;
mod plain;

pub use history::History;
pub use plain::PlainGuest;
pub use xv_base::{Ended, Outcome};
