// Progress without waiting: four numbers that one publisher raises and any number of readers read, by single
// atomic steps on four words.
//
// Contracts see a `Progress` as the identity of its words, and a `Publisher` and a `Reader` as the identity of the
// words that it belongs to and the numbers that it last published or saw. The layer above may rely on this: no
// number that a reader gets is below what it has seen, history and applied together are never above the journal,
// and what one reader has seen another one gets by `join`. How new the numbers are to a reader that was told
// nothing is not promised. Every step is sequentially consistent, no call waits, and none but
// `Progress::new` takes memory.
#![tactic(auto)]

mod numbers;
mod passes;
mod progress;
mod words;

pub use numbers::Numbers;
pub use passes::{Publisher, Reader};
pub use progress::Progress;
