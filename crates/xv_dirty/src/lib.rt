// Sets of pages: those that were written since they were sent.
//
// Contracts see a `DirtySet` as a list that says of each page of its range whether it is a member. The layer above
// may rely on this: the least member and the number of members are exact, a page that is given is within the range,
// and only the making takes memory. How the members are kept is no promise: as bits of words, under two levels that
// tell which words have any, so that the least member of a million pages is found by looking at a few words.
#![tactic(auto)]

mod level;
mod set;
mod word;

pub use set::DirtySet;
