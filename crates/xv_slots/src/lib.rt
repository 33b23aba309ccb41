// Slots of bytes: places of one size, side by side in one block of memory.
//
// Contracts see a `Slots` as its width and the list of what its slots hold, each as many bytes as the width. The
// layer above may rely on this: bytes put into a slot change its first bytes and no other slot, and a part is lent
// as it lies there. All memory is taken by `new`.
#![tactic(auto)]

mod slots;

pub use slots::Slots;
