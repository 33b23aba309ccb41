// The copy of one disk: how far it is, and the region of blocks that is being copied, with what was read of it.
//
// Contracts see a `Region` as the cursor, the number of blocks in the region (none where there is no region), the
// contents of those that were read, the bytes in the place of the next, the greatest number of blocks in a region,
// and a block's size. The layer above may rely on this: what is written into the lent place of the next block changes
// no block that was read, and the block that is then counted is what was written; only the making takes memory.
#![tactic(auto)]

mod region;

pub use region::Region;
