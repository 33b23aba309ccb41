//! Where a block stands against the copy of its disk.

ghost use Rattle.std.specs.Prelude.{◌≡◌, ◌+◌, ◌<◌, ◌^◌};
ghost use Rattle.xv_filter.specs.Sides.{block_side};

use xv_base::Side;

/// The side of a block, where the blocks below the cursor are behind the copy and a region of `length` blocks that
/// begins at the cursor is being copied.
pub fn place(cursor: u32, length: u32, block: u32) -> Side
    requires { cursor + length < 2 ^ 32 }
    ensures { result ≡ block_side cursor length block }
{
    if block < cursor {
        Side::Behind
    } else if block < cursor + length {
        Side::Inside
    } else {
        Side::Ahead
    }
}
