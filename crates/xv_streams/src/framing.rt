//! Frames off a wire.

ghost use Rattle.std.specs.Prelude.{◌≡◌, ◌≤◌, length, take, true, Some, is_some};
ghost use Rattle.xv_base.specs.Layout.{IsGood};
ghost use Rattle.xv_frame.specs.Size.{frame_size};
ghost use Rattle.xv_streams.specs.Lanes.{IsLane, FrameTaken};

use crate::filling::{Filled, fill};
use xv_base::Layout;
use xv_frame::{HEAD_SIZE, frame_size};
use xv_wire::Wire;

/// Gathers the first frame on the way behind the first `have` bytes of the buffer. No byte is gathered where no take
/// failed and there is no frame.
pub fn fill_frame<W: Wire>(wire: &mut W, buffer: &mut [u8], have: usize, layout: &Layout) -> Filled
    requires good { IsGood layout.now }
    requires room { HEAD_SIZE ≤ length buffer.old }
    requires within { have ≤ length buffer.old }
    requires lane { IsLane layout.now (length buffer.old) (take have buffer.old) (W.told wire.old).transit }
    ensures within { result.count ≤ length buffer.new }
    ensures taken { FrameTaken layout.now (take have buffer.old) (take result.count buffer.new) result.failed (W.told wire.old) (W.told wire.new) (W.faults wire.old) (W.faults wire.new) }
{
    let head = fill(wire, buffer, have, have.max(HEAD_SIZE));
    if head.failed {
        return head;
    }
    if head.count < HEAD_SIZE {
        return head;
    }
    let size = known_size(&buffer[..HEAD_SIZE], layout);
    fill(wire, buffer, head.count, size)
}

/// How many bytes the frame has that this head begins.
fn known_size(head: &[u8], layout: &Layout) -> usize
    requires long { length head.now ≡ HEAD_SIZE }
    requires known { is_some (frame_size layout.now head.now) ≡ true }
    ensures { frame_size layout.now head.now ≡ Some result }
{
    match frame_size(head, layout) {
        Some(size) => size,
        None => unreachable!(),
    }
}
