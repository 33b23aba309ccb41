//! How long a frame is.

ghost use Rattle.std.specs.Prelude.{◌≡◌, length};
ghost use Rattle.xv_frame.specs.Size.{frame_size};

use crate::codes::HEAD_SIZE;
use crate::groups::decode_group_head;
use crate::heads::{Head, read_head};
use xv_base::{GROUP_FORMAT, Layout};

/// How many bytes the frame has that begins with this head, or none where it begins none.
pub fn frame_size(head: &[u8], layout: &Layout) -> Option<usize>
    requires { length head.now ≡ HEAD_SIZE }
    ensures { result ≡ frame_size layout.now head.now }
{
    if head[0] == GROUP_FORMAT {
        match decode_group_head(head) {
            Ok(group) => Some(HEAD_SIZE + group.bytes as usize),
            Err(_) => None,
        }
    } else {
        match read_head(head, layout) {
            Ok(Head::Unit(unit)) => Some(HEAD_SIZE + layout.size(unit.unit) as usize),
            Ok(Head::Ack(_)) => Some(HEAD_SIZE),
            Err(_) => None,
        }
    }
}
