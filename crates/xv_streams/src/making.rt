//! The frame of a group while it is being made: entries behind the place of its head.

ghost use Rattle.std.specs.Prelude.{◌≡◌, ◌+◌, ◌-◌, ◌^◌, ◌<◌, ◌≤◌, ◌++◌, length, take, drop};
ghost use Rattle.xv_base.specs.Units.{units, size};
ghost use Rattle.xv_frame.specs.Frame.{message, entry, group_head};

use xv_base::{Layout, MOST_GROUP, UnitHead};
use xv_frame::{ENTRY_HEAD_SIZE, HEAD_SIZE, encode_entry, encode_group_head};

/// Writes the entry of a message from `end` on, and answers where it ends.
pub fn add_entry(
    layout: &Layout,
    head: UnitHead,
    bytes: &[u8],
    frame: &mut [u8],
    end: usize,
) -> usize
    requires unit_in { head.unit.0 < units layout.now }
    requires made { 1 ≤ head.version }
    requires whole { length bytes.now ≡ size layout.now head.unit.0 }
    requires room { end + (ENTRY_HEAD_SIZE + length bytes.now) ≤ length frame.old }
    ensures end { result ≡ end + length (entry (message head bytes.now)) }
    ensures added { frame.new ≡ take end frame.old ++ (entry (message head bytes.now) ++ drop result frame.old) }
{
    end + encode_entry(layout, head, bytes, &mut frame[end..])
}

/// Writes the head of a group of so many messages, whose entries end at `end`.
pub fn put_head(count: u32, end: usize, frame: &mut [u8])
    requires some { 1 ≤ count }
    requires few { count ≤ MOST_GROUP }
    requires begun { HEAD_SIZE ≤ end }
    requires short { end < 2 ^ 32 }
    requires room { HEAD_SIZE ≤ length frame.old }
    ensures { frame.new ≡ group_head count (end - HEAD_SIZE) ++ drop HEAD_SIZE frame.old }
{
    let mut head = [0; HEAD_SIZE];
    encode_group_head(count, (end - HEAD_SIZE) as u32, &mut head);
    frame[..HEAD_SIZE].copy_from_slice(&head);
}
