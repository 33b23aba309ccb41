// The frames that go over a wire: one message, an acknowledgement, or a group of messages.
//
// A frame is a head of `HEAD_SIZE` bytes and what follows it, with all numbers big-endian. Each frame has one spelling, and no
// spelling is a prefix of another's, so that bytes are the spellings of one list of frames at most. The encoders
// write that spelling; `decode_head` and `check_group` accept spellings alone, and tell the first fault of all other
// bytes. No call takes memory.
#![tactic(auto)]

mod codes;
mod encode;
mod fields;
mod groups;
mod heads;
pub mod laws;
mod size;

pub use codes::{ACK_KIND, CONTENT_MARK, ENTRY_HEAD_SIZE, HEAD_SIZE, MESSAGE_KIND, ZERO_MARK};
pub use encode::{encode_ack, encode_entry, encode_group_head, encode_unit};
pub use groups::{Entry, GroupFault, GroupHead, check_group, decode_entry, decode_group_head};
pub use heads::{FrameFault, Head, decode_head, read_head};
pub use size::frame_size;
pub use xv_base::UnitHead;
