//! The numbers of the spelling: how many bytes its parts have, and its codes.

/// Bytes of the head that each frame begins with. An acknowledgement is a head alone.
pub const HEAD_SIZE: usize = 24;
/// Bytes of an entry of a group before its content.
pub const ENTRY_HEAD_SIZE: usize = 20;

/// The kind of a frame of messages.
pub const MESSAGE_KIND: u8 = 1;
/// The kind of an acknowledgement.
pub const ACK_KIND: u8 = 2;

/// The mark of an entry whose content follows.
pub const CONTENT_MARK: u8 = 0;
/// The mark of an entry whose content is all zero, and left out.
pub const ZERO_MARK: u8 = 1;
