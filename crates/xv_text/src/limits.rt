//! The numbers of the limits, by which a refusal names them.

/// The number of the limit of the bytes of an input.
pub const LIMIT_OF_INPUT: u8 = 1;
/// The number of the limit of the number of pages.
pub const LIMIT_OF_PAGES: u8 = 2;
/// The number of the limit of the size of a page or block.
pub const LIMIT_OF_SIZE: u8 = 3;
/// The number of the limit of the number of disks.
pub const LIMIT_OF_DISKS: u8 = 4;
/// The number of the limit of the number of blocks of a disk.
pub const LIMIT_OF_BLOCKS: u8 = 5;
/// The number of the limit of the number of all units.
pub const LIMIT_OF_UNITS: u8 = 6;
/// The number of the limit of the bytes of all units.
pub const LIMIT_OF_BYTES: u8 = 7;
/// The number of the limit of the number of streams.
pub const LIMIT_OF_STREAMS: u8 = 8;
/// The number of the limit of the credit.
pub const LIMIT_OF_CREDIT: u8 = 9;
/// The number of the limit of the length of the outbox.
pub const LIMIT_OF_OUTBOX: u8 = 10;
/// The number of the limit of the length of a region.
pub const LIMIT_OF_REGION: u8 = 11;
/// The number of the limit of the number of rounds.
pub const LIMIT_OF_ROUNDS: u8 = 12;
/// The number of the limit of the dirty pages that a stun allows.
pub const LIMIT_OF_DIRTY: u8 = 13;
/// The number of the limit of the history at which a migration is cancelled.
pub const LIMIT_OF_CANCEL: u8 = 14;
/// The number of the limit of the number of lines of planned faults.
pub const LIMIT_OF_FAULTS: u8 = 15;
/// The number of the limit of the numbers of a planned fault.
pub const LIMIT_OF_PLANNED: u8 = 16;
/// The number of the limit of the number of guests.
pub const LIMIT_OF_GUESTS: u8 = 17;
/// The number of the limit of the length of a group.
pub const LIMIT_OF_GROUP: u8 = 18;
/// The number of the limit of the number of events of a handover's script.
pub const LIMIT_OF_EVENTS: u8 = 19;
