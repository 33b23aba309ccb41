//! The limits that all texts, sizes and counts keep; the numbers of a job, and the calls that are to fail in it.

/// Units that a machine has at most, over its pages and all blocks.
pub const MOST_UNITS: u32 = 1 << 20;
/// Bytes that all units have at most together.
pub const MOST_BYTES: u32 = 1 << 29;
/// The least and the greatest number of bytes of a page or block; each size is a power of two.
pub const LEAST_SIZE: u32 = 16;

pub const MOST_SIZE: u32 = 4096;
/// Disks that a machine has at most.
pub const MOST_DISKS: u8 = 4;
/// Streams that a job has at most.
pub const MOST_STREAMS: u8 = 8;
/// Messages that may be on the streams and held together, at most; so is the count of an acknowledgement.
pub const MOST_CREDIT: u32 = 1024;
/// Messages that an outbox holds at most.
pub const MOST_OUTBOX: u32 = 1024;
/// Blocks that a region has at most.
pub const MOST_REGION: u32 = 256;
/// Rounds of pages that a job has at most.
pub const MOST_ROUNDS: u32 = 64;
/// Dirty pages that a stun may allow at most.
pub const MOST_DIRTY: u32 = 1 << 20;
/// Messages that a group has at most.
pub const MOST_GROUP: u8 = 16;
/// Guests that a job has at most.
pub const MOST_GUESTS: u8 = 16;
/// Lines of planned faults that a job has at most.
pub const MOST_FAULTS: u32 = 32;
/// Unit operations that a job's guests have at most together.
pub const MOST_OPERATIONS: u32 = 1 << 20;
/// Bytes that a pattern has at most, and that an operation reads at most.
pub const MOST_PATTERN: u32 = 64;
/// Bytes that an input has at most.
pub const MOST_INPUT: u32 = 67_108_864;
/// Events that a script of a handover has at most.
pub const MOST_WORLD_EVENTS: u32 = 65_536;
/// The greatest number that a made job has.
pub const MOST_MADE: u32 = 65_535;

/// The job format in which messages go one a time, and rounds begin once the disks are copied.
pub const SINGLE_FORMAT: u8 = 1;
/// The job format in which messages go in groups, and rounds go on beside the copy.
pub const GROUP_FORMAT: u8 = 2;

/// The limits of a job.
#[derive(Clone, Copy, Debug, PartialEq, Eq)]
pub struct Config {
    /// How many streams carry messages.
    pub streams: u8,
    /// How many messages may be on the streams and held together.
    pub credit: u32,
    /// How many messages the outbox holds at most.
    pub outbox: u32,
    /// The greatest number of blocks in a region.
    pub region: u32,
    /// How many rounds of pages there may be.
    pub rounds: u32,
    /// How many dirty pages the stun allows before the last round.
    pub dirty: u32,
    /// The length of the history at which the migration is to be cancelled.
    pub cancel: Option<u32>,
}

/// A call that fails; the last number is that of the call among its kind, from 1.
#[derive(Clone, Copy, Debug, PartialEq, Eq)]
pub enum Fault {
    SourceRead(u32),
    SourceWrite(u32),
    DestRead(u32),
    DestWrite(u32),
    Flush(u32),
    Put(u8, u32),
    Take(u8, u32),
    AckPut(u32),
    AckTake(u32),
}
