//! What the bytes of a group of messages say.

ghost use Rattle.std.specs.Prelude.{◌≡◌, ◌+◌, ◌<◌, ◌≤◌, ◌^◌, length, IfOk, IfErr, Some, None, if◌then◌else◌};
ghost use Rattle.xv_base.specs.Units.{units, size};
ghost use Rattle.xv_frame.specs.Faults.{group_head_fault, entry_fault, content_fault, entries_fault, read_group, group_fault};
ghost use Rattle.xv_frame.specs.Reading.{front_group, entry_numbers, entry_size, is_marked};
ghost use Rattle.xv_frame.specs.Fields.{short_at, word_at};
ghost use Rattle.xv_frame.specs.Frame.{IsGroup, GroupFrame, spelled};

use crate::codes::{ENTRY_HEAD_SIZE, HEAD_SIZE, MESSAGE_KIND, ZERO_MARK};
use crate::fields::{is_zero, long_at, short_at, word_at};
use xv_base::{GROUP_FORMAT, Layout, MOST_GROUP, UnitHead, UnitId};

/// Why bytes are no group, the first of these as one reads on.
#[derive(Clone, Copy, Debug, PartialEq, Eq)]
pub enum GroupFault {
    /// The head, an entry or its content is not whole.
    Short,
    /// The format is not that of groups.
    BadFormat,
    /// The kind is not that of messages.
    BadKind,
    /// The number of entries is 0, or above `MOST_GROUP`.
    BadCount,
    /// A byte that is kept for later is not zero.
    NotZero,
    /// The length is not the number of bytes after the head.
    BadLength,
    /// The unit of an entry is none of the layout.
    BadUnit,
    /// The version of an entry is 0.
    BadVersion,
    /// The mark of an entry is above 1, or 0 before a content that is all zero.
    BadMark,
    /// Bytes are left after the last entry.
    Long,
}

/// How many entries a group has, and how many bytes they have.
#[derive(Clone, Copy, Debug, PartialEq, Eq)]
pub struct GroupHead {
    pub count: u16,
    pub bytes: u32,
}

/// The numbers of one message of a group, and whether its content is all zero and left out.
#[derive(Clone, Copy, Debug, PartialEq, Eq)]
pub struct Entry {
    pub head: UnitHead,
    pub zero: bool,
}

/// Checks that the bytes are one group, and answers how many messages it has.
/// Errors: the first fault of the bytes.
pub fn check_group(bytes: &[u8], layout: &Layout) -> Result<u32, GroupFault>
    ensures exactly { result ≡ read_group layout.now bytes.now }
    ensures group { IfOk result (λ count. IsGroup layout.now (front_group layout.now bytes.now) × (length (front_group layout.now bytes.now) ≡ count)) }
    ensures spelled { IfOk result (λ _. bytes.now ≡ spelled (GroupFrame (front_group layout.now bytes.now))) }
{
    read_group(bytes, layout)
}

fn read_group(bytes: &[u8], layout: &Layout) -> Result<u32, GroupFault>
    ensures { result ≡ read_group layout.now bytes.now }
{
    let head = decode_group_head(bytes)?;
    if head.bytes as usize != bytes.len() - HEAD_SIZE {
        return Err(GroupFault::BadLength);
    }
    match entries_fault(layout, head.count, &bytes[HEAD_SIZE..]) {
        Some(fault) => Err(fault),
        None => Ok(u32::from(head.count)),
    }
}

/// Reads the head of the group that the bytes begin with.
/// Errors: the first fault of the head by itself.
pub fn decode_group_head(bytes: &[u8]) -> Result<GroupHead, GroupFault>
    ensures fault { IfErr result (λ fault. group_head_fault bytes.now ≡ Some fault) }
    ensures sound { IfOk result (λ _. group_head_fault bytes.now ≡ None) }
    ensures count { IfOk result (λ head. head.count ≡ short_at bytes.now 2) }
    ensures follow { IfOk result (λ head. head.bytes ≡ word_at bytes.now 4) }
{
    if bytes.len() < HEAD_SIZE {
        return Err(GroupFault::Short);
    }
    if bytes[0] != GROUP_FORMAT {
        return Err(GroupFault::BadFormat);
    }
    if bytes[1] != MESSAGE_KIND {
        return Err(GroupFault::BadKind);
    }
    let count = short_at(bytes, 2);
    if count == 0 || count > u16::from(MOST_GROUP) {
        return Err(GroupFault::BadCount);
    }
    if !is_zero(bytes, 8, 16) {
        return Err(GroupFault::NotZero);
    }
    Ok(GroupHead {
        count,
        bytes: word_at(bytes, 4),
    })
}

/// Reads the entry that the bytes begin with.
/// Errors: the first fault of the entry.
pub fn decode_entry(layout: &Layout, bytes: &[u8]) -> Result<Entry, GroupFault>
    ensures fault { IfErr result (λ fault. entry_fault layout.now bytes.now ≡ Some fault) }
    ensures sound { IfOk result (λ _. entry_fault layout.now bytes.now ≡ None) }
    ensures head { IfOk result (λ it. it.head ≡ entry_numbers bytes.now) }
    ensures zero { IfOk result (λ it. it.zero ≡ is_marked bytes.now) }
    ensures unit_in { IfOk result (λ it. it.head.unit.0 < units layout.now) }
    ensures fits { IfOk result (λ _. entry_size layout.now bytes.now ≤ length bytes.now) }
{
    if bytes.len() < ENTRY_HEAD_SIZE {
        return Err(GroupFault::Short);
    }
    let head = entry_numbers(bytes);
    if head.unit.0 >= layout.units() {
        return Err(GroupFault::BadUnit);
    }
    if head.version == 0 {
        return Err(GroupFault::BadVersion);
    }
    if bytes[16] > ZERO_MARK {
        return Err(GroupFault::BadMark);
    }
    if !is_zero(bytes, 17, 3) {
        return Err(GroupFault::NotZero);
    }
    if bytes[16] == ZERO_MARK {
        return Ok(Entry { head, zero: true });
    }
    match content_fault(bytes, layout.size(head.unit)) {
        Some(fault) => Err(fault),
        None => Ok(Entry { head, zero: false }),
    }
}

/// The numbers of the entry that the bytes begin with.
fn entry_numbers(bytes: &[u8]) -> UnitHead
    requires { ENTRY_HEAD_SIZE ≤ length bytes.now }
    ensures { result ≡ entry_numbers bytes.now }
{
    UnitHead {
        unit: UnitId(word_at(bytes, 0)),
        version: word_at(bytes, 4),
        at: long_at(bytes, 8),
    }
}

/// What is wrong with the content of an entry that has one.
fn content_fault(bytes: &[u8], size: u32) -> Option<GroupFault>
    requires { ENTRY_HEAD_SIZE ≤ length bytes.now }
    ensures { result ≡ content_fault size bytes.now }
{
    let end = ENTRY_HEAD_SIZE + size as usize;
    if bytes.len() < end {
        return Some(GroupFault::Short);
    }
    if is_zero(bytes, ENTRY_HEAD_SIZE, size as usize) {
        return Some(GroupFault::BadMark);
    }
    None
}

/// What is wrong with so many entries, after which nothing may be left.
fn entries_fault(layout: &Layout, count: u16, bytes: &[u8]) -> Option<GroupFault>
    ensures { result ≡ entries_fault layout.now count bytes.now }
{
    let mut at = 0;
    let mut left = count;
    while left > 0 {
        match decode_entry(layout, &bytes[at..]) {
            Ok(entry) => at += entry_size(layout, entry),
            Err(fault) => return Some(fault),
        }
        left -= 1;
    }
    if at < bytes.len() {
        return Some(GroupFault::Long);
    }
    None
}

/// How many bytes an entry has.
fn entry_size(layout: &Layout, entry: Entry) -> usize
    requires { entry.head.unit.0 < units layout.now }
    ensures { result ≡ (if entry.zero then ENTRY_HEAD_SIZE else ENTRY_HEAD_SIZE + size layout.now entry.head.unit.0) }
{
    if entry.zero {
        ENTRY_HEAD_SIZE
    } else {
        ENTRY_HEAD_SIZE + layout.size(entry.head.unit) as usize
    }
}
