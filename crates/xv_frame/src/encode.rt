//! The spellings of frames.

ghost use Rattle.std.specs.Prelude.{◌≡◌, ◌+◌, ◌<◌, ◌≤◌, ◌++◌, length, drop};
ghost use Rattle.xv_base.specs.Units.{units, size};
ghost use Rattle.xv_frame.specs.Frame.{UnitFrame, message, spelled, ack, group_head, unit_head, entry, entry_head};

use crate::codes::{ACK_KIND, CONTENT_MARK, ENTRY_HEAD_SIZE, HEAD_SIZE, MESSAGE_KIND, ZERO_MARK};
use crate::fields::{all_zero, put};
use xv_base::{GROUP_FORMAT, Layout, MOST_CREDIT, MOST_GROUP, SINGLE_FORMAT, UnitHead};

/// Writes the frame of a message to the start of `into`, and answers how many bytes it has: the head and the
/// unit's content.
pub fn encode_unit(layout: &Layout, head: UnitHead, bytes: &[u8], into: &mut [u8]) -> usize
    requires unit_in { head.unit.0 < units layout.now }
    requires made { 1 ≤ head.version }
    requires whole { length bytes.now ≡ size layout.now head.unit.0 }
    requires room { HEAD_SIZE + length bytes.now ≤ length into.old }
    ensures count { result ≡ HEAD_SIZE + length bytes.now }
    ensures spelled { into.new ≡ spelled (UnitFrame (message head bytes.now)) ++ drop result into.old }
{
    let at = put_unit_head(head, layout.size(head.unit), into);
    put(into, at, bytes)
}

/// Writes an acknowledgement of `count` messages, from 1 to `MOST_CREDIT`.
pub fn encode_ack(count: u32, into: &mut [u8; HEAD_SIZE])
    requires some { 1 ≤ count }
    requires few { count ≤ MOST_CREDIT }
    ensures { into.new ≡ ack count }
{
    put_ack(count, into);
}

/// Writes the head of a group of `count` messages, from 1 to `MOST_GROUP`, whose entries have so many bytes.
pub fn encode_group_head(count: u32, bytes: u32, into: &mut [u8; HEAD_SIZE])
    requires some { 1 ≤ count }
    requires few { count ≤ MOST_GROUP }
    ensures { into.new ≡ group_head count bytes }
{
    put_group_head(count as u16, bytes, into);
}

/// Writes one message of a group to the start of `into`, and answers how many bytes it has: the head of an
/// entry alone where the content is all zero, and else the content too.
pub fn encode_entry(layout: &Layout, head: UnitHead, bytes: &[u8], into: &mut [u8]) -> usize
    requires unit_in { head.unit.0 < units layout.now }
    requires made { 1 ≤ head.version }
    requires whole { length bytes.now ≡ size layout.now head.unit.0 }
    requires room { ENTRY_HEAD_SIZE + length bytes.now ≤ length into.old }
    ensures count { result ≡ length (entry (message head bytes.now)) }
    ensures few { result ≤ ENTRY_HEAD_SIZE + length bytes.now }
    ensures spelled { into.new ≡ entry (message head bytes.now) ++ drop result into.old }
{
    if all_zero(bytes) {
        put_entry_head(head, ZERO_MARK, into)
    } else {
        let at = put_entry_head(head, CONTENT_MARK, into);
        put(into, at, bytes)
    }
}

fn put_unit_head(head: UnitHead, size: u32, into: &mut [u8]) -> usize
    requires { HEAD_SIZE ≤ length into.old }
    ensures end { result ≡ HEAD_SIZE }
    ensures written { into.new ≡ unit_head head size ++ drop HEAD_SIZE into.old }
{
    let mut at = put(into, 0, &[SINGLE_FORMAT, MESSAGE_KIND, 0, 0]);
    at = put(into, at, &head.unit.0.to_be_bytes());
    at = put(into, at, &head.version.to_be_bytes());
    at = put(into, at, &size.to_be_bytes());
    put(into, at, &head.at.to_be_bytes())
}

fn put_ack(count: u32, into: &mut [u8])
    requires { length into.old ≡ HEAD_SIZE }
    ensures { into.new ≡ ack count }
{
    let mut at = put(into, 0, &[SINGLE_FORMAT, ACK_KIND, 0, 0, 0, 0, 0, 0]);
    at = put(into, at, &count.to_be_bytes());
    put(into, at, &[0; 12]);
}

fn put_group_head(count: u16, bytes: u32, into: &mut [u8])
    requires { length into.old ≡ HEAD_SIZE }
    ensures { into.new ≡ group_head count bytes }
{
    let mut at = put(into, 0, &[GROUP_FORMAT, MESSAGE_KIND]);
    at = put(into, at, &count.to_be_bytes());
    at = put(into, at, &bytes.to_be_bytes());
    put(into, at, &[0; 16]);
}

fn put_entry_head(head: UnitHead, mark: u8, into: &mut [u8]) -> usize
    requires { ENTRY_HEAD_SIZE ≤ length into.old }
    ensures end { result ≡ ENTRY_HEAD_SIZE }
    ensures written { into.new ≡ entry_head head mark ++ drop ENTRY_HEAD_SIZE into.old }
{
    let mut at = put(into, 0, &head.unit.0.to_be_bytes());
    at = put(into, at, &head.version.to_be_bytes());
    at = put(into, at, &head.at.to_be_bytes());
    put(into, at, &[mark, 0, 0, 0])
}
