//! What the bytes of a head say.

ghost use Rattle.std.specs.Prelude.{◌≡◌, ◌≤◌, length, IfOk};
ghost use Rattle.xv_frame.specs.Faults.{read_head, unit_fault, ack_fault, head_or};
ghost use Rattle.xv_frame.specs.Reading.{front_head};
ghost use Rattle.xv_frame.specs.Fields.{word_at};
ghost use Rattle.xv_frame.specs.Heads.{IsHead, IsOfLayout, head_spelled};

use crate::codes::{ACK_KIND, HEAD_SIZE, MESSAGE_KIND};
use crate::fields::{is_zero, long_at, word_at};
use xv_base::{Layout, MOST_CREDIT, SINGLE_FORMAT, UnitHead, UnitId};

/// The head of a frame: of a message, or an acknowledgement of so many messages.
#[derive(Clone, Copy, Debug, PartialEq, Eq)]
pub enum Head {
    Unit(UnitHead),
    Ack(u32),
}

/// Why bytes are no head, the first of these in this order.
#[derive(Clone, Copy, Debug, PartialEq, Eq)]
pub enum FrameFault {
    /// The format is not that of single messages.
    BadFormat,
    /// The kind is neither a message nor an acknowledgement.
    BadKind,
    /// A byte that is kept for later is not zero.
    NotZero,
    /// The unit is none of the layout.
    BadUnit,
    /// The version is 0.
    BadVersion,
    /// The length is not the unit's size.
    BadLength,
    /// The count is 0, or above `MOST_CREDIT`.
    BadCount,
}

/// Reads the head of a frame.
/// Errors: the first fault of the bytes.
pub fn decode_head(head: &[u8; HEAD_SIZE], layout: &Layout) -> Result<Head, FrameFault>
    ensures exactly { result ≡ read_head layout.now head.now }
    ensures spelled { IfOk result (λ it. IsHead layout.now it × (head.now ≡ head_spelled layout.now it)) }
{
    read_head(head, layout)
}

/// Reads the head of a frame from a slice of its bytes.
/// Errors: the first fault of the bytes.
pub fn read_head(head: &[u8], layout: &Layout) -> Result<Head, FrameFault>
    requires { length head.now ≡ HEAD_SIZE }
    ensures exactly { result ≡ read_head layout.now head.now }
    ensures unit_in { IfOk result (λ it. IsOfLayout layout.now it) }
{
    if head[0] != SINGLE_FORMAT {
        return Err(FrameFault::BadFormat);
    }
    match head[1] {
        MESSAGE_KIND => {
            if let Some(fault) = unit_fault(head, layout) {
                return Err(fault);
            }
            Ok(Head::Unit(unit_head(head)))
        }
        ACK_KIND => {
            if let Some(fault) = ack_fault(head) {
                return Err(fault);
            }
            Ok(Head::Ack(word_at(head, 8)))
        }
        _ => Err(FrameFault::BadKind),
    }
}

/// What is wrong with the head of a unit frame after its kind.
fn unit_fault(head: &[u8], layout: &Layout) -> Option<FrameFault>
    requires { length head.now ≡ HEAD_SIZE }
    ensures { result ≡ unit_fault layout.now head.now }
{
    if !is_zero(head, 2, 2) {
        return Some(FrameFault::NotZero);
    }
    let unit = word_at(head, 4);
    if unit >= layout.units() {
        return Some(FrameFault::BadUnit);
    }
    if word_at(head, 8) == 0 {
        return Some(FrameFault::BadVersion);
    }
    if word_at(head, 12) != layout.size(UnitId(unit)) {
        return Some(FrameFault::BadLength);
    }
    None
}

/// What is wrong with an acknowledgement after its kind.
fn ack_fault(head: &[u8]) -> Option<FrameFault>
    requires { length head.now ≡ HEAD_SIZE }
    ensures { result ≡ ack_fault head.now }
{
    if !is_zero(head, 2, 6) || !is_zero(head, 12, 12) {
        return Some(FrameFault::NotZero);
    }
    let count = word_at(head, 8);
    if count == 0 || count > MOST_CREDIT {
        return Some(FrameFault::BadCount);
    }
    None
}

/// The numbers of a unit frame.
fn unit_head(head: &[u8]) -> UnitHead
    requires { length head.now ≡ HEAD_SIZE }
    ensures { result ≡ front_head head.now }
{
    UnitHead {
        unit: UnitId(word_at(head, 4)),
        version: word_at(head, 8),
        at: long_at(head, 16),
    }
}
