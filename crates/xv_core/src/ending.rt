//! What the answer of a guest's operation adds to the history, and to the bytes that the guests have read.

ghost use Rattle.std.specs.Prelude.{◌≡◌, ◌≤◌, ◌+◌, ◌++◌, false, length, vec_capacity, is_some};
ghost use Rattle.xv_core.specs.Answered.{ended_by, read_by};

use std::mem::replace;
use xv_base::{Ended, GuestId, Outcome, Turn, UnitOp};
use xv_guest::History;

/// Enters into the history what the answer of a guest's operation ends; there is room for it.
pub(crate) fn end(history: &mut History, guest: GuestId, turn: Turn)
    requires room { length history.old.entries + length (ended_by guest turn) ≤ history.old.room }
    ensures entries { history.new.entries ≡ history.old.entries ++ ended_by guest turn }
    ensures room { history.new.room ≡ history.old.room }
{
    match turn {
        Turn::Done(_) => history.push(Ended {
            guest,
            outcome: Outcome::Done,
        }),
        Turn::Faulted => history.push(Ended {
            guest,
            outcome: Outcome::Faulted,
        }),
        Turn::Queued | Turn::Wait(_) | Turn::Failed(_) => {}
    }
}

/// Keeps what a read that was done has given, the first of these bytes; there is room for it.
pub(crate) fn keep(reads: &mut Vec<u8>, op: &UnitOp, turn: Turn, read: &[u8])
    requires long { is_some op.now.write ≡ false → op.now.len ≤ length read.now }
    requires room { length reads.old.items + length (read_by op.now turn read.now) ≤ vec_capacity reads.old }
    ensures bytes { reads.new.items ≡ reads.old.items ++ read_by op.now turn read.now }
    ensures reserved { vec_capacity reads.new ≡ vec_capacity reads.old }
{
    if let Turn::Done(_) = turn
        && op.write.is_none()
    {
        append(reads, &read[..op.len as usize]);
    }
}

/// Appends bytes, for which there is room.
fn append(reads: &mut Vec<u8>, bytes: &[u8])
    requires room { length reads.old.items + length bytes.now ≤ vec_capacity reads.old }
    ensures bytes { reads.new.items ≡ reads.old.items ++ bytes.now }
    ensures reserved { vec_capacity reads.new ≡ vec_capacity reads.old }
{
    let none = Vec::new(*reads.allocator());
    *reads = with_bytes(replace(reads, none), bytes);
}

/// The list with bytes behind it, for which there is room. It is moved here and back, since the bytes of a list that is
/// owned are copied many at a time, and behind a reference one by one.
fn with_bytes(mut reads: Vec<u8>, bytes: &[u8]) -> Vec<u8>
    requires room { length reads.items + length bytes.now ≤ vec_capacity reads }
    ensures bytes { result.items ≡ reads.items ++ bytes.now }
    ensures reserved { vec_capacity result ≡ vec_capacity reads }
{
    for byte in bytes {
        reads.push_reserved(*byte);
    }
    reads
}
