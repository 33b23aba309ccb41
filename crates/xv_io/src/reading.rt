//! An input as a whole.

ghost use Rattle.std.specs.Prelude.{◌≡◌, ◌+◌, ◌<◌, ◌≤◌, length, vec_len, IfErr, IfOk, IfSome, OnOk, IsErrOf, OnErr};
ghost use Rattle.xv_base.specs.Calls.{CountRose};
ghost use Rattle.xv_io.specs.Io.{EndsAtZero, GaveAtLeast, GaveAtMost, IsAtEnd, Moves};

use crate::source::Source;
use std::alloc::{AllocError, Global};

/// Why an input was not taken as a whole.
#[derive(Clone, Copy, Debug, PartialEq, Eq)]
pub enum ReadAll {
    /// A read failed.
    ReadFault,
    /// There are more bytes than the limit.
    TooLong,
    /// There was no memory for the bytes.
    NoMemory,
}

// How many bytes a read asks for at most.
const PIECE: usize = 65536;

/// All bytes to the end of input, of which there are at most `limit`. Ends on an endless source too, since it
/// takes at most `limit + 1` bytes.
///
/// Errors: `ReadFault` exactly where a read failed, `TooLong` where more than `limit` bytes are there, `NoMemory`
/// for want of memory.
pub fn read_all<I: Source>(alloc: Global, source: &mut I, limit: u32) -> Result<Vec<u8>, ReadAll>
    ensures all { IfOk result (λ v. IfSome (I.left source.old) (λ xs. v.items ≡ xs)) }
    ensures ended { OnOk result (IsAtEnd (I.left source.new)) }
    ensures within { IfOk result (λ v. vec_len v ≤ limit) }
    ensures fault { IsErrOf result ReadAll.ReadFault
        → CountRose (I.faults source.old) (I.faults source.new) }
    ensures too_long { IsErrOf result ReadAll.TooLong
        → GaveAtLeast (limit + 1) (I.left source.old) (I.left source.new) }
    ensures quiet { ¬ IsErrOf result ReadAll.ReadFault → I.faults source.new ≡ I.faults source.old }
    ensures most { GaveAtMost (limit + 1) (I.left source.old) (I.left source.new) }
{
    let most = limit as usize + 1;
    let mut buffer = zeros(alloc, PIECE)?;
    let mut bytes = Vec::new(alloc);
    while bytes.len() < most {
        let room = most - bytes.len();
        if read_more(source, &mut buffer, room, &mut bytes)? == 0 {
            return Ok(bytes);
        }
    }
    Err(ReadAll::TooLong)
}

// Reads once, at most `room` bytes, and appends what came.
fn read_more<I: Source>(
    source: &mut I,
    buffer: &mut [u8],
    room: usize,
    bytes: &mut Vec<u8>,
) -> Result<usize, ReadAll>
    requires buffer { 0 < length buffer.old }
    requires room { 0 < room }
    ensures fits { IfOk result (λ n. n ≤ room) }
    ensures grows { IfOk result (λ n. vec_len bytes.new ≡ vec_len bytes.old + n) }
    ensures moves { OnOk result
        (Moves (I.left source.old) (I.left source.new) bytes.old.items bytes.new.items) }
    ensures ends { IfOk result (λ n. EndsAtZero (I.left source.old) n) }
    ensures most { OnErr result (GaveAtMost room (I.left source.old) (I.left source.new)) }
    ensures fault { IsErrOf result ReadAll.ReadFault
        → CountRose (I.faults source.old) (I.faults source.new) }
    ensures quiet { ¬ IsErrOf result ReadAll.ReadFault → I.faults source.new ≡ I.faults source.old }
    ensures short { ¬ IsErrOf result ReadAll.TooLong }
{
    let wanted = room.min(buffer.len());
    let Ok(n) = source.read(&mut buffer[..wanted]) else {
        return Err(ReadAll::ReadFault);
    };
    bytes.extend_from_slice(&buffer[..n]).map_err(no_memory)?;
    Ok(n)
}

fn zeros(alloc: Global, size: usize) -> Result<Vec<u8>, ReadAll>
    ensures size { IfOk result (λ v. vec_len v ≡ size) }
    ensures memory { IfErr result (λ e. e ≡ ReadAll.NoMemory) }
{
    vec![in alloc; 0u8; size].map_err(no_memory)
}

fn no_memory(_: AllocError) -> ReadAll
    ensures { result ≡ ReadAll.NoMemory }
{
    ReadAll::NoMemory
}
