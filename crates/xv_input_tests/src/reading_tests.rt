//! An input is taken whole up to a limit, whatever a read gives, and not at all above it or where a read fails.

use std::alloc::Global;
use xv_io::{MemSource, ReadAll, read_all};

/// An input, what a read gives at most, the read that fails (0 is none), the limit, and what is answered.
const CASES: &[(&[u8], u32, u32, u32, Result<&[u8], ReadAll>)] = &[
    (b"0123456789", 64, 0, 10, Ok(b"0123456789")),
    (b"0123456789a", 64, 0, 10, Err(ReadAll::TooLong)),
    (b"0123456789", 1, 0, 10, Ok(b"0123456789")),
    (b"0123456789a", 1, 0, 10, Err(ReadAll::TooLong)),
    (b"0123456789", 3, 0, 10, Ok(b"0123456789")),
    (b"0123456789ab", 3, 0, 10, Err(ReadAll::TooLong)),
    (b"0123456789", 10, 0, 9, Err(ReadAll::TooLong)),
    (b"", 64, 0, 10, Ok(b"")),
    (b"", 64, 0, 0, Ok(b"")),
    (b"a", 64, 0, 0, Err(ReadAll::TooLong)),
    (b"\0\xff\n\0", 1, 0, 4_294_967_295, Ok(b"\0\xff\n\0")),
    // The input of ten bytes ends at the eleventh read of one.
    (b"0123456789", 1, 1, 10, Err(ReadAll::ReadFault)),
    (b"0123456789", 1, 10, 10, Err(ReadAll::ReadFault)),
    (b"0123456789", 1, 11, 10, Err(ReadAll::ReadFault)),
    (b"0123456789", 1, 12, 10, Ok(b"0123456789")),
    // One byte above the limit is the last that is read.
    (b"0123456789abc", 1, 11, 10, Err(ReadAll::ReadFault)),
    (b"0123456789abc", 1, 12, 10, Err(ReadAll::TooLong)),
    (b"", 1, 1, 0, Err(ReadAll::ReadFault)),
];

/// What is read with a limit, and then the rest without one.
fn read_twice(
    alloc: Global,
    input: &[u8],
    gives: u32,
    read: u32,
    limit: u32,
) -> Option<(Result<Vec<u8>, ReadAll>, Vec<u8>)> {
    let mut source = MemSource::new(alloc, input, gives.max(1), &[read]).ok()?;
    let first = read_all(alloc, &mut source, limit);
    // A read that fails here, the first of the rest, is not made again.
    let rest = match read_all(alloc, &mut source, u32::MAX) {
        Ok(rest) => rest,
        Err(_) => read_all(alloc, &mut source, u32::MAX).ok()?,
    };
    Some((first, rest))
}

/// Whether the answer is this one, and what was read and the rest are the whole input; a limit that is exceeded takes one byte
/// more than it allows.
fn is_answered(
    alloc: Global,
    input: &[u8],
    gives: u32,
    read: u32,
    limit: u32,
    want: Result<&[u8], ReadAll>,
) -> bool {
    let Some((first, rest)) = read_twice(alloc, input, gives, read, limit) else {
        return false;
    };
    match (first, want) {
        (Ok(bytes), Ok(wanted)) => bytes.as_slice() == wanted && rest.is_empty(),
        (Err(ReadAll::TooLong), Err(ReadAll::TooLong)) => {
            input.len() - rest.len().min(input.len()) == limit as usize + 1
        }
        (Err(error), Err(wanted)) => error == wanted,
        _ => false,
    }
}

#[test]
fn reads_up_to_a_limit(rt: HostRuntime) {
    for &(input, gives, read, limit, want) in CASES {
        let answered = is_answered(rt.alloc(), input, gives, read, limit, want);
        assert!(rt;
            answered,
            "{input:?} by {gives}, fault {read}, limit {limit}"
        );
    }
}
