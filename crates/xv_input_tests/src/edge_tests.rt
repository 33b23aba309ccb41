//! The input fails at each of its reads, and the output at each of its calls and behind each number of bytes, in turn, whether a
//! call moves one byte, two or all.

use crate::calling::{Edges, PIECE, ROOM, WHOLE, call};
use crate::samples::{REFUSED, SAMPLES, Sample};
use std::alloc::Global;

/// How many bytes a call moves at most.
const PIECES: &[u32] = &[1, 2, PIECE];

/// The number of calls that move so many bytes.
fn calls(bytes: usize, piece: u32) -> u32 {
    let calls = bytes.div_ceil(piece.max(1) as usize);
    u32::try_from(calls).unwrap_or(u32::MAX)
}

/// The first read at whose fault the answer is not the status of a read's fault with nothing written; none where there is none.
/// The last read is that which finds the end.
fn wrong_read(alloc: Global, sample: &Sample, gives: u32) -> Option<u32> {
    let reads = calls(sample.input.len(), gives).saturating_add(1);
    for read in 1..=reads {
        let edges = Edges {
            gives,
            read,
            ..WHOLE
        };
        if !call(alloc, sample.words, sample.input, edges).is(3, b"") {
            return Some(read);
        }
    }
    None
}

/// Whether all is written where a read fails that no call makes.
fn reads_no_more(alloc: Global, sample: &Sample, gives: u32) -> bool {
    let read = calls(sample.input.len(), gives).saturating_add(2);
    let edges = Edges {
        gives,
        read,
        ..WHOLE
    };
    call(alloc, sample.words, sample.input, edges).is(sample.status, sample.output)
}

fn read_faults_are_told(alloc: Global, sample: &Sample) -> bool {
    let mut told = true;
    for &gives in PIECES {
        told = told
            && wrong_read(alloc, sample, gives).is_none()
            && reads_no_more(alloc, sample, gives);
    }
    told
}

#[test]
fn tells_each_read_that_fails(rt: HostRuntime) {
    for sample in SAMPLES {
        let told = read_faults_are_told(rt.alloc(), sample);
        let name = sample.name;
        assert!(rt; told, "{name}");
    }
    for sample in REFUSED {
        let told = read_faults_are_told(rt.alloc(), sample);
        let name = sample.name;
        assert!(rt; told, "{name}");
    }
}

/// The first number of bytes behind which the output fails and the answer is not the status of a write's fault with those
/// bytes written; none where there is none.
fn wrong_room(alloc: Global, sample: &Sample, takes: u32) -> Option<usize> {
    for (room, _) in sample.output.iter().enumerate() {
        let front = sample.output.get(..room).unwrap_or(sample.output);
        let edges = Edges {
            takes,
            room: u32::try_from(room).unwrap_or(ROOM),
            ..WHOLE
        };
        if !call(alloc, sample.words, sample.input, edges).is(4, front) {
            return Some(room);
        }
    }
    None
}

/// Whether all is written where the output has just enough room.
fn needs_no_more_room(alloc: Global, sample: &Sample, takes: u32) -> bool {
    let room = u32::try_from(sample.output.len()).unwrap_or(0);
    let edges = Edges {
        takes,
        room,
        ..WHOLE
    };
    call(alloc, sample.words, sample.input, edges).is(sample.status, sample.output)
}

/// The same of an output that takes one byte a call, of which one fails and the later ones do not: it is not called again. The
/// last call is the flush, before which all was written.
fn wrong_write(alloc: Global, sample: &Sample) -> Option<u32> {
    for write in 1..=calls(sample.output.len(), 1).saturating_add(1) {
        let front = sample
            .output
            .get(..write as usize - 1)
            .unwrap_or(sample.output);
        let edges = Edges {
            takes: 1,
            write,
            ..WHOLE
        };
        if !call(alloc, sample.words, sample.input, edges).is(4, front) {
            return Some(write);
        }
    }
    None
}

#[test]
fn tells_each_write_that_fails(rt: HostRuntime) {
    for sample in SAMPLES {
        let write = wrong_write(rt.alloc(), sample);
        let name = sample.name;
        assert_eq!(rt; write, None, "{name}");
    }
    for sample in REFUSED {
        let write = wrong_write(rt.alloc(), sample);
        let name = sample.name;
        assert_eq!(rt; write, None, "{name}");
    }
}

#[test]
fn fills_the_room_that_there_is(rt: HostRuntime) {
    for sample in SAMPLES {
        let two = wrong_room(rt.alloc(), sample, 2);
        let all = wrong_room(rt.alloc(), sample, PIECE);
        let whole = needs_no_more_room(rt.alloc(), sample, PIECE);
        let name = sample.name;
        assert_eq!(rt; two, None, "{name}");
        assert_eq!(rt; all, None, "{name}");
        assert!(rt; whole, "{name}");
    }
    for sample in REFUSED {
        let all = wrong_room(rt.alloc(), sample, PIECE);
        let whole = needs_no_more_room(rt.alloc(), sample, PIECE);
        let name = sample.name;
        assert_eq!(rt; all, None, "{name}");
        assert!(rt; whole, "{name}");
    }
}
