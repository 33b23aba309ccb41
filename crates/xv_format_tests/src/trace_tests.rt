//! Each operation at both edges of where it may act, the order of faults, and texts that are read and printed back.

use std::alloc::{AllocError, Global};
use std::test::Fail;
use xv_base::{DiskShape, Layout, LayoutFault, LineFault, LineWhy, Pattern, TextError};
use xv_trace::{Op, Trace, print_ops, read_ops};

/// Two pages of 128 bytes, and a disk of four blocks of 128 bytes.
fn small() -> Result<Layout, LayoutFault> {
    let disk = DiskShape {
        blocks: 4,
        block_size: 128,
    };
    Layout::new(2, 128, &[disk])
}

/// What is wrong with a line of a text, where there is room for so many unit operations.
fn fault_of(alloc: Global, layout: &Layout, room: u32, line: &str) -> Option<TextError> {
    let mut text = Vec::new(alloc);
    if text.extend_from_slice(line.as_bytes()).is_err() || text.push(b'\n').is_err() {
        return Some(TextError::NoMemory);
    }
    read_ops(alloc, layout, &text, 1, room).err()
}

/// An operation within its edge, one past it, and what is wrong with that.
const EDGES: &[(&str, &str, LineWhy)] = &[
    ("st 0 128 aa", "st 0 129 aa", LineWhy::CrossesPage),
    ("st 255 1 aa", "st 256 1 aa", LineWhy::OutOfRange),
    ("st 0 1 aa", "st 0 0 aa", LineWhy::OutOfRange),
    ("ld 64 64", "ld 65 64", LineWhy::CrossesPage),
    ("ld 255 1", "ld 256 1", LineWhy::OutOfRange),
    ("ld 0 64", "ld 0 65", LineWhy::OutOfRange),
    ("ld 0 1", "ld 0 0", LineWhy::OutOfRange),
    ("wr 0 0 4 aa", "wr 0 0 5 aa", LineWhy::OutOfRange),
    ("wr 0 3 1 aa", "wr 0 4 1 aa", LineWhy::OutOfRange),
    ("wr 0 3 1 aa", "wr 0 4294967295 1 aa", LineWhy::OutOfRange),
    ("wr 0 0 1 aa", "wr 0 0 0 aa", LineWhy::OutOfRange),
    ("wr 0 0 1 aa", "wr 256 0 1 aa", LineWhy::OutOfRange),
    ("rd 0 3 64 64", "rd 0 3 65 64", LineWhy::OutOfRange),
    ("rd 0 3 0 1", "rd 0 4 0 1", LineWhy::OutOfRange),
    ("rd 0 0 0 64", "rd 0 0 0 65", LineWhy::OutOfRange),
    ("rd 0 0 127 1", "rd 0 0 127 0", LineWhy::OutOfRange),
    ("rd 0 0 0 1", "rd 1 0 0 1", LineWhy::OutOfRange),
];

#[test]
fn tells_where_operations_act(rt: HostRuntime) -> Result<(), Fail> {
    let layout = small()?;
    for &(inside, outside, why) in EDGES {
        assert_eq!(rt;
            fault_of(rt.alloc(), &layout, 4, inside),
            None,
            "of {inside}"
        );
        let want = Some(TextError::Fault(LineFault { line: 1, why }));
        assert_eq!(rt;
            fault_of(rt.alloc(), &layout, 4, outside),
            want,
            "of {outside}"
        );
    }
    Ok(())
}

/// Lines with two faults, and the first of them.
const TWICE_WRONG: &[(&str, LineWhy)] = &[
    ("store 0 1 g", LineWhy::BadWord),
    ("st x 1", LineWhy::BadWord),
    ("st x 1 g", LineWhy::BadNumber),
    ("st 256 1 g", LineWhy::BadHex),
    ("ld 256 65", LineWhy::OutOfRange),
    ("st 383 2 aa", LineWhy::OutOfRange),
    ("wr 0 0 5 aa", LineWhy::OutOfRange),
    ("wr 0 0 4 aa", LineWhy::TooMany),
];

#[test]
fn tells_first_of_two_faults(rt: HostRuntime) -> Result<(), Fail> {
    let layout = small()?;
    for &(line, why) in TWICE_WRONG {
        let want = Some(TextError::Fault(LineFault { line: 1, why }));
        assert_eq!(rt; fault_of(rt.alloc(), &layout, 3, line), want, "of {line}");
    }
    Ok(())
}

/// Texts of which the first line has number 9, and the first fault.
const NUMBERED: &[(&str, Option<(u32, LineWhy)>)] = &[
    ("", None),
    ("ld 0 1\nld 0 1", Some((10, LineWhy::Unended))),
    ("ld 0 1\nld 0 1\nld 0 1\n", Some((11, LineWhy::TooMany))),
    ("ld 0 1\nrd\nld", Some((10, LineWhy::BadWord))),
];

/// What is wrong with a text of which the first line has number 9, where there is room for two unit operations.
fn fault_from_9(alloc: Global, layout: &Layout, text: &str) -> Option<TextError> {
    read_ops(alloc, layout, text.as_bytes(), 9, 2).err()
}

#[test]
fn numbers_lines_from_first(rt: HostRuntime) -> Result<(), Fail> {
    let layout = small()?;
    for &(text, want) in NUMBERED {
        let want = want.map(|(line, why)| TextError::Fault(LineFault { line, why }));
        assert_eq!(rt; fault_from_9(rt.alloc(), &layout, text), want, "of {text}");
    }
    Ok(())
}

/// The operations of a text on the small layout.
fn trace_of(alloc: Global, text: &[u8], room: u32) -> Result<Trace, Fail> {
    Ok(read_ops(alloc, &small()?, text, 1, room)?)
}

/// The unit, the offset and the length of each unit operation, and whether it writes.
fn parts_of(alloc: Global, trace: &Trace) -> Result<Vec<(u32, u32, u32, bool)>, AllocError> {
    let mut parts = Vec::new(alloc);
    for k in 0..trace.unit_ops() {
        let part = trace.unit_op(k);
        parts.push((part.unit.0, part.offset, part.len, part.write.is_some()))?;
    }
    Ok(parts)
}

fn printed(alloc: Global, trace: &Trace) -> Result<Vec<u8>, Fail> {
    let mut out = Vec::new(alloc);
    print_ops(trace, &mut out)?;
    Ok(out)
}

#[test]
fn tells_unit_operations(rt: HostRuntime) -> Result<(), Fail> {
    let text = b"st 129 3 0a0b\nwr 0 1 3 ff\nld 5 4\nrd 0 3 7 9\n".as_slice();
    let trace = trace_of(rt.alloc(), text, 6)?;
    let want = [
        (1, 1, 3, true),
        (3, 0, 128, true),
        (4, 0, 128, true),
        (5, 0, 128, true),
        (0, 5, 4, false),
        (5, 7, 9, false),
    ];
    let parts = parts_of(rt.alloc(), &trace)?;
    assert_eq!(rt; parts.as_slice(), want.as_slice());
    let out = printed(rt.alloc(), &trace)?;
    assert_eq!(rt; out.as_slice(), text);
    assert_eq!(rt; trace.layout(), small()?);
    Ok(())
}

#[test]
fn begins_without_operations(rt: HostRuntime) -> Result<(), Fail> {
    let trace = Trace::new(rt.alloc(), small()?);
    assert_eq!(rt; trace.unit_ops(), 0);
    Ok(())
}

#[test]
fn keeps_operations(rt: HostRuntime) -> Result<(), Fail> {
    let trace = trace_of(rt.alloc(), b"wr 0 0 2 01\n", 2)?;
    let op = Op::Write {
        disk: 0,
        block: 0,
        count: 2,
        pat: Pattern::new(&[1]),
    };
    assert_eq!(rt; trace.ops(), [op].as_slice());
    let parts = parts_of(rt.alloc(), &trace)?;
    assert_eq!(rt; parts.get(1), Some(&(3, 0, 128, true)));
    Ok(())
}
