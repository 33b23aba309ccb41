//! Texts cut into lines, and fields at the edges of their kinds.

use std::alloc::{AllocError, Global};
use std::test::Fail;
use xv_base::{LineWhy, Pattern};
use xv_text::{Kind, first_field, next_line, push_line, push_line_with, read_fields};

/// Texts, with the line that each begins with and the text behind it.
const CUTS: &[(&str, Option<(&str, &str)>)] = &[
    ("", None),
    ("end", None),
    ("\n", Some(("", ""))),
    ("end\n", Some(("end", ""))),
    ("a b\n\nc", Some(("a b", "\nc"))),
];

#[test]
fn takes_lines_off(rt: HostRuntime) {
    for &(text, want) in CUTS {
        let want = want.map(|(line, rest)| (line.as_bytes(), rest.as_bytes()));
        assert_eq!(rt; next_line(text.as_bytes()), want, "of {text}");
    }
}

/// What is wrong with a line of a word, a number and bytes.
fn fault_of(line: &[u8]) -> Option<LineWhy> {
    let (_, args) = first_field(line);
    read_fields(&[Kind::Number, Kind::Bytes], &args).err()
}

/// Lines, and the first fault of their fields.
const FAULTS: &[(&str, Option<LineWhy>)] = &[
    ("init 0 00", None),
    ("init 4294967295 ff", None),
    ("init 4294967296 ff", Some(LineWhy::BadNumber)),
    ("init 10000000000 ff", Some(LineWhy::BadNumber)),
    ("init 00 ff", Some(LineWhy::BadNumber)),
    ("init -1 ff", Some(LineWhy::BadNumber)),
    ("init 0 f", Some(LineWhy::BadHex)),
    ("init 0 fF", Some(LineWhy::BadHex)),
    ("init 0 fg", Some(LineWhy::BadHex)),
    ("init x g", Some(LineWhy::BadNumber)),
    ("init x", Some(LineWhy::BadWord)),
    ("init x g g", Some(LineWhy::BadWord)),
    ("init  ff", Some(LineWhy::BadWord)),
    ("init 0 ff ", Some(LineWhy::BadWord)),
    ("init", Some(LineWhy::BadWord)),
];

#[test]
fn tells_first_fault_of_fields(rt: HostRuntime) {
    for &(line, want) in FAULTS {
        assert_eq!(rt; fault_of(line.as_bytes()), want, "of {line}");
    }
}

/// How many bytes a line has, and what is wrong with it.
const LENGTHS: &[(u32, Option<LineWhy>)] = &[(1, None), (64, None), (65, Some(LineWhy::BadHex))];

/// What is wrong with a line of so many bytes.
fn fault_of_long(alloc: Global, bytes: u32) -> Result<Option<LineWhy>, AllocError> {
    let mut line = Vec::new(alloc);
    line.extend_from_slice(b"init 7 ")?;
    for _ in 0..bytes {
        line.extend_from_slice(b"a5")?;
    }
    Ok(fault_of(&line))
}

#[test]
fn reads_64_bytes_at_most(rt: HostRuntime) {
    for &(bytes, want) in LENGTHS {
        assert_eq!(rt;
            fault_of_long(rt.alloc(), bytes),
            Ok(want),
            "of {bytes} bytes"
        );
    }
}

#[test]
fn reads_what_it_writes(rt: HostRuntime) -> Result<(), Fail> {
    let pattern = Pattern::new(&[0, 9, 10, 255]);
    let mut text = Vec::new(rt.alloc());
    assert!(rt; push_line(&mut text, b"credit", &[1024]).is_ok());
    assert!(rt; push_line_with(&mut text, b"init", &[7], &pattern).is_ok());
    assert_eq!(rt;
        text.as_slice(),
        b"credit 1024\ninit 7 00090aff\n".as_slice()
    );
    let (_, args) = first_field(b"init 7 00090aff");
    let row = read_fields(&[Kind::Number, Kind::Bytes], &args)?;
    assert_eq!(rt;
        (row.number(0), row.number(1), row.pattern()),
        (7, 0, pattern)
    );
    Ok(())
}
