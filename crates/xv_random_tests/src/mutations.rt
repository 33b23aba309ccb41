//! Texts in which one thing is changed.

use crate::dice::Dice;
use crate::writing::{put, put_number};
use std::alloc::Global;

/// Bytes that a text is made of, and some that it is not.
const BYTES: &[u64] = &[
    10, 32, 32, 48, 48, 49, 50, 57, 97, 101, 102, 103, 115, 116, 65, 70, 43, 45, 0, 9, 13, 255,
];

/// The greatest numbers that lines of a word may have.
const LIMITS: &[(&[u8], u64)] = &[
    (b"job", 2),
    (b"pages", 1_048_576),
    (b"disk", 1_048_576),
    (b"streams", 8),
    (b"credit", 1024),
    (b"outbox", 1024),
    (b"region", 256),
    (b"rounds", 64),
    (b"dirty", 1_048_576),
    (b"group", 16),
    (b"fault", 4_294_967_295),
    (b"image", 4_294_967_295),
    (b"pass", 4_294_967_295),
    (b"st ", 4096),
    (b"ld ", 64),
    (b"rd ", 64),
];

/// Numbers at which something ends.
const EDGES: &[u64] = &[
    0,
    1,
    3,
    7,
    15,
    16,
    64,
    256,
    4096,
    1_048_576,
    536_870_912,
    4_294_967_295,
];

/// The text with one change.
pub(crate) fn mutated(alloc: Global, dice: &mut Dice, text: &[u8]) -> Vec<u8> {
    let mut out = Vec::new(alloc);
    let at = place_in(dice, text);
    match dice.below(6) {
        0 => put_byte_changed(dice, text, at, &mut out),
        1 => put_line_dropped(text, at, &mut out),
        2 => put_line_doubled(text, at, &mut out),
        3 => put_lines_exchanged(dice, text, at, &mut out),
        4 => put_number_changed(dice, text, at, &mut out),
        _ => put(&mut out, front(text, at)),
    }
    out
}

/// A place of a text, which is the first in one of eight throws, and the last in another.
fn place_in(dice: &mut Dice, text: &[u8]) -> usize {
    let any = dice.below(text.len() as u64) as usize;
    match dice.below(8) {
        0 => 0,
        1 => text.len().saturating_sub(1),
        _ => any,
    }
}

/// The first bytes, so many of them or all.
fn front(text: &[u8], count: usize) -> &[u8] {
    match text.get(..count) {
        Some(front) => front,
        None => text,
    }
}

/// The bytes behind the first so many.
fn behind(text: &[u8], count: usize) -> &[u8] {
    match text.get(count..) {
        Some(behind) => behind,
        None => b"",
    }
}

/// Where the line begins in which the byte of this place stands.
fn line_start(text: &[u8], at: usize) -> usize {
    let mut start = 0;
    for (place, byte) in front(text, at).iter().enumerate() {
        if *byte == b'\n' {
            start = place.wrapping_add(1);
        }
    }
    start
}

/// Where the line ends in which the byte of this place stands, behind its line feed.
fn line_end(text: &[u8], at: usize) -> usize {
    match behind(text, at).iter().position(|byte| *byte == b'\n') {
        Some(feed) => at.wrapping_add(feed).wrapping_add(1),
        None => text.len(),
    }
}

/// The line in which the byte of this place stands, with its line feed.
fn line_at(text: &[u8], at: usize) -> &[u8] {
    let start = line_start(text, at);
    front(behind(text, start), line_end(text, at).wrapping_sub(start))
}

fn put_byte_changed(dice: &mut Dice, text: &[u8], at: usize, out: &mut Vec<u8>) {
    let byte = if dice.below(4) == 0 {
        dice.below(256)
    } else {
        dice.pick(BYTES)
    };
    put(out, front(text, at));
    put(out, &[(byte % 256) as u8]);
    put(out, behind(text, at.wrapping_add(1)));
}

fn put_line_dropped(text: &[u8], at: usize, out: &mut Vec<u8>) {
    put(out, front(text, line_start(text, at)));
    put(out, behind(text, line_end(text, at)));
}

fn put_line_doubled(text: &[u8], at: usize, out: &mut Vec<u8>) {
    let end = line_end(text, at);
    put(out, front(text, end));
    put(out, line_at(text, at));
    put(out, behind(text, end));
}

fn put_lines_exchanged(dice: &mut Dice, text: &[u8], at: usize, out: &mut Vec<u8>) {
    let end = line_end(text, at);
    let rest = behind(text, end);
    let other = dice.below(rest.len() as u64) as usize;
    put(out, front(text, line_start(text, at)));
    put(out, line_at(rest, other));
    put(out, front(rest, line_start(rest, other)));
    put(out, line_at(text, at));
    put(out, behind(rest, line_end(rest, other)));
}

/// Sets one of the next numbers behind a place to a limit, or to one past it.
fn put_number_changed(dice: &mut Dice, text: &[u8], at: usize, out: &mut Vec<u8>) {
    let mut start = next_number(text, at);
    for _number in 0..dice.below(4) {
        start = next_number(text, start);
    }
    let digits = behind(text, start);
    let count = match digits.iter().position(|byte| !byte.is_ascii_digit()) {
        Some(count) => count,
        None => digits.len(),
    };
    let limit = limit_of(dice, line_at(text, start));
    put(out, front(text, start));
    put_number(out, limit.wrapping_add(dice.below(2)));
    put(out, behind(digits, count));
}

/// Where the next number from a place on begins, behind a space; where there is none, at the end.
fn next_number(text: &[u8], from: usize) -> usize {
    from.wrapping_add(number_start(behind(text, from)))
}

/// Where the first number of a text begins, behind a space in it; at the end where there is none.
fn number_start(text: &[u8]) -> usize {
    let mut after_space = false;
    for (place, byte) in text.iter().enumerate() {
        if after_space && byte.is_ascii_digit() {
            return place;
        }
        after_space = *byte == b' ';
    }
    text.len()
}

/// A limit of a line's numbers: mostly that of its word, where the word has one.
fn limit_of(dice: &mut Dice, line: &[u8]) -> u64 {
    let edge = dice.pick(EDGES);
    if dice.below(3) == 0 {
        return edge;
    }
    for &(word, limit) in LIMITS {
        if line.starts_with(word) {
            return limit;
        }
    }
    edge
}
