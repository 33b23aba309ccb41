//! Lines that are written, by a writer that has nothing in common with the one under test. Where there is no memory a text
//! stays short, and is as good a text as any other.

use crate::dice::Dice;

const DIGITS: [u8; 16] = *b"0123456789abcdef";

/// Appends bytes.
pub(crate) fn put(text: &mut Vec<u8>, bytes: &[u8]) {
    let _ = text.extend_from_slice(bytes);
}

/// Appends a number in decimal digits.
pub(crate) fn put_number(text: &mut Vec<u8>, number: u64) {
    if number >= 10 {
        put_number(text, number / 10);
    }
    put(text, &[DIGITS[(number % 10) as usize]]);
}

/// Appends a word and numbers, with a space before each number.
fn put_fields(text: &mut Vec<u8>, word: &[u8], numbers: &[u64]) {
    put(text, word);
    for number in numbers {
        put(text, b" ");
        put_number(text, *number);
    }
}

/// Appends a line of a word and numbers.
pub(crate) fn put_line(text: &mut Vec<u8>, word: &[u8], numbers: &[u64]) {
    put_fields(text, word, numbers);
    put(text, b"\n");
}

/// Appends a line of a word, numbers and a pattern of 1 to 64 bytes.
pub(crate) fn put_line_with(text: &mut Vec<u8>, dice: &mut Dice, word: &[u8], numbers: &[u64]) {
    put_fields(text, word, numbers);
    put(text, b" ");
    for _byte in 0..dice.few(1, 64) {
        let byte = dice.below(256);
        put(text, &[DIGITS[(byte / 16 % 16) as usize]]);
        put(text, &[DIGITS[(byte % 16) as usize]]);
    }
    put(text, b"\n");
}
