//! The fields of a line, read by their kinds.

ghost use Rattle.std.specs.Prelude.{◌≡◌, ◌+◌, ◌<◌, ◌≤◌, length, IfOk, IfErr, IfSome, IfNone, ◌++◌, ◌∷◌, []};
ghost use Rattle.xv_text.specs.Fields.{values, number_at, fields_fault, field_fault, or_else};
ghost use Rattle.xv_text.specs.Row.{IsRow, with_last};

use crate::digits::{number_of, pattern_of};
use crate::fields::Fields;
use std::marker::Model;
use xv_base::{LineWhy, Pattern};

/// What a field must be.
#[derive(Clone, Copy, Debug, PartialEq, Eq)]
pub enum Kind {
    /// A decimal number below 2^32, without sign or leading zeros.
    Number,
    /// From 1 to 64 bytes, each as two hexadecimal digits in lower case.
    Bytes,
}

/// What the fields of a line say: at most four numbers, and bytes. Contracts see it as these.
#[derive(Drop)]
pub struct Row {
    numbers: [u32; 4],
    count: usize,
    pattern: Option<Pattern>,
}

impl Model for Row {
    ghost use Rattle.std.specs.Prelude.{take};
    ghost use Rattle.xv_base.specs.Padded.{IsPadded};
    ghost use Rattle.xv_text.specs.Fields.{Values};
    ghost use Rattle.xv_text.specs.Row.{bytes_or_none};

    ghost Value = { Values };

    ghost view = { λ r. record { numbers = take r.count r.numbers; pattern = bytes_or_none r.pattern } };

    ghost invariant = { λ r. IsPadded 0 4 r.count r.numbers };
}

impl Row {
    /// What no field says.
    fn new() -> Row
        ensures { result ≡ record { numbers = []; pattern = [] } }
    {
        Row {
            numbers: [0; 4],
            count: 0,
            pattern: None,
        }
    }

    /// The number of that place among the numbers, 0 where there are fewer.
    pub fn number(&self, i: usize) -> u32
        requires { i < 4 }
        ensures { result ≡ number_at self.now i }
    {
        self.numbers[i]
    }

    /// The bytes, where there are any.
    pub fn pattern(&self) -> Pattern
        requires { 0 < length self.now.pattern }
        ensures { result ≡ self.now.pattern }
    {
        match self.pattern {
            Some(pattern) => pattern,
            None => unreachable!(),
        }
    }

    /// Adds a number, for which there is room.
    fn add_number(&mut self, n: u32)
        requires { length self.old.numbers < 4 }
        ensures { self.new ≡ record self.old { numbers = self.old.numbers ++ n ∷ [] } }
    {
        self.numbers[self.count] = n;
        self.count += 1;
    }

    /// Takes these bytes in place of any before.
    fn set_pattern(&mut self, pattern: Pattern)
        ensures { self.new ≡ record self.old { pattern = pattern } }
    {
        self.pattern = Some(pattern);
    }

    /// Adds what a field of a kind says; or the fault that it is not of this kind.
    fn add(&mut self, kind: Kind, field: &[u8]) -> Option<LineWhy>
        requires { length self.old.numbers < 4 }
        ensures fault { result ≡ field_fault kind field.now }
        ensures added { IfNone result (self.new ≡ with_last kind field.now self.old) }
        ensures kept { IfSome result (λ _. self.new ≡ self.old) }
    {
        match kind {
            Kind::Number => {
                let Some(n) = number_of(field) else {
                    return Some(LineWhy::BadNumber);
                };
                self.add_number(n);
            }
            Kind::Bytes => {
                let Some(pattern) = pattern_of(field) else {
                    return Some(LineWhy::BadHex);
                };
                self.set_pattern(pattern);
            }
        }
        None
    }

    /// Adds a field where none before it is at fault; the first fault so far.
    fn add_after(&mut self, fault: Option<LineWhy>, kind: Kind, field: &[u8]) -> Option<LineWhy>
        requires { length self.old.numbers < 4 }
        ensures fault { result ≡ or_else fault (field_fault kind field.now) }
        ensures added { IfNone result (self.new ≡ with_last kind field.now self.old) }
        ensures few { length self.new.numbers ≤ length self.old.numbers + 1 }
    {
        match fault {
            Some(why) => Some(why),
            None => self.add(kind, field),
        }
    }
}

/// Reads fields by their kinds, of which there are at most four.
/// Errors: what is wrong with the fields, the first in the order of the faults.
pub fn read_fields(kinds: &[Kind], args: &Fields) -> Result<Row, LineWhy>
    requires { length kinds.now ≤ 4 }
    ensures no_fault { IfOk result (λ row. fields_fault kinds.now args.now ≡ None) }
    ensures values { IfOk result (λ row. row ≡ values kinds.now args.now) }
    ensures row { IfOk result (λ row. IsRow kinds.now row) }
    ensures fault { IfErr result (λ why. fields_fault kinds.now args.now ≡ Some why) }
{
    let mut row = Row::new();
    let mut fault = None;
    let mut rest = args.again();
    for kind in kinds {
        let Some((field, after)) = rest.split_first() else {
            return Err(LineWhy::BadWord);
        };
        if field.is_empty() {
            return Err(LineWhy::BadWord);
        }
        fault = row.add_after(fault, *kind, field);
        rest = after;
    }
    if !rest.is_done() {
        return Err(LineWhy::BadWord);
    }
    match fault {
        Some(why) => Err(why),
        None => Ok(row),
    }
}
