//! Texts of operations that are read.

ghost use Rattle.std.specs.Prelude.{◌≡◌, ◌≤◌, [], ◌∷◌, IfOk, IfErr};
ghost use Rattle.xv_text.specs.Lines.{fields};
ghost use Rattle.xv_trace.specs.Operations.{op_count};
ghost use Rattle.xv_trace.specs.OpText.{op_line_fault, op_said, ops_text, text_fault, text_said, IsGoodOp};
ghost use Rattle.xv_text.specs.Reading.{IfFault};

use crate::op::Op;
use crate::read::{read_op, verb_of};
use crate::trace::Trace;
use std::alloc::Global;
use xv_base::{Layout, LineWhy, MOST_OPERATIONS, TextError};
use xv_text::{at_line, first_field, next_line};

/// Reads a text of operations on the units of a layout, its lines numbered on from a first one, where there is room
/// for so many unit operations, at most 2^20.
/// Errors: the first line at fault and why, with the greatest number of 32 bits for the lines past it; want of
/// memory.
pub fn read_ops(
    alloc: Global,
    layout: &Layout,
    lines: &[u8],
    first_line: u32,
    room: u32,
) -> Result<Trace, TextError>
    ensures no_fault { IfOk result (λ trace. text_fault layout.now room first_line lines.now ≡ None) }
    ensures said { IfOk result (λ trace. trace ≡ record { shape = layout.now; ops = text_said lines.now }) }
    ensures text { IfOk result (λ trace. lines.now ≡ ops_text trace.ops) }
    ensures fault { IfFault result (λ fault. text_fault layout.now room first_line lines.now ≡ Some fault) }
{
    let limit = room.min(MOST_OPERATIONS);
    let mut trace = Trace::new(alloc, *layout);
    let mut rest = lines;
    let mut number = first_line;
    while let Some((line, after)) = next_line(rest) {
        let op = match read_line(layout, limit - trace.unit_ops(), line) {
            Ok(op) => op,
            Err(why) => return Err(at_line(number, why)),
        };
        match trace.push(op) {
            Ok(()) => {}
            Err(_) => return Err(TextError::NoMemory),
        }
        rest = after;
        number = number.saturating_add(1);
    }
    if rest.is_empty() {
        Ok(trace)
    } else {
        Err(at_line(number, LineWhy::Unended))
    }
}

/// Reads the operation of a line, where there is room for so many unit operations.
fn read_line(layout: &Layout, room: u32, line: &[u8]) -> Result<Op, LineWhy>
    ensures no_fault { IfOk result (λ op. op_line_fault layout.now room (fields line.now) ≡ None) }
    ensures said { IfOk result (λ op. op_said (fields line.now) ≡ op ∷ []) }
    ensures good { IfOk result (λ op. IsGoodOp layout.now op) }
    ensures room { IfOk result (λ op. op_count op ≤ room) }
    ensures fault { IfErr result (λ why. op_line_fault layout.now room (fields line.now) ≡ Some why) }
{
    let (word, args) = first_field(line);
    match verb_of(word) {
        Some(verb) => read_op(layout, room, verb, &args),
        None => Err(LineWhy::BadWord),
    }
}
