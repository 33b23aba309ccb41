//! Operations that are written, each as its line.

ghost use Rattle.std.specs.Prelude.{◌≡◌, ◌++◌, OnOk, OnErr};
ghost use Rattle.xv_text.specs.Lines.{line};
ghost use Rattle.xv_trace.specs.OpText.{op_fields, ops_text};

use crate::op::Op;
use crate::trace::Trace;
use xv_base::NoMemory;
use xv_text::{push_line, push_line_with};

/// Appends the text of a trace's operations.
/// Errors: want of memory, where the text is as it was.
pub fn print_ops(trace: &Trace, out: &mut Vec<u8>) -> Result<(), NoMemory>
    ensures ok { OnOk result (out.new.items ≡ out.old.items ++ ops_text trace.now.ops) }
    ensures err { OnErr result (out.new.items ≡ out.old.items) }
{
    let start = out.len();
    for op in trace.ops() {
        match push_op(out, op) {
            Ok(()) => {}
            Err(_) => {
                out.truncate(start);
                return Err(NoMemory);
            }
        }
    }
    Ok(())
}

/// Appends the line of an operation.
/// Errors: want of memory, where the text is as it was.
pub fn push_op(out: &mut Vec<u8>, op: &Op) -> Result<(), NoMemory>
    ensures ok { OnOk result (out.new.items ≡ out.old.items ++ line (op_fields op.now)) }
    ensures err { OnErr result (out.new.items ≡ out.old.items) }
{
    match op {
        Op::Store { addr, len, pat } => push_line_with(out, b"st", &[*addr, *len], pat),
        Op::Load { addr, len } => push_line(out, b"ld", &[*addr, *len]),
        Op::Write {
            disk,
            block,
            count,
            pat,
        } => push_line_with(out, b"wr", &[u32::from(*disk), *block, *count], pat),
        Op::Fetch {
            disk,
            block,
            offset,
            len,
        } => push_line(out, b"rd", &[u32::from(*disk), *block, *offset, *len]),
    }
}
