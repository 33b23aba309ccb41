// A guest's operations: their text, and the unit operations that they are.
//
// Contracts see a `Trace` as its program: the shape of the units that it acts on, and its operations. It keeps them
// as they were read, one a line, so a write of many blocks takes no more memory than one of a single block, and it
// finds the unit operation of a number by bisection. The layer above may rely on this: each operation of a trace
// may act on its units, there are at most 2^20 unit operations, each acts within one unit, and operations and
// their texts are read and printed both ways.
#![tactic(auto)]

mod laws;
mod op;
mod print;
mod read;
mod text;
mod trace;

pub use laws::{
    lines_say_operations, operations_act_within_units, operations_are_read_back,
    programs_act_within_units, programs_are_read_back, texts_say_programs,
    unit_operations_are_counted,
};
pub use op::{Op, Verb};
pub use print::{print_ops, push_op};
pub use read::{read_op, verb_of};
pub use text::read_ops;
pub use trace::Trace;
pub use xv_base::UnitOp;
