//! The laws of operations, each as the contract of a function that does nothing.

ghost use Rattle.std.specs.Prelude.{◌≡◌, ℕ, ◌<◌, ◌≤◌, List, None, length, get_or};
ghost use Rattle.xv_base.specs.Units.{Shape};
ghost use Rattle.xv_base.specs.Layout.{IsGood};
ghost use Rattle.xv_trace.specs.declared.op.Op.{Op as Operation};
ghost use Rattle.xv_trace.specs.Operations.{op_count, count_all, unit_operations, all_unit_operations, no_unit_op, IsWithinUnit};
ghost use Rattle.xv_trace.specs.OpText.{op_line_fault, text_fault, IsGoodOp, Program, IsProgram};
ghost use Rattle.xv_trace.specs.Laws.{IsReadBack, SaysOp, AreReadBack, SaysProgram, ActWithinUnits};

/// An operation that may act is read back from its line, where there is room for it.
pub fn operations_are_read_back()
    ensures { (s : Shape) (room : ℕ) (op : Operation) → IsGoodOp s op → op_count op ≤ room → IsReadBack s room op }
{}

/// A line without a fault is the line of an operation that may act.
pub fn lines_say_operations()
    ensures { (s : Shape) (room : ℕ) (line : List (List ℕ)) → op_line_fault s room line ≡ None → (op : Operation) × SaysOp s room line op }
{}

/// The operations of a program are read back from their text, where there is room for them.
pub fn programs_are_read_back()
    ensures { (p : Program) (room first : ℕ) → IsProgram p → count_all p.ops ≤ room → AreReadBack room first p }
{}

/// A text without a fault is the text of a program.
pub fn texts_say_programs()
    ensures { (s : Shape) (room first : ℕ) (text : List ℕ) → IsGood s → text_fault s room first text ≡ None → SaysProgram s room text }
{}

/// There are as many unit operations as the operations count.
pub fn unit_operations_are_counted()
    ensures { (s : Shape) (ops : List Operation) → count_all ops ≡ length (all_unit_operations s ops) }
{}

/// The unit operations of an operation that may act each act within one unit.
pub fn operations_act_within_units()
    ensures { (s : Shape) (op : Operation) → IsGood s → IsGoodOp s op → (k : ℕ) → k < op_count op → IsWithinUnit s (get_or (unit_operations s op) k no_unit_op) }
{}

/// The unit operations of a program each act within one unit.
pub fn programs_act_within_units()
    ensures { (p : Program) → IsProgram p → ActWithinUnits p }
{}
