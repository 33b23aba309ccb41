//! What clauses of `top` say together, and how inputs that are cut short are refused, each as the contract of a function that
//! does nothing.

ghost use Rattle.std.specs.Prelude.{◌≡◌, ◌≢◌, ◌≤◌, ◌+◌, ◌++◌, [], ℕ, List, length, Option, None, Some};
ghost use Rattle.xv_base.specs.declared.text.LineWhy.TheVariants.{Unended};
ghost use Rattle.xv_text.specs.Lines.{whole_lines};
ghost use Rattle.xv_text.specs.Reading.{at_line};
ghost use Rattle.xv_job.specs.Written.{Written, job_of, IsGoodWritten};
ghost use Rattle.xv_script.specs.Script.{IsScriptOf};
ghost use Rattle.xv_script.specs.declared.line.Line.{Line as LineRecord};
ghost use Rattle.xv_handover.specs.Lines.{script_text};
ghost use Rattle.xv_handover.specs.Script.{IsScript};
ghost use Rattle.xv_handover.specs.declared.world.WorldEvent.{WorldEvent as EventRecord};
ghost use Rattle.xv_core.specs.Seen.{Seen};
ghost use Rattle.xv_top.specs.Handover.{handover_fault};
ghost use Rattle.xv_top.specs.Printed.{PrintsAll, IsOfInput};
ghost use Rattle.xv_top.specs.Refused.{input_limit, input_fault};
ghost use Rattle.xv_top.specs.Replay.{input_text};

/// What was read is the text of the migration's job and of just those lines that were answered.
pub fn answered_lines_are_those_read()
    ensures { (read : List ℕ) (old new : Option (List ℕ)) (m : Seen) (p : PrintsAll (Some read) old new m) → IsOfInput (Some read) m → read ≡ input_text m.job p.lines }
{}

/// An input of `replay` that is cut short, wherever it is cut, is refused for the line that it misses: the one behind its whole
/// lines. So it is with each input that is accepted, and with the text of each job and a script of it, unless what is left is
/// itself longer than the limit.
pub fn cut_inputs_are_unended()
    ensures accepted { (front rest : List ℕ) → input_fault (front ++ rest) ≡ None → rest ≢ [] → input_fault front ≡ Some (at_line (length (whole_lines front) + 1) Unended) }
    ensures spelled { (w : Written) (lines : List LineRecord) (front rest : List ℕ) → IsGoodWritten w → IsScriptOf (job_of w) lines → input_text w lines ≡ front ++ rest → rest ≢ [] → length front ≤ input_limit → input_fault front ≡ Some (at_line (length (whole_lines front) + 1) Unended) }
{}

/// And so is one of `handover`.
pub fn cut_handovers_are_unended()
    ensures accepted { (front rest : List ℕ) → handover_fault (front ++ rest) ≡ None → rest ≢ [] → handover_fault front ≡ Some (at_line (length (whole_lines front) + 1) Unended) }
    ensures spelled { (events : List EventRecord) (front rest : List ℕ) → IsScript events → script_text events ≡ front ++ rest → rest ≢ [] → length front ≤ input_limit → handover_fault front ≡ Some (at_line (length (whole_lines front) + 1) Unended) }
{}
