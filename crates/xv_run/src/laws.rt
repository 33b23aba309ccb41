//! The laws of the inputs of the command, each as the contract of a function that does nothing.

ghost use Rattle.std.specs.Prelude.{◌≡◌, ◌≢◌, ◌≤◌, ◌+◌, ◌++◌, [], ℕ, List, length, None, Some};
ghost use Rattle.xv_base.specs.declared.text.LineWhy.TheVariants.{Unended};
ghost use Rattle.xv_text.specs.Lines.{whole_lines};
ghost use Rattle.xv_text.specs.Reading.{at_line};
ghost use Rattle.xv_job.specs.Written.{Written, IsGoodWritten};
ghost use Rattle.xv_job.specs.JobText.{job_text};
ghost use Rattle.xv_top.specs.Refused.{input_limit};
ghost use Rattle.xv_run.specs.Refused.{run_fault, IsJob};

/// No input that is accepted begins another, so the job is the only one of that text.
pub fn no_input_of_run_begins_another()
    ensures accepted { (bytes rest : List ℕ) → run_fault bytes ≡ None → run_fault (bytes ++ rest) ≡ None → rest ≡ [] }
    ensures jobs { (v w : Written) (bytes rest : List ℕ) → IsJob bytes v → IsJob (bytes ++ rest) w → (v ≡ w) × (rest ≡ []) }
{}

/// An input that is cut short, wherever it is cut, is refused for the line that it misses: the one behind its whole lines. So it
/// is with each input that is accepted, and with the text of each job, unless what is left is itself longer than the limit.
pub fn cut_jobs_are_unended()
    ensures accepted { (front rest : List ℕ) → run_fault (front ++ rest) ≡ None → rest ≢ [] → run_fault front ≡ Some (at_line (length (whole_lines front) + 1) Unended) }
    ensures spelled { (w : Written) (front rest : List ℕ) → IsGoodWritten w → job_text w ≡ front ++ rest → rest ≢ [] → length front ≤ input_limit → run_fault front ≡ Some (at_line (length (whole_lines front) + 1) Unended) }
{}
