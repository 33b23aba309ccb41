//! The laws of scripts and of inputs, a job's text and a script's behind it, each as the contract of a function that does
//! nothing.

ghost use Rattle.std.specs.Prelude.{◌≡◌, ◌≢◌, ◌++◌, ◌∷◌, [], ℕ, List, codes};
ghost use Rattle.xv_model.specs.Job.{Job, IsGoodJob};
ghost use Rattle.xv_job.specs.Written.{Written, job_of, IsGoodWritten};
ghost use Rattle.xv_job.specs.JobText.{job_text};
ghost use Rattle.xv_script.specs.Lines.{script_text};
ghost use Rattle.xv_script.specs.Script.{IsScriptOf};
ghost use Rattle.xv_script.specs.declared.line.Line.{Line as LineRecord};

/// No line of a script's text is `end`, and none ends with it.
pub fn scripts_have_no_line_end()
    ensures { (lines : List LineRecord) (front rest : List ℕ) → script_text lines ≢ front ++ (codes "end" ++ 10 ∷ rest) }
{}

/// So an input has one place alone where a script stands behind a line `end`: there its job's text ends, and the script is its
/// own.
pub fn inputs_have_one_script()
    ensures { (w : Written) (lines others : List LineRecord) (front : List ℕ) → job_text w ++ script_text lines ≡ front ++ (codes "end" ++ 10 ∷ script_text others) → (job_text w ≡ front ++ (codes "end" ++ 10 ∷ [])) × (script_text lines ≡ script_text others) }
{}

/// No text of a script of a job begins that of another: with its line `stop` it is at its end.
pub fn no_script_begins_another()
    ensures { (job : Job) (lines others : List LineRecord) (rest : List ℕ) → IsGoodJob job → IsScriptOf job lines → IsScriptOf job others → script_text lines ++ rest ≡ script_text others → (lines ≡ others) × (rest ≡ []) }
{}

/// No text of a job begins that of another: with its line `end` it is at its end.
pub fn no_job_begins_another()
    ensures { (v w : Written) (rest : List ℕ) → IsGoodWritten v → IsGoodWritten w → job_text v ++ rest ≡ job_text w → (v ≡ w) × (rest ≡ []) }
{}

/// So no input begins another.
pub fn no_input_begins_another()
    ensures { (v w : Written) (lines others : List LineRecord) (rest : List ℕ) → IsGoodWritten v → IsGoodWritten w → IsScriptOf (job_of v) lines → IsScriptOf (job_of w) others → (job_text v ++ script_text lines) ++ rest ≡ job_text w ++ script_text others → (v ≡ w) × (lines ≡ others) × (rest ≡ []) }
{}
