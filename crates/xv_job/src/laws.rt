//! The laws of jobs and their texts, each as the contract of a function that does nothing.

ghost use Rattle.std.specs.Prelude.{◌≡◌, ◌++◌, ℕ, List, None};
ghost use Rattle.xv_model.specs.Job.{IsFirst};
ghost use Rattle.xv_job.specs.Written.{Written, IsGoodWritten, job_of};
ghost use Rattle.xv_job.specs.JobText.{job_text};
ghost use Rattle.xv_job.specs.Texts.{text_fault, job_said, SaysJob, IsReadBack};

/// The text of a good job is read without a fault, as that job, whatever follows it.
pub fn jobs_are_read_back()
    ensures { (w : Written) (rest : List ℕ) → IsGoodWritten w → IsReadBack w rest }
{}

/// A text without a fault begins with the text of the job that it says, and this job is good.
pub fn texts_say_jobs()
    ensures { (text : List ℕ) → text_fault text ≡ None → SaysJob (job_said text) text }
{}

/// No text of a job begins with the text of another.
pub fn texts_begin_with_one_job()
    ensures { (v w : Written) (a b : List ℕ) → IsGoodWritten v → IsGoodWritten w → job_text v ++ a ≡ job_text w ++ b → v ≡ w }
{}

/// The job of what is written is a first attempt.
pub fn jobs_are_first_attempts()
    ensures { (w : Written) → IsFirst (job_of w) }
{}
