//! A job read from the front of a text.

ghost use Rattle.std.specs.Prelude.{◌≡◌, ◌≤◌, ◌+◌, ◌++◌, ℕ, List, true, false, None, Some, length, take, IfOk};
ghost use Rattle.xv_text.specs.Reading.{IfFault};
ghost use Rattle.xv_job.specs.Written.{Written, IsGoodWritten, AreTraces};
ghost use Rattle.xv_job.specs.JobText.{job_text, job_lines};
ghost use Rattle.xv_job.specs.Held.{IsConsistent, job_held, shape_or_none};
ghost use Rattle.xv_job.specs.Texts.{text_fault, job_said, UnlessNoMemory};

use crate::held::Held;
use crate::job::Job;
use crate::machine::known;
use crate::word::END_RANK;
use std::alloc::Global;
use xv_base::TextError;
use xv_text::{Place, ReadsLines, Stop, read_lines};

impl Held {
    /// The job that is held.
    fn into_job(self) -> Job
        requires consistent { IsConsistent self }
        requires good { IsGoodWritten (job_held self) }
        ensures { result ≡ job_held self }
    {
        let layout = known(&self.layout);
        Job {
            layout,
            format: self.format,
            group: self.group,
            config: self.config,
            faults: self.faults,
            init: self.init,
            traces: self.traces,
        }
    }
}

impl ReadsLines for Held {
    ghost use Rattle.xv_job.specs.Draft.{Draft, job_reader};
    ghost use Rattle.xv_job.specs.Held.{IsConsistent as Consistent, IsReached, draft_held};

    ghost State = { Draft };

    ghost reader = { λ h. job_reader };

    ghost state = { λ h. draft_held h };

    ghost holds = { λ h. Consistent h × IsReached (draft_held h) };

    fn is_ended(&self) -> bool {
        self.last == END_RANK
    }

    fn read_line(&mut self, alloc: Global, line: &[u8]) -> Result<(), Stop> {
        self.take_line(alloc, line)
    }
}

/// Reads the job that a text begins with, of either job format; anything may follow its line `end`. It reads the text
/// once, and takes memory for what the job holds alone.
/// Errors: the first fault of the job's lines, or want of memory.
pub fn read_job(alloc: Global, text: &[u8]) -> Result<(Job, Place), TextError>
    ensures no_fault { IfOk result (λ found. text_fault text.now ≡ None) }
    ensures front { IfOk result (λ found. take found.1.byte text.now ≡ job_text found.0) }
    ensures within { IfOk result (λ found. found.1.byte ≤ length text.now) }
    ensures line { IfOk result (λ found. found.1.line ≡ length (job_lines found.0) + 1) }
    ensures good { IfOk result (λ found. IsGoodWritten found.0) }
    ensures said { IfOk result (λ found. found.0 ≡ job_said text.now) }
    ensures only { (w : Written) (rest : List ℕ) → IsGoodWritten w → text.now ≡ job_text w ++ rest → UnlessNoMemory result (λ found. found.0 ≡ w) }
    ensures fault { IfFault result (λ fault. text_fault text.now ≡ Some fault) }
{
    let mut held = Held::new(alloc);
    match read_lines(alloc, &mut held, text, 1, false) {
        Ok(place) => Ok((held.into_job(), place)),
        Err(error) => Err(error),
    }
}
