//! Where the history stands against the number at which a job is to be cancelled, if it has one.

ghost use Rattle.std.specs.Prelude.{◌≡◌};
ghost use Rattle.xv_model.specs.Wait.{is_before, reaches};
ghost use Rattle.xv_job.specs.Written.{job_of};

use xv_job::Job;

/// Whether a history of this length has not come to the number.
pub(crate) fn is_before_cancel(job: &Job, length: u32) -> bool
    ensures { result ≡ is_before (job_of job.now).config.cancel length }
{
    match job.config.cancel {
        Some(number) => length < number,
        None => false,
    }
}

/// Whether a history of this length stands at the number.
pub(crate) fn reaches_cancel(job: &Job, length: u32) -> bool
    ensures { result ≡ reaches (job_of job.now).config.cancel length }
{
    match job.config.cancel {
        Some(number) => length == number,
        None => false,
    }
}
