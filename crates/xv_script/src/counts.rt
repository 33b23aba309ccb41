//! How many there are of what lines of a script name.

ghost use Rattle.std.specs.Prelude.{◌≡◌, ◌<◌, ◌^◌};
ghost use Rattle.xv_job.specs.Written.{job_of};
ghost use Rattle.xv_script.specs.Script.{counts_of, count_of};

use crate::word::Named;
use xv_job::Job;

/// How many guests, disks, streams and units a job has.
#[derive(Clone, Copy, Debug, PartialEq, Eq)]
pub struct Counts {
    pub guests: u8,
    pub disks: u8,
    pub streams: u8,
    pub units: u32,
}

/// The counts of a job.
pub(crate) fn counts_of(job: &Job) -> Counts
    ensures exactly { result ≡ counts_of (job_of job.now) }
    ensures few { (result.guests < 2 ^ 8) × (result.disks < 2 ^ 8) × (result.streams < 2 ^ 8) × (result.units < 2 ^ 32) }
{
    Counts {
        guests: job.guests(),
        disks: job.layout.disks(),
        streams: job.config.streams,
        units: job.layout.units(),
    }
}

impl Counts {
    /// How many there are of these; a number that is not below it names nothing.
    pub(crate) fn of(&self, named: Named) -> u32
        ensures { result ≡ count_of self.now named }
    {
        match named {
            Named::Nothing => 1,
            Named::OfGuests => u32::from(self.guests),
            Named::OfDisks => u32::from(self.disks),
            Named::OfStreams => u32::from(self.streams),
            Named::OfUnits => self.units,
        }
    }
}
