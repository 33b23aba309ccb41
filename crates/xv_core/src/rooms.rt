//! The memory that a run needs, all of it taken before the run begins.

ghost use Rattle.std.specs.Prelude.{◌≡◌, ◌≤◌, ◌^◌, [], length, sum_by, IfOk, IfSome, vec_capacity};
ghost use Rattle.xv_trace.specs.Operations.{all_unit_operations};
ghost use Rattle.xv_model.specs.Job.{IsGoodJob};
ghost use Rattle.xv_job.specs.Written.{job_of};
ghost use Rattle.xv_core.specs.Reads.{read_length, read_lengths};
ghost use Rattle.xv_core.specs.Kept.{HasRooms};

use std::alloc::{AllocError, Global};
use xv_base::{Entry, MOST_PATTERN, UnitOp};
use xv_guest::History;
use xv_job::Job;
use xv_trace::Trace;

/// Empty lists with room for all that a run enters into them, and the bytes of one read.
#[derive(Drop)]
pub(crate) struct Rooms {
    pub(crate) history: History,
    pub(crate) journal: Vec<Entry>,
    pub(crate) reads: Vec<u8>,
    pub(crate) read: Vec<u8>,
}

impl Rooms {
    /// The rooms for a job; none for want of memory.
    pub(crate) fn new(alloc: Global, job: &Job) -> Option<Rooms>
        ensures good { IfSome result (λ rooms. IsGoodJob (job_of job.now)) }
        ensures history { IfSome result (λ rooms. rooms.history.entries ≡ []) }
        ensures journal { IfSome result (λ rooms. rooms.journal.items ≡ []) }
        ensures reads { IfSome result (λ rooms. rooms.reads.items ≡ []) }
        ensures rooms { IfSome result (λ rooms. HasRooms job.now rooms.history.room (vec_capacity rooms.journal) (vec_capacity rooms.reads) (length rooms.read.items)) }
    {
        let Ok(history) = History::new(alloc, job.operations()) else {
            return None;
        };
        let Ok(journal) = Vec::with_capacity(alloc, job.bound() as usize) else {
            return None;
        };
        let Ok(reads) = Vec::with_capacity(alloc, read_lengths(job) as usize) else {
            return None;
        };
        let Ok(read) = zeros(alloc, MOST_PATTERN as usize) else {
            return None;
        };
        Some(Rooms {
            history,
            journal,
            reads,
            read,
        })
    }
}

/// So many zeros.
/// Errors: want of memory.
fn zeros(alloc: Global, count: usize) -> Result<Vec<u8>, AllocError>
    ensures { IfOk result (λ bytes. length bytes.items ≡ count) }
{
    Vec::from_elem(alloc, 0, count)
}

/// How many bytes the guests' operations read together.
fn read_lengths(job: &Job) -> u64
    ensures { result ≡ read_lengths (job_of job.now) }
{
    let _ = job.operations();
    let mut total = 0;
    for trace in &job.traces {
        total += trace_reads(trace);
    }
    total
}

/// How many bytes the operations of one guest read.
fn trace_reads(trace: &Trace) -> u64
    ensures exactly { result ≡ sum_by read_length (all_unit_operations trace.now.shape trace.now.ops) }
    ensures few { result ≤ 2 ^ 52 }
{
    let mut total = 0;
    for k in 0..trace.unit_ops() {
        total += u64::from(read_length(trace.unit_op(k)));
    }
    total
}

/// How many bytes an operation reads.
fn read_length(op: UnitOp) -> u32
    ensures { result ≡ read_length op }
{
    if op.write.is_none() { op.len } else { 0 }
}
