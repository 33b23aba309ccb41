//! The input of the command, read and checked whole: a job, and nothing behind it.

ghost use Rattle.std.specs.Prelude.{◌≡◌, ◌≤◌, ◌+◌, ◌⊎◌, length, IfSome, IfOk, IfErr, OnOk, IsErrOf};
ghost use Rattle.xv_base.specs.Calls.{CountRose};
ghost use Rattle.xv_io.specs.Io.{IsAtEnd, GaveAtLeast, GaveAtMost};
ghost use Rattle.xv_top.specs.Refused.{input_limit};
ghost use Rattle.xv_top.specs.Top.{IsReadFault, RefusedSo};
ghost use Rattle.xv_run.specs.Refused.{IsJob, IsRefused};

use std::alloc::Global;
use xv_base::{LineFault, LineWhy, TextError};
use xv_io::Source;
use xv_job::{Job, read_job};
use xv_top::{InputError, read_bytes};

/// Reads a job, to the end of the input.
pub fn read_input<I: Source>(alloc: Global, input: &mut I) -> Result<Job, InputError>
    ensures text { IfOk result (λ job. IfSome (I.left input.old) (λ bytes. IsJob bytes job)) }
    ensures ended { OnOk result (IsAtEnd (I.left input.new)) }
    ensures refused { IfErr result (λ error. RefusedSo error (λ fault. IfSome (I.left input.old) (λ bytes. IsRefused bytes fault))) }
    ensures refused_reads { IfErr result (λ error. RefusedSo error (λ fault. IsAtEnd (I.left input.new) ⊎ GaveAtLeast (input_limit + 1) (I.left input.old) (I.left input.new))) }
    ensures most { GaveAtMost (input_limit + 1) (I.left input.old) (I.left input.new) }
    ensures fault { IfErr result (λ error. IsReadFault error → CountRose (I.faults input.old) (I.faults input.new)) }
    ensures quiet { ¬ IsErrOf result InputError.ReadFault → I.faults input.new ≡ I.faults input.old }
{
    match read_bytes(alloc, input) {
        Ok(text) => parse(alloc, &text),
        Err(error) => Err(error),
    }
}

/// The job that a text is.
fn parse(alloc: Global, text: &[u8]) -> Result<Job, InputError>
    requires { length text.now ≤ input_limit }
    ensures text { IfOk result (λ job. IsJob text.now job) }
    ensures refused { IfErr result (λ error. RefusedSo error (λ fault. IsRefused text.now fault)) }
    ensures no_fault { IfErr result (λ error. IsReadFault error → ⊥) }
{
    match read_job(alloc, text) {
        Ok((job, place)) => {
            if place.byte == text.len() {
                Ok(job)
            } else {
                Err(InputError::Refused(order_at(place.line)))
            }
        }
        Err(TextError::Fault(fault)) => Err(InputError::Refused(fault)),
        Err(TextError::NoMemory) => Err(InputError::NoMemory),
    }
}

/// The fault of a line that stands behind the job.
fn order_at(line: u32) -> LineFault
    ensures { result ≡ record { line = line; why = LineWhy.Order } }
{
    LineFault {
        line,
        why: LineWhy::Order,
    }
}
