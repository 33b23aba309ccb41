//! The input of the program, read and checked whole.

ghost use Rattle.std.specs.Prelude.{◌≡◌, ◌≤◌, ◌+◌, ◌⊎◌, length, drop, IfSome, IfOk, IfErr, OnOk, IsErrOf};
ghost use Rattle.xv_base.specs.Calls.{CountRose};
ghost use Rattle.xv_io.specs.Io.{IsAtEnd, GaveAtLeast, GaveAtMost};
ghost use Rattle.xv_job.specs.Written.{job_of};
ghost use Rattle.xv_script.specs.Script.{IsScriptOf};
ghost use Rattle.xv_top.specs.Refused.{input_limit};
ghost use Rattle.xv_top.specs.Top.{IsInput, IsRefused, IsTooLong, IsReadFault, RefusedSo};

use std::alloc::Global;
use xv_base::{LineFault, LineWhy, MOST_INPUT, TextError};
use xv_io::{ReadAll, Source, read_all};
use xv_job::{Job, read_job};
use xv_script::{Line, read_events};
use xv_text::LIMIT_OF_INPUT;

/// Why there is no job to run.
#[derive(Clone, Copy)]
pub enum InputError {
    /// The input is refused, by its first faulty line or as too long.
    Refused(LineFault),
    /// A read failed.
    ReadFault,
    NoMemory,
}

/// Reads a job and its script, to the end of the input.
pub fn read_input<I: Source>(alloc: Global, input: &mut I) -> Result<(Job, Vec<Line>), InputError>
    ensures text { IfOk result (λ found. IfSome (I.left input.old) (λ bytes. IsInput bytes found.0 found.1.items)) }
    ensures script { IfOk result (λ found. IsScriptOf (job_of found.0) found.1.items) }
    ensures ended { OnOk result (IsAtEnd (I.left input.new)) }
    ensures refused { IfErr result (λ error. RefusedSo error (λ fault. IfSome (I.left input.old) (λ bytes. IsRefused bytes fault))) }
    ensures refused_reads { IfErr result (λ error. RefusedSo error (λ fault. IsAtEnd (I.left input.new) ⊎ GaveAtLeast (input_limit + 1) (I.left input.old) (I.left input.new))) }
    ensures most { GaveAtMost (input_limit + 1) (I.left input.old) (I.left input.new) }
    ensures fault { IfErr result (λ error. IsReadFault error → CountRose (I.faults input.old) (I.faults input.new)) }
    ensures quiet { ¬ IsErrOf result InputError.ReadFault → I.faults input.new ≡ I.faults input.old }
{
    match read_bytes(alloc, input) {
        Ok(text) => parse(alloc, &text),
        Err(error) => Err(error),
    }
}

/// Reads all bytes of an input, to its end.
pub fn read_bytes<I: Source>(alloc: Global, input: &mut I) -> Result<Vec<u8>, InputError>
    ensures text { IfOk result (λ text. IfSome (I.left input.old) (λ bytes. text.items ≡ bytes)) }
    ensures few { IfOk result (λ text. length text.items ≤ input_limit) }
    ensures ended { OnOk result (IsAtEnd (I.left input.new)) }
    ensures too_long { IfErr result (λ error. RefusedSo error (λ fault. IsTooLong fault (I.left input.old) (I.left input.new))) }
    ensures most { GaveAtMost (input_limit + 1) (I.left input.old) (I.left input.new) }
    ensures fault { IfErr result (λ error. IsReadFault error → CountRose (I.faults input.old) (I.faults input.new)) }
    ensures quiet { ¬ IsErrOf result InputError.ReadFault → I.faults input.new ≡ I.faults input.old }
{
    match read_all(alloc, input, MOST_INPUT) {
        Ok(text) => Ok(text),
        Err(ReadAll::TooLong) => Err(InputError::Refused(too_long())),
        Err(ReadAll::ReadFault) => Err(InputError::ReadFault),
        Err(ReadAll::NoMemory) => Err(InputError::NoMemory),
    }
}

/// The fault of an input of too many bytes.
fn too_long() -> LineFault
    ensures { result ≡ record { line = 0; why = LineWhy.Limit LIMIT_OF_INPUT } }
{
    LineFault {
        line: 0,
        why: LineWhy::Limit(LIMIT_OF_INPUT),
    }
}

/// The job and the script that a text is.
fn parse(alloc: Global, text: &[u8]) -> Result<(Job, Vec<Line>), InputError>
    requires { length text.now ≤ input_limit }
    ensures text { IfOk result (λ found. IsInput text.now found.0 found.1.items) }
    ensures script { IfOk result (λ found. IsScriptOf (job_of found.0) found.1.items) }
    ensures refused { IfErr result (λ error. RefusedSo error (λ fault. IsRefused text.now fault)) }
    ensures no_fault { IfErr result (λ error. IsReadFault error → ⊥) }
{
    let (job, place) = match read_job(alloc, text) {
        Ok(found) => found,
        Err(TextError::Fault(fault)) => return Err(InputError::Refused(fault)),
        Err(TextError::NoMemory) => return Err(InputError::NoMemory),
    };
    match read_events(alloc, &job, behind(text, place.byte), place.line) {
        Ok(lines) => Ok((job, lines)),
        Err(TextError::Fault(fault)) => Err(InputError::Refused(fault)),
        Err(TextError::NoMemory) => Err(InputError::NoMemory),
    }
}

/// The bytes behind the first `n`.
pub fn behind(bytes: &[u8], n: usize) -> &[u8]
    requires { n ≤ length bytes.now }
    ensures { result.now ≡ drop n bytes.now }
{
    &bytes[n..]
}
