//! The command `gen`: the text of the job that a number makes.

ghost use Rattle.std.specs.Prelude.{◌≡◌, ◌<◌, ◌^◌, IfOk};
ghost use Rattle.xv_job.specs.JobText.{job_text};
ghost use Rattle.xv_job.specs.Made.{made_job};
ghost use Rattle.xv_top.specs.Outcome.{OnInput, ReadsNothing, output_over, outcome};
ghost use Rattle.xv_top.specs.Promises.{GenPromise};
ghost use Rattle.xv_top.specs.declared.program.Left.TheVariants.{Nothing};

use crate::output::write_out;
use std::alloc::Global;
use xv_base::{NoMemory, Status};
use xv_io::{Sink, WriteFault};
use xv_job::{make_job, print_job};

/// Writes the job that a number makes. It reads nothing.
///
/// Answers `WriteFault` where the output failed, `NoMemory` for want of memory, where nothing was written.
pub fn run_gen<O: Sink>(alloc: Global, number: u16, output: &mut O) -> Status
    // That the number fits its type is told here, since it is a value's own.
    ensures below { number < 2 ^ 16 }
    ensures promise { (input : OnInput) → ReadsNothing input → GenPromise number (outcome input (output_over O.taken O.faults O.keeps_back output.old output.new) result Nothing) }
{
    let text = match made_text(alloc, number) {
        Ok(text) => text,
        Err(NoMemory) => return Status::NoMemory,
    };
    match write_out(output, &text) {
        Ok(()) => Status::Fine,
        Err(WriteFault) => Status::WriteFault,
    }
}

/// The text of the job that a number makes.
/// Errors: want of memory.
fn made_text(alloc: Global, number: u16) -> Result<Vec<u8>, NoMemory>
    ensures { IfOk result (λ text. text.items ≡ job_text (made_job number)) }
{
    let job = make_job(alloc, number)?;
    let mut text = Vec::new(alloc);
    print_job(alloc, &job, &mut text)?;
    Ok(text)
}
