//! The output of the program: the report and the image of a migration, and whole texts.

ghost use Rattle.std.specs.Prelude.{◌≡◌, false, OnOk, OnErr, IsErrOf};
ghost use Rattle.xv_base.specs.Calls.{CountRose};
ghost use Rattle.xv_io.specs.Io.{TookMore, TookFront};
ghost use Rattle.xv_job.specs.Written.{job_of};
ghost use Rattle.xv_parts.specs.Memory.{IsInMemory};
ghost use Rattle.xv_top.specs.Replay.{totals_text, result_text};
ghost use Rattle.xv_top.specs.declared.command.Form.TheVariants.{Json};

use crate::command::Form;
use std::alloc::Global;
use xv_base::{Layout, Totals};
use xv_io::{Sink, WriteFault, write_text};
use xv_job::Job;
use xv_parts::Machine;
use xv_report::{JsonFault, write_image, write_report, write_report_json};

/// Writes the report of a migration in a form, and its image, and hands all on.
///
/// Errors: `WriteFault` where the output failed, `NoMemory` where there was no memory for the line of JSON.
pub fn write_result<O: Sink>(
    alloc: Global,
    form: Form,
    machine: &Machine,
    output: &mut O,
) -> Result<(), JsonFault>
    requires { IsInMemory machine.now }
    ensures whole { OnOk result (TookMore (O.taken output.old) (O.taken output.new) (result_text form (job_of machine.now.job) machine.now.journal)) }
    ensures flushed { OnOk result (O.keeps_back output.new ≡ false) }
    ensures front { TookFront (O.taken output.old) (O.taken output.new) (result_text form (job_of machine.now.job) machine.now.journal) }
    ensures memory { IsErrOf result JsonFault.NoMemory → (form ≡ Json) × (O.taken output.new ≡ O.taken output.old) }
    ensures fault { IsErrOf result JsonFault.WriteFault → CountRose (O.faults output.old) (O.faults output.new) }
    ensures quiet { ¬ IsErrOf result JsonFault.WriteFault → O.faults output.new ≡ O.faults output.old }
{
    write_totals(alloc, form, &machine.totals(), output)?;
    let layout = layout_of(machine.job());
    write_image(layout, machine.source(), machine.dest(), output)?;
    Ok(hand_on(output)?)
}

/// Hands on all that the output has taken.
pub fn hand_on<O: Sink>(output: &mut O) -> Result<(), WriteFault>
    ensures flushed { OnOk result (O.keeps_back output.new ≡ false) }
    ensures stays { O.taken output.new ≡ O.taken output.old }
    ensures fault { OnErr result (CountRose (O.faults output.old) (O.faults output.new)) }
    ensures quiet { OnOk result (O.faults output.new ≡ O.faults output.old) }
{
    match output.flush() {
        Ok(()) => Ok(()),
        Err(_) => Err(WriteFault),
    }
}

/// Writes a report in a form. The form of rows takes no memory.
fn write_totals<O: Sink>(
    alloc: Global,
    form: Form,
    totals: &Totals,
    output: &mut O,
) -> Result<(), JsonFault>
    ensures whole { OnOk result (TookMore (O.taken output.old) (O.taken output.new) (totals_text form totals.now)) }
    ensures front { TookFront (O.taken output.old) (O.taken output.new) (totals_text form totals.now) }
    ensures memory { IsErrOf result JsonFault.NoMemory → (form ≡ Json) × (O.taken output.new ≡ O.taken output.old) }
    ensures fault { IsErrOf result JsonFault.WriteFault → CountRose (O.faults output.old) (O.faults output.new) }
    ensures quiet { ¬ IsErrOf result JsonFault.WriteFault → O.faults output.new ≡ O.faults output.old }
{
    match form {
        Form::Rows => Ok(write_report(totals, None, output)?),
        Form::Json => write_report_json(alloc, totals, None, output),
    }
}

/// The layout of both devices of a job.
pub fn layout_of(job: &Job) -> &Layout
    ensures { result.now ≡ job.now.shape }
{
    &job.layout
}

/// Writes a whole text, and hands it on.
pub fn write_out<O: Sink>(output: &mut O, text: &[u8]) -> Result<(), WriteFault>
    ensures whole { OnOk result (TookMore (O.taken output.old) (O.taken output.new) text.now) }
    ensures flushed { OnOk result (O.keeps_back output.new ≡ false) }
    ensures front { TookFront (O.taken output.old) (O.taken output.new) text.now }
    ensures fault { OnErr result (CountRose (O.faults output.old) (O.faults output.new)) }
    ensures quiet { OnOk result (O.faults output.new ≡ O.faults output.old) }
{
    write_text(output, text)?;
    hand_on(output)
}
