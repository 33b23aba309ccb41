//! The output of the command: the journal, the report with the workers' numbers, and the image.

ghost use Rattle.std.specs.Prelude.{◌≡◌, false, OnOk, IsErrOf};
ghost use Rattle.xv_base.specs.Calls.{CountRose};
ghost use Rattle.xv_io.specs.Io.{TookMore, TookFront};
ghost use Rattle.xv_job.specs.Written.{job_of};
ghost use Rattle.xv_report.specs.Workers.{AreDistinct};
ghost use Rattle.xv_parts.specs.Memory.{IsInMemory};
ghost use Rattle.xv_top.specs.declared.command.Form.TheVariants.{Json};
ghost use Rattle.xv_run.specs.Journal.{journal_text};
ghost use Rattle.xv_run.specs.Numbers.{tally};
ghost use Rattle.xv_run.specs.Run.{counted_text, result_text, run_text};

use crate::journal::write_journal;
use std::alloc::Global;
use xv_base::Totals;
use xv_io::Sink;
use xv_parts::Machine;
use xv_report::{Counts, JsonFault, write_image, write_report, write_report_json};
use xv_top::{Form, hand_on, layout_of};

/// Writes the journal's lines, the report in a form with the workers' numbers, and the image, and hands all on.
///
/// Errors: `WriteFault` where the output failed, `NoMemory` where there was no memory for the line of JSON; the lines of the
/// journal have been taken then, and nothing behind them.
pub fn write_run<O: Sink>(
    alloc: Global,
    form: Form,
    machine: &Machine,
    counts: &Counts,
    output: &mut O,
) -> Result<(), JsonFault>
    requires in_memory { IsInMemory machine.now }
    requires counted { counts.now ≡ tally (job_of machine.now.job) machine.now.journal counts.now.finish }
    requires distinct { AreDistinct counts.now.workers }
    ensures whole { OnOk result (TookMore (O.taken output.old) (O.taken output.new) (run_text form (job_of machine.now.job) machine.now.journal counts.now.finish)) }
    ensures front { TookFront (O.taken output.old) (O.taken output.new) (run_text form (job_of machine.now.job) machine.now.journal counts.now.finish) }
    ensures memory { IsErrOf result JsonFault.NoMemory → (form ≡ Json) × TookMore (O.taken output.old) (O.taken output.new) (journal_text (job_of machine.now.job) machine.now.journal) }
    ensures flushed { OnOk result (O.keeps_back output.new ≡ false) }
    ensures fault { IsErrOf result JsonFault.WriteFault → CountRose (O.faults output.old) (O.faults output.new) }
    ensures quiet { ¬ IsErrOf result JsonFault.WriteFault → O.faults output.new ≡ O.faults output.old }
{
    write_journal(machine, output)?;
    write_result(alloc, form, machine, counts, output)
}

/// Writes the report in a form with the workers' numbers, and the image, and hands all on.
///
/// Errors: `WriteFault` where the output failed, `NoMemory` where there was no memory for the line of JSON.
fn write_result<O: Sink>(
    alloc: Global,
    form: Form,
    machine: &Machine,
    counts: &Counts,
    output: &mut O,
) -> Result<(), JsonFault>
    requires in_memory { IsInMemory machine.now }
    requires counted { counts.now ≡ tally (job_of machine.now.job) machine.now.journal counts.now.finish }
    requires distinct { AreDistinct counts.now.workers }
    ensures whole { OnOk result (TookMore (O.taken output.old) (O.taken output.new) (result_text form (job_of machine.now.job) machine.now.journal counts.now.finish)) }
    ensures front { TookFront (O.taken output.old) (O.taken output.new) (result_text form (job_of machine.now.job) machine.now.journal counts.now.finish) }
    ensures memory { IsErrOf result JsonFault.NoMemory → (form ≡ Json) × (O.taken output.new ≡ O.taken output.old) }
    ensures flushed { OnOk result (O.keeps_back output.new ≡ false) }
    ensures fault { IsErrOf result JsonFault.WriteFault → CountRose (O.faults output.old) (O.faults output.new) }
    ensures quiet { ¬ IsErrOf result JsonFault.WriteFault → O.faults output.new ≡ O.faults output.old }
{
    write_counted(alloc, form, &machine.totals(), counts, output)?;
    let layout = layout_of(machine.job());
    write_image(layout, machine.source(), machine.dest(), output)?;
    Ok(hand_on(output)?)
}

/// Writes a report in a form, with the workers' numbers. The form of rows takes no memory.
fn write_counted<O: Sink>(
    alloc: Global,
    form: Form,
    totals: &Totals,
    counts: &Counts,
    output: &mut O,
) -> Result<(), JsonFault>
    requires { AreDistinct counts.now.workers }
    ensures whole { OnOk result (TookMore (O.taken output.old) (O.taken output.new) (counted_text form totals.now counts.now)) }
    ensures front { TookFront (O.taken output.old) (O.taken output.new) (counted_text form totals.now counts.now) }
    ensures memory { IsErrOf result JsonFault.NoMemory → (form ≡ Json) × (O.taken output.new ≡ O.taken output.old) }
    ensures fault { IsErrOf result JsonFault.WriteFault → CountRose (O.faults output.old) (O.faults output.new) }
    ensures quiet { ¬ IsErrOf result JsonFault.WriteFault → O.faults output.new ≡ O.faults output.old }
{
    match form {
        Form::Rows => Ok(write_report(totals, Some(counts), output)?),
        Form::Json => write_report_json(alloc, totals, Some(counts), output),
    }
}
