//! The top call of the command.

ghost use Rattle.std.specs.Prelude.{◌≡◌, ◌⊎◌, true, false, map, IfOk, OnOk, IsErrOf, string_bytes};
ghost use Rattle.xv_base.specs.Calls.{CountRose};
ghost use Rattle.xv_job.specs.Written.{job_of};
ghost use Rattle.xv_model.specs.Work.{is_finished};
ghost use Rattle.xv_core.specs.Seen.{Seen, view_of};
ghost use Rattle.xv_core.specs.Losing.{LosesNothing};
ghost use Rattle.xv_parts.specs.Memory.{IsInMemory};
ghost use Rattle.xv_top.specs.Printed.{IsZeroElsewhere};
ghost use Rattle.xv_top.specs.Outcome.{input_over, output_over, outcome};
ghost use Rattle.xv_top.specs.Promises.{WordsPromise};
ghost use Rattle.xv_top.specs.declared.command.Form.{Form as FormName};
ghost use Rattle.xv_top.specs.declared.program.Left.TheVariants.{First};
ghost use Rattle.xv_run.specs.Words.{run_words, IsRunWords, IsNoRun};
ghost use Rattle.xv_run.specs.Run.{EndsAs, IsRunTaken, IsRunBegun, IsRunListed};
ghost use Rattle.xv_run.specs.Promise.{RunPromise, PrintsRun};

use crate::input::read_input;
use crate::output::write_run;
use crate::running::run_job;
use crate::words::form_of;
use std::alloc::Global;
use std::sync::Wait;
use std::thread::Threads;
use xv_base::{Phase, Status};
use xv_io::{Sink, Source};
use xv_job::Job;
use xv_parts::Machine;
use xv_report::JsonFault;
use xv_shared::Gate;
use xv_top::{Form, InputError, Left, leave, refuse_input, refuse_words};

/// Runs the command `run`: reads a job, runs it by a thread for each of its workers, each of whose calls the gate may hold up, and
/// by the driver to its end, and writes its journal, the report with the workers' numbers, and the image; `left` is then the
/// migration that ran. With `--json` its report is one line of JSON.
///
/// Answers `Fine` where the run has switched over, `Failed` where a call ended it, `Cancelled` where it was cancelled;
/// `BadWords` where the words do not call the command, `BadInput` where the input is refused, `ReadFault` and `WriteFault` where the
/// input or the output failed, `NoMemory` for want of memory, where nothing was written, or with `--json` the journal's lines
/// and nothing behind them. At every answer that is no end of a run `left` is nothing.
pub fn top_run<I: Source, O: Sink, G: Gate, X: Threads + Wait + Sync>(
    rt: &X,
    alloc: Global,
    words: &[String],
    input: &mut I,
    output: &mut O,
    gate: &G,
    left: &mut Left,
) -> Status
    // The words call the command, and what it promises of this call holds.
    ensures promise { (form : FormName) → map (λ w. string_bytes w) words.now ≡ run_words form
        → RunPromise form (outcome (input_over I.left I.faults input.old input.new) (output_over O.taken O.faults O.keeps_back output.old output.new) result left.new) }

    // Or they do not.
    ensures words { IsNoRun (map (λ w. string_bytes w) words.now)
        → WordsPromise (outcome (input_over I.left I.faults input.old input.new) (output_over O.taken O.faults O.keeps_back output.old output.new) result left.new) }
    ensures either { IsRunWords (map (λ w. string_bytes w) words.now) ⊎ IsNoRun (map (λ w. string_bytes w) words.now) }

    // No write of a guest is lost: whatever migration is left, said by what its journal tells.
    ensures loses_nothing { (m : Seen) → left.new ≡ First m → LosesNothing m × IsZeroElsewhere m }

    // What is printed is that journal, of the job that was read.
    ensures prints_all { (m : Seen) → left.new ≡ First m → PrintsRun (I.left input.old) (O.taken output.old) (O.taken output.new) m }
{
    leave(left, Left::Nothing);
    match form_of(words) {
        Some(form) => run(rt, alloc, form, input, output, gate, left),
        None => refuse_words(output),
    }
}

/// Reads a job to the end of the input, runs it, and writes the journal, the report in a form and the image.
fn run<I: Source, O: Sink, G: Gate, X: Threads + Wait + Sync>(
    rt: &X,
    alloc: Global,
    form: Form,
    input: &mut I,
    output: &mut O,
    gate: &G,
    left: &mut Left,
) -> Status
    requires { left.old ≡ Left.Nothing }
    ensures promise { RunPromise form (outcome (input_over I.left I.faults input.old input.new) (output_over O.taken O.faults O.keeps_back output.old output.new) result left.new) }
    ensures loses_nothing { (m : Seen) → left.new ≡ First m → LosesNothing m × IsZeroElsewhere m }
    ensures prints_all { (m : Seen) → left.new ≡ First m → PrintsRun (I.left input.old) (O.taken output.old) (O.taken output.new) m }
{
    let job = match read_input(alloc, input) {
        Ok(job) => job,
        Err(InputError::ReadFault) => return Status::ReadFault,
        Err(InputError::NoMemory) => return Status::NoMemory,
        Err(InputError::Refused(fault)) => return refuse_input(fault, output),
    };
    match run_out(rt, alloc, form, job, output, gate) {
        Ok(machine) => {
            let status = status_of(&machine);
            leave(left, Left::First(machine));
            status
        }
        Err(JsonFault::WriteFault) => Status::WriteFault,
        Err(JsonFault::NoMemory) => Status::NoMemory,
    }
}

/// Runs a job, and writes the journal, the report in a form and the image; answers with the migration that ran.
///
/// Errors: `WriteFault` where the output failed, `NoMemory` for want of memory, where nothing was written, or with JSON the
/// journal's lines and nothing behind them.
fn run_out<O: Sink, G: Gate, X: Threads + Wait + Sync>(
    rt: &X,
    alloc: Global,
    form: Form,
    job: Job,
    output: &mut O,
    gate: &G,
) -> Result<Machine, JsonFault>
    ensures taken { IfOk result (λ m. IsRunTaken form job (O.taken output.old) (O.taken output.new) m) }
    ensures in_memory { IfOk result (λ m. IsInMemory m) }
    ensures flushed { OnOk result (O.keeps_back output.new ≡ false) }
    ensures cut { IsErrOf result JsonFault.WriteFault → IsRunBegun form job (O.taken output.old) (O.taken output.new) }
    ensures memory { IsErrOf result JsonFault.NoMemory → (O.taken output.new ≡ O.taken output.old) ⊎ IsRunListed form job (O.taken output.old) (O.taken output.new) }
    ensures fault { IsErrOf result JsonFault.WriteFault → CountRose (O.faults output.old) (O.faults output.new) }
    ensures quiet { ¬ IsErrOf result JsonFault.WriteFault → O.faults output.new ≡ O.faults output.old }
{
    let (machine, counts) = match run_job(rt, alloc, job, gate) {
        Ok(ran) => ran,
        Err(_) => return Err(JsonFault::NoMemory),
    };
    match write_run(alloc, form, &machine, &counts, output) {
        Ok(()) => Ok(machine),
        Err(error) => {
            drop(machine);
            Err(error)
        }
    }
}

/// The status that says in which phase a run has ended.
fn status_of(machine: &Machine) -> Status
    requires { is_finished (job_of machine.now.job) (view_of machine.now) ≡ true }
    ensures { EndsAs (view_of machine.now).phase result }
{
    match machine.phase() {
        Phase::Switched => Status::Fine,
        Phase::Failed => Status::Failed,
        Phase::Cancelled => Status::Cancelled,
        // No run ends so.
        Phase::Running | Phase::Stunned => Status::Fine,
    }
}
