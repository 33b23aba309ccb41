//! The top call of the program.

ghost use Rattle.std.specs.Prelude.{ℕ, ◌≡◌, ◌<◌, ◌^◌, ◌⊎◌, false, map, IfOk, OnOk, IsErrOf, OnErr, string_bytes};
ghost use Rattle.xv_base.specs.Calls.{CountRose};
ghost use Rattle.xv_io.specs.Io.{TookMore, TookFront};
ghost use Rattle.xv_job.specs.Written.{job_of};
ghost use Rattle.xv_job.specs.Made.{made_job};
ghost use Rattle.xv_script.specs.Script.{IsScriptOf};
ghost use Rattle.xv_core.specs.Seen.{Seen};
ghost use Rattle.xv_core.specs.Losing.{LosesNothing};
ghost use Rattle.xv_parts.specs.Memory.{IsInMemory, begun_in_memory};
ghost use Rattle.xv_top.specs.Printed.{IsPrinted, PrintsAll, IsOfInput, IsZeroElsewhere, HasEndedAll};
ghost use Rattle.xv_top.specs.declared.command.Form.{Form as FormName};
ghost use Rattle.xv_top.specs.declared.program.Left.TheVariants.{First};
ghost use Rattle.xv_top.specs.Replay.{transcript, output_text};
ghost use Rattle.xv_top.specs.Top.{HasRun};
ghost use Rattle.xv_top.specs.Outcome.{input_over, output_over, outcome};
ghost use Rattle.xv_top.specs.Command.{words_of, IsGoodCommand, IsNoCommand, IsCommand};
ghost use Rattle.xv_top.specs.Promises.{ReplayPromise, WordsPromise, PromiseOf};
ghost use Rattle.xv_top.specs.declared.command.Command.{Command as CommandName};
ghost use Rattle.xv_top.specs.declared.command.Command.TheVariants.{Replay, Drive};
ghost use Rattle.xv_top.specs.declared.command.Form.TheVariants.{Json};

use crate::command::{Command, Form, command_of};
use crate::driving::run_drive;
use crate::generating::run_gen;
use crate::handover::run_handover;
use crate::input::{InputError, read_input};
use crate::output::write_result;
use crate::playing::{PlayError, replay_on};
use crate::refusal::{refuse_input, refuse_words};
use std::alloc::Global;
use std::mem::replace;
use xv_base::Status;
use xv_io::{Sink, Source};
use xv_job::Job;
use xv_parts::{Machine, begin};
use xv_report::JsonFault;
use xv_script::Line;

/// What a call leaves behind: the migration that ran, or nothing.
#[derive(Drop)]
pub enum Left {
    Nothing,
    First(Machine),
}

/// Puts a value where an earlier one was left. The earlier one is dropped by a call, since the prover goes through all that a
/// drop frees at each place where one stands.
pub fn leave(left: &mut Left, now: Left)
    ensures { left.new ≡ now }
{
    drop(replace(left, now));
}

/// Runs the program: the command that the words call. `replay` reads a job and a script, plays the script, and writes
/// what each event answers, the report and the image; `left` is then the migration that ran. With `--json` its report is
/// one line of JSON. `gen` writes the job that its number makes, and `drive` drives that job to its end and writes its
/// report, and in how many units the guests' owner agrees with the unmigrated guest; `left` is then the migration that ran.
/// Both read nothing. `handover` reads a script of two nodes, plays it, and writes what each event answers and the nodes.
///
/// Answers `BadWords` where the words call no command, `BadInput` where the input is refused, `ReadFault` and
/// `WriteFault` where the input or the output failed, `NoMemory` for want of memory, where nothing was written, or with
/// `--json` the transcript and nothing behind it. At every answer but `Fine`, and at every answer of `gen` and `handover`,
/// `left` is nothing.
pub fn top<I: Source, O: Sink>(
    alloc: Global,
    words: &[String],
    input: &mut I,
    output: &mut O,
    left: &mut Left,
) -> Status
    // The words call a command, and what it promises of this call holds.
    ensures promise { (command : CommandName) → IsGoodCommand command → map (λ w. string_bytes w) words.now ≡ words_of command
        → PromiseOf command (outcome (input_over I.left I.faults input.old input.new) (output_over O.taken O.faults O.keeps_back output.old output.new) result left.new) }

    // Or they call none.
    ensures words { IsNoCommand (map (λ w. string_bytes w) words.now)
        → WordsPromise (outcome (input_over I.left I.faults input.old input.new) (output_over O.taken O.faults O.keeps_back output.old output.new) result left.new) }
    ensures either { IsCommand (map (λ w. string_bytes w) words.now) ⊎ IsNoCommand (map (λ w. string_bytes w) words.now) }

    // No write of a guest is lost: whatever migration is left, said by what its journal tells.
    ensures loses_nothing { (m : Seen) → left.new ≡ First m → LosesNothing m × IsZeroElsewhere m }

    // `replay` prints that journal: the input is the text of its job and of a script, and its lines behind a line `end`, which
    // is in one place alone, were answered (law `answered_lines_are_those_read`); the entries are theirs, each line says its
    // answer with what the unmigrated guest reads there, and the image is what the devices hold.
    ensures of_input { (form : FormName) (m : Seen) → map (λ w. string_bytes w) words.now ≡ words_of (Replay form) → left.new ≡ First m → IsOfInput (I.left input.old) m }
    ensures prints_all { (form : FormName) (m : Seen) → map (λ w. string_bytes w) words.now ≡ words_of (Replay form) → left.new ≡ First m → PrintsAll (I.left input.old) (O.taken output.old) (O.taken output.new) m }

    // `drive` brings its job's guests over, each to its end.
    ensures ends_all { (number : ℕ) (m : Seen) → number < 2 ^ 16 → map (λ w. string_bytes w) words.now ≡ words_of (Drive number) → left.new ≡ First m → (m.job ≡ made_job number) × HasEndedAll m }
{
    leave(left, Left::Nothing);
    match command_of(words) {
        Some(Command::Replay(form)) => run_replay(alloc, form, input, output, left),
        Some(Command::Gen(number)) => run_gen(alloc, number, output),
        Some(Command::Handover) => run_handover(alloc, input, output),
        Some(Command::Drive(number)) => run_drive(alloc, number, output, left),
        None => refuse_words(output),
    }
}

/// Reads a job and a script to the end of the input, plays the script, and writes what each event answers, the report
/// in a form and the image.
fn run_replay<I: Source, O: Sink>(
    alloc: Global,
    form: Form,
    input: &mut I,
    output: &mut O,
    left: &mut Left,
) -> Status
    requires { left.old ≡ Left.Nothing }
    ensures promise { ReplayPromise form (outcome (input_over I.left I.faults input.old input.new) (output_over O.taken O.faults O.keeps_back output.old output.new) result left.new) }
    ensures loses_nothing { (m : Seen) → left.new ≡ First m → LosesNothing m × IsZeroElsewhere m }
    ensures of_input { (m : Seen) → left.new ≡ First m → IsOfInput (I.left input.old) m }
    ensures prints_all { (m : Seen) → left.new ≡ First m → PrintsAll (I.left input.old) (O.taken output.old) (O.taken output.new) m }
{
    let (job, lines) = match read_input(alloc, input) {
        Ok(found) => found,
        Err(InputError::ReadFault) => return Status::ReadFault,
        Err(InputError::NoMemory) => return Status::NoMemory,
        Err(InputError::Refused(fault)) => return refuse_input(fault, output),
    };
    match replay(alloc, form, job, &lines, output) {
        Ok(machine) => {
            leave(left, Left::First(machine));
            Status::Fine
        }
        Err(PlayError::WriteFault) => Status::WriteFault,
        Err(PlayError::NoMemory) => Status::NoMemory,
    }
}

/// Plays a script on a migration of a job from its start, over devices and wires in memory, and writes all that `replay`
/// writes, with its report in a form.
fn replay<O: Sink>(
    alloc: Global,
    form: Form,
    job: Job,
    lines: &[Line],
    output: &mut O,
) -> Result<Machine, PlayError>
    requires script { IsScriptOf (job_of job) lines.now }
    ensures ran { IfOk result (λ m. HasRun job lines.now m) }
    ensures in_memory { IfOk result (λ m. IsInMemory m) }
    ensures printed { IfOk result (λ m. IsPrinted lines.now (O.taken output.old) (O.taken output.new) m) }
    ensures written { OnOk result (TookMore (O.taken output.old) (O.taken output.new) (output_text form (job_of job) lines.now)) }
    ensures front { OnErr result (TookFront (O.taken output.old) (O.taken output.new) (output_text form (job_of job) lines.now)) }
    ensures memory { IsErrOf result PlayError.NoMemory → (O.taken output.new ≡ O.taken output.old) ⊎ ((form ≡ Json) × TookMore (O.taken output.old) (O.taken output.new) (transcript (job_of job) lines.now)) }
    ensures flushed { OnOk result (O.keeps_back output.new ≡ false) }
    ensures fault { IsErrOf result PlayError.WriteFault → CountRose (O.faults output.old) (O.faults output.new) }
    ensures quiet { ¬ IsErrOf result PlayError.WriteFault → O.faults output.new ≡ O.faults output.old }
{
    let mut machine = match begin(alloc, job) {
        Ok(machine) => machine,
        Err(_) => return Err(PlayError::NoMemory),
    };
    match play_script(alloc, form, &mut machine, lines, output) {
        Ok(()) => Ok(machine),
        Err(error) => {
            drop(machine);
            Err(error)
        }
    }
}

/// Plays a script on a migration in memory that has just begun, and writes all that `replay` writes, with its report in a
/// form.
///
/// Errors: `WriteFault` where the output failed, `NoMemory` where there was no memory for the line of JSON.
fn play_script<O: Sink>(
    alloc: Global,
    form: Form,
    machine: &mut Machine,
    lines: &[Line],
    output: &mut O,
) -> Result<(), PlayError>
    requires begun { machine.old ≡ begun_in_memory machine.old.job }
    requires script { IsScriptOf (job_of machine.old.job) lines.now }
    ensures ran { OnOk result (HasRun machine.old.job lines.now machine.new) }
    ensures in_memory { OnOk result (IsInMemory machine.new) }
    ensures printed { OnOk result (IsPrinted lines.now (O.taken output.old) (O.taken output.new) machine.new) }
    ensures written { OnOk result (TookMore (O.taken output.old) (O.taken output.new) (output_text form (job_of machine.old.job) lines.now)) }
    ensures front { OnErr result (TookFront (O.taken output.old) (O.taken output.new) (output_text form (job_of machine.old.job) lines.now)) }
    ensures memory { IsErrOf result PlayError.NoMemory → (form ≡ Json) × TookMore (O.taken output.old) (O.taken output.new) (transcript (job_of machine.old.job) lines.now) }
    ensures flushed { OnOk result (O.keeps_back output.new ≡ false) }
    ensures fault { IsErrOf result PlayError.WriteFault → CountRose (O.faults output.old) (O.faults output.new) }
    ensures quiet { ¬ IsErrOf result PlayError.WriteFault → O.faults output.new ≡ O.faults output.old }
{
    // That it keeps what every migration keeps is told with its journal.
    let _ = machine.journal();
    match replay_on(machine, lines, output) {
        Ok(()) => match write_result(alloc, form, machine, output) {
            Ok(()) => Ok(()),
            Err(JsonFault::WriteFault) => Err(PlayError::WriteFault),
            Err(JsonFault::NoMemory) => Err(PlayError::NoMemory),
        },
        Err(_) => Err(PlayError::WriteFault),
    }
}
