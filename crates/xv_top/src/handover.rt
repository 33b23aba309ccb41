//! The command `handover`: a script of events, played on two nodes.

ghost use Rattle.std.specs.Prelude.{◌≡◌, ◌≢◌, ◌≤◌, ◌+◌, ◌⊎◌, ◌++◌, false, Some, All, length, IfOk, IfErr, IfSome, OnOk, OnErr, IsErrOf};
ghost use Rattle.xv_base.specs.Calls.{CountRose};
ghost use Rattle.xv_io.specs.Io.{IsAtEnd, GaveAtLeast, GaveAtMost, TookMore, TookFront};
ghost use Rattle.xv_handover.specs.declared.message.Reply.TheVariants.{Failed};
ghost use Rattle.xv_handover.specs.Lines.{transcript, nodes_text, world_text};
ghost use Rattle.xv_top.specs.Refused.{input_limit};
ghost use Rattle.xv_top.specs.Top.{IsReadFault, RefusedSo};
ghost use Rattle.xv_top.specs.Handover.{handover_fault, IsHandover};
ghost use Rattle.xv_top.specs.Outcome.{input_over, output_over, outcome};
ghost use Rattle.xv_top.specs.Promises.{HandoverPromise};
ghost use Rattle.xv_top.specs.declared.program.Left.TheVariants.{Nothing};

use crate::input::{InputError, read_bytes};
use crate::output::write_out;
use crate::playing::PlayError;
use crate::refusal::refuse_input;
use std::alloc::Global;
use xv_base::{Status, TextError};
use xv_handover::{Reply, World, WorldEvent, play_world, print_reply, print_world, read_world};
use xv_io::{Sink, Source, WriteFault, write_text};

/// Reads the script of a handover to the end of the input, plays it on two nodes, and writes what each event answers
/// and how the nodes then stand.
///
/// Answers `BadInput` where the input is refused, `ReadFault` and `WriteFault` where the input or the output failed,
/// `NoMemory` for want of memory.
pub fn run_handover<I: Source, O: Sink>(alloc: Global, input: &mut I, output: &mut O) -> Status
    ensures { HandoverPromise (outcome (input_over I.left I.faults input.old input.new) (output_over O.taken O.faults O.keeps_back output.old output.new) result Nothing) }
{
    let events = match read_script(alloc, input) {
        Ok(events) => events,
        Err(InputError::ReadFault) => return Status::ReadFault,
        Err(InputError::NoMemory) => return Status::NoMemory,
        Err(InputError::Refused(fault)) => return refuse_input(fault, output),
    };
    match hand_over(alloc, &events, output) {
        Ok(()) => Status::Fine,
        Err(PlayError::WriteFault) => Status::WriteFault,
        Err(PlayError::NoMemory) => Status::NoMemory,
    }
}

/// Reads the script of a handover, to the end of the input.
fn read_script<I: Source>(alloc: Global, input: &mut I) -> Result<Vec<WorldEvent>, InputError>
    ensures text { IfOk result (λ events. IfSome (I.left input.old) (λ bytes. IsHandover bytes events.items)) }
    ensures ended { OnOk result (IsAtEnd (I.left input.new)) }
    ensures refused { IfErr result (λ error. RefusedSo error (λ fault. IfSome (I.left input.old) (λ bytes. handover_fault bytes ≡ Some fault))) }
    ensures refused_reads { IfErr result (λ error. RefusedSo error (λ fault. IsAtEnd (I.left input.new) ⊎ GaveAtLeast (input_limit + 1) (I.left input.old) (I.left input.new))) }
    ensures most { GaveAtMost (input_limit + 1) (I.left input.old) (I.left input.new) }
    ensures fault { IfErr result (λ error. IsReadFault error → CountRose (I.faults input.old) (I.faults input.new)) }
    ensures quiet { ¬ IsErrOf result InputError.ReadFault → I.faults input.new ≡ I.faults input.old }
{
    match read_bytes(alloc, input) {
        Ok(text) => parse_script(alloc, &text),
        Err(error) => Err(error),
    }
}

/// The events of the script that a text is.
fn parse_script(alloc: Global, text: &[u8]) -> Result<Vec<WorldEvent>, InputError>
    requires { length text.now ≤ input_limit }
    ensures text { IfOk result (λ events. IsHandover text.now events.items) }
    ensures refused { IfErr result (λ error. RefusedSo error (λ fault. handover_fault text.now ≡ Some fault)) }
    ensures no_fault { IfErr result (λ error. IsReadFault error → ⊥) }
{
    match read_world(alloc, text) {
        Ok(events) => Ok(events),
        Err(TextError::Fault(fault)) => Err(InputError::Refused(fault)),
        Err(TextError::NoMemory) => Err(InputError::NoMemory),
    }
}

/// Plays events on two nodes from their beginnings, and writes all that `handover` writes.
fn hand_over<O: Sink>(alloc: Global, events: &[WorldEvent], output: &mut O) -> Result<(), PlayError>
    ensures written { OnOk result (TookMore (O.taken output.old) (O.taken output.new) (world_text events.now)) }
    ensures front { OnErr result (TookFront (O.taken output.old) (O.taken output.new) (world_text events.now)) }
    ensures memory { IsErrOf result PlayError.NoMemory → O.taken output.new ≡ O.taken output.old }
    ensures flushed { OnOk result (O.keeps_back output.new ≡ false) }
    ensures fault { IsErrOf result PlayError.WriteFault → CountRose (O.faults output.old) (O.faults output.new) }
    ensures quiet { ¬ IsErrOf result PlayError.WriteFault → O.faults output.new ≡ O.faults output.old }
{
    let mut replies = Vec::new(alloc);
    let world = match play_world(alloc, events, &mut replies) {
        Ok(world) => world,
        Err(_) => return Err(PlayError::NoMemory),
    };
    match write_world(events, &replies, &world, output) {
        Ok(()) => Ok(()),
        Err(_) => Err(PlayError::WriteFault),
    }
}

/// Writes each event with its answer, then both nodes, and hands all on.
fn write_world<O: Sink>(
    events: &[WorldEvent],
    replies: &[Reply],
    world: &World,
    output: &mut O,
) -> Result<(), WriteFault>
    requires one_each { length replies.now ≡ length events.now }
    requires told { All (λ reply. reply ≢ Failed) replies.now }
    ensures whole { OnOk result (TookMore (O.taken output.old) (O.taken output.new) (transcript events.now replies.now ++ nodes_text world.now)) }
    ensures front { OnErr result (TookFront (O.taken output.old) (O.taken output.new) (transcript events.now replies.now ++ nodes_text world.now)) }
    ensures flushed { OnOk result (O.keeps_back output.new ≡ false) }
    ensures fault { OnErr result (CountRose (O.faults output.old) (O.faults output.new)) }
    ensures quiet { OnOk result (O.faults output.new ≡ O.faults output.old) }
{
    match write_answers(events, replies, output) {
        Ok(()) => write_out(output, print_world(world).bytes()),
        Err(fault) => Err(fault),
    }
}

/// Writes each event with its answer.
fn write_answers<O: Sink>(
    events: &[WorldEvent],
    replies: &[Reply],
    output: &mut O,
) -> Result<(), WriteFault>
    requires one_each { length replies.now ≡ length events.now }
    requires told { All (λ reply. reply ≢ Failed) replies.now }
    ensures whole { OnOk result (TookMore (O.taken output.old) (O.taken output.new) (transcript events.now replies.now)) }
    ensures front { OnErr result (TookFront (O.taken output.old) (O.taken output.new) (transcript events.now replies.now)) }
    ensures fault { OnErr result (CountRose (O.faults output.old) (O.faults output.new)) }
    ensures quiet { OnOk result (O.faults output.new ≡ O.faults output.old) }
{
    for (event, reply) in events.iter().zip(replies) {
        write_text(output, print_reply(*event, *reply).bytes())?;
    }
    Ok(())
}
