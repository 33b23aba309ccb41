//! The report of a migration as JSON.

ghost use Rattle.std.specs.Prelude.{◌≡◌, IfOk, IfSome, IsErrOf, OnOk};
ghost use Rattle.serde_json.specs.Data.{put as with_member, string, object, no_members};
ghost use Rattle.serde_json.specs.View.{view, members_view};
ghost use Rattle.xv_base.specs.Calls.{CountRose};
ghost use Rattle.xv_io.specs.Io.{TookFront, TookMore};
ghost use Rattle.xv_report.specs.Json.{number_value, put_workers, with_state, with_work, with_tally, report_value, report_json, TellsEach};
ghost use Rattle.xv_report.specs.Workers.{worker_name, AreDistinct, HasSmallNumber, HaveSmallNumbers, tally_of};

use crate::counts::{Count, Counts};
use crate::report::{owner_word, phase_word};
use serde_json::{Map, Value};
use std::alloc::{AllocError, Global};
use xv_base::{NoMemory, Totals};
use xv_io::{Sink, WriteFault, write_text};

/// Why a report is not written as JSON.
#[derive(Clone, Copy, Debug, PartialEq, Eq)]
pub enum JsonFault {
    /// A write failed, and a front of the text has been taken.
    WriteFault,
    /// There was no memory for the text, and nothing has been taken.
    NoMemory,
}

impl From<NoMemory> for JsonFault {
    ghost use Rattle.xv_report.specs.declared.as_json.JsonFault.TheVariants.{NoMemory};

    ghost from_gives = { λ _ fault. fault ≡ NoMemory };

    fn from(_: NoMemory) -> JsonFault {
        JsonFault::NoMemory
    }
}

impl From<WriteFault> for JsonFault {
    ghost use Rattle.xv_report.specs.declared.as_json.JsonFault.TheVariants.{WriteFault};

    ghost from_gives = { λ _ fault. fault ≡ WriteFault };

    fn from(_: WriteFault) -> JsonFault {
        JsonFault::WriteFault
    }
}

/// The report as one object. Its keys are the names of the report's lines; with counts there are `finish` and
/// `workers` too, and this is an object from the workers' names.
///
/// Errors: `NoMemory` where there was no memory for the object.
pub fn report_value(
    alloc: Global,
    totals: &Totals,
    counts: Option<&Counts>,
) -> Result<Value, NoMemory>
    requires { IfSome (tally_of counts) (λ tally. AreDistinct tally.workers) }
    ensures exactly { IfOk result (λ v. view v ≡ report_value totals.now (tally_of counts.entry)) }
    ensures found { IfOk result (λ v. IfSome (tally_of counts.entry) (λ tally. TellsEach tally.workers (view v))) }
{
    match make_members(alloc, totals, counts) {
        Ok(members) => Ok(Value::from(members)),
        Err(_) => Err(NoMemory),
    }
}

/// Writes the report as one line of JSON, the text of its object with no space.
///
/// Errors: `WriteFault` where a write failed; the bytes taken are then a front of the line. `NoMemory` where there was
/// no memory for the line; nothing has been taken then.
pub fn write_report_json<O: Sink>(
    alloc: Global,
    totals: &Totals,
    counts: Option<&Counts>,
    sink: &mut O,
) -> Result<(), JsonFault>
    requires { IfSome (tally_of counts) (λ tally. AreDistinct tally.workers) }
    ensures whole { OnOk result (TookMore (O.taken sink.old) (O.taken sink.new) (report_json totals.now (tally_of counts.entry))) }
    ensures fault { IsErrOf result JsonFault.WriteFault → CountRose (O.faults sink.old) (O.faults sink.new) }
    ensures quiet { ¬ IsErrOf result JsonFault.WriteFault → O.faults sink.new ≡ O.faults sink.old }
    ensures memory { IsErrOf result JsonFault.NoMemory → O.taken sink.new ≡ O.taken sink.old }
    ensures front { TookFront (O.taken sink.old) (O.taken sink.new) (report_json totals.now (tally_of counts.entry)) }
{
    let line = report_line(alloc, totals, counts)?;
    Ok(write_text(sink, &line)?)
}

// The object's text and a line feed, so that one write takes the line where the sink has room.
fn report_line(alloc: Global, totals: &Totals, counts: Option<&Counts>) -> Result<Vec<u8>, NoMemory>
    requires { IfSome (tally_of counts) (λ tally. AreDistinct tally.workers) }
    ensures { IfOk result (λ line. line.items ≡ report_json totals.now (tally_of counts.entry)) }
{
    let value = report_value(alloc, totals, counts)?;
    let Ok(mut line) = value.to_vec(alloc) else {
        return Err(NoMemory);
    };
    match line.push(b'\n') {
        Ok(()) => Ok(line),
        Err(_) => Err(NoMemory),
    }
}

// A map keeps its keys in byte order, so they are put in the order of the report's lines.
fn make_members(
    alloc: Global,
    totals: &Totals,
    counts: Option<&Counts>,
) -> Result<Map<String, Value>, AllocError>
    ensures exactly { IfOk result (λ m. object (members_view m.entries) ≡ report_value totals.now (tally_of counts.entry)) }
    ensures small { OnOk result (IfSome (tally_of counts.entry) (λ tally. HaveSmallNumbers tally.workers)) }
{
    let mut members = Map::new(alloc);
    put_state(alloc, &mut members, totals)?;
    put_work(alloc, &mut members, totals)?;
    if let Some(counts) = counts {
        put_counts(alloc, &mut members, counts)?;
    }
    Ok(members)
}

fn put_state(
    alloc: Global,
    members: &mut Map<String, Value>,
    totals: &Totals,
) -> Result<(), AllocError>
    ensures { OnOk result (members_view members.new.entries ≡ with_state totals.now (members_view members.old.entries)) }
{
    put_word(alloc, members, "phase", phase_word(totals.phase))?;
    put_word(alloc, members, "owner", owner_word(totals.phase))?;
    put_number(alloc, members, "history", totals.history.into())?;
    put_number(alloc, members, "faulted", totals.faulted.into())?;
    put_number(alloc, members, "journal", totals.journal)?;
    serde_json::put(members, alloc, "stun", Value::from(totals.stun))
}

fn put_work(
    alloc: Global,
    members: &mut Map<String, Value>,
    totals: &Totals,
) -> Result<(), AllocError>
    ensures { OnOk result (members_view members.new.entries ≡ with_work totals.now (members_view members.old.entries)) }
{
    put_number(alloc, members, "copied", totals.copied.into())?;
    put_number(alloc, members, "rounds", totals.rounds.into())?;
    put_number(alloc, members, "messages", totals.messages.into())?;
    put_number(alloc, members, "mirrors", totals.mirrors.into())?;
    put_number(alloc, members, "applied", totals.applied.into())?;
    put_number(alloc, members, "credit", totals.credit.into())
}

fn put_counts(
    alloc: Global,
    members: &mut Map<String, Value>,
    counts: &Counts,
) -> Result<(), AllocError>
    ensures exactly { OnOk result (members_view members.new.entries ≡ with_tally counts.now (members_view members.old.entries)) }
    ensures small { OnOk result (HaveSmallNumbers counts.now.workers) }
{
    let workers = make_workers(alloc, &counts.workers)?;
    put_number(alloc, members, "finish", counts.finish)?;
    serde_json::put(members, alloc, "workers", Value::from(workers))
}

// Each worker's number under its name.
fn make_workers(alloc: Global, counts: &[Count]) -> Result<Map<String, Value>, AllocError>
    ensures exactly { IfOk result (λ m. members_view m.entries ≡ put_workers counts.now no_members) }
    ensures small { OnOk result (HaveSmallNumbers counts.now) }
{
    let mut members = Map::new(alloc);
    for count in counts {
        put_worker(alloc, &mut members, *count)?;
    }
    Ok(members)
}

fn put_worker(
    alloc: Global,
    members: &mut Map<String, Value>,
    count: Count,
) -> Result<(), AllocError>
    ensures exactly { OnOk result (members_view members.new.entries
        ≡ with_member (worker_name count.worker) (number_value count.steps) (members_view members.old.entries)) }
    ensures small { HasSmallNumber count.worker }
{
    let name = count.worker.to_string(alloc)?;
    put_number(alloc, members, name.as_str(), count.steps)
}

fn put_number(
    alloc: Global,
    members: &mut Map<String, Value>,
    key: &str,
    n: u64,
) -> Result<(), AllocError>
    ensures { OnOk result (members_view members.new.entries
        ≡ with_member key.now (number_value n) (members_view members.old.entries)) }
{
    serde_json::put(members, alloc, key, Value::from(n))
}

fn put_word(
    alloc: Global,
    members: &mut Map<String, Value>,
    key: &str,
    word: &str,
) -> Result<(), AllocError>
    ensures { OnOk result (members_view members.new.entries
        ≡ with_member key.now (string word.now) (members_view members.old.entries)) }
{
    let value = Value::try_from_str(alloc, word)?;
    serde_json::put(members, alloc, key, value)
}
