//! The report of a migration.

ghost use Rattle.std.specs.List.{flat_map};
ghost use Rattle.std.specs.Prelude.{◌≡◌, ◌≤◌, ◌+◌, ◌++◌, Option, length, codes, decimal, OnOk, OnErr};
ghost use Rattle.xv_base.specs.Calls.{CountRose};
ghost use Rattle.xv_io.specs.Io.{TookFront, TookMore};
ghost use Rattle.xv_report.specs.Texts.{row, phase_word, owner_word, stun_word, state_rows, work_rows, worker_row, tally_rows, report_text};
ghost use Rattle.xv_report.specs.Workers.{tally_of, worker_name};

use crate::counts::{Count, Counts, Job1};
use xv_base::{LineBuf, Phase, Totals};
use xv_io::{Sink, WriteFault, write_text};

/// Writes the twelve lines of the report, and where there are counts a line for each worker and a last one. Takes no
/// memory.
///
/// Errors: `WriteFault` where a write failed; the bytes taken are then a front of the report.
pub fn write_report<O: Sink>(
    totals: &Totals,
    counts: Option<&Counts>,
    sink: &mut O,
) -> Result<(), WriteFault>
    ensures whole { OnOk result (TookMore (O.taken sink.old) (O.taken sink.new) (report_text totals.now (tally_of counts.entry))) }
    ensures fault { OnErr result (CountRose (O.faults sink.old) (O.faults sink.new)) }
    ensures quiet { OnOk result (O.faults sink.new ≡ O.faults sink.old) }
    ensures front { TookFront (O.taken sink.old) (O.taken sink.new) (report_text totals.now (tally_of counts.entry)) }
{
    write_text(sink, report(totals).bytes())?;
    match counts {
        Some(counts) => write_counts(counts, sink),
        None => Ok(()),
    }
}

fn write_counts<O: Sink>(counts: &Counts, sink: &mut O) -> Result<(), WriteFault>
    ensures whole { OnOk result (TookMore (O.taken sink.old) (O.taken sink.new) (tally_rows counts.now)) }
    ensures fault { OnErr result (CountRose (O.faults sink.old) (O.faults sink.new)) }
    ensures quiet { OnOk result (O.faults sink.new ≡ O.faults sink.old) }
    ensures front { TookFront (O.taken sink.old) (O.taken sink.new) (tally_rows counts.now) }
{
    write_workers(&counts.workers, sink)?;
    let mut line = LineBuf::new();
    push_long(&mut line, b"finish", counts.finish);
    write_text(sink, line.bytes())
}

fn write_workers<O: Sink>(counts: &[Count], sink: &mut O) -> Result<(), WriteFault>
    ensures whole { OnOk result (TookMore (O.taken sink.old) (O.taken sink.new) (flat_map worker_row counts.now)) }
    ensures fault { OnErr result (CountRose (O.faults sink.old) (O.faults sink.new)) }
    ensures quiet { OnOk result (O.faults sink.new ≡ O.faults sink.old) }
    ensures front { TookFront (O.taken sink.old) (O.taken sink.new) (flat_map worker_row counts.now) }
{
    for count in counts {
        write_text(sink, worker_line(*count).bytes())?;
    }
    Ok(())
}

fn worker_line(count: Count) -> LineBuf
    ensures { result ≡ worker_row count }
{
    let mut line = LineBuf::new();
    line.push_all(b"worker ");
    push_name(&mut line, count.worker);
    line.push(b' ');
    line.push_long(count.steps);
    line.push(b'\n');
    line
}

fn push_name(text: &mut LineBuf, worker: Job1)
    requires { length text.old ≤ 200 }
    ensures exactly { text.new ≡ text.old ++ worker_name worker }
    ensures few { length text.new ≤ length text.old + 20 }
{
    text.push_all(worker.word().as_bytes());
    if let Some(number) = worker.number() {
        text.push(b' ');
        text.push_number(number.into());
    }
}

// All twelve lines together are at most 230 bytes.
fn report(totals: &Totals) -> LineBuf
    ensures { result ≡ state_rows totals.now ++ work_rows totals.now }
{
    let mut text = LineBuf::new();
    push_state(&mut text, totals);
    push_work(&mut text, totals);
    text
}

fn push_state(text: &mut LineBuf, totals: &Totals)
    requires { length text.old ≤ 100 }
    ensures exactly { text.new ≡ text.old ++ state_rows totals.now }
    ensures few { length text.new ≤ length text.old + 120 }
{
    push_row(text, b"phase", phase_word(totals.phase).as_bytes());
    push_row(text, b"owner", owner_word(totals.phase).as_bytes());
    push_number(text, b"history", totals.history);
    push_number(text, b"faulted", totals.faulted);
    push_long(text, b"journal", totals.journal);
    push_stun(text, totals.stun);
}

fn push_work(text: &mut LineBuf, totals: &Totals)
    requires { length text.old ≤ 130 }
    ensures exactly { text.new ≡ text.old ++ work_rows totals.now }
    ensures few { length text.new ≤ length text.old + 120 }
{
    push_number(text, b"copied", totals.copied);
    push_number(text, b"rounds", totals.rounds);
    push_number(text, b"messages", totals.messages);
    push_number(text, b"mirrors", totals.mirrors);
    push_number(text, b"applied", totals.applied);
    push_number(text, b"credit", totals.credit);
}

pub(crate) fn phase_word(phase: Phase) -> &'static str
    ensures exactly { result.now ≡ phase_word phase }
    ensures few { length result.now ≤ 12 }
{
    match phase {
        Phase::Running => "running",
        Phase::Stunned => "stunned",
        Phase::Switched => "switched",
        Phase::Cancelled => "cancelled",
        Phase::Failed => "failed",
    }
}

pub(crate) fn owner_word(phase: Phase) -> &'static str
    ensures exactly { result.now ≡ owner_word phase }
    ensures few { length result.now ≤ 12 }
{
    match phase {
        Phase::Switched => "destination",
        Phase::Running | Phase::Stunned | Phase::Cancelled | Phase::Failed => "source",
    }
}

fn push_stun(text: &mut LineBuf, stun: Option<u32>)
    requires { length text.old ≤ 230 }
    ensures exactly { text.new ≡ text.old ++ row (codes "stun") (stun_word stun) }
    ensures few { length text.new ≤ length text.old + 16 }
{
    match stun {
        Some(length) => push_number(text, b"stun", length),
        None => push_row(text, b"stun", b"none"),
    }
}

fn push_number(text: &mut LineBuf, name: &[u8], n: u32)
    requires { length text.old + length name.now + 12 ≤ 256 }
    ensures exactly { text.new ≡ text.old ++ row name.now (decimal n) }
    ensures few { length text.new ≤ length text.old + length name.now + 12 }
{
    text.push_all(name);
    text.push(b' ');
    text.push_number(n);
    text.push(b'\n');
}

fn push_long(text: &mut LineBuf, name: &[u8], n: u64)
    requires { length text.old + length name.now + 22 ≤ 256 }
    ensures exactly { text.new ≡ text.old ++ row name.now (decimal n) }
    ensures few { length text.new ≤ length text.old + length name.now + 22 }
{
    text.push_all(name);
    text.push(b' ');
    text.push_long(n);
    text.push(b'\n');
}

fn push_row(text: &mut LineBuf, name: &[u8], value: &[u8])
    requires { length text.old + length name.now + length value.now + 2 ≤ 256 }
    ensures exactly { text.new ≡ text.old ++ row name.now value.now }
    ensures few { length text.new ≤ length text.old + length name.now + length value.now + 2 }
{
    text.push_all(name);
    text.push(b' ');
    text.push_all(value);
    text.push(b'\n');
}
