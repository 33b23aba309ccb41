//! The lines of a journal.

ghost use Rattle.std.specs.Prelude.{◌≡◌, ◌≤◌, true, take, drop, length, OnOk, OnErr};
ghost use Rattle.std.specs.List.{list_all};
ghost use Rattle.xv_base.specs.Calls.{CountRose};
ghost use Rattle.xv_io.specs.Io.{TookMore, TookFront};
ghost use Rattle.xv_job.specs.Written.{job_of};
ghost use Rattle.xv_script.specs.Lines.{turn_line};
ghost use Rattle.xv_parts.specs.Memory.{IsInMemory};
ghost use Rattle.xv_run.specs.Journal.{bytes_read, is_short, lines_with, journal_text};

use xv_base::{Entry, Event, LineBuf, Turn};
use xv_io::{Sink, WriteFault, write_text};
use xv_parts::Machine;
use xv_script::push_turn;

/// Writes the line of each entry of a migration's journal, a read with its bytes. It takes no memory.
///
/// Errors: `WriteFault` where a write failed; the bytes taken are then a front of the lines.
pub fn write_journal<O: Sink>(machine: &Machine, output: &mut O) -> Result<(), WriteFault>
    requires { IsInMemory machine.now }
    ensures whole { OnOk result (TookMore (O.taken output.old) (O.taken output.new) (journal_text (job_of machine.now.job) machine.now.journal)) }
    ensures front { TookFront (O.taken output.old) (O.taken output.new) (journal_text (job_of machine.now.job) machine.now.journal) }
    ensures fault { OnErr result (CountRose (O.faults output.old) (O.faults output.new)) }
    ensures quiet { OnOk result (O.faults output.new ≡ O.faults output.old) }
{
    write_entries(machine.journal(), machine.reads(), output)
}

/// Writes the line of each entry, whose reads stand one behind the other in `reads`.
fn write_entries<O: Sink>(journal: &[Entry], reads: &[u8], output: &mut O) -> Result<(), WriteFault>
    requires short { list_all is_short journal.now ≡ true }
    ensures whole { OnOk result (TookMore (O.taken output.old) (O.taken output.new) (lines_with journal.now reads.now)) }
    ensures front { TookFront (O.taken output.old) (O.taken output.new) (lines_with journal.now reads.now) }
    ensures fault { OnErr result (CountRose (O.faults output.old) (O.faults output.new)) }
    ensures quiet { OnOk result (O.faults output.new ≡ O.faults output.old) }
{
    let mut rest = reads;
    for entry in journal {
        let count = bytes_read(*entry);
        write_entry(*entry, front(rest, count), output)?;
        rest = behind(rest, count);
    }
    Ok(())
}

/// Writes the line of an entry and of the bytes that it read.
fn write_entry<O: Sink>(entry: Entry, read: &[u8], output: &mut O) -> Result<(), WriteFault>
    requires { length read.now ≤ 64 }
    ensures whole { OnOk result (TookMore (O.taken output.old) (O.taken output.new) (turn_line entry.event entry.turn read.now)) }
    ensures front { TookFront (O.taken output.old) (O.taken output.new) (turn_line entry.event entry.turn read.now) }
    ensures fault { OnErr result (CountRose (O.faults output.old) (O.faults output.new)) }
    ensures quiet { OnOk result (O.faults output.new ≡ O.faults output.old) }
{
    let mut line = LineBuf::new();
    push_turn(&mut line, entry.event, entry.turn, read);
    write_text(output, line.bytes())
}

/// How many bytes an entry read for its guest.
fn bytes_read(entry: Entry) -> usize
    ensures { result ≡ bytes_read entry }
{
    match (entry.event, entry.turn) {
        (Event::Guest(_), Turn::Done(note)) => note.a as usize,
        _ => 0,
    }
}

/// The first bytes, so many or all.
fn front(bytes: &[u8], count: usize) -> &[u8]
    ensures { result.now ≡ take count bytes.now }
{
    if count < bytes.len() {
        &bytes[..count]
    } else {
        bytes
    }
}

/// The bytes behind the first so many.
fn behind(bytes: &[u8], count: usize) -> &[u8]
    ensures { result.now ≡ drop count bytes.now }
{
    if count < bytes.len() {
        &bytes[count..]
    } else {
        &[]
    }
}
