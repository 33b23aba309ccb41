//! A script that is played: each event is one step, and each line is answered.

ghost use Rattle.std.specs.Prelude.{◌≡◌, ◌<◌, ℕ, true, List, OnOk, OnErr};
ghost use Rattle.std.specs.List.{list_all};
ghost use Rattle.xv_base.specs.Calls.{CountRose};
ghost use Rattle.xv_io.specs.Io.{TookMore};
ghost use Rattle.xv_model.specs.Job.{unit_count};
ghost use Rattle.xv_model.specs.Wait.{fits};
ghost use Rattle.xv_job.specs.Written.{job_of};
ghost use Rattle.xv_script.specs.Script.{is_in};
ghost use Rattle.xv_script.specs.declared.line.Line.TheVariants.{Step, Ask};
ghost use Rattle.xv_core.specs.Origin.{HasOrigin};
ghost use Rattle.xv_core.specs.Keeping.{IsKept, tells};
ghost use Rattle.xv_core.specs.Losing.{LosesNothing};
ghost use Rattle.xv_top.specs.Playing.{ArePlayed, IsCutShort, IsLineWritten, IsLineCut};

use crate::input::behind;
use xv_base::{Event, LineBuf, UnitId};
use xv_core::Migration;
use xv_device::UnitDevice;
use xv_io::{Sink, WriteFault, write_text};
use xv_script::{Line, print_probe, push_turn};
use xv_wire::Wire;

/// Why a command did not write all that it writes.
#[derive(Clone, Copy)]
pub enum PlayError {
    WriteFault,
    NoMemory,
}

/// Plays lines on a migration, one after another, and writes a line for each: an event makes one step, and is answered with
/// the bytes that it read for its guest; a unit that is asked for is answered with its numbers. It takes no memory.
///
/// Errors: `WriteFault` where a write failed. The lines up to that one were played; the texts of those before it were taken
/// whole, and of its own a front.
pub fn replay_on<S: UnitDevice, T: UnitDevice, W: Wire, O: Sink>(
    migration: &mut Migration<S, T, W>,
    lines: &[Line],
    sink: &mut O,
) -> Result<(), WriteFault>
    requires in_job { list_all (is_in (job_of migration.old.job)) lines.now ≡ true }
    ensures played { OnOk result ((text : List ℕ) × ArePlayed migration.old lines.now migration.new text × TookMore (O.taken sink.old) (O.taken sink.new) text) }
    ensures cut { OnErr result (IsCutShort migration.old lines.now migration.new (O.taken sink.old) (O.taken sink.new)) }
    ensures origin { HasOrigin migration.old migration.new }
    ensures kept { IsKept migration.new }
    ensures loses_nothing { tells migration.old.source ≡ true → tells migration.old.dest ≡ true → LosesNothing migration.new }
    ensures fault { OnErr result (CountRose (O.faults sink.old) (O.faults sink.new)) }
    ensures quiet { OnOk result (O.faults sink.new ≡ O.faults sink.old) }
{
    // That a migration keeps what it keeps is told with its journal.
    let _ = migration.journal();
    for line in lines {
        play_line(migration, *line, sink)?;
    }
    Ok(())
}

/// Plays a line, and writes its answer.
fn play_line<S: UnitDevice, T: UnitDevice, W: Wire, O: Sink>(
    migration: &mut Migration<S, T, W>,
    line: Line,
    sink: &mut O,
) -> Result<(), WriteFault>
    requires in_job { is_in (job_of migration.old.job) line ≡ true }
    ensures whole { OnOk result (IsLineWritten migration.old line migration.new (O.taken sink.old) (O.taken sink.new)) }
    ensures front { OnErr result (IsLineCut migration.old line migration.new (O.taken sink.old) (O.taken sink.new)) }
    ensures fault { OnErr result (CountRose (O.faults sink.old) (O.faults sink.new)) }
    ensures quiet { OnOk result (O.faults sink.new ≡ O.faults sink.old) }
{
    match line {
        Line::Step(event) => play_event(migration, event, sink),
        Line::Ask(unit) => tell_unit(migration, unit, sink),
    }
}

/// Writes what is asked of a unit. It stays a call of its own, since the room for its line would else be made at each
/// event too.
#[inline(never)]
fn tell_unit<S: UnitDevice, T: UnitDevice, W: Wire, O: Sink>(
    migration: &Migration<S, T, W>,
    unit: UnitId,
    sink: &mut O,
) -> Result<(), WriteFault>
    requires in_job { unit.0 < unit_count (job_of migration.now.job) }
    ensures whole { OnOk result (IsLineWritten migration.now (Ask unit) migration.now (O.taken sink.old) (O.taken sink.new)) }
    ensures front { OnErr result (IsLineCut migration.now (Ask unit) migration.now (O.taken sink.old) (O.taken sink.new)) }
    ensures fault { OnErr result (CountRose (O.faults sink.old) (O.faults sink.new)) }
    ensures quiet { OnOk result (O.faults sink.new ≡ O.faults sink.old) }
{
    write_text(sink, print_probe(migration.probe(unit)).bytes())
}

/// Steps a migration by one event, and writes what it answers, with what it read for its guest.
fn play_event<S: UnitDevice, T: UnitDevice, W: Wire, O: Sink>(
    migration: &mut Migration<S, T, W>,
    event: Event,
    sink: &mut O,
) -> Result<(), WriteFault>
    requires fit { fits (job_of migration.old.job) event ≡ true }
    ensures whole { OnOk result (IsLineWritten migration.old (Step event) migration.new (O.taken sink.old) (O.taken sink.new)) }
    ensures front { OnErr result (IsLineCut migration.old (Step event) migration.new (O.taken sink.old) (O.taken sink.new)) }
    ensures fault { OnErr result (CountRose (O.faults sink.old) (O.faults sink.new)) }
    ensures quiet { OnOk result (O.faults sink.new ≡ O.faults sink.old) }
{
    let before = migration.reads().len();
    let turn = migration.step(event);
    let mut line = LineBuf::new();
    push_turn(&mut line, event, turn, behind(migration.reads(), before));
    write_text(sink, line.bytes())
}
