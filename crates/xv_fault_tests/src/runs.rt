//! Runs by the driver to their ends.

use crate::calls::{calls_of, count_of, fails_as_planned, faults};
use crate::cases::{Case, KINDS, Line};
use crate::phases::ends;
use crate::plain::agrees;
use std::alloc::Global;
use std::test::Fail;
use xv_base::{Entry, Phase, Totals, UnitId};
use xv_core::Parts;
use xv_device::{MemDevice, UnitDevice};
use xv_driver::finish;
use xv_job::read_job;
use xv_parts::{Machine, begin};
use xv_wire::MemWire;

/// What is seen of a run in which calls fail: whether exactly the planned calls fail and each is answered as its event says,
/// whether it has ended as its answers make it end, whether the guests' owner holds what the same guests leave without a
/// migration, how many calls have failed, and whether the migration has.
#[derive(Clone, Copy, Debug, PartialEq)]
pub(crate) struct Findings {
    pub(crate) planned: bool,
    pub(crate) ends: bool,
    pub(crate) agrees: bool,
    pub(crate) faults: u32,
    pub(crate) failed: bool,
}

/// All that a run leaves: its journal, the numbers of its report, the bytes that its guests have read, and what both sides
/// hold.
#[derive(Debug, PartialEq, Drop)]
pub(crate) struct Ending {
    pub(crate) journal: Vec<Entry>,
    pub(crate) totals: Totals,
    pub(crate) reads: Vec<u8>,
    pub(crate) source: Vec<u8>,
    pub(crate) dest: Vec<u8>,
}

/// The text of a job without faults.
pub(crate) fn text_of(alloc: Global, case: &Case) -> Result<String, Fail> {
    Ok(format!(in alloc; "{}{}", case.head, case.tail)?)
}

/// The text of a job with a planned fault.
pub(crate) fn text_with(alloc: Global, case: &Case, line: &Line) -> Result<String, Fail> {
    Ok(format!(in alloc;
        "{}fault {} {}\n{}",
        case.head, line.word, line.number, case.tail
    )?)
}

/// The text of a job with two planned faults.
pub(crate) fn text_with_both(
    alloc: Global,
    case: &Case,
    one: &Line,
    other: &Line,
) -> Result<String, Fail> {
    Ok(format!(in alloc;
        "{}fault {} {}\nfault {} {}\n{}",
        case.head, one.word, one.number, other.word, other.number, case.tail
    )?)
}

/// Drops what a migration was of, here alone: what goes with it is then proved once.
fn let_go(_parts: Parts<MemDevice, MemDevice, MemWire>) {}

/// The migration of the job of a text over devices and wires in memory, run to its end.
fn finished(alloc: Global, text: &str) -> Result<Machine, Fail> {
    match read_job(alloc, text.as_bytes()) {
        Ok((job, _place)) => {
            let mut machine = begin(alloc, job)?;
            let _ = finish(&mut machine);
            Ok(machine)
        }
        Err(_) => Err(Fail::new("no job")),
    }
}

/// What is seen of the run of a text.
pub(crate) fn found(alloc: Global, text: &str) -> Result<Findings, Fail> {
    let machine = finished(alloc, text)?;
    let findings = find(alloc, &machine);
    let_go(machine.into_parts());
    findings
}

fn find(alloc: Global, machine: &Machine) -> Result<Findings, Fail> {
    let calls = calls_of(alloc, machine)?;
    Ok(Findings {
        planned: fails_as_planned(machine, &calls),
        ends: ends(machine),
        agrees: agrees(alloc, machine)?,
        faults: faults(machine.journal()),
        failed: machine.phase() == Phase::Failed,
    })
}

/// All that the run of a text leaves.
pub(crate) fn left_by(alloc: Global, text: &str) -> Result<Ending, Fail> {
    let machine = finished(alloc, text)?;
    let ending = ending_of(alloc, &machine);
    let_go(machine.into_parts());
    ending
}

fn ending_of(alloc: Global, machine: &Machine) -> Result<Ending, Fail> {
    Ok(Ending {
        journal: machine.journal().to_vec(alloc)?,
        totals: machine.totals(),
        reads: machine.reads().to_vec(alloc)?,
        source: image(alloc, machine.source())?,
        dest: image(alloc, machine.dest())?,
    })
}

/// The contents of all units of a device, one after another.
fn image(alloc: Global, device: &MemDevice) -> Result<Vec<u8>, Fail> {
    let mut bytes = Vec::new(alloc);
    for unit in 0..device.layout().units() {
        bytes.extend_from_slice(device.content(UnitId(unit)))?;
    }
    Ok(bytes)
}

/// Whether the run of a job without faults ends in its phase, and makes the calls that are said of it and no others.
pub(crate) fn makes_its_calls(alloc: Global, case: &Case) -> Result<bool, Fail> {
    let text = text_of(alloc, case)?;
    let machine = finished(alloc, &text)?;
    let calls = calls_of(alloc, &machine);
    let phase = machine.phase();
    let_go(machine.into_parts());
    let calls = calls?;
    let mut all = 0u32;
    for (kind, count) in KINDS.iter().zip(case.counts) {
        if count_of(&calls, kind.call) != *count {
            return Ok(false);
        }
        all = all.saturating_add(*count);
    }
    let made = calls.iter().filter(|call| call.is_some()).count();
    Ok(phase == case.phase && made == all as usize)
}
