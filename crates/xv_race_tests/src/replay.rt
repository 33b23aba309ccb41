//! A journal, played again by one thread.

use crate::made::{begun, job_said};
use std::alloc::Global;
use std::test::Fail;
use xv_base::{Entry, UnitId};
use xv_core::fits;
use xv_device::{MemDevice, UnitDevice};
use xv_parts::Machine;

/// Whether the journal of a migration, played by one thread on one of the same job, is answered the same, with the same bytes
/// read, and leaves the same in all units and the same report.
pub(crate) fn is_replayed(alloc: Global, text: &[u8], machine: &Machine) -> Result<bool, Fail> {
    let mut again = begun(alloc, job_said(alloc, text)?)?;
    let answered = answers(&mut again, machine.journal());
    let alike = are_alike(machine, &again);
    drop(again);
    Ok(answered && alike)
}

/// Whether each event of a journal is answered as there.
fn answers(machine: &mut Machine, journal: &[Entry]) -> bool {
    for entry in journal {
        if !fits(machine.job(), entry.event) || machine.step(entry.event) != entry.turn {
            return false;
        }
    }
    true
}

fn are_alike(one: &Machine, other: &Machine) -> bool {
    one.totals() == other.totals()
        && one.reads() == other.reads()
        && are_same(one.source(), other.source())
        && are_same(one.dest(), other.dest())
}

/// Whether two devices hold the same in every unit.
fn are_same(one: &MemDevice, other: &MemDevice) -> bool {
    if one.layout().units() != other.layout().units() {
        return false;
    }
    for unit in 0..one.layout().units() {
        let unit = UnitId(unit);
        if one.content(unit) != other.content(unit) {
            return false;
        }
    }
    true
}
