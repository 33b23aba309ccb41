//! How a run ends in which calls may have failed.

use crate::calls::{ends_operation, is_guests};
use xv_base::{Entry, Phase, Turn};
use xv_parts::Machine;

/// Whether a run has ended as its answers make it end: each guest has done all, each operation that ended is told, and it has
/// failed exactly where an answer says so, is else cancelled exactly where its job asks for that, and has else switched. What
/// failed is then told by the last entry that is no guest's.
pub fn ends(machine: &Machine) -> bool {
    let failed = has_failed(machine.journal());
    let phase = if failed {
        Phase::Failed
    } else if machine.job().config.cancel.is_some() {
        Phase::Cancelled
    } else {
        Phase::Switched
    };
    machine.phase() == phase
        && machine.finished()
        && tells_operations(machine)
        && fails_last(machine.journal()) == failed
}

/// Whether the entries tell of each operation that it ended, and of as many that they faulted.
fn tells_operations(machine: &Machine) -> bool {
    let mut ended = 0u32;
    let mut faulted = 0u32;
    for entry in machine.journal() {
        if ends_operation(entry) {
            ended = ended.saturating_add(1);
        }
        if entry.turn == Turn::Faulted {
            faulted = faulted.saturating_add(1);
        }
    }
    ended == machine.history().len() && faulted == machine.history().faulted()
}

/// Whether one of these entries tells that the migration failed.
fn has_failed(journal: &[Entry]) -> bool {
    journal
        .iter()
        .any(|entry| matches!(entry.turn, Turn::Failed(_)))
}

/// Whether the last entry that is no guest's tells that the migration failed.
fn fails_last(journal: &[Entry]) -> bool {
    let mut fails = false;
    for entry in journal {
        if !is_guests(entry.event) {
            fails = matches!(entry.turn, Turn::Failed(_));
        }
    }
    fails
}
