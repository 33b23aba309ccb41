ghost use Rattle.std.specs.Prelude.{◌≡◌, ◌≤◌, ◌<◌, ℕ, length, IfOk};
ghost use Rattle.xv_guest.specs.Log.{ended};

use std::alloc::Global;
use std::test::Fail;
use xv_base::{DiskShape, Ended, GuestId, Init, Layout, NoMemory, Outcome, Pattern, UnitId};
use xv_guest::{History, PlainGuest};
use xv_trace::read_ops;

#[test]
fn counts_the_entries_of_each_guest(rt: HostRuntime) -> Result<(), Fail> {
    let mut history = History::new(rt.alloc(), 3)?;
    for (guest, outcome) in [
        (2, Outcome::Done),
        (255, Outcome::Faulted),
        (2, Outcome::Faulted),
    ] {
        if history.len() < history.room() {
            history.push(Ended {
                guest: GuestId(guest),
                outcome,
            });
        }
    }
    assert_eq!(rt; history.len(), 3);
    for (guest, want) in [(0, 0), (2, 2), (255, 1)] {
        assert_eq!(rt; history.ended(GuestId(guest)), want, "of guest {guest}");
    }
    assert_eq!(rt; history.faulted(), 2);
    Ok(())
}

#[test]
fn runs_an_unmigrated_guest(rt: HostRuntime) -> Result<(), Fail> {
    let alloc = rt.alloc();
    let disk = DiskShape {
        blocks: 2,
        block_size: 16,
    };
    let layout = Layout::new(1, 16, &[disk]).expect(&rt, "a layout");
    let init = [Init {
        unit: UnitId(1),
        pattern: Pattern::new(&[0xcc, 0xdd]),
    }];
    let text = b"rd 0 0 1 2\nwr 0 0 1 aa\nrd 0 0 0 1\nwr 0 1 1 bb\n";
    let trace = read_ops(alloc, &layout, text, 1, 4).expect(&rt, "operations");
    assert!(rt; trace.unit_ops() >= 4);
    let history = of_first_guest(alloc)?;
    let plain = PlainGuest::run(alloc, &layout, &init, &[trace], &history)?;
    assert_eq!(rt; plain.reads(), [0xdd, 0xcc, 0xaa].as_slice());
    for (unit, want) in [(0, 0), (1, 0xaa), (2, 0)] {
        assert_eq!(rt;
            plain.content(UnitId(unit)),
            [want; 16].as_slice(),
            "of unit {unit}"
        );
    }
    Ok(())
}

/// Three unit operations of guest 0 that were done, and one that has faulted.
fn of_first_guest(alloc: Global) -> Result<History, NoMemory>
    ensures few { IfOk result (λ history. length history.entries ≤ 4) }
    ensures others { IfOk result (λ history. (guest : ℕ) → 0 < guest → ended history.entries guest ≡ 0) }
{
    let mut history = match History::new(alloc, 4) {
        Ok(history) => history,
        Err(error) => return Err(error),
    };
    for outcome in [
        Outcome::Done,
        Outcome::Done,
        Outcome::Done,
        Outcome::Faulted,
    ] {
        history.push(Ended {
            guest: GuestId(0),
            outcome,
        });
    }
    Ok(history)
}
