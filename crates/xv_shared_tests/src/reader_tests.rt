//! A reader reads the numbers of progress while the workers run in threads of their own.

ghost use Rattle.std.specs.Prelude.{◌≡◌, []};
ghost use Rattle.std.specs.Thread.{IsSend, IsSync};
ghost use Rattle.xv_model.specs.Job.{guest_count};
ghost use Rattle.xv_job.specs.Written.{job_of};
ghost use Rattle.xv_core.specs.Origin.{HasOrigin};
ghost use Rattle.xv_shared.specs.FirstCrew.{other_count};
ghost use Rattle.xv_shared.specs.Held.{by_kind};
ghost use Rattle.xv_shared.specs.Crews.{AreAll};

use crate::made::{begun_of, blanks};
use crate::pace::{Pace, READS};
use std::alloc::Global;
use std::marker::Brand;
use std::sync::Wait;
use std::sync::ledger::Ledger;
use std::test::Fail;
use std::thread::{Threads, join};
use xv_base::{NoMemory, Totals};
use xv_device::MemDevice;
use xv_job::make_job;
use xv_parts::Machine;
use xv_progress::{Numbers, Reader};
use xv_shared::{Blanks, Crew, Named, Shared, run_workers};
use xv_wire::MemWire;

type SharedMachine<D, Q, F, R> = Shared<MemDevice, MemDevice, MemWire, D, Q, F, R>;

/// What a reader saw: whether any number was below the one read before, and the last numbers.
#[derive(Clone, Copy)]
struct Seen {
    fell: bool,
    last: Numbers,
}

/// What was seen while the workers ran, what the crew's reader read after them, and the report of what they left.
struct Shown {
    seen: Seen,
    at_the_end: Numbers,
    totals: Totals,
}

const NO_NUMBERS: Numbers = Numbers {
    history: 0,
    copied: 0,
    applied: 0,
    journal: 0,
};

#[test]
fn no_number_falls_while_the_workers_run(rt: HostRuntime) -> Result<(), Fail> {
    let alloc = rt.alloc();
    let machine = begun_of(alloc, make_job(alloc, 7)?)?;
    let blanks = blanks(machine.job());
    let pace = Pace::new();
    let shown = ran::<Brand, Brand, Brand, Brand, _>(&rt, alloc, blanks, machine, &pace)?;
    let Shown {
        seen,
        at_the_end,
        totals,
    } = shown;
    assert!(rt; pace.was_kept());
    assert!(rt; !seen.fell);
    assert!(rt; seen.last.journal > 0);
    // The first guest has 1,200 operations, and its worker had made at most 1,049 calls before the last read.
    assert!(rt; seen.last.journal.saturating_add(150) < at_the_end.journal);
    assert!(rt; !is_below(&at_the_end, &seen.last));
    assert_eq!(rt; at_the_end, numbers_of(&totals));
    Ok(())
}

/// The numbers of progress that a report tells.
fn numbers_of(totals: &Totals) -> Numbers {
    Numbers {
        history: u64::from(totals.history),
        copied: u64::from(totals.copied),
        applied: u64::from(totals.applied),
        journal: u64::from(totals.journal),
    }
}

/// Whether one of the numbers is below that of earlier ones.
fn is_below(numbers: &Numbers, earlier: &Numbers) -> bool {
    numbers.history < earlier.history
        || numbers.copied < earlier.copied
        || numbers.applied < earlier.applied
        || numbers.journal < earlier.journal
}

/// Runs a migration by its workers, while a reader that was split from the crew's reads.
fn ran<
    D: Named + Send + Sync,
    Q: Ledger + Send + Sync,
    F: Ledger + Send + Sync,
    R: Ledger + Send + Sync,
    X: Threads + Wait + Sync,
>(rt: &X, alloc: Global, blanks: Blanks, machine: Machine, pace: &Pace) -> Result<Shown, Fail>
    requires none { machine.journal ≡ [] }
    requires came { HasOrigin D.origin machine }
    requires done { (blanks.done.name ≡ D.name) × (blanks.done.parts ≡ D.parts) × (D.parts ≡ guest_count (job_of D.origin.job)) }
    requires queued { (blanks.queued.name ≡ Q.name) × (blanks.queued.parts ≡ Q.parts) × (Q.parts ≡ guest_count (job_of D.origin.job)) }
    requires faulted { (blanks.faulted.name ≡ F.name) × (blanks.faulted.parts ≡ F.parts) × (F.parts ≡ guest_count (job_of D.origin.job)) }
    requires other { (blanks.other.name ≡ R.name) × (blanks.other.parts ≡ R.parts) × (R.parts ≡ other_count (job_of D.origin.job)) }
{
    let (shared, mut crew) = match Shared::<_, _, _, D, Q, F, R>::new(alloc, blanks, machine) {
        Ok(made) => made,
        Err(machine) => {
            drop(machine);
            return Err(Fail::from(NoMemory));
        }
    };
    let reader = shared.split(&mut crew.reader);
    let ((reader, seen), mut crew) = both(rt, &shared, pace, reader, crew);
    shared.join(&mut crew.reader, reader);
    let at_the_end = shared.progress(&mut crew.reader);
    let machine = shared.close(crew);
    let totals = machine.totals();
    drop(machine);
    Ok(Shown {
        seen,
        at_the_end,
        totals,
    })
}

/// Lets the reader read and the workers run, at the same time.
fn both<
    D: Named + Send + Sync,
    Q: Ledger + Send + Sync,
    F: Ledger + Send + Sync,
    R: Ledger + Send + Sync,
    X: Threads + Wait + Sync,
>(
    rt: &X,
    shared: &SharedMachine<D, Q, F, R>,
    pace: &Pace,
    reader: Reader,
    crew: Crew<D, Q, F, R>,
) -> ((Reader, Seen), Crew<D, Q, F, R>)
    requires own { reader.belongs ≡ shared.now }
    requires all { AreAll (by_kind D.parts Q.parts F.parts R.parts) crew.passes.items }
    ensures own { result.0.0.belongs ≡ shared.now }
    ensures stays { result.1.reader ≡ crew.reader }
    ensures all { AreAll (by_kind D.parts Q.parts F.parts R.parts) result.1.passes.items }
{
    join(
        rt,
        move || -> (Reader, Seen)
            requires { reader.belongs ≡ shared.now }
            ensures { result.0.belongs ≡ shared.entry.now }
        { watch(shared, pace, reader) },
        move || -> Crew<D, Q, F, R>
            requires { IsSync X.row × IsSend D.row × IsSync D.row × IsSend Q.row × IsSync Q.row × IsSend F.row × IsSync F.row × IsSend R.row × IsSync R.row × AreAll (by_kind D.parts Q.parts F.parts R.parts) crew.passes.items }
            ensures { (result.reader ≡ crew.reader) × AreAll (by_kind D.parts Q.parts F.parts R.parts) result.passes.items }
        { work(rt, shared, pace, crew) },
    )
}

/// Reads as often as is to be read.
fn watch<D: Named, Q: Ledger, F: Ledger, R: Ledger>(
    shared: &SharedMachine<D, Q, F, R>,
    pace: &Pace,
    mut reader: Reader,
) -> (Reader, Seen)
    requires { reader.belongs ≡ shared.now }
    ensures { result.0.belongs ≡ shared.now }
{
    let mut seen = Seen {
        fell: false,
        last: NO_NUMBERS,
    };
    for read in 0..READS {
        pace.before_read(read);
        let numbers = shared.progress(&mut reader);
        pace.after_read(read);
        seen = Seen {
            fell: seen.fell || is_below(&numbers, &seen.last),
            last: numbers,
        };
    }
    (reader, seen)
}

/// Runs the workers.
fn work<
    D: Named + Send + Sync,
    Q: Ledger + Send + Sync,
    F: Ledger + Send + Sync,
    R: Ledger + Send + Sync,
    X: Threads + Wait + Sync,
>(
    rt: &X,
    shared: &SharedMachine<D, Q, F, R>,
    pace: &Pace,
    mut crew: Crew<D, Q, F, R>,
) -> Crew<D, Q, F, R>
    requires { AreAll (by_kind D.parts Q.parts F.parts R.parts) crew.passes.items }
    ensures stays { result.reader ≡ crew.reader }
    ensures all { AreAll (by_kind D.parts Q.parts F.parts R.parts) result.passes.items }
{
    run_workers(rt, shared, &mut crew, pace);
    crew
}
