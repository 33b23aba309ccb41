//! A run of a small job by its workers in threads, and by the driver to its end.

ghost use Rattle.std.specs.Prelude.{◌≡◌, []};
ghost use Rattle.xv_model.specs.Job.{guest_count};
ghost use Rattle.xv_job.specs.Written.{job_of};
ghost use Rattle.xv_core.specs.Origin.{HasOrigin};
ghost use Rattle.xv_shared.specs.FirstCrew.{other_count};

use crate::made::{begun, blanks};
use std::alloc::Global;
use std::marker::Brand;
use std::sync::Wait;
use std::sync::ledger::Ledger;
use std::test::Fail;
use std::thread::Threads;
use xv_base::{NoMemory, Phase, Totals};
use xv_driver::finish;
use xv_parts::Machine;
use xv_shared::{Blanks, FreeGate, Gate, Named, Shared, run_workers};

/// A page, one stream and a guest that does nothing.
const EMPTY_GUEST: &[u8] =
    b"job 1\npages 1 16\nstreams 1\ncredit 2\noutbox 2\nregion 1\nrounds 1\ndirty 0\nguest\nend\n";

#[test]
fn workers_and_the_driver_end_as_one_thread_does(rt: HostRuntime) -> Result<(), Fail> {
    let alloc = rt.alloc();
    let machine = begun(alloc, EMPTY_GUEST)?;
    let blanks = blanks(machine.job());
    let totals = ran::<Brand, Brand, Brand, Brand, _, _>(&rt, alloc, blanks, machine, &FreeGate)?;
    assert_eq!(rt; totals, ended());
    Ok(())
}

/// The report of the job, whatever the threads did.
fn ended() -> Totals {
    Totals {
        phase: Phase::Switched,
        history: 0,
        faulted: 0,
        journal: 9,
        stun: Some(0),
        copied: 0,
        rounds: 1,
        messages: 1,
        mirrors: 0,
        applied: 1,
        credit: 2,
    }
}

/// Runs a migration by its workers, and by the driver to its end; answers with its report.
fn ran<
    D: Named + Send + Sync,
    Q: Ledger + Send + Sync,
    F: Ledger + Send + Sync,
    R: Ledger + Send + Sync,
    G: Gate,
    X: Threads + Wait + Sync,
>(rt: &X, alloc: Global, blanks: Blanks, machine: Machine, gate: &G) -> Result<Totals, Fail>
    requires none { machine.journal ≡ [] }
    requires came { HasOrigin D.origin machine }
    requires done { (blanks.done.name ≡ D.name) × (blanks.done.parts ≡ D.parts) × (D.parts ≡ guest_count (job_of D.origin.job)) }
    requires queued { (blanks.queued.name ≡ Q.name) × (blanks.queued.parts ≡ Q.parts) × (Q.parts ≡ guest_count (job_of D.origin.job)) }
    requires faulted { (blanks.faulted.name ≡ F.name) × (blanks.faulted.parts ≡ F.parts) × (F.parts ≡ guest_count (job_of D.origin.job)) }
    requires other { (blanks.other.name ≡ R.name) × (blanks.other.parts ≡ R.parts) × (R.parts ≡ other_count (job_of D.origin.job)) }
{
    let (shared, mut crew) = match Shared::<_, _, _, D, Q, F, R>::new(alloc, blanks, machine) {
        Ok(made) => made,
        Err(machine) => {
            drop(machine);
            return Err(Fail::from(NoMemory));
        }
    };
    run_workers(rt, &shared, &mut crew, gate);
    let mut machine = shared.close(crew);
    let _ = finish(&mut machine);
    let totals = machine.totals();
    drop(machine);
    Ok(totals)
}
