//! The workers: each goes through its events, in a thread of its own where one can be started.

ghost use Rattle.std.specs.Prelude.{◌≡◌, ◌<◌, ◌*◌, true, false, length};
ghost use Rattle.xv_model.specs.Wait.{fits};
ghost use Rattle.xv_model.specs.Work.{bound};
ghost use Rattle.xv_model.specs.Journal.{is_guest as is_of_guest};
ghost use Rattle.xv_job.specs.Written.{job_of};
ghost use Rattle.xv_shared.specs.Held.{by_kind};
ghost use Rattle.xv_shared.specs.Crews.{AreAll};
ghost use Rattle.xv_shared.specs.Running.{AreWithin, IsSpent, HasRun, HaveRun};

use crate::crew::Crew;
use crate::events::{event_at, event_count};
use crate::gate::Gate;
use crate::ledgers::Named;
use crate::passes::{GuestPass, Pass, WorkerPass};
use crate::shared::Shared;
use std::sync::Wait;
use std::sync::ledger::Ledger;
use std::thread::{Threads, for_each_mut, yield_now};
use xv_base::{Event, Turn, Why};
use xv_device::UnitDevice;
use xv_wire::Wire;

/// A worker makes at most this many times the bound of the journal in calls.
const CALLS_PER_ENTRY: u64 = 4;

/// Runs all workers, each in a thread of its own; where no thread can be started they run one after another. A worker ends
/// where nothing is left for it, or after four times the bound of the journal in calls.
pub fn run_workers<
    S: UnitDevice + Send,
    T: UnitDevice + Send,
    W: Wire + Send,
    D: Named + Send + Sync,
    Q: Ledger + Send + Sync,
    F: Ledger + Send + Sync,
    R: Ledger + Send + Sync,
    G: Gate,
    X: Threads + Wait + Sync,
>(rt: &X, shared: &Shared<S, T, W, D, Q, F, R>, crew: &mut Crew<D, Q, F, R>, gate: &G)
    requires { AreAll (by_kind D.parts Q.parts F.parts R.parts) crew.old.passes.items }
    ensures all { AreAll (by_kind D.parts Q.parts F.parts R.parts) crew.new.passes.items }
    ensures ran { HaveRun (4 * bound (job_of D.origin.job)) crew.old.passes.items crew.new.passes.items }
    ensures reader { crew.new.reader ≡ crew.old.reader }
{
    let passes = crew.passes.as_mut_slice();
    if !passes.is_empty() {
        run_all(rt, shared, gate, passes);
    }
}

/// Runs the workers of these passes, which are numbered from 0.
fn run_all<
    S: UnitDevice + Send,
    T: UnitDevice + Send,
    W: Wire + Send,
    D: Named + Send + Sync,
    Q: Ledger + Send + Sync,
    F: Ledger + Send + Sync,
    R: Ledger + Send + Sync,
    G: Gate,
    X: Threads + Wait + Sync,
>(rt: &X, shared: &Shared<S, T, W, D, Q, F, R>, gate: &G, passes: &mut [Pass<D, Q, F, R>])
    requires { 0 < length passes.old }
    ensures { HaveRun (4 * bound (job_of D.origin.job)) passes.old passes.new }
{
    let threads = passes.len();
    for_each_mut(
        rt,
        passes,
        threads,
        &|place, pass| run(rt, shared, gate, place, pass),
    );
}

/// Runs the worker of one pass.
fn run<
    S: UnitDevice + Send,
    T: UnitDevice + Send,
    W: Wire + Send,
    D: Named,
    Q: Ledger,
    F: Ledger,
    R: Ledger,
    G: Gate,
    X: Wait,
>(rt: &X, shared: &Shared<S, T, W, D, Q, F, R>, gate: &G, place: usize, pass: &mut Pass<D, Q, F, R>)
    ensures { HasRun (4 * bound (job_of D.origin.job)) pass.old pass.new }
{
    let number = u32::try_from(place).unwrap_or(u32::MAX);
    match pass {
        Pass::Guest(pass) => run_guest(rt, shared, gate, number, pass),
        Pass::Other(pass) => run_other(rt, shared, gate, number, pass),
    }
}

/// Runs a guest, until none of its operations is left to begin.
fn run_guest<
    S: UnitDevice + Send,
    T: UnitDevice + Send,
    W: Wire + Send,
    D: Named,
    Q: Ledger,
    F: Ledger,
    R: Ledger,
    G: Gate,
    X: Wait,
>(
    rt: &X,
    shared: &Shared<S, T, W, D, Q, F, R>,
    gate: &G,
    number: u32,
    pass: &mut GuestPass<D, Q, F>,
)
    ensures same { pass.new.guest ≡ pass.old.guest }
    ensures called { AreWithin (4 * bound (job_of D.origin.job)) pass.old.calls pass.new.calls }
    ensures spent { IsSpent (4 * bound (job_of D.origin.job)) pass.old.calls pass.new.calls pass.new.left }
{
    let most = CALLS_PER_ENTRY * u64::from(shared.bound());
    for _step in 0..most {
        gate.turn(number, pass.calls());
        match shared.guest(rt, pass) {
            Turn::Wait(Why::TraceEnd) => return,
            Turn::Wait(_) => yield_now(),
            Turn::Done(_) | Turn::Queued | Turn::Faulted | Turn::Failed(_) => {}
        }
    }
}

/// Runs a worker that is no guest, until the migration is finished.
fn run_other<
    S: UnitDevice + Send,
    T: UnitDevice + Send,
    W: Wire + Send,
    D: Named,
    Q: Ledger,
    F: Ledger,
    R: Ledger,
    G: Gate,
    X: Wait,
>(rt: &X, shared: &Shared<S, T, W, D, Q, F, R>, gate: &G, number: u32, pass: &mut WorkerPass<R>)
    ensures same { pass.new.worker ≡ pass.old.worker }
    ensures called { AreWithin (4 * bound (job_of D.origin.job)) pass.old.calls pass.new.calls }
{
    let most = CALLS_PER_ENTRY * u64::from(shared.bound());
    let events = event_count(pass.worker());
    let mut waits: u32 = 0;
    for step in 0..most {
        let event = event_at(pass.worker(), step);
        if is_of_guest(event) || !shared.fits(event) {
            return;
        }
        gate.turn(number, pass.calls());
        waits = match shared.act(rt, pass, event) {
            Turn::Wait(_) => waits.saturating_add(1),
            Turn::Done(_) | Turn::Queued | Turn::Faulted | Turn::Failed(_) => 0,
        };
        // Each of its events has waited, so what this worker waits for is others'.
        if waits >= events {
            if shared.finished(rt) {
                return;
            }
            yield_now();
            waits = 0;
        }
    }
}

fn is_of_guest(event: Event) -> bool
    ensures { result ≡ is_of_guest event }
{
    matches!(event, Event::Guest(_))
}
