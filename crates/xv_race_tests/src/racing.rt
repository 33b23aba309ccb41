//! Two threads that race for one shared migration, each with the pass of one worker.

ghost use Rattle.std.specs.Prelude.{◌≡◌, not, count_by};
ghost use Rattle.xv_model.specs.Journal.{is_guest as is_of_guest};
ghost use Rattle.xv_shared.specs.Held.{by_kind};
ghost use Rattle.xv_shared.specs.Crews.{AreAll, is_guest};
ghost use Rattle.xv_race_tests.specs.Kinds.{AreOfSameKinds};

use crate::made::SharedMachine;
use std::sync::Wait;
use std::sync::atomic::{AtomicBool, Ordering};
use std::sync::ledger::Ledger;
use std::thread::{Threads, for_each_mut, yield_now};
use xv_base::Event;
use xv_shared::{Crew, GuestPass, Named, Pass, WorkerPass, event_at};

/// How many calls each of the two makes: more than its guest has operations.
const CALLS: u64 = 24;

/// At least as many as there are passes, so that each is played in a thread of its own.
const THREADS: usize = 16;

/// How often one that came first looks for the other.
const LOOKS: u32 = 200_000_000;

/// The places of two passes, which begin together, and whether one of them waited for the other in vain.
#[derive(Drop)]
pub(crate) struct Pair {
    first: usize,
    second: usize,
    first_came: AtomicBool,
    second_came: AtomicBool,
    missed: AtomicBool,
}

impl Pair {
    pub(crate) fn new(first: usize, second: usize) -> Pair {
        Pair {
            first,
            second,
            first_came: AtomicBool::new(false),
            second_came: AtomicBool::new(false),
            missed: AtomicBool::new(false),
        }
    }

    /// Whether both were there at the same time.
    pub(crate) fn met(&self) -> bool {
        self.first_came.load(Ordering::SeqCst)
            && self.second_came.load(Ordering::SeqCst)
            && !self.missed.load(Ordering::SeqCst)
    }

    /// Whether the pass at a place is one of the two, which is held until the other one comes.
    fn comes(&self, place: usize) -> bool {
        if place == self.first {
            self.meet(&self.first_came, &self.second_came);
        } else if place == self.second {
            self.meet(&self.second_came, &self.first_came);
        } else {
            return false;
        }
        true
    }

    fn meet(&self, one: &AtomicBool, other: &AtomicBool) {
        one.store(true, Ordering::SeqCst);
        for _ in 0..LOOKS {
            if other.load(Ordering::SeqCst) {
                return;
            }
        }
        self.missed.store(true, Ordering::SeqCst);
    }
}

/// Lets the passes of a pair race; all others stand still.
pub(crate) fn race<
    D: Named + Send + Sync,
    Q: Ledger + Send + Sync,
    F: Ledger + Send + Sync,
    R: Ledger + Send + Sync,
    X: Threads + Wait + Sync,
>(rt: &X, shared: &SharedMachine<D, Q, F, R>, pair: &Pair, crew: &mut Crew<D, Q, F, R>)
    requires { AreAll (by_kind D.parts Q.parts F.parts R.parts) crew.old.passes.items }
    ensures { AreAll (by_kind D.parts Q.parts F.parts R.parts) crew.new.passes.items }
{
    let passes = crew.passes.as_mut_slice();
    race_all(rt, shared, pair, passes);
}

fn race_all<
    D: Named + Send + Sync,
    Q: Ledger + Send + Sync,
    F: Ledger + Send + Sync,
    R: Ledger + Send + Sync,
    X: Threads + Wait + Sync,
>(rt: &X, shared: &SharedMachine<D, Q, F, R>, pair: &Pair, passes: &mut [Pass<D, Q, F, R>])
    ensures { AreOfSameKinds passes.old passes.new }
{
    for_each_mut(
        rt,
        passes,
        THREADS,
        &|place, pass| race_one(rt, shared, pair, place, pass),
    );
}

fn race_one<D: Named, Q: Ledger, F: Ledger, R: Ledger, X: Wait>(
    rt: &X,
    shared: &SharedMachine<D, Q, F, R>,
    pair: &Pair,
    place: usize,
    pass: &mut Pass<D, Q, F, R>,
)
    ensures { is_guest pass.new ≡ is_guest pass.old }
{
    if pair.comes(place) {
        match pass {
            Pass::Guest(pass) => guest_calls(rt, shared, pass),
            Pass::Other(pass) => other_calls(rt, shared, pass),
        }
    }
}

fn guest_calls<D: Named, Q: Ledger, F: Ledger, R: Ledger, X: Wait>(
    rt: &X,
    shared: &SharedMachine<D, Q, F, R>,
    pass: &mut GuestPass<D, Q, F>,
) {
    for _ in 0..CALLS {
        let _ = shared.guest(rt, pass);
        yield_now();
    }
}

fn other_calls<D: Named, Q: Ledger, F: Ledger, R: Ledger, X: Wait>(
    rt: &X,
    shared: &SharedMachine<D, Q, F, R>,
    pass: &mut WorkerPass<R>,
) {
    for step in 0..CALLS {
        let event = event_at(pass.worker(), step);
        acts(rt, shared, pass, event);
        yield_now();
    }
}

/// An event by the pass of a worker that is no guest, where it is one of the job's and no guest's.
fn acts<D: Named, Q: Ledger, F: Ledger, R: Ledger, X: Wait>(
    rt: &X,
    shared: &SharedMachine<D, Q, F, R>,
    pass: &mut WorkerPass<R>,
    event: Event,
) {
    if !is_of_guest(event) && shared.fits(event) {
        let _ = shared.act(rt, pass, event);
    }
}

/// Events by the pass at a place, one after another, before any race.
pub(crate) fn act_before<D: Named, Q: Ledger, F: Ledger, R: Ledger, X: Wait>(
    rt: &X,
    shared: &SharedMachine<D, Q, F, R>,
    place: usize,
    events: &[Event],
    passes: &mut Vec<Pass<D, Q, F, R>>,
)
    ensures guests { count_by is_guest passes.new.items ≡ count_by is_guest passes.old.items }
    ensures others { count_by (λ p. not (is_guest p)) passes.new.items ≡ count_by (λ p. not (is_guest p)) passes.old.items }
{
    if place < passes.len() {
        act_all(rt, shared, events, &mut passes[place]);
    }
}

fn act_all<D: Named, Q: Ledger, F: Ledger, R: Ledger, X: Wait>(
    rt: &X,
    shared: &SharedMachine<D, Q, F, R>,
    events: &[Event],
    pass: &mut Pass<D, Q, F, R>,
)
    ensures { is_guest pass.new ≡ is_guest pass.old }
{
    match pass {
        Pass::Guest(_) => {}
        Pass::Other(pass) => act_each(rt, shared, events, pass),
    }
}

fn act_each<D: Named, Q: Ledger, F: Ledger, R: Ledger, X: Wait>(
    rt: &X,
    shared: &SharedMachine<D, Q, F, R>,
    events: &[Event],
    pass: &mut WorkerPass<R>,
) {
    for event in events {
        acts(rt, shared, pass, *event);
    }
}

fn is_of_guest(event: Event) -> bool
    ensures { result ≡ is_of_guest event }
{
    matches!(event, Event::Guest(_))
}
