//! A shared migration with all its passes, whose workers one thread plays.

ghost use Rattle.std.specs.Prelude.{◌≡◌, [], not, count_by};
ghost use Rattle.xv_model.specs.Job.{guest_count};
ghost use Rattle.xv_model.specs.Journal.{is_guest as is_of_guest};
ghost use Rattle.xv_job.specs.Written.{job_of};
ghost use Rattle.xv_core.specs.Origin.{HasOrigin};
ghost use Rattle.xv_shared.specs.FirstCrew.{other_count};
ghost use Rattle.xv_shared.specs.Crews.{is_guest};

use std::alloc::Global;
use std::marker::Model;
use std::sync::Wait;
use std::sync::ledger::Ledger;
use std::test::Fail;
use xv_base::{Event, NoMemory, Totals, Turn, Why};
use xv_device::MemDevice;
use xv_parts::Machine;
use xv_progress::Numbers;
use xv_shared::{Blanks, Crew, GuestPass, Named, Pass, Shared, WorkerPass};
use xv_wire::MemWire;

/// The shared migration and its crew, which stays whole. Contracts see how many passes it has.
#[derive(Drop)]
pub(crate) struct Play<D: Named, Q: Ledger, F: Ledger, R: Ledger> {
    shared: Shared<MemDevice, MemDevice, MemWire, D, Q, F, R>,
    crew: Crew<D, Q, F, R>,
}

impl<D: Named, Q: Ledger, F: Ledger, R: Ledger> Model for Play<D, Q, F, R> {
    ghost use Rattle.std.specs.Prelude.{◌≡◌, ℕ, length};
    ghost use Rattle.xv_shared.specs.Held.{by_kind};
    ghost use Rattle.xv_shared.specs.Crews.{AreAll};

    ghost Value = { ℕ };

    ghost view = { λ p. length p.crew.passes.items };

    ghost invariant = { λ p. AreAll (by_kind D.parts Q.parts F.parts R.parts) p.crew.passes.items × (p.crew.reader.belongs ≡ p.shared) };
}

/// An answer, and the bytes that its guest has then read last.
#[derive(Clone, Copy, Debug, PartialEq)]
pub(crate) struct Told {
    pub(crate) turn: Turn,
    pub(crate) long: u32,
    pub(crate) first: u8,
    pub(crate) second: u8,
}

impl<D: Named, Q: Ledger, F: Ledger, R: Ledger> Play<D, Q, F, R> {
    pub(crate) fn new(
        alloc: Global,
        blanks: Blanks,
        machine: Machine,
    ) -> Result<Play<D, Q, F, R>, Fail>
        requires none { machine.journal ≡ [] }
        requires came { HasOrigin D.origin machine }
        requires done { (blanks.done.name ≡ D.name) × (blanks.done.parts ≡ D.parts) × (D.parts ≡ guest_count (job_of D.origin.job)) }
        requires queued { (blanks.queued.name ≡ Q.name) × (blanks.queued.parts ≡ Q.parts) × (Q.parts ≡ guest_count (job_of D.origin.job)) }
        requires faulted { (blanks.faulted.name ≡ F.name) × (blanks.faulted.parts ≡ F.parts) × (F.parts ≡ guest_count (job_of D.origin.job)) }
        requires other { (blanks.other.name ≡ R.name) × (blanks.other.parts ≡ R.parts) × (R.parts ≡ other_count (job_of D.origin.job)) }
    {
        match Shared::<_, _, _, D, Q, F, R>::new(alloc, blanks, machine) {
            Ok((shared, crew)) => Ok(Play { shared, crew }),
            Err(machine) => {
                drop(machine);
                Err(Fail::from(NoMemory))
            }
        }
    }

    /// One event by the pass at a place; of a guest's pass it is its guest's.
    pub(crate) fn turn<X: Wait>(&mut self, rt: &X, place: usize, event: Event) -> Option<Told> {
        called_at(rt, &self.shared, &mut self.crew.passes, place, event)
    }

    /// The numbers of progress, without the lock.
    pub(crate) fn numbers(&mut self) -> Numbers {
        self.shared.progress(&mut self.crew.reader)
    }

    /// Ends the sharing, and tells the report.
    pub(crate) fn close(self) -> Totals {
        let Play { shared, crew } = self;
        let machine = shared.close(crew);
        let totals = machine.totals();
        drop(machine);
        totals
    }
}

type SharedMachine<D, Q, F, R> = Shared<MemDevice, MemDevice, MemWire, D, Q, F, R>;

/// One event by the pass at a place. As many passes are then guests' as before.
fn called_at<D: Named, Q: Ledger, F: Ledger, R: Ledger, X: Wait>(
    rt: &X,
    shared: &SharedMachine<D, Q, F, R>,
    passes: &mut Vec<Pass<D, Q, F, R>>,
    place: usize,
    event: Event,
) -> Option<Told>
    ensures guests { count_by is_guest passes.new.items ≡ count_by is_guest passes.old.items }
    ensures others { count_by (λ p. not (is_guest p)) passes.new.items ≡ count_by (λ p. not (is_guest p)) passes.old.items }
{
    if place < passes.len() {
        Some(called(rt, shared, &mut passes[place], event))
    } else {
        None
    }
}

/// One event by a pass.
fn called<D: Named, Q: Ledger, F: Ledger, R: Ledger, X: Wait>(
    rt: &X,
    shared: &SharedMachine<D, Q, F, R>,
    pass: &mut Pass<D, Q, F, R>,
    event: Event,
) -> Told
    ensures { is_guest pass.new ≡ is_guest pass.old }
{
    match pass {
        Pass::Guest(pass) => guest_called(rt, shared, pass),
        Pass::Other(pass) => other_called(rt, shared, pass, event),
    }
}

fn guest_called<D: Named, Q: Ledger, F: Ledger, R: Ledger, X: Wait>(
    rt: &X,
    shared: &SharedMachine<D, Q, F, R>,
    pass: &mut GuestPass<D, Q, F>,
) -> Told {
    let turn = shared.guest(rt, pass);
    let mut bytes = [0; 64];
    let long = shared.read_bytes(rt, pass, &mut bytes);
    Told {
        turn,
        long,
        first: bytes[0],
        second: bytes[1],
    }
}

/// An event that is not of this pass is answered as one that has nothing left.
fn other_called<D: Named, Q: Ledger, F: Ledger, R: Ledger, X: Wait>(
    rt: &X,
    shared: &SharedMachine<D, Q, F, R>,
    pass: &mut WorkerPass<R>,
    event: Event,
) -> Told {
    let turn = if is_of_guest(event) || !shared.fits(event) {
        Turn::Wait(Why::TraceEnd)
    } else {
        shared.act(rt, pass, event)
    };
    Told {
        turn,
        long: 0,
        first: 0,
        second: 0,
    }
}

fn is_of_guest(event: Event) -> bool
    ensures { result ≡ is_of_guest event }
{
    matches!(event, Event::Guest(_))
}
