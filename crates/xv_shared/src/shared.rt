//! The shared state.

ghost use Rattle.std.specs.Prelude.{◌≡◌, ◌↔◌, ◌+◌, ◌≤◌, ◌<◌, not, [], true, false, length, sum_by, IfOk, IfErr};
ghost use Rattle.xv_base.specs.declared.answer.Turn.TheVariants.{Wait as Waits};
ghost use Rattle.xv_base.specs.declared.answer.Why.TheVariants.{TraceEnd};
ghost use Rattle.std.specs.Arc.{arc_value};
ghost use Rattle.xv_model.specs.Job.{guest_count};
ghost use Rattle.xv_model.specs.Wait.{fits};
ghost use Rattle.xv_model.specs.Step.{is_wait};
ghost use Rattle.xv_model.specs.Work.{bound};
ghost use Rattle.xv_model.specs.Journal.{is_guest};
ghost use Rattle.xv_job.specs.Written.{job_of};
ghost use Rattle.xv_core.specs.Keeping.{IsKept};
ghost use Rattle.xv_core.specs.Origin.{HasOrigin};
ghost use Rattle.xv_progress.specs.Numbers.{IsFit, IsNotBelow, greater, no_numbers};
ghost use Rattle.xv_shared.specs.Tallies.{IsCounted, worker_after, guest_number, once};
ghost use Rattle.xv_shared.specs.Turns.{WasAnswered, WasTold, WasAsked, WasRead};
ghost use Rattle.xv_shared.specs.Held.{by_kind, entries};
ghost use Rattle.xv_shared.specs.Crews.{AreAll, sums, number};
ghost use Rattle.xv_shared.specs.FirstCrew.{first_crew, other_count};

use crate::closing::end;
use crate::crew::Crew;
use crate::ledgers::{Blanks, Named};
use crate::locked::Locked;
use crate::making::{Made, Words, job_numbers, make};
use crate::passes::{GuestPass, WorkerPass};
use std::alloc::Global;
use std::marker::Model;
use std::sync::ledger::Ledger;
use std::sync::{Arc, Mutex, Wait};
use xv_base::{Event, Turn};
use xv_core::Migration;
use xv_device::UnitDevice;
use xv_progress::{Numbers, Progress, Reader};
use xv_wire::Wire;

/// One migration, for all its workers. Beside the lock stand the words of its progress, and numbers of its job.
#[derive(Drop)]
pub struct Shared<
    S: UnitDevice,
    T: UnitDevice,
    W: Wire,
    D: Named,
    Q: Ledger,
    F: Ledger,
    R: Ledger,
> {
    lock: Mutex<Locked<S, T, W, D, Q, F, R>>,
    progress: Arc<Progress>,
    bound: u32,
    guests: u8,
    disks: u8,
    streams: u8,
}

impl<S: UnitDevice, T: UnitDevice, W: Wire, D: Named, Q: Ledger, F: Ledger, R: Ledger> Model
    for Shared<S, T, W, D, Q, F, R> {
    ghost use Rattle.std.specs.Arc.{arc_value};
    ghost use Rattle.atomic_table.specs.Seated.{TableId, table_id_coded};
    ghost use Rattle.xv_job.specs.Written.{job_of};
    ghost use Rattle.xv_shared.specs.FirstCrew.{AreOfJob};

    ghost Value = { TableId };

    ghost coded = { table_id_coded };

    ghost view = { λ s. arc_value s.progress };

    ghost invariant = { λ s. AreOfJob (job_of D.origin.job) s.bound s.guests s.disks s.streams };
}

impl<
    S: UnitDevice + Send,
    T: UnitDevice + Send,
    W: Wire + Send,
    D: Named,
    Q: Ledger,
    F: Ledger,
    R: Ledger,
> Shared<S, T, W, D, Q, F, R> {
    /// Shares a migration in which nothing has happened, and gives the passes of all its workers.
    /// Errors: want of memory, which hands the migration back.
    pub fn new(
        alloc: Global,
        blanks: Blanks,
        migration: Migration<S, T, W>,
    ) -> Result<(Shared<S, T, W, D, Q, F, R>, Crew<D, Q, F, R>), Migration<S, T, W>>
        requires none { migration.journal ≡ [] }
        requires came { HasOrigin D.origin migration }
        requires done { (blanks.done.name ≡ D.name) × (blanks.done.parts ≡ D.parts) × (D.parts ≡ guest_count (job_of D.origin.job)) }
        requires queued { (blanks.queued.name ≡ Q.name) × (blanks.queued.parts ≡ Q.parts) × (Q.parts ≡ guest_count (job_of D.origin.job)) }
        requires faulted { (blanks.faulted.name ≡ F.name) × (blanks.faulted.parts ≡ F.parts) × (F.parts ≡ guest_count (job_of D.origin.job)) }
        requires other { (blanks.other.name ≡ R.name) × (blanks.other.parts ≡ R.parts) × (R.parts ≡ other_count (job_of D.origin.job)) }
        ensures crew { IfOk result (λ r. r.1.passes.items ≡ first_crew (job_of D.origin.job)) }
        ensures all { IfOk result (λ r. AreAll (by_kind D.parts Q.parts F.parts R.parts) r.1.passes.items) }
        ensures reader { IfOk result (λ r. r.1.reader ≡ record { belongs = r.0; numbers = no_numbers }) }
        ensures again { IfErr result (λ again. again ≡ migration) }
    {
        match make(alloc, blanks, migration.job()) {
            Ok(made) => Ok(share(migration, made)),
            Err(_) => Err(migration),
        }
    }

    /// One step of the pass's guest, under the lock. Where none of its operations is left to begin, this is `TraceEnd`, the
    /// lock is not taken and no step is made.
    pub fn guest<X: Wait>(&self, rt: &X, pass: &mut GuestPass<D, Q, F>) -> Turn
        ensures ended { (result ≡ Waits TraceEnd) ↔ (pass.old.left ≡ 0) }
        ensures moved { IsCounted pass.old result pass.new }
        ensures entered { guest_number pass.new ≡ guest_number pass.old + once (not (is_wait result)) }
        ensures told { 0 < pass.old.left → WasTold D.origin pass.old.guest result }
    {
        if pass.left() == 0 {
            return pass.end();
        }
        self.lock.lock(rt).guest(pass)
    }

    /// One step of any other event, under the lock.
    pub fn act<X: Wait>(&self, rt: &X, pass: &mut WorkerPass<R>, event: Event) -> Turn
        requires fitting { fits (job_of D.origin.job) event ≡ true }
        requires other { is_guest event ≡ false }
        ensures moved { pass.new ≡ worker_after pass.old result }
        ensures answered { WasAnswered D.origin event result }
    {
        self.lock.lock(rt).act(pass, event)
    }

    /// The bytes of the guest's last read that was done, and how many they are: none before the first.
    pub fn read_bytes<X: Wait>(&self, rt: &X, pass: &GuestPass<D, Q, F>, into: &mut [u8; 64]) -> u32
        ensures few { result ≤ pass.now.read_length }
        ensures read { WasRead D.origin pass.now result into.new }
    {
        let locked = self.lock.lock(rt);
        pass.copy_read(locked.migration().reads(), into)
    }

    /// Whether the migration is over, every guest has done all, and nobody waits.
    pub fn finished<X: Wait>(&self, rt: &X) -> bool
        ensures { WasAsked D.origin result }
    {
        self.lock.lock(rt).migration().finished()
    }

    /// Ends the sharing, and gives the migration.
    pub fn close(self, crew: Crew<D, Q, F, R>) -> Migration<S, T, W>
        requires { AreAll (by_kind D.parts Q.parts F.parts R.parts) crew.passes.items }
        ensures came { HasOrigin D.origin result }
        ensures kept { IsKept result }
        ensures sums { sums crew.passes.items ≡ entries result.journal }
        ensures all { sum_by number crew.passes.items ≡ length result.journal }
    {
        end(self.lock.into_inner(), crew.passes)
    }

    /// The numbers of progress as they are now, without the lock.
    pub fn progress(&self, reader: &mut Reader) -> Numbers
        requires { reader.old.belongs ≡ self.now }
        ensures seen { reader.new ≡ record { belongs = reader.old.belongs; numbers = result } }
        ensures rises { IsNotBelow reader.old.numbers result }
        ensures journal_rises { reader.old.numbers.journal ≤ result.journal }
        ensures fit { IsFit result }
    {
        self.progress.read(reader)
    }

    /// Another reader, which has seen the same.
    pub fn split(&self, reader: &mut Reader) -> Reader
        requires { reader.old.belongs ≡ self.now }
        ensures new { result ≡ reader.old }
        ensures stays { reader.new ≡ reader.old }
    {
        self.progress.split(reader)
    }

    /// The kept reader has then seen the greater of each number.
    pub fn join(&self, kept: &mut Reader, spent: Reader)
        requires kept_own { kept.old.belongs ≡ self.now }
        requires spent_own { spent.belongs ≡ self.now }
        ensures { kept.new ≡ record { belongs = kept.old.belongs; numbers = greater kept.old.numbers spent.numbers } }
    {
        self.progress.join(kept, spent)
    }

    /// Whether an event's guest, disk or stream is in the job.
    pub fn fits(&self, event: Event) -> bool
        ensures { result ≡ fits (job_of D.origin.job) event }
    {
        match event {
            Event::Guest(guest) => guest.0 < self.guests,
            Event::Begin(disk) | Event::Read(disk) | Event::Advance(disk) | Event::Release(disk) =>
                disk < self.disks,
            Event::Send(stream) | Event::Deliver(stream) => stream < self.streams,
            Event::Round
            | Event::Page
            | Event::Apply
            | Event::Ack
            | Event::Credit
            | Event::Stun
            | Event::Switch
            | Event::Cancel => true,
        }
    }

    /// How many entries the journal has at most.
    pub fn bound(&self) -> u32
        ensures { result ≡ bound (job_of D.origin.job) }
    {
        self.bound
    }
}

/// Puts a migration under the lock.
fn share<S: UnitDevice, T: UnitDevice, W: Wire, D: Named, Q: Ledger, F: Ledger, R: Ledger>(
    migration: Migration<S, T, W>,
    made: Made<D, Q, F, R>,
) -> (Shared<S, T, W, D, Q, F, R>, Crew<D, Q, F, R>)
    requires none { migration.journal ≡ [] }
    requires came { HasOrigin D.origin migration }
    requires books { by_kind made.books.done.total made.books.queued.total made.books.faulted.total made.books.other.total ≡ by_kind 0 0 0 0 }
    requires spare { by_kind made.spare.done.parts made.spare.queued.parts made.spare.faulted.parts made.spare.other.parts ≡ by_kind 0 0 0 0 }
    requires held { arc_value made.words.held ≡ arc_value made.words.progress }
    requires publisher { made.words.publisher ≡ record { belongs = arc_value made.words.progress; numbers = no_numbers } }
    requires reader { made.words.reader ≡ record { belongs = arc_value made.words.progress; numbers = no_numbers } }
    ensures passes { result.1.passes.items ≡ made.passes.items }
    ensures reader { result.1.reader ≡ record { belongs = result.0; numbers = no_numbers } }
{
    let (bound, guests, disks, streams) = job_numbers(migration.job());
    let Made {
        books,
        spare,
        passes,
        words,
    } = made;
    let Words {
        progress,
        held,
        publisher,
        reader,
    } = words;
    let locked = Locked {
        migration,
        books,
        spare,
        publisher,
        progress: held,
    };
    let shared = Shared {
        lock: Mutex::new(locked),
        progress,
        bound,
        guests,
        disks,
        streams,
    };
    (shared, Crew { passes, reader })
}
