//! The value of the lock.

ghost use Rattle.std.specs.Prelude.{◌≡◌, ◌≢◌, ◌<◌, ◌+◌, true, false, not, length};
ghost use Rattle.xv_base.specs.declared.answer.Turn.TheVariants.{Wait};
ghost use Rattle.xv_base.specs.declared.answer.Why.TheVariants.{TraceEnd};
ghost use Rattle.xv_model.specs.Wait.{fits};
ghost use Rattle.xv_model.specs.Step.{is_wait};
ghost use Rattle.xv_model.specs.Journal.{is_guest};
ghost use Rattle.xv_job.specs.Written.{job_of};
ghost use Rattle.xv_core.specs.Stepped.{IsStep};
ghost use Rattle.xv_core.specs.Keeping.{IsKept};
ghost use Rattle.xv_core.specs.Origin.{HasOrigin};
ghost use Rattle.xv_shared.specs.Tallies.{guest_number, worker_after, pass_after, once};
ghost use Rattle.xv_shared.specs.Turns.{IsGuestStep};

use crate::answers::told;
use crate::books::{Books, Shares};
use crate::ledgers::Named;
use crate::passes::{GuestPass, WorkerPass};
use crate::turns::step;
use std::marker::Model;
use std::sync::Arc;
use std::sync::ledger::Ledger;
use xv_base::{Event, Turn};
use xv_core::Migration;
use xv_device::UnitDevice;
use xv_progress::{Progress, Publisher};
use xv_wire::Wire;

/// The migration that is shared, with the books of the four ledgers and the publisher of its numbers.
#[derive(Drop)]
pub struct Locked<
    S: UnitDevice,
    T: UnitDevice,
    W: Wire,
    D: Named,
    Q: Ledger,
    F: Ledger,
    R: Ledger,
> {
    pub(crate) migration: Migration<S, T, W>,
    pub(crate) books: Books<D, Q, F, R>,
    /// Shares of no part, into which all others are put at the end.
    pub(crate) spare: Shares<D, Q, F, R>,
    pub(crate) publisher: Publisher,
    pub(crate) progress: Arc<Progress>,
}

impl<S: UnitDevice, T: UnitDevice, W: Wire, D: Named, Q: Ledger, F: Ledger, R: Ledger> Model
    for Locked<S, T, W, D, Q, F, R> {
    ghost use Rattle.std.specs.Arc.{arc_value};
    ghost use Rattle.xv_core.specs.Seen.{Seen};
    ghost use Rattle.xv_shared.specs.Held.{IsHeld, by_kind};

    ghost Value = { Seen };

    ghost view = { λ l. l.migration };

    ghost invariant = { λ l. IsHeld D.origin l.migration (by_kind l.books.done.total l.books.queued.total l.books.faulted.total l.books.other.total) (by_kind l.spare.done.parts l.spare.queued.parts l.spare.faulted.parts l.spare.other.parts) l.publisher (arc_value l.progress) };
}

impl<S: UnitDevice, T: UnitDevice, W: Wire, D: Named, Q: Ledger, F: Ledger, R: Ledger> Locked<
    S,
    T,
    W,
    D,
    Q,
    F,
    R,
> {
    /// One step of the pass's guest; `NotNow` stands for the answer that all its operations have ended.
    pub fn guest(&mut self, pass: &mut GuestPass<D, Q, F>) -> Turn
        requires { 0 < pass.old.left }
        ensures stepped { IsGuestStep self.old pass.old.guest result self.new }
        ensures moved { pass.new ≡ pass_after pass.old result (length self.old.reads) (length self.new.reads) }
        ensures entered { guest_number pass.new ≡ guest_number pass.old + once (not (is_wait result)) }
        ensures never { result ≢ Wait TraceEnd }
        ensures came { HasOrigin D.origin self.old }
        ensures kept { IsKept self.old }
    {
        let event = Event::Guest(pass.guest());
        let Locked {
            migration,
            books,
            spare: _,
            publisher,
            progress,
        } = self;
        let step = step(migration, publisher, progress, event);
        let turn = told(step.turn);
        pass.enter(turn, books, step.before, step.later);
        turn
    }

    /// One step of any other event.
    pub fn act(&mut self, pass: &mut WorkerPass<R>, event: Event) -> Turn
        requires fitting { fits (job_of D.origin.job) event ≡ true }
        requires other { is_guest event ≡ false }
        ensures stepped { IsStep self.old event result self.new }
        ensures moved { pass.new ≡ worker_after pass.old result }
        ensures came { HasOrigin D.origin self.old }
        ensures kept { IsKept self.old }
    {
        let Locked {
            migration,
            books,
            spare: _,
            publisher,
            progress,
        } = self;
        let turn = step(migration, publisher, progress, event).turn;
        pass.enter(turn, books);
        turn
    }

    /// The migration that is shared.
    pub fn migration(&self) -> &Migration<S, T, W>
        ensures exactly { result.now ≡ self.now }
        ensures came { HasOrigin D.origin self.now }
        ensures kept { IsKept self.now }
    {
        // What every migration keeps is told with the journal.
        let _ = self.migration.journal();
        &self.migration
    }
}
