//! The events of the pages, and those that end the copy: a round begins, a page is sent off, the guest is stopped, the
//! migration is given up.

ghost use Rattle.std.specs.Prelude.{◌≡◌, ◌==◌};
ghost use Rattle.xv_base.specs.declared.event.Event.TheVariants.{Round, Page, Stun, Cancel};
ghost use Rattle.xv_job.specs.Written.{job_of};
ghost use Rattle.xv_core.specs.Stepped.{IsStep};

use crate::cancels::{is_before_cancel, reaches_cancel};
use crate::migration::Migration;
use crate::settling::{enter, is_live, is_running, settle};
use xv_base::{Event, GROUP_FORMAT, Note, Phase, Turn, Why};
use xv_device::UnitDevice;
use xv_job::Job;
use xv_wire::Wire;

/// Whether rounds of a job may go beside the copy.
pub(crate) fn may_go_beside(job: &Job) -> bool
    ensures { result ≡ ((job_of job.now).format == GROUP_FORMAT) }
{
    job.format == GROUP_FORMAT
}

impl<S: UnitDevice, T: UnitDevice, W: Wire> Migration<S, T, W> {
    /// A round of the dirty pages begins.
    pub(crate) fn round(&mut self) -> Turn
        ensures { IsStep self.old Round result self.new }
    {
        if !is_running(self.phase) {
            return Turn::Wait(Why::NotNow);
        }
        let turn = self.source.round(may_go_beside(&self.job));
        settle(
            &mut self.journal,
            &mut self.phase,
            &mut self.source,
            Event::Round,
            turn,
        )
    }

    /// The least page of the round is read and sent off.
    pub(crate) fn page(&mut self) -> Turn
        ensures { IsStep self.old Page result self.new }
    {
        if !is_live(self.phase) {
            return Turn::Wait(Why::NotNow);
        }
        let turn = self.source.page(self.history.len());
        settle(
            &mut self.journal,
            &mut self.phase,
            &mut self.source,
            Event::Page,
            turn,
        )
    }

    /// The guest is stopped, unless the migration is still to be cancelled.
    pub(crate) fn stun(&mut self) -> Turn
        ensures { IsStep self.old Stun result self.new }
    {
        if !is_running(self.phase) {
            return Turn::Wait(Why::NotNow);
        }
        let length = self.history.len();
        if is_before_cancel(&self.job, length) {
            return Turn::Wait(Why::CancelDue);
        }
        let turn = self.source.stun();
        if let Turn::Wait(_) = turn {
            return turn;
        }
        self.phase = Phase::Stunned;
        self.stun = Some(length);
        settle(
            &mut self.journal,
            &mut self.phase,
            &mut self.source,
            Event::Stun,
            turn,
        )
    }

    /// The migration is given up where the history has come to the job's number, and every region with it.
    pub(crate) fn cancel(&mut self) -> Turn
        ensures { IsStep self.old Cancel result self.new }
    {
        if !reaches_cancel(&self.job, self.history.len()) {
            return Turn::Wait(Why::NotNow);
        }
        if !is_live(self.phase) {
            return Turn::Wait(Why::NotNow);
        }
        self.phase = Phase::Cancelled;
        self.source.abandon();
        let turn = Turn::Done(Note { a: 0, b: 0 });
        enter(&mut self.journal, Event::Cancel, turn);
        turn
    }
}
