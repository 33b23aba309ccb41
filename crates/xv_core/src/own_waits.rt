//! What the events of the copy and of the pages, the stun and the cancel wait for.

ghost use Rattle.std.specs.Prelude.{◌≡◌, true, false};
ghost use Rattle.xv_base.specs.declared.event.Event.TheVariants.{Stun, Cancel};
ghost use Rattle.xv_model.specs.Wait.{fits, wait};
ghost use Rattle.xv_job.specs.Written.{job_of};
ghost use Rattle.xv_source.specs.Waits.{is_asked};
ghost use Rattle.xv_core.specs.Seen.{view_of};
ghost use Rattle.xv_core.specs.Copying.{is_of_copy, is_own};

use crate::cancels::{is_before_cancel, reaches_cancel};
use crate::migration::Migration;
use crate::rounds::may_go_beside;
use crate::settling::{is_live, is_running};
use xv_base::{Event, Phase, Why};
use xv_device::UnitDevice;
use xv_wire::Wire;

/// Whether a phase is the one that an event of the source's half asks for.
fn is_asked(phase: Phase, event: Event) -> bool
    ensures { result ≡ is_asked phase event }
{
    match event {
        Event::Guest(_)
        | Event::Begin(_)
        | Event::Read(_)
        | Event::Advance(_)
        | Event::Release(_)
        | Event::Round
        | Event::Stun => is_running(phase),
        Event::Page | Event::Send(_) | Event::Credit => is_live(phase),
        Event::Deliver(_) | Event::Apply | Event::Ack | Event::Switch | Event::Cancel => false,
    }
}

impl<S: UnitDevice, T: UnitDevice, W: Wire> Migration<S, T, W> {
    /// What an event of the copy or of the pages, the stun or the cancel would wait for now.
    pub(crate) fn own_wait(&self, event: Event) -> Option<Why>
        requires own { is_own event ≡ true }
        requires fitting { fits (job_of self.now.job) event ≡ true }
        ensures { result ≡ wait (job_of self.now.job) (view_of self.now) event false }
    {
        match event {
            Event::Begin(_) | Event::Read(_) | Event::Advance(_) | Event::Round | Event::Page => {
                self.copy_wait(event)
            }
            Event::Stun => self.stun_wait(),
            Event::Cancel => self.cancel_wait(),
            Event::Guest(_)
            | Event::Release(_)
            | Event::Send(_)
            | Event::Deliver(_)
            | Event::Apply
            | Event::Ack
            | Event::Credit
            | Event::Switch => unreachable!(),
        }
    }

    /// The same of the events of the copy and of the pages.
    fn copy_wait(&self, event: Event) -> Option<Why>
        requires of_copy { is_of_copy event ≡ true }
        requires fitting { fits (job_of self.now.job) event ≡ true }
        ensures { result ≡ wait (job_of self.now.job) (view_of self.now) event false }
    {
        if !is_asked(self.phase, event) {
            return Some(Why::NotNow);
        }
        self.source.waits(event, may_go_beside(&self.job))
    }

    /// The same of the stun.
    fn stun_wait(&self) -> Option<Why>
        ensures { result ≡ wait (job_of self.now.job) (view_of self.now) Stun false }
    {
        if !is_running(self.phase) {
            return Some(Why::NotNow);
        }
        if is_before_cancel(&self.job, self.history.len()) {
            return Some(Why::CancelDue);
        }
        self.source.waits(Event::Stun, may_go_beside(&self.job))
    }

    /// The same of the cancel.
    fn cancel_wait(&self) -> Option<Why>
        ensures { result ≡ wait (job_of self.now.job) (view_of self.now) Cancel false }
    {
        if !reaches_cancel(&self.job, self.history.len()) {
            return Some(Why::NotNow);
        }
        if !is_live(self.phase) {
            return Some(Why::NotNow);
        }
        None
    }
}
