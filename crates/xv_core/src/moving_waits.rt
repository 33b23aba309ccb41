//! What the events that move messages wait for, and the switchover.

ghost use Rattle.std.specs.Prelude.{◌≡◌, ◌<◌, false};
ghost use Rattle.xv_base.specs.declared.event.Event.TheVariants.{Send, Deliver, Apply, Ack, Credit, Switch};
ghost use Rattle.xv_model.specs.Wait.{wait};
ghost use Rattle.xv_job.specs.Written.{job_of};
ghost use Rattle.xv_core.specs.Seen.{view_of};

use crate::migration::Migration;
use crate::settling::{is_live, is_stunned};
use xv_base::{Event, GROUP_FORMAT, Why};
use xv_device::UnitDevice;
use xv_wire::Wire;

impl<S: UnitDevice, T: UnitDevice, W: Wire> Migration<S, T, W> {
    /// What a send on a stream would wait for now.
    pub(crate) fn send_wait(&self, stream: u8) -> Option<Why>
        requires { stream < (job_of self.now.job).config.streams }
        ensures { result ≡ wait (job_of self.now.job) (view_of self.now) (Send stream) false }
    {
        if !is_live(self.phase) {
            return Some(Why::NotNow);
        }
        self.source
            .waits(Event::Send(stream), self.job.format == GROUP_FORMAT)
    }

    /// What a delivery from a stream would wait for now.
    pub(crate) fn deliver_wait(&self, stream: u8) -> Option<Why>
        requires { stream < (job_of self.now.job).config.streams }
        ensures { result ≡ wait (job_of self.now.job) (view_of self.now) (Deliver stream) false }
    {
        if !is_live(self.phase) {
            return Some(Why::NotNow);
        }
        if self.streams.waiting(stream) == 0 {
            return Some(Why::NothingThere);
        }
        None
    }

    /// What a write of a held message would wait for now.
    pub(crate) fn apply_wait(&self) -> Option<Why>
        ensures { result ≡ wait (job_of self.now.job) (view_of self.now) Apply false }
    {
        if !is_live(self.phase) {
            return Some(Why::NotNow);
        }
        if !self.dest.ready() {
            return Some(Why::NothingThere);
        }
        None
    }

    /// What an acknowledgement would wait for now.
    pub(crate) fn ack_wait(&self) -> Option<Why>
        ensures { result ≡ wait (job_of self.now.job) (view_of self.now) Ack false }
    {
        if !is_live(self.phase) {
            return Some(Why::NotNow);
        }
        if self.dest.freed() == 0 {
            return Some(Why::NothingThere);
        }
        None
    }

    /// What a credit would wait for now.
    pub(crate) fn credit_wait(&self) -> Option<Why>
        ensures { result ≡ wait (job_of self.now.job) (view_of self.now) Credit false }
    {
        if !is_live(self.phase) {
            return Some(Why::NotNow);
        }
        if self.back.waiting() == 0 {
            return Some(Why::NothingThere);
        }
        None
    }

    /// What the switchover would wait for now.
    pub(crate) fn switch_wait(&self) -> Option<Why>
        ensures { result ≡ wait (job_of self.now.job) (view_of self.now) Switch false }
    {
        if !is_stunned(self.phase) {
            return Some(Why::NotNow);
        }
        if self.job.config.cancel.is_some() {
            return Some(Why::CancelDue);
        }
        if !self.source.may_switch() {
            return Some(Why::NotNow);
        }
        None
    }
}
