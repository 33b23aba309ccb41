//! What the operations of the guests wait for.

ghost use Rattle.std.specs.Prelude.{◌≡◌, ◌<◌, true, false, length, Some, IfSome, IsNone};
ghost use Rattle.xv_model.specs.Job.{guest_count};
ghost use Rattle.xv_model.specs.Wait.{wait, cancel_due};
ghost use Rattle.xv_base.specs.declared.event.Event.TheVariants.{Guest, Release};
ghost use Rattle.xv_job.specs.Written.{job_of};
ghost use Rattle.xv_source.specs.Step.{is_let};
ghost use Rattle.xv_core.specs.Seen.{view_of};

use crate::cancels::reaches_cancel;
use crate::migration::Migration;
use crate::rounds::may_go_beside;
use crate::settling::{is_live, is_running, is_stunned};
use xv_base::{Event, GuestId, Why};
use xv_device::UnitDevice;
use xv_wire::Wire;

impl<S: UnitDevice, T: UnitDevice, W: Wire> Migration<S, T, W> {
    /// What a guest's next operation would wait for now.
    pub(crate) fn guest_wait(&self, guest: GuestId) -> Option<Why>
        requires { guest.0 < guest_count (job_of self.now.job) }
        ensures { result ≡ wait (job_of self.now.job) (view_of self.now) (Guest guest) false }
    {
        if let Some(why) = self.held_up(guest) {
            return Some(why);
        }
        // What the operation is matters only where there is no room for a message.
        if is_running(self.phase) && self.source.is_full() {
            let op = self.next_operation(guest);
            return self.source.guest_waits(guest, &op);
        }
        None
    }

    /// What the write that waits first for a disk would wait for now.
    pub(crate) fn release_wait(&self, disk: u8) -> Option<Why>
        requires { disk < length (job_of self.now.job).shape.disks }
        ensures { result ≡ wait (job_of self.now.job) (view_of self.now) (Release disk) false }
    {
        if self.source.front(disk).is_none() {
            return Some(Why::NothingThere);
        }
        if self.is_cancel_due() {
            return Some(Why::CancelDue);
        }
        if is_running(self.phase) {
            let beside = may_go_beside(&self.job);
            return self.source.waits(Event::Release(disk), beside);
        }
        None
    }

    /// What a guest's next operation waits for, but for room for its message.
    pub(crate) fn held_up(&self, guest: GuestId) -> Option<Why>
        requires { guest.0 < guest_count (job_of self.now.job) }
        ensures waits { IfSome result (λ why. wait (job_of self.now.job) (view_of self.now) (Guest guest) false ≡ Some why) }
        ensures lets { IsNone result → is_let (job_of self.now.job) (view_of self.now) (Guest guest) ≡ true }
    {
        if self.job.operations_of(guest) <= self.history.ended(guest) {
            return Some(Why::TraceEnd);
        }
        if self.source.queued(guest) {
            return Some(Why::InQueue);
        }
        if self.is_cancel_due() {
            return Some(Why::CancelDue);
        }
        if is_stunned(self.phase) {
            return Some(Why::Stunned);
        }
        None
    }

    /// Whether the history stands at the number at which the migration is to be cancelled, which still goes on.
    pub(crate) fn is_cancel_due(&self) -> bool
        ensures { result ≡ cancel_due (job_of self.now.job) (view_of self.now) }
    {
        reaches_cancel(&self.job, self.history.len()) && is_live(self.phase)
    }
}
