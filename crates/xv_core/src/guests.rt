//! The operations of the guests: a guest's next one, and the write that waits first for a disk.

ghost use Rattle.std.specs.Prelude.{◌≡◌, ◌<◌, true, false, length, slice_get, Some};
ghost use Rattle.xv_model.specs.Job.{guest_count, trace};
ghost use Rattle.xv_model.specs.Guest.{ended};
ghost use Rattle.xv_model.specs.View.{disk as disk_of_view, is_running, is_live, is_switched};
ghost use Rattle.xv_model.specs.Wait.{cancel_due, next_operation};
ghost use Rattle.xv_base.specs.declared.event.Event.TheVariants.{Guest, Release};
ghost use Rattle.xv_job.specs.Written.{job_of};
ghost use Rattle.xv_source.specs.Step.{is_let};
ghost use Rattle.xv_core.specs.Seen.{view_of};
ghost use Rattle.xv_core.specs.Stepped.{IsStep};

use crate::ending::{end, keep};
use crate::migration::Migration;
use crate::settling::{enter, is_running};
use xv_base::{Event, GuestId, Phase, Turn, UnitOp, Waiting, Why};
use xv_device::UnitDevice;
use xv_wire::Wire;

impl<S: UnitDevice, T: UnitDevice, W: Wire> Migration<S, T, W> {
    /// A guest's next operation, on the device of the side that the guest is on: it is done, or waits in the queue of a
    /// disk whose region has its block, or its call fails.
    pub(crate) fn guest(&mut self, guest: GuestId) -> Turn
        requires { guest.0 < guest_count (job_of self.old.job) }
        ensures { IsStep self.old (Guest guest) result self.new }
    {
        if let Some(why) = self.held_up(guest) {
            return Turn::Wait(why);
        }
        match self.phase {
            Phase::Running => self.guest_running(guest),
            Phase::Switched => self.guest_taken_over(guest),
            Phase::Cancelled | Phase::Failed => self.guest_alone(guest),
            // A stopped guest was held up.
            Phase::Stunned => unreachable!(),
        }
    }

    /// The same while the migration runs.
    fn guest_running(&mut self, guest: GuestId) -> Turn
        requires there { guest.0 < guest_count (job_of self.old.job) }
        requires lets { is_let (job_of self.old.job) (view_of self.old) (Guest guest) ≡ true }
        requires running { is_running (view_of self.old).phase ≡ true }
        ensures { IsStep self.old (Guest guest) result self.new }
    {
        let op = self.next_operation(guest);
        let length = self.history.len();
        let turn = self.source.guest(guest, &op, length, &mut self.read);
        end(&mut self.history, guest, turn);
        keep(&mut self.reads, &op, turn, &self.read);
        enter(&mut self.journal, Event::Guest(guest), turn);
        turn
    }

    /// The same once the migration has ended on the source.
    fn guest_alone(&mut self, guest: GuestId) -> Turn
        requires there { guest.0 < guest_count (job_of self.old.job) }
        requires lets { is_let (job_of self.old.job) (view_of self.old) (Guest guest) ≡ true }
        requires over { is_live (view_of self.old).phase ≡ false }
        requires on_source { is_switched (view_of self.old).phase ≡ false }
        ensures { IsStep self.old (Guest guest) result self.new }
    {
        let op = self.next_operation(guest);
        let turn = self.source.guest_alone(&op, &mut self.read);
        end(&mut self.history, guest, turn);
        keep(&mut self.reads, &op, turn, &self.read);
        enter(&mut self.journal, Event::Guest(guest), turn);
        turn
    }

    /// The same once the destination has taken the guest over.
    fn guest_taken_over(&mut self, guest: GuestId) -> Turn
        requires there { guest.0 < guest_count (job_of self.old.job) }
        requires lets { is_let (job_of self.old.job) (view_of self.old) (Guest guest) ≡ true }
        requires on_dest { is_switched (view_of self.old).phase ≡ true }
        ensures { IsStep self.old (Guest guest) result self.new }
    {
        let op = self.next_operation(guest);
        let turn = self.dest.guest(&op, &mut self.read);
        end(&mut self.history, guest, turn);
        keep(&mut self.reads, &op, turn, &self.read);
        enter(&mut self.journal, Event::Guest(guest), turn);
        turn
    }

    /// The write that waits first for a disk, on the source: it is done, or its call fails, and its guest waits no longer.
    pub(crate) fn release(&mut self, disk: u8) -> Turn
        requires { disk < length (job_of self.old.job).shape.disks }
        ensures { IsStep self.old (Release disk) result self.new }
    {
        let Some(waiting) = self.source.front(disk) else {
            return Turn::Wait(Why::NothingThere);
        };
        if self.is_cancel_due() {
            return Turn::Wait(Why::CancelDue);
        }
        if is_running(self.phase) {
            return self.release_running(disk, waiting);
        }
        // Nobody waits while the guest is stopped, or once it is taken over.
        self.release_alone(disk, waiting)
    }

    /// The same while the migration runs.
    fn release_running(&mut self, disk: u8, waiting: Waiting) -> Turn
        requires there { disk < length (job_of self.old.job).shape.disks }
        requires first { slice_get (disk_of_view (view_of self.old) disk).queue 0 ≡ Some waiting }
        requires not_due { cancel_due (job_of self.old.job) (view_of self.old) ≡ false }
        requires running { is_running (view_of self.old).phase ≡ true }
        ensures { IsStep self.old (Release disk) result self.new }
    {
        let op = self.next_operation(waiting.guest);
        let length = self.history.len();
        let turn = self.source.release(disk, &op, length);
        end(&mut self.history, waiting.guest, turn);
        enter(&mut self.journal, Event::Release(disk), turn);
        turn
    }

    /// The same once the migration has ended on the source.
    fn release_alone(&mut self, disk: u8, waiting: Waiting) -> Turn
        requires there { disk < length (job_of self.old.job).shape.disks }
        requires first { slice_get (disk_of_view (view_of self.old) disk).queue 0 ≡ Some waiting }
        requires not_due { cancel_due (job_of self.old.job) (view_of self.old) ≡ false }
        requires over { is_running (view_of self.old).phase ≡ false }
        ensures { IsStep self.old (Release disk) result self.new }
    {
        let op = self.next_operation(waiting.guest);
        let turn = self.source.release_alone(disk, &op);
        end(&mut self.history, waiting.guest, turn);
        enter(&mut self.journal, Event::Release(disk), turn);
        turn
    }

    /// The operation that a guest does next; it has one.
    pub(crate) fn next_operation(&self, guest: GuestId) -> UnitOp
        requires { ended (view_of self.now).history guest.0 < length (trace (job_of self.now.job) guest.0) }
        ensures { result ≡ next_operation (job_of self.now.job) (view_of self.now) guest.0 }
    {
        self.job.unit_op(guest, self.history.ended(guest))
    }
}
