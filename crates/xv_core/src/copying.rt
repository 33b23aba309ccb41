//! The events of the copy of a disk: a region begins, its blocks are read, and it is sent off.

ghost use Rattle.std.specs.Prelude.{◌≡◌, ◌<◌, length};
ghost use Rattle.xv_base.specs.declared.event.Event.TheVariants.{Begin, Read, Advance};
ghost use Rattle.xv_job.specs.Written.{job_of};
ghost use Rattle.xv_core.specs.Stepped.{IsStep};

use crate::migration::Migration;
use crate::settling::{is_running, settle};
use xv_base::{Event, Turn, Why};
use xv_device::UnitDevice;
use xv_wire::Wire;

impl<S: UnitDevice, T: UnitDevice, W: Wire> Migration<S, T, W> {
    /// A region begins on a disk.
    pub(crate) fn begin(&mut self, disk: u8) -> Turn
        requires { disk < length (job_of self.old.job).shape.disks }
        ensures { IsStep self.old (Begin disk) result self.new }
    {
        if !is_running(self.phase) {
            return Turn::Wait(Why::NotNow);
        }
        let turn = self.source.begin(disk);
        settle(
            &mut self.journal,
            &mut self.phase,
            &mut self.source,
            Event::Begin(disk),
            turn,
        )
    }

    /// The next block of a disk's region is read.
    pub(crate) fn read(&mut self, disk: u8) -> Turn
        requires { disk < length (job_of self.old.job).shape.disks }
        ensures { IsStep self.old (Read disk) result self.new }
    {
        if !is_running(self.phase) {
            return Turn::Wait(Why::NotNow);
        }
        let turn = self.source.read(disk);
        settle(
            &mut self.journal,
            &mut self.phase,
            &mut self.source,
            Event::Read(disk),
            turn,
        )
    }

    /// A disk's region that is read is sent off, and the cursor moves behind it.
    pub(crate) fn advance(&mut self, disk: u8) -> Turn
        requires { disk < length (job_of self.old.job).shape.disks }
        ensures { IsStep self.old (Advance disk) result self.new }
    {
        if !is_running(self.phase) {
            return Turn::Wait(Why::NotNow);
        }
        let turn = self.source.advance(disk, self.history.len());
        settle(
            &mut self.journal,
            &mut self.phase,
            &mut self.source,
            Event::Advance(disk),
            turn,
        )
    }
}
