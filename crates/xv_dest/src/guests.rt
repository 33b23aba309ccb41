//! The switchover, and the guest's operations after it.

ghost use Rattle.std.specs.Prelude.{◌≡◌, ◌≤◌, true, false, length};
ghost use Rattle.xv_base.specs.declared.event.Event.TheVariants.{Guest, Switch};
ghost use Rattle.xv_base.specs.declared.unit.GuestId.{GuestId};
ghost use Rattle.xv_device.specs.Device.{FlushAll};
ghost use Rattle.xv_device.specs.Told.{HasRoomToCount};
ghost use Rattle.xv_device.specs.Operations.{operation_call, AreRead};
ghost use Rattle.xv_model.specs.Job.{Job, IsLegal};
ghost use Rattle.xv_model.specs.View.{View};
ghost use Rattle.xv_model.specs.Wait.{next_operation};
ghost use Rattle.xv_model.specs.Step.{is_flagged};
ghost use Rattle.xv_model.specs.Contents.{Contents};
ghost use Rattle.xv_dest.specs.Half.{HasDestBytes};
ghost use Rattle.xv_dest.specs.Step.{Allows, StepsDest, MovesDest, MakesCall, went_out};

use crate::dest::DestHalf;
use xv_base::{Cause, MOST_PATTERN, Note, Turn, UnitOp};
use xv_device::{UnitDevice, operate};

impl<T: UnitDevice> DestHalf<T> {
    /// Makes sure of all that was written, which ends the switchover.
    /// Fails where the flush failed.
    pub fn flush(&mut self) -> Turn
        requires countable { HasRoomToCount self.old.told }
        ensures step { (job : Job) (v : View) → Allows job v Switch self.old → StepsDest job v Switch result self.old self.new }
        ensures bytes { (job : Job) (v : View) (c : Contents) → Allows job v Switch self.old → HasDestBytes c self.old → MovesDest job v c Switch result self.new }
        ensures call { MakesCall FlushAll result self.old self.new }
    {
        match self.device.flush() {
            Ok(()) => Turn::Done(Note { a: 0, b: 0 }),
            Err(_) => Turn::Failed(Cause::Flush),
        }
    }

    /// A guest's operation, once the destination owns the guest; what it reads stands in the first bytes of `into`.
    /// It is faulted where its one call failed, and no content has changed.
    #[tactic(auto, using(crate::proofs::GuestMoves::len_fits))]
    pub fn guest(&mut self, op: &UnitOp, into: &mut [u8]) -> Turn
        requires legal { IsLegal self.old.shape op.now }
        requires room { MOST_PATTERN ≤ length into.old }
        requires countable { HasRoomToCount self.old.told }
        ensures step { (job : Job) (v : View) (guest : GuestId) → Allows job v (Guest guest) self.old → next_operation job v guest.0 ≡ op.now → StepsDest job v (Guest guest) result self.old self.new }
        ensures bytes { (job : Job) (v : View) (c : Contents) (guest : GuestId) → Allows job v (Guest guest) self.old → next_operation job v guest.0 ≡ op.now → HasDestBytes c self.old → MovesDest job v c (Guest guest) result self.new }
        ensures call { MakesCall (operation_call self.old.shape op.now) result self.old self.new }
        ensures reads { went_out result ≡ true → is_flagged result ≡ false → AreRead op.now into.new self.old.told }
    {
        match operate(&mut self.device, &self.layout, op, &mut self.unit, into) {
            Ok(()) => Turn::Done(Note {
                a: if op.write.is_some() { 0 } else { op.len },
                b: 0,
            }),
            Err(_) => Turn::Faulted,
        }
    }
}
