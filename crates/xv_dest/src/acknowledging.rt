//! Telling of what was written.

ghost use Rattle.std.specs.Prelude.{◌≡◌, ◌+◌, ◌*◌, ◌^◌, ◌<◌, ◌≤◌, true, length, IfSome};
ghost use Rattle.xv_base.specs.declared.event.Event.TheVariants.{Ack};
ghost use Rattle.xv_model.specs.Job.{Job};
ghost use Rattle.xv_model.specs.View.{View};
ghost use Rattle.xv_model.specs.Step.{is_flagged, is_wait};
ghost use Rattle.xv_model.specs.Contents.{Contents};
ghost use Rattle.xv_streams.specs.Returned.{AckPut};
ghost use Rattle.xv_dest.specs.Half.{HasDestBytes};
ghost use Rattle.xv_dest.specs.Step.{Allows, StepsDest, MovesDest, MakesNoCall, went_out};

use crate::dest::DestHalf;
use xv_base::{Cause, Note, Turn, Why};
use xv_device::UnitDevice;
use xv_frame::HEAD_SIZE;
use xv_streams::BackWire;
use xv_wire::Wire;

impl<T: UnitDevice> DestHalf<T> {
    /// Puts an acknowledgement of the messages written since the last one. Waits where there are none.
    /// Fails where the put failed, and none of them is acknowledged.
    pub fn ack<W: Wire>(&mut self, back: &mut BackWire<W>) -> Turn
        requires room { 0 < self.old.freed → HEAD_SIZE * (length back.old.counts + 1) ≤ back.old.wire.capacity }
        requires countable { IfSome back.old.wire.counted (λ c. c.puts < 2 ^ 63) }
        ensures step { (job : Job) (v : View) → Allows job v Ack self.old → StepsDest job v Ack result self.old self.new }
        ensures bytes { (job : Job) (v : View) (c : Contents) → Allows job v Ack self.old → HasDestBytes c self.old → MovesDest job v c Ack result self.new }
        ensures call { MakesNoCall self.old self.new }
        ensures put { went_out result ≡ true → AckPut self.old.freed (is_flagged result) back.old back.new }
        ensures waits { is_wait result ≡ true → back.new ≡ back.old }
    {
        let count = self.freed.count();
        if count == 0 {
            return Turn::Wait(Why::NothingThere);
        }
        // Each one on the way is a head alone, so that there is room for this one.
        let _ = back.waiting();
        match back.put_ack(count) {
            Ok(()) => {
                let count = self.freed.drain();
                Turn::Done(Note { a: count, b: 0 })
            }
            Err(_) => Turn::Failed(Cause::AckPut),
        }
    }
}
