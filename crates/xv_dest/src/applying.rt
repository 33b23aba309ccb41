//! Writing what is held.

ghost use Rattle.std.specs.Prelude.{◌≡◌, ◌<◌, nat_lt, true, [], length, get_or, Some, None, if◌then◌else◌};
ghost use Rattle.xv_base.specs.Units.{units, size};
ghost use Rattle.xv_base.specs.declared.event.Event.TheVariants.{Apply};
ghost use Rattle.xv_device.specs.Told.{HasRoomToCount};
ghost use Rattle.xv_model.specs.Job.{Job};
ghost use Rattle.xv_model.specs.View.{View, number, no_message, is_ready};
ghost use Rattle.xv_model.specs.Contents.{Contents};
ghost use Rattle.xv_dest.specs.Half.{with_dest, HasDestBytes};
ghost use Rattle.xv_dest.specs.Step.{Allows, StepsDest, MovesDest, MakesCall, went_out, ready_place, ready_write};

use crate::dest::DestHalf;
use xv_base::{Cause, MOST_CREDIT, Note, Turn, UnitHead, UnitId, Why};
use xv_device::UnitDevice;

impl<T: UnitDevice> DestHalf<T> {
    /// Writes the first message in order of arrival that is its unit's next version, and takes it out. Waits where there
    /// is none.
    /// Fails where the write failed, and nothing has changed.
    pub fn apply(&mut self) -> Turn
        requires few { self.old.freed < MOST_CREDIT }
        requires countable { HasRoomToCount self.old.told }
        ensures step { (job : Job) (v : View) → Allows job v Apply self.old → StepsDest job v Apply result self.old self.new }
        ensures bytes { (job : Job) (v : View) (c : Contents) → Allows job v Apply self.old → HasDestBytes c self.old → MovesDest job v c Apply result self.new }
        ensures call { MakesCall (ready_write self.old) result self.old self.new }
        ensures whole { went_out result ≡ true → length (get_or self.old.contents (ready_place self.old) []) ≡ size self.old.shape (get_or self.old.held (ready_place self.old) no_message).unit.0 }
    {
        let Some(slot) = self.hold.ready() else {
            return Turn::Wait(Why::NothingThere);
        };
        let UnitHead { unit, version, .. } = self.hold.head(slot);
        match self.device.write(unit, self.hold.bytes(slot)) {
            Ok(()) => {
                self.hold.applied(slot);
                self.freed.add();
                Turn::Done(Note {
                    a: unit.0,
                    b: version,
                })
            }
            Err(_) => Turn::Failed(Cause::DestWrite),
        }
    }

    /// Whether a held message is its unit's next version.
    pub fn ready(&self) -> bool
        ensures { (v : View) → with_dest v self.now ≡ v → result ≡ is_ready v.hold }
    {
        self.hold.ready().is_some()
    }

    /// The `at` of the version of a unit that was written last, none where none was.
    pub fn recorded(&self, unit: UnitId) -> Option<u64>
        requires { unit.0 < units self.now.shape }
        ensures { result ≡ (if nat_lt 0 (number self.now.applied unit.0) then Some (number self.now.recorded unit.0) else None) }
    {
        if self.hold.version(unit) == 0 {
            None
        } else {
            Some(self.hold.at(unit))
        }
    }
}
