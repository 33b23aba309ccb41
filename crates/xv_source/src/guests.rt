//! The operations of the guests, at once and out of a queue.

ghost use Rattle.std.specs.Prelude.{◌≡◌, ◌≤◌, ◌<◌, ◌+◌, ◌-◌, ◌^◌, ◌&&◌, not, nat_le, true, false, length as list_length, get_or, is_err, is_some, Some, IfSome, OnOk, if◌then◌else◌};
ghost use Rattle.xv_base.specs.Units.{is_page, units, disk_of, block_of};
ghost use Rattle.xv_device.specs.Told.{HasRoomToCount};
ghost use Rattle.xv_device.specs.Operations.{AreRead};
ghost use Rattle.xv_model.specs.Job.{Job, IsLegal};
ghost use Rattle.xv_model.specs.View.{View, is_running, is_live, is_switched, no_disk, block_side, is_behind, in_queue, front};
ghost use Rattle.xv_model.specs.Wait.{next_operation, wait};
ghost use Rattle.xv_model.specs.Guest.{writes_to};
ghost use Rattle.xv_model.specs.Contents.{front_operation};
ghost use Rattle.xv_model.specs.Step.{is_flagged};
ghost use Rattle.xv_base.specs.declared.event.Event.TheVariants.{Guest, Release};
ghost use Rattle.xv_base.specs.declared.unit.GuestId.{GuestId};
ghost use Rattle.xv_source.specs.Step.{HasFewVersions, Allows, StepsSource, MakesCall, ReadsInto, operation_call};
ghost use Rattle.xv_source.specs.Waits.{judges};
ghost use Rattle.xv_source.specs.Operations.{acted, released, stored, mirrored, queued, left, HasActed};

use crate::source::SourceHalf;
use crate::waiting::unless;
use xv_base::{
    Failed, GuestId, MOST_GUESTS, MOST_PATTERN, Note, Pattern, Side, Turn, UnitId, UnitOp, Waiting,
    Why,
};
use xv_device::{UnitDevice, operate};
use xv_filter::place;

impl<S: UnitDevice> SourceHalf<S> {
    /// A guest's next operation, where the history has this length. The migration runs, and the guest is in no queue. A write
    /// of a block that is behind is made and mirrored, or throttled while there is no room for its message; one of a block that
    /// is being copied waits in the queue of its disk; a page that is stored is sent again. What is read are the first of
    /// `into`, which has 64 bytes at least.
    pub fn guest(&mut self, guest: GuestId, op: &UnitOp, length: u32, into: &mut [u8]) -> Turn
        requires small { guest.0 < MOST_GUESTS }
        requires free { in_queue self.old.disks guest.0 ≡ false }
        requires legal { IsLegal self.old.shape op.now }
        requires short { length < 2 ^ 32 - 1 }
        requires room { MOST_PATTERN ≤ list_length into.old }
        requires few { HasFewVersions self.old }
        requires countable { HasRoomToCount self.old.told }
        ensures step { (job : Job) (v : View) → Allows job v (Guest guest) self.old → is_running v.phase ≡ true → next_operation job v guest.0 ≡ op.now → list_length v.history ≡ length → StepsSource job v (Guest guest) result self.old self.new }
        ensures call { MakesCall (operation_call self.old.shape op.now) result self.old self.new }
        ensures reads { ReadsInto op.now result into.new self.old.told }
    {
        let Some(pattern) = op.write else {
            return acted(op, self.operate(op, into));
        };
        if self.layout.is_page(op.unit) {
            return acted(op, self.write_page(op, &pattern));
        }
        let disk = self.disk_of(op.unit);
        match self.block_side(disk, op.unit) {
            Side::Behind => self.mirror(op, &pattern, length),
            Side::Inside => {
                self.join(
                    disk,
                    Waiting {
                        guest,
                        unit: op.unit,
                    },
                );
                Turn::Queued
            }
            Side::Ahead | Side::Dirty | Side::Waiting | Side::Clean => {
                acted(op, self.operate(op, into))
            }
        }
    }

    /// An operation of a guest in a migration that has ended on the source. What is read are the first of `into`, which has 64
    /// bytes at least.
    pub fn guest_alone(&mut self, op: &UnitOp, into: &mut [u8]) -> Turn
        requires legal { IsLegal self.old.shape op.now }
        requires room { MOST_PATTERN ≤ list_length into.old }
        requires countable { HasRoomToCount self.old.told }
        ensures step { (job : Job) (v : View) (guest : GuestId) → Allows job v (Guest guest) self.old → is_live v.phase ≡ false → is_switched v.phase ≡ false → next_operation job v guest.0 ≡ op.now → StepsSource job v (Guest guest) result self.old self.new }
        ensures call { MakesCall (operation_call self.old.shape op.now) result self.old self.new }
        ensures reads { ReadsInto op.now result into.new self.old.told }
    {
        let made = self.operate(op, into);
        acted(op, made)
    }

    /// The write of the guest that waits first for a disk, where the history has this length. The migration runs. The write is
    /// made and mirrored once its block is no longer being copied.
    pub fn release(&mut self, disk: u8, op: &UnitOp, length: u32) -> Turn
        requires disk_in { disk < list_length self.old.disks }
        requires some { 0 < list_length (get_or self.old.disks disk no_disk).queue }
        requires front { writes_to op.now (front (get_or self.old.disks disk no_disk)).unit.0 ≡ true }
        requires block { is_page self.old.shape op.now.unit.0 ≡ false }
        requires legal { IsLegal self.old.shape op.now }
        requires short { length < 2 ^ 32 - 1 }
        requires few { HasFewVersions self.old }
        requires countable { HasRoomToCount self.old.told }
        ensures step { (job : Job) (v : View) → Allows job v (Release disk) self.old → is_running v.phase ≡ true → front_operation job v disk ≡ op.now → list_length v.history ≡ length → StepsSource job v (Release disk) result self.old self.new }
        ensures call { MakesCall (operation_call self.old.shape op.now) result self.old self.new }
    {
        if let Some(why) = self.release_waits(disk) {
            return Turn::Wait(why);
        }
        self.release_mirrored(disk, op, length)
    }

    /// The write of the guest that waits first for a disk, in a migration that has ended on the source.
    pub fn release_alone(&mut self, disk: u8, op: &UnitOp) -> Turn
        requires disk_in { disk < list_length self.old.disks }
        requires some { 0 < list_length (get_or self.old.disks disk no_disk).queue }
        requires front { writes_to op.now (front (get_or self.old.disks disk no_disk)).unit.0 ≡ true }
        requires block { is_page self.old.shape op.now.unit.0 ≡ false }
        requires legal { IsLegal self.old.shape op.now }
        requires countable { HasRoomToCount self.old.told }
        ensures step { (job : Job) (v : View) → Allows job v (Release disk) self.old → is_live v.phase ≡ false → is_switched v.phase ≡ false → front_operation job v disk ≡ op.now → StepsSource job v (Release disk) result self.old self.new }
        ensures call { MakesCall (operation_call self.old.shape op.now) result self.old self.new }
    {
        self.release_unmirrored(disk, op)
    }

    /// The write that is first in the queue of a disk, which leaves it, with its message where it went well.
    fn release_mirrored(&mut self, disk: u8, op: &UnitOp, length: u32) -> Turn
        requires disk_in { disk < list_length self.old.disks }
        requires some { 0 < list_length (get_or self.old.disks disk no_disk).queue }
        requires front { writes_to op.now (front (get_or self.old.disks disk no_disk)).unit.0 ≡ true }
        requires block { is_page self.old.shape op.now.unit.0 ≡ false }
        requires legal { IsLegal self.old.shape op.now }
        requires room { list_length self.old.messages < self.old.config.outbox }
        requires short { length < 2 ^ 32 - 1 }
        requires few { HasFewVersions self.old }
        requires countable { HasRoomToCount self.old.told }
        ensures answer { result ≡ released (front (get_or self.old.disks disk no_disk)) (is_flagged result) }
        ensures acted { HasActed op.now (is_flagged result) self.old (left disk (if is_flagged result then self.old else mirrored op.now (length + 1) self.old)) self.new }
    {
        let Some(pattern) = op.write else {
            unreachable!()
        };
        let made = self.write_mirrored(op, &pattern, length);
        released(self.leave(disk), made)
    }

    /// The write that is first in the queue of a disk, which leaves it.
    fn release_unmirrored(&mut self, disk: u8, op: &UnitOp) -> Turn
        requires disk_in { disk < list_length self.old.disks }
        requires some { 0 < list_length (get_or self.old.disks disk no_disk).queue }
        requires front { writes_to op.now (front (get_or self.old.disks disk no_disk)).unit.0 ≡ true }
        requires legal { IsLegal self.old.shape op.now }
        requires countable { HasRoomToCount self.old.told }
        ensures answer { result ≡ released (front (get_or self.old.disks disk no_disk)) (is_flagged result) }
        ensures acted { HasActed op.now (is_flagged result) self.old (left disk self.old) self.new }
    {
        let Some(pattern) = op.write else {
            unreachable!()
        };
        let made = self.write(op, &pattern);
        released(self.leave(disk), made)
    }

    /// The wait that `guest` would answer now. The migration runs, and the guest's next operation is this.
    pub fn guest_waits(&self, guest: GuestId, op: &UnitOp) -> Option<Why>
        requires { op.now.unit.0 < units self.now.shape }
        ensures exactly { (job : Job) (v : View) → Allows job v (Guest guest) self.now → is_running v.phase ≡ true → next_operation job v guest.0 ≡ op.now → result ≡ wait job v (Guest guest) false }
        ensures own { IfSome result (λ why. judges (Guest guest) why ≡ true) }
    {
        unless(self.is_throttled(op), Why::Throttled, None)
    }

    /// Whether an operation is a write of a block that is behind, with no room for its message.
    fn is_throttled(&self, op: &UnitOp) -> bool
        requires { op.now.unit.0 < units self.now.shape }
        ensures { result ≡ (is_some op.now.write && (not (is_page self.now.shape op.now.unit.0) && (is_behind (get_or self.now.disks (disk_of self.now.shape op.now.unit.0) no_disk) (block_of self.now.shape op.now.unit.0) && nat_le self.now.config.outbox (list_length self.now.messages)))) }
    {
        op.write.is_some()
            && !self.layout.is_page(op.unit)
            && self.is_behind(op.unit)
            && self.is_full()
    }

    /// Whether a block is behind the copy of its disk.
    fn is_behind(&self, unit: UnitId) -> bool
        requires unit_in { unit.0 < units self.now.shape }
        requires block { is_page self.now.shape unit.0 ≡ false }
        ensures { result ≡ is_behind (get_or self.now.disks (disk_of self.now.shape unit.0) no_disk) (block_of self.now.shape unit.0) }
    {
        let copy = self.copy(self.disk_of(unit));
        self.layout.block_of(unit) < copy.region.cursor()
    }

    /// A write of a block that is behind, with its message.
    fn mirror(&mut self, op: &UnitOp, pattern: &Pattern, length: u32) -> Turn
        requires legal { IsLegal self.old.shape op.now }
        requires write { op.now.write ≡ Some pattern.now }
        requires block { is_page self.old.shape op.now.unit.0 ≡ false }
        requires short { length < 2 ^ 32 - 1 }
        requires few { HasFewVersions self.old }
        requires countable { HasRoomToCount self.old.told }
        ensures call { MakesCall (operation_call self.old.shape op.now) result self.old self.new }
        ensures throttled { self.old.config.outbox ≤ list_length self.old.messages → (result ≡ Turn.Wait Why.Throttled) × (self.new ≡ self.old) }
        ensures done { list_length self.old.messages < self.old.config.outbox → (result ≡ acted op.now (is_flagged result)) × HasActed op.now (is_flagged result) self.old (if is_flagged result then self.old else mirrored op.now (length + 1) self.old) self.new }
    {
        if self.is_full() {
            return Turn::Wait(Why::Throttled);
        }
        acted(op, self.write_mirrored(op, pattern, length))
    }

    /// Makes the call of an operation, and nothing else.
    #[tactic(auto, using(crate::proofs::Guesting::len_fits))]
    fn operate(&mut self, op: &UnitOp, into: &mut [u8]) -> Result<(), Failed>
        requires legal { IsLegal self.old.shape op.now }
        requires room { MOST_PATTERN ≤ list_length into.old }
        requires countable { HasRoomToCount self.old.told }
        ensures acted { HasActed op.now (is_err result) self.old self.old self.new }
        ensures gives { OnOk result (AreRead op.now into.new self.old.told) }
    {
        operate(&mut self.device, &self.layout, op, &mut self.unit, into)
    }

    /// Makes the call of a write, and nothing else.
    #[tactic(auto, using(crate::proofs::Guesting::len_fits))]
    fn write(&mut self, op: &UnitOp, pattern: &Pattern) -> Result<(), Failed>
        requires legal { IsLegal self.old.shape op.now }
        requires write { op.now.write ≡ Some pattern.now }
        requires countable { HasRoomToCount self.old.told }
        ensures { HasActed op.now (is_err result) self.old self.old self.new }
    {
        operate(&mut self.device, &self.layout, op, &mut self.unit, &mut [])
    }

    /// Makes the call of a write, and a message of what was written; there is room for it.
    #[tactic(auto, using(crate::proofs::Guesting::len_fits, crate::proofs::Guesting::length_repeated, crate::proofs::Guesting::whole_block))]
    fn write_mirrored(&mut self, op: &UnitOp, pattern: &Pattern, length: u32) -> Result<(), Failed>
        requires legal { IsLegal self.old.shape op.now }
        requires write { op.now.write ≡ Some pattern.now }
        requires block { is_page self.old.shape op.now.unit.0 ≡ false }
        requires room { list_length self.old.messages < self.old.config.outbox }
        requires short { length < 2 ^ 32 - 1 }
        requires few { HasFewVersions self.old }
        requires countable { HasRoomToCount self.old.told }
        ensures { HasActed op.now (is_err result) self.old (if is_err result then self.old else mirrored op.now (length + 1) self.old) self.new }
    {
        match operate(&mut self.device, &self.layout, op, &mut self.unit, &mut []) {
            Ok(()) => {
                let bytes = &self.unit[..op.len as usize];
                let _ = self.outbox.issue(op.unit, length + 1, bytes);
                Ok(())
            }
            Err(error) => Err(error),
        }
    }

    /// The disk of a block.
    fn disk_of(&self, unit: UnitId) -> u8
        requires unit_in { unit.0 < units self.now.shape }
        requires block { is_page self.now.shape unit.0 ≡ false }
        ensures exactly { result ≡ disk_of self.now.shape unit.0 }
        ensures disk_in { result < list_length self.now.disks }
    {
        self.layout.disk_of(unit)
    }

    /// Where a block stands against the copy of a disk.
    fn block_side(&self, disk: u8, unit: UnitId) -> Side
        requires disk_in { disk < list_length self.now.disks }
        requires unit_in { unit.0 < units self.now.shape }
        requires block { is_page self.now.shape unit.0 ≡ false }
        ensures { result ≡ block_side (get_or self.now.disks disk no_disk) (block_of self.now.shape unit.0) }
    {
        let region = &self.copy(disk).region;
        place(region.cursor(), region.length(), self.layout.block_of(unit))
    }

    /// Writes over a page, which is then sent again, unless it is still to be sent in this round.
    fn write_page(&mut self, op: &UnitOp, pattern: &Pattern) -> Result<(), Failed>
        requires legal { IsLegal self.old.shape op.now }
        requires write { op.now.write ≡ Some pattern.now }
        requires page { is_page self.old.shape op.now.unit.0 ≡ true }
        requires countable { HasRoomToCount self.old.told }
        ensures { HasActed op.now (is_err result) self.old (if is_err result then self.old else stored op.now.unit.0 self.old) self.new }
    {
        match self.write(op, pattern) {
            Ok(()) => {
                self.mark_dirty(op.unit);
                Ok(())
            }
            Err(Failed) => Err(Failed),
        }
    }

    /// Has a page sent again, unless it is still to be sent in this round.
    fn mark_dirty(&mut self, page: UnitId)
        requires { is_page self.old.shape page.0 ≡ true }
        ensures { self.new ≡ stored page.0 self.old }
    {
        if !self.to_send.contains(page.0) {
            self.dirty.insert(page.0);
        }
    }

    /// Puts a guest's write of a block at the end of the queue of a disk.
    fn join(&mut self, disk: u8, waiting: Waiting)
        requires disk_in { disk < list_length self.old.disks }
        requires unit_in { waiting.unit.0 < units self.old.shape }
        requires block { is_page self.old.shape waiting.unit.0 ≡ false }
        requires small { waiting.guest.0 < MOST_GUESTS }
        requires free { in_queue self.old.disks waiting.guest.0 ≡ false }
        ensures { self.new ≡ queued disk waiting.guest.0 waiting.unit.0 self.old }
    {
        self.disks[disk as usize].queue.join(waiting);
    }

    /// Takes the first write out of the queue of a disk.
    fn leave(&mut self, disk: u8) -> Waiting
        requires disk_in { disk < list_length self.old.disks }
        requires some { 0 < list_length (get_or self.old.disks disk no_disk).queue }
        ensures first { result ≡ front (get_or self.old.disks disk no_disk) }
        ensures rest { self.new ≡ left disk self.old }
    {
        self.disks[disk as usize].queue.leave()
    }
}

/// The answer of an operation whose call was made.
fn acted(op: &UnitOp, made: Result<(), Failed>) -> Turn
    ensures { result ≡ acted op.now (is_err made) }
{
    match made {
        Ok(()) => Turn::Done(Note {
            a: if op.write.is_some() { 0 } else { op.len },
            b: 0,
        }),
        Err(Failed) => Turn::Faulted,
    }
}

/// The answer of a write that has left its queue, whose call was made.
fn released(waiting: Waiting, made: Result<(), Failed>) -> Turn
    ensures { result ≡ released waiting (is_err made) }
{
    match made {
        Ok(()) => Turn::Done(Note {
            a: u32::from(waiting.guest.0),
            b: 0,
        }),
        Err(Failed) => Turn::Faulted,
    }
}
