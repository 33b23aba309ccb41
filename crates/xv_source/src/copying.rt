//! The copy of a disk, a region of blocks at a time.

ghost use Rattle.std.specs.Prelude.{◌≡◌, ℕ, ◌<◌, ◌≤◌, ◌+◌, ◌-◌, ◌^◌, [], ◌∷◌, ◌++◌, None, true, false, min, length, length as list_length, get_or, slice_set, is_err, OnOk, OnErr, IfSome, EachIndex};
ghost use Rattle.xv_base.specs.Units.{units, blocks, size, block_size};
ghost use Rattle.xv_device.specs.Device.{ReadRange, range_of};
ghost use Rattle.xv_device.specs.Told.{HasRoomToCount, MayCall, CallMade};
ghost use Rattle.xv_region.specs.Copying.{block, is_ready};
ghost use Rattle.xv_model.specs.Job.{Job};
ghost use Rattle.xv_model.specs.View.{View, Phase, no_disk, number};
ghost use Rattle.xv_model.specs.Effect.{given_up};
ghost use Rattle.xv_model.specs.Contents.{Contents, give_up_moves};
ghost use Rattle.xv_source.specs.Kept.{no_copy};
ghost use Rattle.xv_source.specs.Half.{IsSourceOf, HasSourceBytes, next_unit};
ghost use Rattle.xv_source.specs.Making.{made_blocks};
ghost use Rattle.xv_source.specs.Regions.{ReadsBlock, IsGivenUp, sent_off};
ghost use Rattle.xv_source.specs.Step.{Allows, StepsSource, HasFewVersions, MakesCall, MakesNoCall, unit_read};
ghost use Rattle.xv_source.specs.Waits.{own_wait};
ghost use Rattle.xv_base.specs.declared.event.Event.TheVariants.{Begin, Read, Advance};

use crate::disk::DiskCopy;
use crate::source::SourceHalf;
use xv_base::{Cause, Failed, Note, Turn, UnitId};
use xv_device::UnitDevice;
use xv_outbox::Outbox;
use xv_region::Region;

impl<S: UnitDevice> SourceHalf<S> {
    /// Begins a region on a disk, while the migration runs. It waits where the disk is copied or has a region, and where
    /// a write waits for it.
    pub fn begin(&mut self, disk: u8) -> Turn
        requires { disk < length self.old.disks }
        ensures step { (job : Job) (v : View) → Allows job v (Begin disk) self.old → StepsSource job v (Begin disk) result self.old self.new }
        ensures call { MakesNoCall self.old self.new }
    {
        if let Some(why) = self.begin_waits(disk) {
            return Turn::Wait(why);
        }
        let length = self.begin_region(disk);
        Turn::Done(Note { a: length, b: 0 })
    }

    /// Begins a region of the blocks that are left, or of as many as a region may have.
    fn begin_region(&mut self, disk: u8) -> u32
        requires disk_in { disk < length self.old.disks }
        requires goes_on { own_wait false self.old (Begin disk) ≡ None }
        ensures length { result ≡ min self.old.config.region (blocks self.old.shape.disks disk - (get_or self.old.disks disk no_disk).cursor) }
        ensures begun { self.new ≡ record self.old { disks = slice_set self.old.disks disk (record (get_or self.old.disks disk no_disk) { region = result; got = 0 }); regions = slice_set self.old.regions disk [] } }
    {
        let blocks = self.layout.blocks(disk);
        let copy = &mut self.disks[disk as usize];
        copy.region.begin(blocks)
    }

    /// Reads the next block of a disk's region, while the migration runs. It waits where there is no region, or all of it
    /// is read. Failed: the device's read failed, and no block more is read.
    pub fn read(&mut self, disk: u8) -> Turn
        requires disk_in { disk < length self.old.disks }
        requires countable { HasRoomToCount self.old.told }
        ensures step { (job : Job) (v : View) → Allows job v (Read disk) self.old → StepsSource job v (Read disk) result self.old self.new }
        ensures call { MakesCall (unit_read self.old.shape (next_unit self.old disk)) result self.old self.new }
    {
        if let Some(why) = self.read_waits(disk) {
            return Turn::Wait(why);
        }
        let unit = self.next_block(disk);
        match self.read_block(disk, unit) {
            Ok(()) => Turn::Done(Note { a: unit.0, b: 0 }),
            Err(Failed) => Turn::Failed(Cause::SourceRead),
        }
    }

    /// The unit of the next block of a disk's region.
    fn next_block(&self, disk: u8) -> UnitId
        requires disk_in { disk < length self.now.disks }
        requires goes_on { own_wait false self.now (Read disk) ≡ None }
        ensures exactly { result.0 ≡ next_unit self.now disk }
        ensures in_range { result.0 < units self.now.shape }
        ensures size { size self.now.shape result.0 ≡ block_size self.now.shape.disks disk }
    {
        let copy = self.copy(disk);
        self.layout
            .unit_of_block(disk, copy.region.cursor() + copy.region.read())
    }

    /// Reads the next block of a disk's region from its unit.
    fn read_block(&mut self, disk: u8, unit: UnitId) -> Result<(), Failed>
        requires disk_in { disk < length self.old.disks }
        requires goes_on { own_wait false self.old (Read disk) ≡ None }
        requires unit_is { unit.0 ≡ next_unit self.old disk }
        requires unit_in { unit.0 < units self.old.shape }
        requires size { size self.old.shape unit.0 ≡ block_size self.old.shape.disks disk }
        requires countable { HasRoomToCount self.old.told }
        ensures made { CallMade (unit_read self.old.shape unit.0) (is_err result) self.old.told self.new.told self.old.faults self.new.faults }
        ensures read { OnOk result (ReadsBlock self.old disk self.new) }
        ensures failed { OnErr result (self.new ≡ record self.old { told = self.new.told; faults = self.new.faults }) }
    {
        let copy = &mut self.disks[disk as usize];
        read_next(&mut copy.region, &mut self.device, unit)
    }

    /// Makes the messages of a region that is read, whose blocks are then behind, while the migration runs; `length` is
    /// that of the history. It waits where there is no region or a block of it is not read, and where there is no room
    /// for all the messages.
    pub fn advance(&mut self, disk: u8, length: u32) -> Turn
        requires disk_in { disk < list_length self.old.disks }
        requires few { HasFewVersions self.old }
        ensures step { (job : Job) (v : View) → Allows job v (Advance disk) self.old → list_length v.history ≡ length → StepsSource job v (Advance disk) result self.old self.new }
        ensures call { MakesNoCall self.old self.new }
    {
        if let Some(why) = self.advance_waits(disk) {
            return Turn::Wait(why);
        }
        let count = self.send_off(disk, length);
        Turn::Done(Note { a: count, b: 0 })
    }

    /// Makes the messages of a region that is read, and moves the cursor behind it.
    fn send_off(&mut self, disk: u8, at: u32) -> u32
        requires disk_in { disk < list_length self.old.disks }
        requires few { HasFewVersions self.old }
        requires goes_on { own_wait false self.old (Advance disk) ≡ None }
        ensures count { result ≡ (get_or self.old.disks disk no_disk).region }
        ensures sent { self.new ≡ sent_off self.old disk at }
    {
        let copy = &mut self.disks[disk as usize];
        let count = copy.region.read();
        let first = self.layout.unit_of_block(disk, copy.region.cursor());
        pass(&mut copy.region, &mut self.outbox, first, at);
        count
    }

    /// Gives every region up: the migration has ended.
    pub fn abandon(&mut self)
        ensures part { (job : Job) (v : View) (phase : Phase) → IsSourceOf job v self.old → IsSourceOf job (given_up v phase) self.new }
        ensures bytes { (c : Contents) → HasSourceBytes c self.old → HasSourceBytes (give_up_moves c) self.new }
        ensures call { MakesNoCall self.old self.new }
    {
        give_up(&mut self.disks);
    }
}

/// Gives up the regions of these disks.
fn give_up(disks: &mut [DiskCopy])
    ensures { EachIndex disks.old (λ d. IsGivenUp (get_or disks.old d no_copy) (get_or disks.new d no_copy)) }
{
    for copy in disks.iter_mut() {
        copy.region.abandon();
    }
}

/// Makes a message of each block of a region, all of which is read, and moves the cursor behind it.
fn pass(region: &mut Region, outbox: &mut Outbox, first: UnitId, at: u32)
    requires ready { is_ready region.old ≡ true }
    requires small { units outbox.old.shape < 2 ^ 32 }
    requires units_in { first.0 + list_length region.old.read ≤ units outbox.old.shape }
    requires sizes { (i : ℕ) → i < list_length region.old.read → size outbox.old.shape (first.0 + i) ≡ region.old.size }
    requires room { list_length outbox.old.messages + list_length region.old.read ≤ outbox.old.limit }
    requires few { (unit : ℕ) → number outbox.old.issued unit < 2 ^ 32 - 1 }
    ensures made { outbox.new ≡ made_blocks outbox.old first.0 at region.old.read (list_length region.old.read) }
    ensures behind { region.new ≡ record region.old { cursor = region.old.cursor + region.old.region; region = 0; read = []; next = region.new.next } }
{
    issue_blocks(outbox, region, first, at);
    region.advance();
}

/// Makes a message of each block read of a region, the units of which follow one another.
#[tactic(auto, using(crate::proofs::MadeBlocks::makes))]
fn issue_blocks(outbox: &mut Outbox, region: &Region, first: UnitId, at: u32)
    requires small { units outbox.old.shape < 2 ^ 32 }
    requires units_in { first.0 + list_length region.now.read ≤ units outbox.old.shape }
    requires sizes { (i : ℕ) → i < list_length region.now.read → size outbox.old.shape (first.0 + i) ≡ region.now.size }
    requires room { list_length outbox.old.messages + list_length region.now.read ≤ outbox.old.limit }
    requires few { (unit : ℕ) → number outbox.old.issued unit < 2 ^ 32 - 1 }
    ensures { outbox.new ≡ made_blocks outbox.old first.0 at region.now.read (list_length region.now.read) }
{
    for i in 0..region.read() {
        outbox.issue(UnitId(first.0 + i), at, region.copy(i));
    }
}

/// Reads a region's next block from its unit.
fn read_next<S: UnitDevice>(region: &mut Region, device: &mut S, unit: UnitId) -> Result<(), Failed>
    requires left { length region.old.read < region.old.region }
    requires call { MayCall (ReadRange unit.0 0 region.old.size) (S.told device.old) }
    ensures made { CallMade (ReadRange unit.0 0 region.old.size) (is_err result) (S.told device.old) (S.told device.new) (S.faults device.old) (S.faults device.new) }
    ensures read { OnOk result (region.new ≡ record region.old { read = region.old.read ++ block region.new (length region.old.read) ∷ []; next = region.new.next }) }
    ensures gives { OnOk result (IfSome (S.told device.old).contents (λ contents. block region.new (length region.old.read) ≡ range_of unit.0 0 region.old.size contents)) }
    ensures failed { OnErr result (region.new ≡ record region.old { next = region.new.next }) }
{
    match device.read(unit, 0, region.buffer()) {
        Ok(()) => {
            region.put_read();
            Ok(())
        }
        Err(Failed) => Err(Failed),
    }
}
