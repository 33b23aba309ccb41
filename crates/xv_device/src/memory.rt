//! A device in memory.

ghost use Rattle.std.specs.Prelude.{◌≡◌, ℕ, false, ◌+◌, ◌<◌, ◌≤◌, ◌^◌, [], length, replicate, IfOk, OnOk, is_err, get_or};
ghost use Rattle.xv_base.specs.Units.{units, size, all_bytes};
ghost use Rattle.xv_base.specs.Layout.{IsGood};
ghost use Rattle.xv_base.specs.Calls.{fails_next};
ghost use Rattle.xv_device.specs.Device.{ReadRange, PatchRange, WriteUnit, FlushAll, content, write_count, range_of};
ghost use Rattle.xv_device.specs.Pieces.{pieces};
ghost use Rattle.xv_device.specs.Memory.{no_init, first_contents, fresh, after, told};
ghost use Rattle.xv_device.specs.Told.{IsSized};

use crate::bytes::{copy_in, copy_out, fill_in, part, zeros};
use crate::device::UnitDevice;
use crate::plan::DevicePlan;
use std::alloc::Global;
use std::marker::Model;
use xv_base::{Failed, Init, Layout, NoMemory, PlannedCalls, UnitId};

/// A device in memory, which tells its contents, its plan and what it counts.
#[derive(Drop)]
pub struct MemDevice {
    layout: Layout,
    /// The bytes of all units, one unit after another.
    bytes: Vec<u8>,
    writes: Vec<u64>,
    reading: PlannedCalls,
    writing: PlannedCalls,
    flushing: PlannedCalls,
}

impl Model for MemDevice {
    ghost use Rattle.xv_device.specs.Memory.{Device, IsWhole};
    ghost use Rattle.xv_device.specs.Pieces.{pieces};

    ghost Value = { Device };

    ghost view = { λ d. record {
      shape = d.layout;
      contents = pieces d.layout d.bytes.items;
      writes = d.writes.items;
      reading = d.reading;
      writing = d.writing;
      flushing = d.flushing;
    } };

    ghost invariant = { λ d. IsWhole d.layout d.bytes.items d.writes.items };
}

impl MemDevice {
    /// A device of this layout. A unit begins with the first pattern that `init` has for it, else as zeros; no
    /// call was made yet. A call fails exactly where the plan has its number.
    pub fn new(
        alloc: Global,
        layout: &Layout,
        init: &[Init],
        plan: DevicePlan,
    ) -> Result<MemDevice, NoMemory>
        requires { (i : ℕ) → i < length init.now → (get_or init.now i no_init).unit.0 < units layout.now }
        ensures { IfOk result (λ device. device ≡ fresh layout.now init.now plan) }
    {
        let mut bytes = zeros(alloc, layout.bytes() as usize)?;
        let Ok(writes) = Vec::from_elem(alloc, 0, layout.units() as usize) else {
            return Err(NoMemory);
        };
        fill_units(layout, init, &mut bytes);
        let DevicePlan {
            reads,
            writes: patches,
            flushes,
        } = plan;
        Ok(MemDevice {
            layout: *layout,
            bytes,
            writes,
            reading: PlannedCalls::of(reads),
            writing: PlannedCalls::of(patches),
            flushing: PlannedCalls::of(flushes),
        })
    }

    /// Reads the bytes of a unit from an offset on, as many as `into` holds.
    pub fn read(&mut self, unit: UnitId, offset: u32, into: &mut [u8]) -> Result<(), Failed>
        requires unit_in { unit.0 < units self.old.shape }
        requires range_in { offset + length into.old ≤ size self.old.shape unit.0 }
        ensures fails { is_err result ≡ fails_next self.old.reading }
        ensures gives { OnOk result (into.new ≡ range_of unit.0 offset (length into.old) self.old.contents) }
        ensures after { self.new ≡ after (ReadRange unit.0 offset (length into.old)) (is_err result) self.old }
        ensures sized { IsSized (told self.old) }
        ensures sure { self.old.reading.fails ≡ [] → is_err result ≡ false }
    {
        self.reading.begin()?;
        let at = self.layout.place(unit) + offset;
        copy_out(&self.bytes, at as usize, into);
        Ok(())
    }

    /// Writes a whole unit.
    pub fn write(&mut self, unit: UnitId, bytes: &[u8]) -> Result<(), Failed>
        requires unit_in { unit.0 < units self.old.shape }
        requires whole { length bytes.now ≡ size self.old.shape unit.0 }
        requires few { write_count self.old.writes unit.0 < 2 ^ 63 }
        ensures fails { is_err result ≡ fails_next self.old.writing }
        ensures after { self.new ≡ after (WriteUnit unit.0 bytes.now) (is_err result) self.old }
        ensures sized { IsSized (told self.old) }
        ensures sure { self.old.writing.fails ≡ [] → is_err result ≡ false }
    {
        self.patch(unit, 0, bytes)
    }

    /// Writes the bytes of a unit from an offset on.
    pub fn patch(&mut self, unit: UnitId, offset: u32, bytes: &[u8]) -> Result<(), Failed>
        requires unit_in { unit.0 < units self.old.shape }
        requires range_in { offset + length bytes.now ≤ size self.old.shape unit.0 }
        requires few { write_count self.old.writes unit.0 < 2 ^ 63 }
        ensures fails { is_err result ≡ fails_next self.old.writing }
        ensures after { self.new ≡ after (PatchRange unit.0 offset bytes.now) (is_err result) self.old }
        ensures sized { IsSized (told self.old) }
        ensures sure { self.old.writing.fails ≡ [] → is_err result ≡ false }
    {
        self.writing.begin()?;
        let at = self.layout.place(unit) + offset;
        copy_in(&mut self.bytes, at as usize, bytes);
        self.writes[unit.0 as usize] += 1;
        Ok(())
    }

    /// Makes sure of what was written, which in memory is nothing to do.
    pub fn flush(&mut self) -> Result<(), Failed>
        ensures fails { is_err result ≡ fails_next self.old.flushing }
        ensures after { self.new ≡ after FlushAll (is_err result) self.old }
        ensures sized { IsSized (told self.old) }
        ensures sure { self.old.flushing.fails ≡ [] → is_err result ≡ false }
    {
        self.flushing.begin()
    }

    /// The content of a unit; this is no call that the plan numbers.
    pub fn content(&self, unit: UnitId) -> &[u8]
        requires { unit.0 < units self.now.shape }
        ensures exactly { result.now ≡ content self.now.contents unit.0 }
        ensures full { length result.now ≡ size self.now.shape unit.0 }
    {
        let at = self.layout.place(unit);
        part(&self.bytes, at as usize, self.layout.size(unit) as usize)
    }

    /// The layout.
    pub fn layout(&self) -> &Layout
        ensures exactly { result.now ≡ self.now.shape }
        ensures good { IsGood self.now.shape }
        ensures sized { IsSized (told self.now) }
    {
        &self.layout
    }

    /// How many writes and patches of a unit have succeeded.
    pub fn written(&self, unit: UnitId) -> u64
        requires { unit.0 < units self.now.shape }
        ensures { result ≡ write_count self.now.writes unit.0 }
    {
        self.writes[unit.0 as usize]
    }
}

impl UnitDevice for MemDevice {
    ghost use Rattle.xv_device.specs.Memory.{told, faults};

    ghost told = { told };

    ghost faults = { faults };

    fn read(&mut self, unit: UnitId, offset: u32, into: &mut [u8]) -> Result<(), Failed> {
        self.read(unit, offset, into)
    }

    fn write(&mut self, unit: UnitId, bytes: &[u8]) -> Result<(), Failed> {
        self.write(unit, bytes)
    }

    fn patch(&mut self, unit: UnitId, offset: u32, bytes: &[u8]) -> Result<(), Failed> {
        self.patch(unit, offset, bytes)
    }

    fn flush(&mut self) -> Result<(), Failed> {
        self.flush()
    }
}

/// Lays the patterns over units of zeros, from the last on, so that a unit has its first.
fn fill_units(layout: &Layout, init: &[Init], bytes: &mut [u8])
    requires good { IsGood layout.now }
    requires zeros { bytes.old ≡ replicate (all_bytes layout.now) 0 }
    requires in_range { (i : ℕ) → i < length init.now → (get_or init.now i no_init).unit.0 < units layout.now }
    ensures { pieces layout.now bytes.new ≡ first_contents layout.now init.now }
{
    for k in (0..init.len()).rev() {
        let Init { unit, pattern } = init[k];
        let at = layout.place(unit) as usize;
        fill_in(bytes, at, layout.size(unit) as usize, &pattern);
    }
}
