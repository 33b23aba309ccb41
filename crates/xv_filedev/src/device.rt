//! A device over a file.

ghost use Rattle.std.specs.Prelude.{◌≡◌, ◌+◌, ◌<◌, ◌≤◌, ◌^◌, length, replicate, if◌then◌else◌, is_err};
ghost use Rattle.xv_base.specs.Units.{units, size};
ghost use Rattle.xv_base.specs.Calls.{next_count};
ghost use Rattle.xv_device.specs.Device.{PatchRange, write_count};
ghost use Rattle.xv_device.specs.Told.{IsSized};
ghost use Rattle.xv_filedev.specs.Untold.{after, untold};

use std::fs::File;
use std::io;
use std::marker::Model;
use std::os::unix::fs::FileExt;
use xv_base::{Failed, Layout, UnitId, one_more};
use xv_device::UnitDevice;

/// A device whose units lie in a file, each read and written in its place. It does not tell what they hold: where a write
/// failed, its unit may hold any part of it.
#[derive(Drop)]
pub struct FileDevice {
    file: File,
    layout: Layout,
    writes: Vec<u64>,
    faults: u64,
}

impl Model for FileDevice {
    ghost use Rattle.std.specs.Prelude.{◌≡◌, length};
    ghost use Rattle.xv_base.specs.Units.{units};
    ghost use Rattle.xv_filedev.specs.Untold.{Untold};

    ghost Value = { Untold };

    ghost view = { λ d. record { shape = d.layout; writes = d.writes.items; faults = d.faults } };

    ghost invariant = { λ d. length d.writes.items ≡ units d.layout };
}

impl FileDevice {
    /// The device over a file that has the bytes of all units; `writes` has a zero for each.
    pub(crate) fn new(file: File, layout: &Layout, writes: Vec<u64>) -> FileDevice
        requires { writes.items ≡ replicate (units layout.now) 0 }
        ensures { result ≡ record { shape = layout.now; writes = writes.items; faults = 0 } }
    {
        FileDevice {
            file,
            layout: *layout,
            writes,
            faults: 0,
        }
    }

    /// Writes the bytes of a unit from an offset on.
    fn put(&mut self, unit: UnitId, offset: u32, bytes: &[u8]) -> Result<(), Failed>
        requires unit_in { unit.0 < units self.old.shape }
        requires range_in { offset + length bytes.now ≤ size self.old.shape unit.0 }
        requires few { write_count self.old.writes unit.0 < 2 ^ 63 }
        ensures after { self.new ≡ after (PatchRange unit.0 offset bytes.now) (is_err result) self.old }
        ensures sized { IsSized (untold self.old) }
    {
        let at = place(&self.layout, unit, offset);
        let written = self.file.write_all_at(bytes, at);
        self.settle(written)?;
        self.writes[unit.0 as usize] += 1;
        Ok(())
    }

    /// Counts a fault where a call of std's failed.
    fn settle(&mut self, answer: io::Result<()>) -> Result<(), Failed>
        ensures { self.new ≡ record self.old { faults = if is_err result then next_count self.old.faults else self.old.faults } }
    {
        match answer {
            Ok(()) => Ok(()),
            Err(_) => {
                self.faults = one_more(self.faults);
                Err(Failed)
            }
        }
    }
}

impl UnitDevice for FileDevice {
    ghost use Rattle.xv_filedev.specs.Untold.{untold};

    ghost told = { untold };

    ghost faults = { λ d. d.faults };

    fn read(&mut self, unit: UnitId, offset: u32, into: &mut [u8]) -> Result<(), Failed> {
        let at = place(&self.layout, unit, offset);
        let read = self.file.read_exact_at(into, at);
        self.settle(read)
    }

    fn write(&mut self, unit: UnitId, bytes: &[u8]) -> Result<(), Failed> {
        self.put(unit, 0, bytes)
    }

    fn patch(&mut self, unit: UnitId, offset: u32, bytes: &[u8]) -> Result<(), Failed> {
        self.put(unit, offset, bytes)
    }

    /// Waits until the system has all that was written on its disk.
    fn flush(&mut self) -> Result<(), Failed> {
        let synced = self.file.sync_all();
        self.settle(synced)
    }
}

/// Where in a file the bytes of a unit from an offset on stand.
fn place(layout: &Layout, unit: UnitId, offset: u32) -> u64
    requires { unit.0 < units layout.now }
{
    u64::from(layout.place(unit)) + u64::from(offset)
}
