//! What makes files.

ghost use Rattle.std.specs.Prelude.{◌≡◌, ◌<◌, ◌≤◌, None, length};
ghost use Rattle.xv_base.specs.Units.{max_size, units};
ghost use Rattle.xv_device.specs.Files.{IsWithin};

use crate::device::FileDevice;
use std::alloc::Global;
use std::fs::{File, OpenOptions};
use std::os::unix::fs::FileExt;
use std::{io, rt};
use xv_base::{Init, Layout, one_more};
use xv_device::{Files, MakeFault};

/// Makes files by their names, and keeps the two that are given back open.
#[derive(Drop)]
pub struct DiskFiles<R> {
    rt: R,
    pair: Option<(FileDevice, FileDevice)>,
    faults: u64,
}

impl<R> DiskFiles<R> {
    /// No file was made yet.
    pub fn new(rt: R) -> DiskFiles<R>
        ensures { result ≡ record { rt = rt; pair = None; faults = 0 } }
    {
        DiskFiles {
            rt,
            pair: None,
            faults: 0,
        }
    }
}

impl<R: rt::Files<File = File>> Files for DiskFiles<R> {
    ghost use Rattle.std.specs.Prelude.{option_map};

    type Device = FileDevice;

    ghost pair = { λ f. option_map (λ p. record { source = p.0; dest = p.1 }) f.pair };

    ghost faults = { λ f. f.faults };

    /// Makes the file, or empties the one that is there. An error of std's is a fault; the file may then be empty, or have the
    /// first contents of some units.
    fn create(
        &mut self,
        alloc: Global,
        name: &str,
        layout: &Layout,
        init: &[Init],
    ) -> Result<FileDevice, MakeFault> {
        let Ok(writes) = Vec::from_elem(alloc, 0, layout.units() as usize) else {
            return Err(MakeFault::NoMemory);
        };
        let Ok(mut unit) = Vec::from_elem(alloc, 0, layout.max_size() as usize) else {
            return Err(MakeFault::NoMemory);
        };
        match make(&self.rt, name, layout, init, &mut unit) {
            Ok(file) => Ok(FileDevice::new(file, layout, writes)),
            Err(_) => {
                self.faults = one_more(self.faults);
                Err(MakeFault::Failed)
            }
        }
    }

    fn give_back(&mut self, source: FileDevice, dest: FileDevice) {
        self.pair = Some((source, dest));
    }
}

/// Makes a file of all units, zeros at first, and lays the patterns over them from the last on, so that a unit has its first.
/// Each is laid out in `unit` before.
fn make<R: rt::Files<File = File>>(
    rt: &R,
    name: &str,
    layout: &Layout,
    init: &[Init],
    unit: &mut [u8],
) -> io::Result<File>
    requires within { IsWithin layout.now init.now }
    requires wide { max_size layout.now ≤ length unit.old }
{
    let file = OpenOptions::new()
        .read(true)
        .write(true)
        .create(true)
        .truncate(true)
        .open(rt, name)?;
    file.set_len(u64::from(layout.bytes()))?;
    for k in (0..init.len()).rev() {
        lay(&file, layout, init[k], unit)?;
    }
    Ok(file)
}

/// Lays a pattern over its unit.
fn lay(file: &File, layout: &Layout, first: Init, unit: &mut [u8]) -> io::Result<()>
    requires within { first.unit.0 < units layout.now }
    requires wide { max_size layout.now ≤ length unit.old }
    ensures { length unit.new ≡ length unit.old }
{
    let content = &mut unit[..layout.size(first.unit) as usize];
    first.pattern.fill(content);
    file.write_all_at(content, u64::from(layout.place(first.unit)))
}
