//! Devices in memory that are made by their names.

ghost use Rattle.std.specs.Prelude.{◌≡◌, ◌↔◌, [], None, true, IfOk, IsErrOf, option_map};
ghost use Rattle.xv_base.specs.Calls.{after_call, fails_next, planned};
ghost use Rattle.xv_device.specs.Files.{IsWithin, IsMade};
ghost use Rattle.xv_device.specs.Memory.{told, faults};

use crate::files::{Files, MakeFault};
use crate::memory::MemDevice;
use crate::plan::DevicePlan;
use std::alloc::Global;
use std::marker::Model;
use xv_base::{Failed, Init, Layout, NoMemory, PlannedCalls};

/// Makes devices in memory without planned faults, whatever their names.
#[derive(Drop)]
pub struct MemFiles {
    making: PlannedCalls,
    pair: Option<(MemDevice, MemDevice)>,
}

impl Model for MemFiles {
    ghost use Rattle.std.specs.Prelude.{option_map};
    ghost use Rattle.xv_device.specs.MemFiles.{Made};

    ghost Value = { Made };

    ghost view = { λ f. record { making = f.making; pair = option_map (λ p. record { source = p.0; dest = p.1 }) f.pair } };
}

impl MemFiles {
    /// Files of which the calls of `create` of the numbers in `fails`, from 1, fail. No pair was given back.
    pub fn new(alloc: Global, fails: &[u32]) -> Result<MemFiles, NoMemory>
        ensures { IfOk result (λ files. files ≡ record { making = planned fails.now; pair = None }) }
    {
        Ok(MemFiles {
            making: PlannedCalls::new(alloc, fails)?,
            pair: None,
        })
    }

    /// The pair that was given back, the source first.
    pub fn pair(&self) -> Option<(&MemDevice, &MemDevice)>
        ensures { option_map (λ p. record { source = p.0.now; dest = p.1.now }) result ≡ self.now.pair }
    {
        let (source, dest) = self.pair.as_ref()?;
        Some((source, dest))
    }
}

impl Files for MemFiles {
    type Device = MemDevice;

    ghost pair = { λ f. f.pair };

    ghost faults = { λ f. f.making.faults };

    /// Fails exactly where the plan has the call's number.
    fn create(
        &mut self,
        alloc: Global,
        _name: &str,
        layout: &Layout,
        init: &[Init],
    ) -> Result<MemDevice, MakeFault>
        requires { IsWithin layout.now init.now }
        ensures fails { IsErrOf result MakeFault.Failed ↔ (fails_next self.old.making ≡ true) }
        ensures made { IfOk result (λ device. IsMade layout.now init.now (told device) (faults device)) }
        ensures after { self.new ≡ record self.old { making = after_call (fails_next self.old.making) self.old.making } }
    {
        let Ok(()) = self.making.begin() else {
            return Err(MakeFault::Failed);
        };
        match steady(alloc, layout, init) {
            Ok(device) => Ok(device),
            Err(NoMemory) => Err(MakeFault::NoMemory),
        }
    }

    fn give_back(&mut self, source: MemDevice, dest: MemDevice) {
        self.pair = Some((source, dest));
    }
}

/// A device in memory of which no call fails.
/// Errors: want of memory.
#[tactic(auto, using(crate::proofs::FreshlyMade::fresh_made))]
fn steady(alloc: Global, layout: &Layout, init: &[Init]) -> Result<MemDevice, NoMemory>
    requires { IsWithin layout.now init.now }
    ensures { IfOk result (λ device. IsMade layout.now init.now (told device) (faults device)) }
{
    let device = MemDevice::new(alloc, layout, init, no_plan(alloc))?;
    // That each unit's content has the unit's size is told with the layout.
    let _ = device.layout();
    Ok(device)
}

/// A plan by which no call fails.
fn no_plan(alloc: Global) -> DevicePlan
    ensures { result ≡ record { reads = []; writes = []; flushes = [] } }
{
    DevicePlan {
        reads: Vec::new(alloc),
        writes: Vec::new(alloc),
        flushes: Vec::new(alloc),
    }
}
