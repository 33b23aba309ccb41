//! A device that tells neither what it holds nor what it counts, and of whose calls some fail at random.

ghost use Rattle.std.specs.Prelude.{◌≡◌};
ghost use Rattle.xv_base.specs.Calls.{next_count};
ghost use Rattle.xv_device.specs.Told.{IsSized};
ghost use Rattle.xv_silent.specs.Silent.{quiet, next_state, fails_at};

use std::marker::Model;
use xv_base::{Failed, UnitId, one_more};
use xv_device::{MemDevice, UnitDevice};

/// A device in memory behind a face that tells nothing.
#[derive(Drop)]
pub struct Silent {
    device: MemDevice,
    /// Of how many of 256 calls each fails.
    rate: u32,
    /// The number that the generator gave last.
    state: u32,
    faults: u64,
}

impl Model for Silent {
    ghost use Rattle.xv_silent.specs.Silent.{Quiet};

    ghost Value = { Quiet };

    ghost view = { λ s. record { device = s.device; rate = s.rate; state = s.state; faults = s.faults } };
}

impl Silent {
    /// A device that holds what this one does. Of 256 calls about so many fail, whichever a generator picks that begins
    /// with this number.
    pub fn new(device: MemDevice, rate: u32, seed: u32) -> Silent
        ensures exactly { result ≡ record { device = device; rate = rate; state = seed; faults = 0 } }
        ensures sized { IsSized (quiet device) }
    {
        let _ = device.layout();
        Silent {
            device,
            rate,
            state: seed,
            faults: 0,
        }
    }

    /// What it holds.
    pub fn device(&self) -> &MemDevice
        ensures { result.now ≡ self.now.device }
    {
        &self.device
    }

    /// How many of its calls have failed.
    pub fn faults(&self) -> u64
        ensures { result ≡ self.now.faults }
    {
        self.faults
    }

    /// Whether the next call is to fail, by the generator's next number.
    fn fails(&mut self) -> bool
        ensures exactly { result ≡ fails_at (next_state self.old.state) self.old.rate }
        ensures next { self.new ≡ record self.old { state = next_state self.old.state } }
        ensures sized { IsSized (quiet self.old.device) }
    {
        let _ = self.device.layout();
        self.state = self
            .state
            .wrapping_mul(1_664_525)
            .wrapping_add(1_013_904_223);
        self.state >> 24 < self.rate
    }

    /// Counts a fault.
    fn fault(&mut self) -> Failed
        ensures { self.new ≡ record self.old { faults = next_count self.old.faults } }
    {
        self.faults = one_more(self.faults);
        Failed
    }
}

impl UnitDevice for Silent {
    ghost use Rattle.xv_silent.specs.Silent.{quiet};

    ghost told = { λ s. quiet s.device };

    ghost faults = { λ s. s.faults };

    fn read(&mut self, unit: UnitId, offset: u32, into: &mut [u8]) -> Result<(), Failed> {
        if self.fails() {
            return Err(self.fault());
        }
        match self.device.read(unit, offset, into) {
            Ok(()) => Ok(()),
            Err(Failed) => Err(self.fault()),
        }
    }

    fn write(&mut self, unit: UnitId, bytes: &[u8]) -> Result<(), Failed> {
        if self.fails() {
            return Err(self.fault());
        }
        match self.device.write(unit, bytes) {
            Ok(()) => Ok(()),
            Err(Failed) => Err(self.fault()),
        }
    }

    fn patch(&mut self, unit: UnitId, offset: u32, bytes: &[u8]) -> Result<(), Failed> {
        if self.fails() {
            return Err(self.fault());
        }
        match self.device.patch(unit, offset, bytes) {
            Ok(()) => Ok(()),
            Err(Failed) => Err(self.fault()),
        }
    }

    fn flush(&mut self) -> Result<(), Failed> {
        if self.fails() {
            return Err(self.fault());
        }
        match self.device.flush() {
            Ok(()) => Ok(()),
            Err(Failed) => Err(self.fault()),
        }
    }
}
