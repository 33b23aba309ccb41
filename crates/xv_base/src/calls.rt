//! Calls on an object in memory that fail by a plan.

ghost use Rattle.std.specs.Prelude.{◌≡◌, [], false, IfOk, is_err};
ghost use Rattle.xv_base.specs.Calls.{after_call, fails_next, is_listed, next_count, planned};

use crate::unit::{Failed, NoMemory};
use std::alloc::Global;
use std::marker::Model;

/// The calls of one kind, numbered from 1: which are to fail, how many were made, and how many failed. A count stands
/// still at the last value of 64 bits.
#[derive(Drop)]
pub struct PlannedCalls {
    fails: Vec<u32>,
    calls: u64,
    faults: u64,
}

impl Model for PlannedCalls {
    ghost use Rattle.xv_base.specs.Calls.{Planned};

    ghost Value = { Planned };

    ghost view = { λ p. record { fails = p.fails.items; calls = p.calls; faults = p.faults } };
}

impl PlannedCalls {
    /// A plan by which the calls of these numbers fail; none was made yet.
    pub fn new(alloc: Global, fails: &[u32]) -> Result<PlannedCalls, NoMemory>
        ensures { IfOk result (λ p. p ≡ planned fails.now) }
    {
        match Vec::from_slice(alloc, fails) {
            Ok(fails) => Ok(PlannedCalls::of(fails)),
            Err(_) => Err(NoMemory),
        }
    }

    /// The same of a list that is given away, without taking memory.
    pub fn of(fails: Vec<u32>) -> PlannedCalls
        ensures { result ≡ planned fails.items }
    {
        PlannedCalls {
            fails,
            calls: 0,
            faults: 0,
        }
    }

    /// Counts a call.
    /// Errors: the plan has its number, which is counted as a fault.
    pub fn begin(&mut self) -> Result<(), Failed>
        ensures fails { is_err result ≡ fails_next self.old }
        ensures after { self.new ≡ after_call (is_err result) self.old }
        ensures sure { self.old.fails ≡ [] → is_err result ≡ false }
    {
        self.calls = one_more(self.calls);
        if is_listed(&self.fails, self.calls) {
            return Err(self.fault());
        }
        Ok(())
    }

    /// Counts a fault that the plan does not have.
    pub fn fault(&mut self) -> Failed
        ensures { self.new ≡ record self.old { faults = next_count self.old.faults } }
    {
        self.faults = one_more(self.faults);
        Failed
    }
}

/// One more, where the last value of 64 bits stays.
pub fn one_more(count: u64) -> u64
    ensures { result ≡ next_count count }
{
    count.saturating_add(1)
}

/// Whether a list of numbers has this one.
pub fn is_listed(numbers: &[u32], number: u64) -> bool
    ensures { result ≡ is_listed numbers.now number }
{
    numbers.iter().any(|k| u64::from(*k) == number)
}
