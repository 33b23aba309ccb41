//! A keeper in memory, whose calls fail by a plan.

ghost use Rattle.std.specs.Prelude.{◌≡◌, [], false, IfOk, OnOk, OnErr, is_err};
ghost use Rattle.xv_base.specs.Calls.{after_call, fails_next, planned};
ghost use Rattle.xv_handover.specs.Crash.{CrashLeaves};

use crate::keeper::Keeper;
use std::alloc::Global;
use xv_base::{Failed, NoMemory, PlannedCalls};

/// Keeps one value in memory.
#[derive(Drop)]
pub struct MemKeeper<K> {
    value: K,
    plan: PlannedCalls,
}

impl<K: Copy> MemKeeper<K> {
    /// A keeper of this value, of which the calls of the numbers in `fails`, from 1, fail.
    pub fn new(alloc: Global, value: K, fails: &[u32]) -> Result<MemKeeper<K>, NoMemory>
        ensures value { IfOk result (λ k. k.value ≡ value) }
        ensures plan { IfOk result (λ k. k.plan ≡ planned fails.now) }
    {
        let plan = PlannedCalls::new(alloc, fails)?;
        Ok(MemKeeper { value, plan })
    }
}

impl<K: Copy> Keeper<K> for MemKeeper<K> {
    ghost use Rattle.std.specs.Prelude.{◌==◌, length};

    ghost held = { λ k. k.value };

    ghost calls = { λ k. k.plan.calls };

    ghost faults = { λ k. k.plan.faults };

    ghost steady = { λ k. length k.plan.fails == 0 };

    /// Fails exactly where the plan has the call's number. The value is written whole, after all that may fail.
    fn keep(&mut self, value: K) -> Result<(), Failed>
        ensures fails { is_err result ≡ fails_next self.old.plan }
        ensures keeps { OnOk result (self.new.value ≡ value) }
        ensures stays { OnErr result (self.new.value ≡ self.old.value) }
        ensures crash { CrashLeaves self.old.value value self.new.value }
        ensures plan { self.new.plan ≡ after_call (is_err result) self.old.plan }
        ensures sure { self.old.plan.fails ≡ [] → is_err result ≡ false }
    {
        self.plan.begin()?;
        self.value = value;
        Ok(())
    }

    fn kept(&self) -> K {
        self.value
    }
}
