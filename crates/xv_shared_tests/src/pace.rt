//! A gate that keeps a guest's worker and a reader of the numbers of progress together.

use std::sync::atomic::{AtomicBool, AtomicU64, Ordering};
use std::thread::yield_now;
use xv_shared::Gate;

/// How often the reader reads.
pub(crate) const READS: u64 = 1_000;

/// How many calls of the worker and reads the two are apart at most.
pub(crate) const APART: u64 = 50;

/// The number of the worker that is kept: the first guest's.
const KEPT: u32 = 0;

/// How often one of the two looks for the other before it goes on alone.
const LOOKS: u32 = 20_000_000;

/// How many calls the worker has come to, how many reads were made, and whether one of the two waited for the other in vain.
#[derive(Drop)]
pub(crate) struct Pace {
    calls: AtomicU64,
    reads: AtomicU64,
    missed: AtomicBool,
}

impl Pace {
    pub(crate) fn new() -> Pace {
        Pace {
            calls: AtomicU64::new(0),
            reads: AtomicU64::new(0),
            missed: AtomicBool::new(false),
        }
    }

    /// Waits until the worker has come near the call with the number of a read.
    pub(crate) fn before_read(&self, number: u64) {
        self.wait_near(&self.calls, number);
    }

    /// Tells that the read of a number, counted from 0, was made.
    pub(crate) fn after_read(&self, number: u64) {
        self.reads.store(number.saturating_add(1), Ordering::SeqCst);
    }

    /// Whether all reads were made, and the two were together.
    pub(crate) fn was_kept(&self) -> bool {
        self.reads.load(Ordering::SeqCst) == READS && !self.missed.load(Ordering::SeqCst)
    }

    fn wait_near(&self, count: &AtomicU64, number: u64) {
        for _ in 0..LOOKS {
            let there = count.load(Ordering::SeqCst).saturating_add(APART) > number;
            if there || self.missed.load(Ordering::SeqCst) {
                return;
            }
            yield_now();
        }
        self.missed.store(true, Ordering::SeqCst);
    }
}

impl Gate for Pace {
    fn turn(&self, worker: u32, step: u64) {
        if worker == KEPT {
            self.calls.store(step.saturating_add(1), Ordering::SeqCst);
            // From this step on it waits until all reads were made.
            self.wait_near(&self.reads, step.min(READS + APART - 1));
        }
    }
}
