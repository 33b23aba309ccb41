//! Two workers that meet: each is held at its first turn until the other's was called. So a run by one thread, or one that
//! calls no gate, fails here.

use crate::printed::{number, parts};
use crate::running::{ran_by, said};
use std::sync::atomic::{AtomicBool, Ordering};
use std::test::Fail;
use xv_shared::Gate;

/// The numbers of the first guest's worker and of the first copier's, in a job of four guests.
const GUEST: u32 = 0;

const COPIER: u32 = 4;

/// How often a worker that is held looks for the other.
const LOOKS: u32 = 200_000_000;

/// Whether the two were called, and whether one of them was held for too long.
#[derive(Drop)]
struct Meeting {
    guest: AtomicBool,
    copier: AtomicBool,
    missed: AtomicBool,
}

impl Meeting {
    fn new() -> Meeting {
        Meeting {
            guest: AtomicBool::new(false),
            copier: AtomicBool::new(false),
            missed: AtomicBool::new(false),
        }
    }

    /// Tells that one was called, and holds it until the other is.
    fn meet(&self, one: &AtomicBool, other: &AtomicBool) {
        one.store(true, Ordering::SeqCst);
        for _ in 0..LOOKS {
            if other.load(Ordering::SeqCst) {
                return;
            }
        }
        self.missed.store(true, Ordering::SeqCst);
    }
}

impl Gate for Meeting {
    fn turn(&self, worker: u32, step: u64) {
        match (worker, step) {
            (GUEST, 0) => self.meet(&self.guest, &self.copier),
            (COPIER, 0) => self.meet(&self.copier, &self.guest),
            _ => {}
        }
    }
}

/// How many entries a worker made, as it is printed.
fn made(output: &[u8], worker: &str) -> Option<u64> {
    number(parts(output)?.workers, worker)
}

#[test]
fn workers_run_at_the_same_time(rt: HostRuntime) -> Result<(), Fail> {
    let job = said(rt.alloc(), &["gen", "7"])?;
    let gate = Meeting::new();
    let ran = ran_by(&rt, rt.alloc(), &["run"], &job, &gate)?;
    assert_eq!(rt; ran.status, 0);
    assert!(rt; gate.guest.load(Ordering::SeqCst));
    assert!(rt; gate.copier.load(Ordering::SeqCst));
    assert!(rt; !gate.missed.load(Ordering::SeqCst));
    for copier in ["worker copier 0", "worker copier 1"] {
        let made = made(&ran.output, copier);
        assert!(rt; made.is_some_and(|steps| steps >= 1), "{copier}");
    }
    Ok(())
}
