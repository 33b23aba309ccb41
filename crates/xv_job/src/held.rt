//! A job as far as its lines have been read.

ghost use Rattle.std.specs.Prelude.{◌≡◌, ◌≤◌, ◌<◌, ◌^◌, [], length, Option, Some, None, IfOk, IfErr, OnOk, IfSome, IfNone, IsSome};
ghost use Rattle.xv_base.specs.Units.{Shape, shape_of, units};
ghost use Rattle.xv_base.specs.Layout.{IsGood, layout_fault};
ghost use Rattle.xv_job.specs.Draft.{first_draft};
ghost use Rattle.xv_job.specs.Held.{job_held, draft_held, shape_or_none, IsConsistent};

use std::alloc::Global;
use xv_base::{Config, DiskShape, Fault, Init, Layout, LayoutFault, LineWhy};
use xv_trace::Trace;

/// A job as far as its lines have been read, with the rank of the last line, or 0.
#[derive(Drop)]
pub(crate) struct Held {
    pub(crate) last: u8,
    pub(crate) format: u8,
    pub(crate) group: u32,
    pub(crate) layout: Option<Layout>,
    pub(crate) disks: Vec<DiskShape>,
    pub(crate) config: Config,
    pub(crate) faults: Vec<Fault>,
    pub(crate) init: Vec<Init>,
    pub(crate) traces: Vec<Trace>,
    /// How many unit operations the traces have together.
    pub(crate) operations: u32,
    /// One more than the unit of the last first content, or 0.
    pub(crate) after_last: u32,
}

impl Held {
    /// What is held before the first line.
    pub(crate) fn new(alloc: Global) -> Held
        ensures first { draft_held result ≡ first_draft }
        ensures consistent { IsConsistent result }
    {
        Held {
            last: 0,
            format: 1,
            group: 1,
            layout: None,
            disks: Vec::new(alloc),
            config: Config {
                streams: 0,
                credit: 0,
                outbox: 0,
                region: 0,
                rounds: 0,
                dirty: 0,
                cancel: None,
            },
            faults: Vec::new(alloc),
            init: Vec::new(alloc),
            traces: Vec::new(alloc),
            operations: 0,
            after_last: 0,
        }
    }
}
