//! The unmigrated guest, run plainly.

ghost use Rattle.std.specs.Prelude.{◌≡◌, ◌<◌, ◌≤◌, ◌+◌, ◌++◌, ◌^◌, ℕ, false, [], length, get_or, slice_index, slice_set, IfOk};
ghost use Rattle.xv_base.specs.Units.{units};
ghost use Rattle.xv_base.specs.Pattern.{repeated};
ghost use Rattle.xv_trace.specs.Operations.{no_unit_op};
ghost use Rattle.xv_model.specs.Job.{Job};
ghost use Rattle.xv_model.specs.Guest.{part};
ghost use Rattle.xv_model.specs.Contents.{unit_content};
ghost use Rattle.xv_device.specs.Device.{ReadRange, PatchRange};
ghost use Rattle.xv_device.specs.Memory.{no_init, fresh, after};
ghost use Rattle.xv_guest.specs.Log.{ended};
ghost use Rattle.xv_guest.specs.Plain.{guest_ops, LiesIn, IsSure, IsJobOf, IsUnmigrated, call_of, bytes_of};

use crate::history::{GUESTS, History};
use std::alloc::Global;
use std::marker::Model;
use xv_base::{
    Failed, GuestId, Init, Layout, NoMemory, Outcome, Pattern, UnitId, UnitOp, greatest_size_is_had,
};
use xv_device::{DevicePlan, MemDevice};
use xv_trace::Trace;

/// What the guests leave without a migration: the contents of the units, and the bytes of all reads that were done,
/// in their order.
#[derive(Drop)]
pub struct PlainGuest {
    device: MemDevice,
    read: Vec<u8>,
}

impl Model for PlainGuest {
    ghost use Rattle.xv_guest.specs.Plain.{Plain};

    ghost Value = { Plain };

    ghost view = { λ g. record { shape = g.device.shape; contents = g.device.contents; read = g.read.items } };
}

impl PlainGuest {
    /// Runs the unit operations that have ended, one after another, on units that begin by `init`. A unit operation
    /// that has faulted does nothing.
    /// Errors: want of memory.
    pub fn run(
        alloc: Global,
        layout: &Layout,
        init: &[Init],
        traces: &[Trace],
        history: &History,
    ) -> Result<PlainGuest, NoMemory>
        requires init { (i : ℕ) → i < length init.now → (get_or init.now i no_init).unit.0 < units layout.now }
        requires ended { (guest : ℕ) → ended history.now.entries guest ≤ length (guest_ops traces.now guest) }
        requires within { (guest : ℕ) (k : ℕ) → k < length (guest_ops traces.now guest) → LiesIn layout.now (get_or (guest_ops traces.now guest) k no_unit_op) }
        ensures shape { IfOk result (λ plain. plain.shape ≡ layout.now) }
        ensures unmigrated { IfOk result (λ plain. (job : Job) → IsJobOf job layout.now init.now traces.now → IsUnmigrated job history.now.entries plain) }
    {
        let mut device = match new_device(alloc, layout, init) {
            Ok(device) => device,
            Err(error) => return Err(error),
        };
        let mut read = Vec::new(alloc);
        let mut next = match zeros(alloc, GUESTS) {
            Ok(next) => next,
            Err(error) => return Err(error),
        };
        let Ok(mut buffer) = Vec::from_elem(alloc, 0, layout.max_size() as usize) else {
            return Err(NoMemory);
        };
        greatest_size_is_had();
        for i in 0..history.len() {
            let ended = history.entry(i);
            let op = next_op(traces, &mut next, ended.guest);
            match act(&mut device, &mut read, ended.outcome, &op, &mut buffer) {
                Ok(()) => {}
                Err(error) => return Err(error),
            }
        }
        Ok(PlainGuest { device, read })
    }

    /// The content of a unit.
    pub fn content(&self, unit: UnitId) -> &[u8]
        requires { unit.0 < units self.now.shape }
        ensures { result.now ≡ unit_content self.now.contents unit.0 }
    {
        self.device.content(unit)
    }

    /// The bytes of all reads that were done, in their order.
    pub fn reads(&self) -> &[u8]
        ensures { result.now ≡ self.now.read }
    {
        &self.read
    }
}

/// A device whose calls do not fail, with units that begin by `init`.
fn new_device(alloc: Global, layout: &Layout, init: &[Init]) -> Result<MemDevice, NoMemory>
    requires { (i : ℕ) → i < length init.now → (get_or init.now i no_init).unit.0 < units layout.now }
    ensures { IfOk result (λ device. device ≡ fresh layout.now init.now (record { reads = []; writes = []; flushes = [] })) }
{
    let plan = DevicePlan {
        reads: Vec::new(alloc),
        writes: Vec::new(alloc),
        flushes: Vec::new(alloc),
    };
    MemDevice::new(alloc, layout, init, plan)
}

/// As many zeros.
fn zeros(alloc: Global, count: usize) -> Result<Vec<u32>, NoMemory>
    ensures long { IfOk result (λ zeros. length zeros.items ≡ count) }
    ensures zero { IfOk result (λ zeros. (i : ℕ) → slice_index zeros.items i ≡ 0) }
{
    match Vec::from_elem(alloc, 0, count) {
        Ok(zeros) => Ok(zeros),
        Err(_) => Err(NoMemory),
    }
}

/// The next unit operation of a guest, which is then counted. `next` has for each guest the number of its next one.
fn next_op(traces: &[Trace], next: &mut [u32], guest: GuestId) -> UnitOp
    requires guests { length next.old ≡ 2 ^ 8 }
    requires there { slice_index next.old guest.0 < length (guest_ops traces.now guest.0) }
    requires countable { slice_index next.old guest.0 + 1 < 2 ^ 32 }
    ensures op { result ≡ get_or (guest_ops traces.now guest.0) (slice_index next.old guest.0) no_unit_op }
    ensures counted { next.new ≡ slice_set next.old guest.0 (slice_index next.old guest.0 + 1) }
{
    let place = guest.0 as usize;
    let k = next[place];
    next[place] = k + 1;
    traces[place].unit_op(k)
}

/// Does a unit operation that was done: a write lays its pattern over its part of the unit, and a read appends the
/// bytes there. One that has faulted does nothing.
/// Errors: want of memory.
fn act(
    device: &mut MemDevice,
    read: &mut Vec<u8>,
    outcome: Outcome,
    op: &UnitOp,
    buffer: &mut [u8],
) -> Result<(), NoMemory>
    requires lies { LiesIn device.old.shape op.now }
    requires room { op.now.len ≤ length buffer.old }
    requires sure { IsSure device.old op.now.unit.0 }
    ensures device { device.new ≡ after (call_of outcome op.now) false device.old }
    ensures read { IfOk result (λ _. read.new.items ≡ read.old.items ++ bytes_of outcome op.now device.old.contents) }
{
    match outcome {
        Outcome::Faulted => Ok(()),
        Outcome::Done => match op.write {
            Some(pattern) => {
                lay(device, op, &pattern, &mut buffer[..op.len as usize]);
                Ok(())
            }
            None => {
                let part = &mut buffer[..op.len as usize];
                fetch(device, op, part);
                match read.extend_from_slice(part) {
                    Ok(()) => Ok(()),
                    Err(_) => Err(NoMemory),
                }
            }
        },
    }
}

/// Lays a pattern over the part of a unit that an operation names; `room` is for as many bytes.
fn lay(device: &mut MemDevice, op: &UnitOp, pattern: &Pattern, room: &mut [u8])
    requires lies { LiesIn device.old.shape op.now }
    requires long { length room.old ≡ op.now.len }
    requires sure { IsSure device.old op.now.unit.0 }
    ensures { device.new ≡ after (PatchRange op.now.unit.0 op.now.offset (repeated pattern.now op.now.len)) false device.old }
{
    pattern.fill(room);
    match device.patch(op.unit, op.offset, room) {
        Ok(()) => {}
        Err(Failed) => unreachable!(),
    }
}

/// Copies out the part of a unit that an operation names, into room for as many bytes.
fn fetch(device: &mut MemDevice, op: &UnitOp, into: &mut [u8])
    requires lies { LiesIn device.old.shape op.now }
    requires long { length into.old ≡ op.now.len }
    requires sure { IsSure device.old op.now.unit.0 }
    ensures device { device.new ≡ after (ReadRange op.now.unit.0 op.now.offset op.now.len) false device.old }
    ensures bytes { into.new ≡ part op.now (unit_content device.old.contents op.now.unit.0) }
{
    match device.read(op.unit, op.offset, into) {
        Ok(()) => {}
        Err(Failed) => unreachable!(),
    }
}
