//! A large job from a number.

ghost use Rattle.std.specs.Prelude.{◌≡◌, ◌+◌, ◌%◌, ◌≤◌, ◌<◌, ◌++◌, map, IfOk, OnOk};
ghost use Rattle.std.specs.List.{range_with_len};
ghost use Rattle.xv_trace.specs.declared.op.Op.TheVariants.{Write, Fetch};
ghost use Rattle.xv_model.specs.Job.{operation_count};
ghost use Rattle.xv_job.specs.Written.{AreTraces, ops_held, job_of};
ghost use Rattle.xv_job.specs.Made.{made_shape, made_config, made_init, made_op, made_job, byte_of, contents, address, first_ops, guest_ops, ops_each};

use crate::job::Job;
use std::alloc::Global;
use xv_base::{Config, DiskShape, Init, Layout, NoMemory, Pattern, UnitId};
use xv_trace::{Op, Trace};

/// How many guests a made job has.
const GUESTS: u8 = 4;

/// How many operations each of them has.
const OPERATIONS: u32 = 800;

/// The job that a number makes: 1,024 pages of 4,096 bytes, two disks of 4,096 and 2,048 blocks of 512 bytes, and four
/// guests of 800 operations each, whose places and bytes follow from the number.
/// Errors: want of memory.
pub fn make_job(alloc: Global, number: u16) -> Result<Job, NoMemory>
    ensures made { IfOk result (λ job. job ≡ made_job number) }
    ensures operations { IfOk result (λ job. operation_count (job_of job) ≡ 4400) }
{
    let layout = layout();
    let init = first_contents(alloc, number)?;
    let traces = traces(alloc, &layout, number)?;
    Ok(Job {
        layout,
        format: 1,
        group: 1,
        config: config(),
        faults: Vec::new(alloc),
        init,
        traces,
    })
}

/// The machine: 64 MiB in 7,168 units.
fn layout() -> Layout
    ensures { result ≡ made_shape }
{
    let disks = [
        DiskShape {
            blocks: 4096,
            block_size: 512,
        },
        DiskShape {
            blocks: 2048,
            block_size: 512,
        },
    ];
    match Layout::new(1024, 4096, &disks) {
        Ok(layout) => layout,
        Err(_) => unreachable!(),
    }
}

/// The limits of the migration.
fn config() -> Config
    ensures { result ≡ made_config }
{
    Config {
        streams: 4,
        credit: 64,
        outbox: 64,
        region: 16,
        rounds: 8,
        dirty: 32,
        cancel: None,
    }
}

/// The pattern that stands for a number: one byte, which is never 0.
fn byte_of(number: u32) -> Pattern
    ensures { result ≡ byte_of number }
{
    Pattern::new(&[(number % 255 + 1) as u8])
}

/// The first contents, of 16 pages and of 16 blocks of the first disk.
/// Errors: want of memory.
fn first_contents(alloc: Global, number: u16) -> Result<Vec<Init>, NoMemory>
    ensures { IfOk result (λ init. init.items ≡ made_init number) }
{
    let mut init = Vec::new(alloc);
    push_contents(&mut init, number, 0, 64, 16)?;
    push_contents(&mut init, number, 1024, 256, 16)?;
    Ok(init)
}

/// Appends the first contents of `count` units, `step` apart from `first` on.
/// Errors: want of memory.
fn push_contents(
    init: &mut Vec<Init>,
    number: u16,
    first: u32,
    step: u32,
    count: u32,
) -> Result<(), NoMemory>
    requires first { first ≤ 1024 }
    requires step { step ≤ 256 }
    requires count { count ≤ 16 }
    ensures { OnOk result (init.new.items ≡ init.old.items ++ contents number first step count) }
{
    for j in 0..count {
        let content = Init {
            unit: UnitId(first + step * j),
            pattern: byte_of(u32::from(number) + j),
        };
        match init.push(content) {
            Ok(()) => {}
            Err(_) => return Err(NoMemory),
        }
    }
    Ok(())
}

/// The traces of all guests.
/// Errors: want of memory.
fn traces(alloc: Global, layout: &Layout, number: u16) -> Result<Vec<Trace>, NoMemory>
    requires { layout.now ≡ made_shape }
    ensures held { IfOk result (λ traces. ops_held traces.items ≡ map (guest_ops number) (range_with_len 0 4)) }
    ensures machine { IfOk result (λ traces. AreTraces layout.now traces.items) }
{
    let mut traces = Vec::new(alloc);
    for guest in 0..GUESTS {
        let trace = trace(alloc, layout, number, guest, operations_each())?;
        match traces.push(trace) {
            Ok(()) => {}
            Err(_) => return Err(NoMemory),
        }
    }
    Ok(traces)
}

/// How many operations each guest has, by the name that proofs have for it.
#[tactic(auto, unfolding(crate::specs::Made::ops_each))]
fn operations_each() -> u32
    ensures is { result ≡ ops_each }
    ensures few { result ≤ 800 }
{
    OPERATIONS
}

/// The trace of a guest's first `count` operations.
/// Errors: want of memory.
fn trace(
    alloc: Global,
    layout: &Layout,
    number: u16,
    guest: u8,
    count: u32,
) -> Result<Trace, NoMemory>
    requires machine { layout.now ≡ made_shape }
    requires guest { guest < 4 }
    requires count { count ≤ 800 }
    ensures { IfOk result (λ trace. trace ≡ record { shape = layout.now; ops = first_ops number guest count }) }
{
    let mut trace = Trace::new(alloc, *layout);
    for index in 0..count {
        trace.push(operation(number, guest, index))?;
    }
    Ok(trace)
}

/// A guest's operation by its index, from 0.
fn operation(number: u16, guest: u8, index: u32) -> Op
    requires guest { guest < 4 }
    requires index { index < 800 }
    ensures { result ≡ made_op number guest index }
{
    let guest = u32::from(guest);
    let key = u32::from(number) + 31 * index + 7 * guest;
    match index % 8 {
        0 | 4 => Op::Store {
            addr: address(guest, key),
            len: 64,
            pat: byte_of(key),
        },
        1 => write(0, 1024 * guest + key % 1020, key),
        2 | 6 => Op::Load {
            addr: address(guest, key),
            len: 64,
        },
        3 => fetch(0, 1024 * guest + key % 1024, 0),
        5 => write(1, 512 * guest + key % 508, key),
        _ => fetch(1, 512 * guest + key % 512, 448),
    }
}

/// The write of one to four blocks from `block` on.
fn write(disk: u8, block: u32, key: u32) -> Op
    ensures { result ≡ Write disk block (1 + key % 4) (byte_of key) }
{
    Op::Write {
        disk,
        block,
        count: 1 + key % 4,
        pat: byte_of(key),
    }
}

/// The read of 64 bytes from an offset in a block.
fn fetch(disk: u8, block: u32, offset: u32) -> Op
    ensures { result ≡ Fetch disk block offset 64 }
{
    Op::Fetch {
        disk,
        block,
        offset,
        len: 64,
    }
}

/// An address in a guest's quarter of the memory.
fn address(guest: u32, key: u32) -> u32
    requires { guest < 4 }
    ensures { result ≡ address guest key }
{
    (256 * guest + key % 256) * 4096 + 64 * (key % 64)
}
