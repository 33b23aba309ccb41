//! The operations of one guest.

ghost use Rattle.std.specs.Prelude.{◌≡◌, ◌+◌, ◌/◌, ◌%◌, ◌^◌, ◌<◌, ◌≤◌, [], ◌∷◌, ◌++◌, length, get_or, slice_index, OnOk, OnErr};
ghost use Rattle.xv_base.specs.Units.{blocks, block_size, unit_of_block};
ghost use Rattle.xv_trace.specs.Operations.{unit_operations, all_unit_operations, op_count, count_all, no_unit_op, part_of};
ghost use Rattle.xv_trace.specs.OpText.{IsGoodOp, IsProgram};

use crate::op::Op;
use std::alloc::Global;
use std::marker::Model;
use xv_base::{
    Layout, NoMemory, Pattern, UnitId, UnitOp, layouts_keep_limits, units_number_blocks,
};

/// The operations of a guest on the units of a layout, one after another. It takes memory in proportion to its
/// operations, however many blocks they write.
#[derive(Drop)]
pub struct Trace {
    layout: Layout,
    ops: Vec<Op>,
    /// How many unit operations come before each operation.
    firsts: Vec<u32>,
    /// How many unit operations there are.
    count: u32,
}

impl Model for Trace {
    ghost use Rattle.xv_trace.specs.OpText.{Program};
    ghost use Rattle.xv_trace.specs.Kept.{IsKept};

    ghost Value = { Program };

    ghost view = { λ t. record { shape = t.layout; ops = t.ops.items } };

    ghost invariant = { λ t. IsKept (record { shape = t.layout; ops = t.ops.items }) t.firsts.items t.count };
}

impl Trace {
    /// A trace without operations; it takes no memory.
    pub fn new(alloc: Global, layout: Layout) -> Trace
        ensures { result ≡ record { shape = layout; ops = [] } }
    {
        // Whatever a layout tells of itself also tells that it is good.
        let _ = layout.pages();
        Trace {
            layout,
            ops: Vec::new(alloc),
            firsts: Vec::new(alloc),
            count: 0,
        }
    }

    /// Appends an operation that may act on the layout's units, with which there are at most 2^20 unit operations.
    /// Errors: want of memory, where the trace is as it was.
    pub fn push(&mut self, op: Op) -> Result<(), NoMemory>
        requires good { IsGoodOp self.old.shape op }
        requires room { count_all self.old.ops + op_count op ≤ 2 ^ 20 }
        ensures ok { OnOk result (self.new ≡ record self.old { ops = self.old.ops ++ op ∷ [] }) }
        ensures err { OnErr result (self.new ≡ self.old) }
    {
        match self.firsts.push(self.count) {
            Ok(()) => {}
            Err(_) => return Err(NoMemory),
        }
        match self.ops.push(op) {
            Ok(()) => {
                self.count += op.count();
                Ok(())
            }
            Err(_) => {
                self.firsts.pop();
                Err(NoMemory)
            }
        }
    }

    /// The layout on whose units the operations act.
    pub fn layout(&self) -> Layout
        ensures { result ≡ self.now.shape }
    {
        self.layout
    }

    /// The operations.
    pub fn ops(&self) -> &[Op]
        ensures exactly { result.now ≡ self.now.ops }
        ensures program { IsProgram self.now }
    {
        self.ops.as_slice()
    }

    /// How many unit operations there are.
    pub fn unit_ops(&self) -> u32
        ensures exactly { result ≡ count_all self.now.ops }
        ensures program { IsProgram self.now }
    {
        self.count
    }

    /// The unit operation number k, counted from 0.
    pub fn unit_op(&self, k: u32) -> UnitOp
        requires { k < count_all self.now.ops }
        ensures { result ≡ get_or (all_unit_operations self.now.shape self.now.ops) k no_unit_op }
    {
        let i = last_at_most(&self.firsts, k);
        part(&self.layout, &self.ops[i], k - self.firsts[i])
    }
}

/// One of these numbers that is at most k, and behind it none or one above k.
fn last_at_most(firsts: &[u32], k: u32) -> usize
    requires some { 0 < length firsts.now }
    requires starts { slice_index firsts.now 0 ≤ k }
    ensures below { result < length firsts.now }
    ensures here { slice_index firsts.now result ≤ k }
    ensures next { result + 1 < length firsts.now → k < slice_index firsts.now (result + 1) }
{
    let mut low = 0;
    let mut high = firsts.len();
    while high - low > 1 {
        let middle = low + (high - low) / 2;
        if firsts[middle] <= k {
            low = middle;
        } else {
            high = middle;
        }
    }
    low
}

/// The unit operation number n of an operation.
fn part(layout: &Layout, op: &Op, n: u32) -> UnitOp
    requires good { IsGoodOp layout.now op.now }
    requires in_range { n < op_count op.now }
    ensures { result ≡ get_or (unit_operations layout.now op.now) n no_unit_op }
{
    match op {
        Op::Store { addr, len, pat } => page_part(layout, *addr, *len, Some(*pat)),
        Op::Load { addr, len } => page_part(layout, *addr, *len, None),
        Op::Write {
            disk,
            block,
            count: _,
            pat,
        } => block_write(layout, *disk, *block, n, *pat),
        Op::Fetch {
            disk,
            block,
            offset,
            len,
        } => UnitOp {
            unit: layout.unit_of_block(*disk, *block),
            offset: *offset,
            len: *len,
            write: None,
        },
    }
}

/// The write of the block number n from a block on.
fn block_write(layout: &Layout, disk: u8, block: u32, n: u32, pattern: Pattern) -> UnitOp
    requires disk_in { disk < length layout.now.disks }
    requires block_in { block + n < blocks layout.now.disks disk }
    ensures { result ≡ part_of (unit_of_block layout.now disk (block + n)) 0 (block_size layout.now.disks disk) (Some pattern) }
{
    units_number_blocks();
    layouts_keep_limits();
    let len = layout.block_size(disk);
    UnitOp {
        unit: layout.unit_of_block(disk, block + n),
        offset: 0,
        len,
        write: Some(pattern),
    }
}

/// The part of a page that these bytes of memory are.
fn page_part(layout: &Layout, addr: u32, len: u32, write: Option<Pattern>) -> UnitOp
    ensures { result ≡ part_of (addr / layout.now.page_size) (addr % layout.now.page_size) len write }
{
    layouts_keep_limits();
    let page_size = layout.page_size();
    UnitOp {
        unit: UnitId(addr / page_size),
        offset: addr % page_size,
        len,
        write,
    }
}
