//! Operations that are read, each from its line.

ghost use Rattle.std.specs.Prelude.{◌≡◌, ◌≤◌, ◌<◌, IfOk, IfErr, IfSome, IfNone, length};
ghost use Rattle.xv_text.specs.Fields.{values, fields_fault, IsPattern};
ghost use Rattle.xv_text.specs.Row.{IsRow};
ghost use Rattle.xv_trace.specs.Operations.{memory_fault, op_fault, op_count};
ghost use Rattle.xv_trace.specs.OpText.{verb_of, kinds_of, op_of, verb_fault, IsGoodOp};
ghost use Rattle.xv_trace.specs.declared.op.Verb.TheVariants.{Store as StoreVerb, Load as LoadVerb, Write as WriteVerb, Fetch as FetchVerb};

use crate::op::{Op, Verb};
use xv_base::{Layout, LineWhy, MOST_PATTERN, layouts_keep_limits};
use xv_text::{Fields, Kind, Row, read_fields};

/// The operation of a word; none where the word is no operation's.
pub fn verb_of(word: &[u8]) -> Option<Verb>
    ensures { result ≡ verb_of word.now }
{
    if word == b"st".as_slice() {
        Some(Verb::Store)
    } else if word == b"ld".as_slice() {
        Some(Verb::Load)
    } else if word == b"wr".as_slice() {
        Some(Verb::Write)
    } else if word == b"rd".as_slice() {
        Some(Verb::Fetch)
    } else {
        None
    }
}

/// Reads an operation from the fields behind its word, where there is room for so many unit operations.
/// Errors: what is wrong with the line, the first in the order of the faults.
pub fn read_op(layout: &Layout, room: u32, verb: Verb, args: &Fields) -> Result<Op, LineWhy>
    ensures no_fault { IfOk result (λ op. verb_fault layout.now room verb args.now ≡ None) }
    ensures said { IfOk result (λ op. op ≡ op_of verb (values (kinds_of verb) args.now)) }
    ensures good { IfOk result (λ op. IsGoodOp layout.now op) }
    ensures room { IfOk result (λ op. op_count op ≤ room) }
    ensures fault { IfErr result (λ why. verb_fault layout.now room verb args.now ≡ Some why) }
{
    let row = match read_kinds(verb, args) {
        Ok(row) => row,
        Err(why) => return Err(why),
    };
    match op_of(layout, verb, &row) {
        Ok(op) if op.count() <= room => Ok(op),
        Ok(_) => Err(LineWhy::TooMany),
        Err(why) => Err(why),
    }
}

/// Reads the fields behind a word by their kinds.
fn read_kinds(verb: Verb, args: &Fields) -> Result<Row, LineWhy>
    ensures no_fault { IfOk result (λ row. fields_fault (kinds_of verb) args.now ≡ None) }
    ensures values { IfOk result (λ row. row ≡ values (kinds_of verb) args.now) }
    ensures row { IfOk result (λ row. IsRow (kinds_of verb) row) }
    ensures fault { IfErr result (λ why. fields_fault (kinds_of verb) args.now ≡ Some why) }
{
    match verb {
        Verb::Store => read_fields(&[Kind::Number, Kind::Number, Kind::Bytes], args),
        Verb::Load => read_fields(&[Kind::Number, Kind::Number], args),
        Verb::Write => read_fields(
            &[Kind::Number, Kind::Number, Kind::Number, Kind::Bytes],
            args,
        ),
        Verb::Fetch => read_fields(
            &[Kind::Number, Kind::Number, Kind::Number, Kind::Number],
            args,
        ),
    }
}

/// The operation that a row says.
/// Errors: where it may not act, the first reason.
fn op_of(layout: &Layout, verb: Verb, row: &Row) -> Result<Op, LineWhy>
    requires { IsRow (kinds_of verb) row.now }
    ensures said { IfOk result (λ op. op ≡ op_of verb row.now) }
    ensures acts { IfOk result (λ op. op_fault layout.now op ≡ None) }
    ensures fault { IfErr result (λ why. op_fault layout.now (op_of verb row.now) ≡ Some why) }
{
    match verb {
        Verb::Store => store(layout, row),
        Verb::Load => load(layout, row),
        Verb::Write => write(layout, row),
        Verb::Fetch => fetch(layout, row),
    }
}

/// The store that a row says.
fn store(layout: &Layout, row: &Row) -> Result<Op, LineWhy>
    requires { IsPattern row.now.pattern }
    ensures said { IfOk result (λ op. op ≡ op_of StoreVerb row.now) }
    ensures acts { IfOk result (λ op. op_fault layout.now op ≡ None) }
    ensures fault { IfErr result (λ why. op_fault layout.now (op_of StoreVerb row.now) ≡ Some why) }
{
    let addr = row.number(0);
    let len = row.number(1);
    match memory_fault(layout, addr, len) {
        None => Ok(Op::Store {
            addr,
            len,
            pat: row.pattern(),
        }),
        Some(why) => Err(why),
    }
}

/// The load that a row says.
fn load(layout: &Layout, row: &Row) -> Result<Op, LineWhy>
    ensures said { IfOk result (λ op. op ≡ op_of LoadVerb row.now) }
    ensures acts { IfOk result (λ op. op_fault layout.now op ≡ None) }
    ensures fault { IfErr result (λ why. op_fault layout.now (op_of LoadVerb row.now) ≡ Some why) }
{
    let addr = row.number(0);
    let len = row.number(1);
    if len > MOST_PATTERN {
        return Err(LineWhy::OutOfRange);
    }
    match memory_fault(layout, addr, len) {
        None => Ok(Op::Load { addr, len }),
        Some(why) => Err(why),
    }
}

/// The write that a row says.
fn write(layout: &Layout, row: &Row) -> Result<Op, LineWhy>
    requires { IsPattern row.now.pattern }
    ensures said { IfOk result (λ op. op ≡ op_of WriteVerb row.now) }
    ensures acts { IfOk result (λ op. op_fault layout.now op ≡ None) }
    ensures fault { IfErr result (λ why. op_fault layout.now (op_of WriteVerb row.now) ≡ Some why) }
{
    let block = row.number(1);
    let count = row.number(2);
    let Some(disk) = disk_of(layout, row.number(0)) else {
        return Err(LineWhy::OutOfRange);
    };
    if count == 0 || u64::from(block) + u64::from(count) > u64::from(layout.blocks(disk)) {
        return Err(LineWhy::OutOfRange);
    }
    Ok(Op::Write {
        disk,
        block,
        count,
        pat: row.pattern(),
    })
}

/// The read of a block that a row says.
fn fetch(layout: &Layout, row: &Row) -> Result<Op, LineWhy>
    ensures said { IfOk result (λ op. op ≡ op_of FetchVerb row.now) }
    ensures acts { IfOk result (λ op. op_fault layout.now op ≡ None) }
    ensures fault { IfErr result (λ why. op_fault layout.now (op_of FetchVerb row.now) ≡ Some why) }
{
    let block = row.number(1);
    let offset = row.number(2);
    let len = row.number(3);
    let Some(disk) = disk_of(layout, row.number(0)) else {
        return Err(LineWhy::OutOfRange);
    };
    if block >= layout.blocks(disk) || len == 0 || len > MOST_PATTERN {
        return Err(LineWhy::OutOfRange);
    }
    if u64::from(offset) + u64::from(len) > u64::from(layout.block_size(disk)) {
        return Err(LineWhy::OutOfRange);
    }
    Ok(Op::Fetch {
        disk,
        block,
        offset,
        len,
    })
}

/// The disk of a number; none where there is no such disk.
fn disk_of(layout: &Layout, number: u32) -> Option<u8>
    ensures found { IfSome result (λ disk. disk ≡ number) }
    ensures there { IfSome result (λ disk. disk < length layout.now.disks) }
    ensures none { IfNone result (length layout.now.disks ≤ number) }
{
    if number < u32::from(layout.disks()) {
        Some(number as u8)
    } else {
        None
    }
}

/// What is wrong with a part of memory, the first reason.
fn memory_fault(layout: &Layout, addr: u32, len: u32) -> Option<LineWhy>
    ensures { result ≡ memory_fault layout.now addr len }
{
    layouts_keep_limits();
    let page_size = layout.page_size();
    if len == 0 || u64::from(addr) >= u64::from(layout.pages()) * u64::from(page_size) {
        return Some(LineWhy::OutOfRange);
    }
    if u64::from(addr % page_size) + u64::from(len) > u64::from(page_size) {
        return Some(LineWhy::CrossesPage);
    }
    None
}
