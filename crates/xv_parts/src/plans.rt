//! The plans of devices and wires: the numbers of the calls that a job's faults name.

ghost use Rattle.std.specs.Prelude.{◌≡◌, IfOk};
ghost use Rattle.xv_model.specs.Step.{fault_number};
ghost use Rattle.xv_parts.specs.Plans.{is_of_kind, numbers_of, source_plan, dest_plan, stream_plan, back_plan};
ghost use Rattle.xv_parts.specs.Kinds.{call_of};

use std::alloc::Global;
use xv_base::{Fault, NoMemory};
use xv_device::DevicePlan;
use xv_wire::WirePlan;

/// The kind of a call that may fail.
#[derive(Clone, Copy, Debug, PartialEq, Eq)]
enum Kind {
    SourceRead,
    SourceWrite,
    DestRead,
    DestWrite,
    Flush,
    Put(u8),
    Take(u8),
    AckPut,
    AckTake,
}

/// The source's plan; nothing flushes it.
/// Errors: want of memory.
pub(crate) fn source_plan(alloc: Global, faults: &[Fault]) -> Result<DevicePlan, NoMemory>
    ensures { IfOk result (λ plan. plan ≡ source_plan faults.now) }
{
    Ok(DevicePlan {
        reads: numbers(alloc, faults, Kind::SourceRead)?,
        writes: numbers(alloc, faults, Kind::SourceWrite)?,
        flushes: Vec::new(alloc),
    })
}

/// The destination's plan.
/// Errors: want of memory.
pub(crate) fn dest_plan(alloc: Global, faults: &[Fault]) -> Result<DevicePlan, NoMemory>
    ensures { IfOk result (λ plan. plan ≡ dest_plan faults.now) }
{
    Ok(DevicePlan {
        reads: numbers(alloc, faults, Kind::DestRead)?,
        writes: numbers(alloc, faults, Kind::DestWrite)?,
        flushes: numbers(alloc, faults, Kind::Flush)?,
    })
}

/// The plan of a stream's wire.
/// Errors: want of memory.
pub(crate) fn stream_plan(alloc: Global, faults: &[Fault], stream: u8) -> Result<WirePlan, NoMemory>
    ensures { IfOk result (λ plan. plan ≡ stream_plan faults.now stream) }
{
    Ok(WirePlan {
        puts: numbers(alloc, faults, Kind::Put(stream))?,
        takes: numbers(alloc, faults, Kind::Take(stream))?,
    })
}

/// The plan of the wire back.
/// Errors: want of memory.
pub(crate) fn back_plan(alloc: Global, faults: &[Fault]) -> Result<WirePlan, NoMemory>
    ensures { IfOk result (λ plan. plan ≡ back_plan faults.now) }
{
    Ok(WirePlan {
        puts: numbers(alloc, faults, Kind::AckPut)?,
        takes: numbers(alloc, faults, Kind::AckTake)?,
    })
}

/// The numbers of the calls of one kind that are to fail.
fn numbers(alloc: Global, faults: &[Fault], kind: Kind) -> Result<Vec<u32>, NoMemory>
    ensures { IfOk result (λ numbers. numbers.items ≡ numbers_of faults.now (call_of kind)) }
{
    let numbers = faults
        .iter()
        .filter(|fault| is_of(fault, kind))
        .map(|fault| number(fault))
        .collect(alloc);
    match numbers {
        Ok(numbers) => Ok(numbers),
        Err(_) => Err(NoMemory),
    }
}

/// Whether a fault is of a call of this kind.
fn is_of(fault: &Fault, kind: Kind) -> bool
    ensures { result ≡ is_of_kind (call_of kind) fault.now }
{
    let own = match *fault {
        Fault::SourceRead(_) => Kind::SourceRead,
        Fault::SourceWrite(_) => Kind::SourceWrite,
        Fault::DestRead(_) => Kind::DestRead,
        Fault::DestWrite(_) => Kind::DestWrite,
        Fault::Flush(_) => Kind::Flush,
        Fault::Put(stream, _) => Kind::Put(stream),
        Fault::Take(stream, _) => Kind::Take(stream),
        Fault::AckPut(_) => Kind::AckPut,
        Fault::AckTake(_) => Kind::AckTake,
    };
    own == kind
}

/// The number of a fault's call among those of its kind, from 1.
fn number(fault: &Fault) -> u32
    ensures { result ≡ fault_number fault.now }
{
    match *fault {
        Fault::SourceRead(number)
        | Fault::SourceWrite(number)
        | Fault::DestRead(number)
        | Fault::DestWrite(number)
        | Fault::Flush(number)
        | Fault::Put(_, number)
        | Fault::Take(_, number)
        | Fault::AckPut(number)
        | Fault::AckTake(number) => number,
    }
}
