ghost use Rattle.std.specs.Prelude.{◌≡◌, ◌<◌, ◌≤◌, ◌^◌, [], ◌∷◌, length, IfOk, IfSome};
ghost use Rattle.xv_base.specs.Units.{shape_of};
ghost use Rattle.xv_streams.specs.Streamed.{lane};
ghost use Rattle.xv_source.specs.Step.{IsMost};

use crate::source_guest_tests::{DISK, done, half_over};
use std::alloc::Global;
use std::test::Fail;
use xv_base::{Layout, NoMemory, Turn};
use xv_streams::Streams;
use xv_wire::{MemWire, WirePlan};

/// A wire that does not fail.
fn wire(alloc: Global) -> Result<MemWire, Fail>
    ensures transit { IfOk result (λ wire. wire.transit ≡ []) }
    ensures capacity { IfOk result (λ wire. wire.capacity ≡ 960) }
    ensures puts { IfOk result (λ wire. wire.counted.puts ≡ 0) }
{
    let plan = WirePlan {
        puts: Vec::new(alloc),
        takes: Vec::new(alloc),
    };
    Ok(MemWire::new(alloc, 960, 960, plan)?)
}

/// One stream of a format.
fn one_stream(alloc: Global, format: u8) -> Result<Streams<MemWire>, Fail>
    requires { (1 ≤ format) × (format ≤ 2) }
    ensures shape { IfOk result (λ streams. streams.shape ≡ shape_of 1 16 (DISK ∷ [])) }
    ensures format { IfOk result (λ streams. streams.format ≡ format) }
    ensures making { IfOk result (λ streams. streams.making ≡ []) }
    ensures one { IfOk result (λ streams. length streams.lanes ≡ 1) }
    ensures groups { IfOk result (λ streams. (lane streams 0).groups ≡ []) }
    ensures capacity { IfOk result (λ streams. (lane streams 0).wire.capacity ≡ 960) }
    ensures countable { IfOk result (λ streams. IfSome (lane streams 0).wire.counted (λ c. c.puts < 2 ^ 63)) }
{
    let layout = Layout::new(1, 16, &[DISK])?;
    let wires = vec![in alloc; wire(alloc)?]?;
    match Streams::new(alloc, wires, layout, format) {
        Ok(streams) => Ok(streams),
        Err(wires) => {
            drop(wires);
            Err(Fail::from(NoMemory))
        }
    }
}

/// Sends the first block on a stream.
fn send_first(alloc: Global, most: u32, streams: &mut Streams<MemWire>) -> Result<Turn, Fail>
    requires shape { streams.old.shape ≡ shape_of 1 16 (DISK ∷ []) }
    requires most { IsMost streams.old.format most }
    requires making { streams.old.making ≡ [] }
    requires one { length streams.old.lanes ≡ 1 }
    requires groups { (lane streams.old 0).groups ≡ [] }
    requires capacity { (lane streams.old 0).wire.capacity ≡ 960 }
    requires countable { IfSome (lane streams.old 0).wire.counted (λ c. c.puts < 2 ^ 63) }
{
    let mut half = half_over(alloc)?;
    let _ = half.begin(0);
    let _ = half.read(0);
    let _ = half.advance(0, 0);
    let sent = half.send(0, most, streams);
    drop(half);
    Ok(sent)
}

/// Sends the first block on a stream of a format.
fn send_block(alloc: Global, format: u8, most: u32) -> Result<Turn, Fail>
    requires { IsMost format most }
{
    let mut streams = one_stream(alloc, format)?;
    let sent = send_first(alloc, most, &mut streams);
    drop(streams);
    sent
}

#[test]
fn sends_a_block(rt: HostRuntime) -> Result<(), Fail> {
    let alloc = rt.alloc();
    assert_eq!(rt; send_block(alloc, 1, 1)?, done(1, 1));
    assert_eq!(rt; send_block(alloc, 2, 16)?, done(1, 1));
    Ok(())
}
