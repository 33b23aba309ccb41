ghost use Rattle.std.specs.Prelude.{◌≡◌, ℕ, ◌+◌, ◌*◌, ◌<◌, ◌≤◌, ◌^◌, [], ◌∷◌, length, IfOk, IfSome};
ghost use Rattle.xv_base.specs.Units.{shape_of};
ghost use Rattle.xv_device.specs.Device.{write_count};
ghost use Rattle.xv_device.specs.Told.{HasRoomToCount};
ghost use Rattle.xv_streams.specs.Streamed.{lane, first_group};
ghost use Rattle.xv_streams.specs.Fronts.{heads_of};
ghost use Rattle.xv_dest.specs.Half.{fresh};

use std::alloc::Global;
use std::test::Fail;
use xv_base::{Config, Layout, MOST_CREDIT, Note, Pattern, Turn, UnitHead, UnitId, UnitOp, Why};
use xv_dest::DestHalf;
use xv_device::{DevicePlan, MemDevice};
use xv_streams::{BackWire, Streams};
use xv_wire::{MemWire, WirePlan};

/// The half of a machine of two pages, to which nothing has come.
fn new_half(alloc: Global) -> Result<DestHalf<MemDevice>, Fail>
    ensures half { IfOk result (λ half. half ≡ fresh (shape_of 2 16 []) 4 half.told half.faults) }
    ensures room { IfOk result (λ half. HasRoomToCount half.told) }
    ensures writes { IfOk result (λ half. (unit : ℕ) → write_count half.told.writes unit ≤ 0) }
    ensures calls { IfOk result (λ half. IfSome half.told.counted (λ c. c.calls ≡ record { reads = 0; writes = 0; flushes = 0 })) }
{
    let layout = Layout::new(2, 16, &[])?;
    let plan = DevicePlan {
        reads: Vec::new(alloc),
        writes: Vec::new(alloc),
        flushes: Vec::new(alloc),
    };
    let config = Config {
        streams: 1,
        credit: 4,
        outbox: 4,
        region: 1,
        rounds: 1,
        dirty: 0,
        cancel: None,
    };
    let device = MemDevice::new(alloc, &layout, &[], plan)?;
    match DestHalf::new(alloc, &layout, &config, device) {
        Ok(half) => Ok(half),
        Err(device) => {
            drop(device);
            Err(Fail::new("no memory"))
        }
    }
}

/// A wire with room for some messages.
fn wire(alloc: Global) -> Result<MemWire, Fail>
    ensures { IfOk result (λ wire. (wire.transit ≡ []) × (wire.capacity ≡ 200) × (wire.counted.puts ≡ 0)) }
{
    let plan = WirePlan {
        puts: Vec::new(alloc),
        takes: Vec::new(alloc),
    };
    Ok(MemWire::new(alloc, 200, 200, plan)?)
}

/// Unit 1 in a version, made at three times that.
fn head(version: u32) -> UnitHead
    ensures { result ≡ record { unit = record { 0 = 1 }; version = version; at = 3 * version } }
{
    UnitHead {
        unit: UnitId(1),
        version,
        at: 3 * u64::from(version),
    }
}

/// One stream of a format, on which nothing is.
fn streams_of(alloc: Global, format: u8) -> Result<Streams<MemWire>, Fail>
    requires { (1 ≤ format) × (format ≤ 2) }
    ensures shape { IfOk result (λ streams. streams.shape ≡ shape_of 2 16 []) }
    ensures format { IfOk result (λ streams. streams.format ≡ format) }
    ensures making { IfOk result (λ streams. streams.making ≡ []) }
    ensures one { IfOk result (λ streams. length streams.lanes ≡ 1) }
    ensures groups { IfOk result (λ streams. (lane streams 0).groups ≡ []) }
    ensures transit { IfOk result (λ streams. (lane streams 0).wire.transit ≡ []) }
    ensures capacity { IfOk result (λ streams. (lane streams 0).wire.capacity ≡ 200) }
    ensures countable { IfOk result (λ streams. IfSome (lane streams 0).wire.counted (λ c. c.puts < 2 ^ 63)) }
{
    let layout = Layout::new(2, 16, &[])?;
    let wires = vec![in alloc; wire(alloc)?]?;
    match Streams::new(alloc, wires, layout, format) {
        Ok(streams) => Ok(streams),
        Err(wires) => {
            drop(wires);
            Err(Fail::new("no memory"))
        }
    }
}

/// A stream of format 1 with the first version of unit 1.
fn one_sent(alloc: Global) -> Result<Streams<MemWire>, Fail>
    ensures shape { IfOk result (λ streams. streams.shape ≡ shape_of 2 16 []) }
    ensures lanes { IfOk result (λ streams. 0 < length streams.lanes) }
    ensures front { IfOk result (λ streams. heads_of (first_group (lane streams 0).groups) ≡ record { unit = record { 0 = 1 }; version = 1; at = 3 } ∷ []) }
{
    let mut streams = streams_of(alloc, 1)?;
    match streams.send(0, head(1), b"aaaaaaaaaaaaaaaa") {
        Ok(()) => Ok(streams),
        Err(failed) => {
            drop(streams);
            Err(Fail::from(failed))
        }
    }
}

/// A stream of format 2 with one group: the second version of unit 1, and the first behind it.
fn two_sent(alloc: Global) -> Result<Streams<MemWire>, Fail>
    ensures shape { IfOk result (λ streams. streams.shape ≡ shape_of 2 16 []) }
    ensures lanes { IfOk result (λ streams. 0 < length streams.lanes) }
    ensures front { IfOk result (λ streams. heads_of (first_group (lane streams 0).groups) ≡ record { unit = record { 0 = 1 }; version = 2; at = 6 } ∷ (record { unit = record { 0 = 1 }; version = 1; at = 3 } ∷ [])) }
{
    let mut streams = streams_of(alloc, 2)?;
    streams.add(head(2), b"bbbbbbbbbbbbbbbb");
    streams.add(head(1), b"aaaaaaaaaaaaaaaa");
    streams.hold_spellings();
    match streams.send_group(0) {
        Ok(()) => Ok(streams),
        Err(failed) => {
            drop(streams);
            Err(Fail::from(failed))
        }
    }
}

/// Writes what is ready on a device that has made so many calls at most; no answer where too many are not acknowledged.
fn applied(half: &mut DestHalf<MemDevice>, calls: u64) -> Option<Turn>
    requires few { calls < 100 }
    requires writes { (unit : ℕ) → write_count half.old.told.writes unit ≤ calls }
    requires calls { IfSome half.old.told.counted (λ c. (c.calls.reads ≤ calls) × (c.calls.writes ≤ calls) × (c.calls.flushes ≤ calls)) }
    ensures layout { half.new.told.shape ≡ half.old.told.shape }
    ensures writes { (unit : ℕ) → write_count half.new.told.writes unit ≤ calls + 1 }
    ensures calls { IfSome half.new.told.counted (λ c. (c.calls.reads ≤ calls + 1) × (c.calls.writes ≤ calls + 1) × (c.calls.flushes ≤ calls + 1)) }
{
    if half.freed() < MOST_CREDIT {
        Some(half.apply())
    } else {
        None
    }
}

/// What an event tells that is done.
fn done(a: u32, b: u32) -> Turn {
    Turn::Done(Note { a, b })
}

/// What is told of unit 1: the version written last, and its `at`.
fn last(half: &DestHalf<MemDevice>) -> (u32, Option<u64>)
    requires { half.now.told.shape ≡ shape_of 2 16 [] }
{
    let _ = half.device();
    (half.version(UnitId(1)), half.recorded(UnitId(1)))
}

/// The content of unit 1, empty where the device has no such unit.
fn second_unit(device: &MemDevice) -> &[u8] {
    if device.layout().units() < 2 {
        return &[];
    }
    device.content(UnitId(1))
}

/// Takes the one message of a stream.
fn deliver_one(half: &mut DestHalf<MemDevice>, alloc: Global) -> Result<Turn, Fail>
    requires { half.old ≡ fresh (shape_of 2 16 []) 4 half.old.told half.old.faults }
    ensures { half.new.told ≡ half.old.told }
{
    let mut streams = one_sent(alloc)?;
    let came = half.deliver(0, &mut streams);
    drop(streams);
    Ok(came)
}

/// Takes the group of a stream.
fn deliver_two(half: &mut DestHalf<MemDevice>, alloc: Global) -> Result<Turn, Fail>
    requires { half.old ≡ fresh (shape_of 2 16 []) 4 half.old.told half.old.faults }
    ensures { half.new.told ≡ half.old.told }
{
    let mut streams = two_sent(alloc)?;
    let came = half.deliver(0, &mut streams);
    drop(streams);
    Ok(came)
}

// In each test all calls come before the first comparison, behind which the prover knows less of the half. The half is dropped
// by a call, since its drop is written out where a scope ends.

#[test]
fn takes_and_writes_a_message(rt: HostRuntime) -> Result<(), Fail> {
    let mut half = new_half(rt.alloc())?;
    let came = deliver_one(&mut half, rt.alloc());
    let ready = half.ready();
    let written = applied(&mut half, 0);
    let told = last(&half);
    let left = half.ready();
    let is_there = second_unit(half.device()) == b"aaaaaaaaaaaaaaaa".as_slice();
    drop(half);
    assert_eq!(rt; came?, done(1, 1));
    assert_eq!(rt; written, Some(done(1, 1)));
    assert_eq!(rt; told, (1, Some(3)));
    assert_eq!(rt; [ready, left, is_there], [true, false, true]);
    Ok(())
}

/// Writes a message and acknowledges it: the answer, what is not acknowledged before and after, and how many acknowledgements
/// are on the way.
fn acknowledge(half: &mut DestHalf<MemDevice>, alloc: Global) -> Result<(Turn, [u32; 3]), Fail>
    requires half { half.old ≡ fresh (shape_of 2 16 []) 4 half.old.told half.old.faults }
    requires writes { (unit : ℕ) → write_count half.old.told.writes unit ≤ 0 }
    requires calls { IfSome half.old.told.counted (λ c. c.calls ≡ record { reads = 0; writes = 0; flushes = 0 }) }
{
    let _ = deliver_one(half, alloc)?;
    let _ = applied(half, 0);
    let mut back = BackWire::new(wire(alloc)?);
    let before = half.freed();
    let acked = half.ack(&mut back);
    let waiting = back.waiting();
    drop(back);
    Ok((acked, [before, half.freed(), waiting]))
}

#[test]
fn acknowledges_what_was_written(rt: HostRuntime) -> Result<(), Fail> {
    let mut half = new_half(rt.alloc())?;
    let acknowledged = acknowledge(&mut half, rt.alloc());
    drop(half);
    assert_eq!(rt; acknowledged?, (done(1, 0), [1, 0, 1]));
    Ok(())
}

#[test]
fn writes_versions_in_order(rt: HostRuntime) -> Result<(), Fail> {
    let mut half = new_half(rt.alloc())?;
    let came = deliver_two(&mut half, rt.alloc());
    let held = half.held(UnitId(1));
    let written = [
        applied(&mut half, 0),
        applied(&mut half, 1),
        applied(&mut half, 2),
    ];
    let is_last = second_unit(half.device()) == b"bbbbbbbbbbbbbbbb".as_slice();
    drop(half);
    assert_eq!(rt; came?, done(2, 1));
    assert_eq!(rt; held, 2);
    assert_eq!(rt;
        written,
        [
            Some(done(1, 1)),
            Some(done(1, 2)),
            Some(Turn::Wait(Why::NothingThere))
        ]
    );
    assert!(rt; is_last);
    Ok(())
}

#[test]
fn flushes(rt: HostRuntime) -> Result<(), Fail> {
    let mut half = new_half(rt.alloc())?;
    let flushed = half.flush();
    drop(half);
    assert_eq!(rt; flushed, done(0, 0));
    Ok(())
}

#[test]
fn stores_to_a_page(rt: HostRuntime) -> Result<(), Fail> {
    let mut half = new_half(rt.alloc())?;
    let mut into = [9; 64];
    let store = UnitOp {
        unit: UnitId(1),
        offset: 2,
        len: 3,
        write: Some(Pattern::new(b"ab")),
    };
    let stored = half.guest(&store, &mut into);
    let is_there = second_unit(half.device()) == b"\0\0aba\0\0\0\0\0\0\0\0\0\0\0".as_slice();
    drop(half);
    assert_eq!(rt; stored, done(0, 0));
    assert!(rt; is_there);
    Ok(())
}

#[test]
fn loads_from_a_page(rt: HostRuntime) -> Result<(), Fail> {
    let mut half = new_half(rt.alloc())?;
    let mut into = [9; 64];
    let load = UnitOp {
        unit: UnitId(0),
        offset: 14,
        len: 2,
        write: None,
    };
    let loaded = half.guest(&load, &mut into);
    drop(half);
    assert_eq!(rt; loaded, done(2, 0));
    assert_eq!(rt; [into[0], into[1], into[2]], [0, 0, 9]);
    Ok(())
}
