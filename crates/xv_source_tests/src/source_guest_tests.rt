ghost use Rattle.std.specs.Prelude.{◌≡◌, [], ◌∷◌, Some, IfOk, replicate};
ghost use Rattle.xv_base.specs.Units.{shape_of};
ghost use Rattle.xv_source.specs.Limits.{fresh};

use std::alloc::Global;
use std::test::Fail;
use xv_base::{
    Config, DiskShape, GuestId, Layout, NoMemory, Note, Pattern, Turn, UnitId, UnitOp, Why,
};
use xv_device::{DevicePlan, MemDevice};
use xv_source::SourceHalf;

pub const CONFIG: Config = Config {
    streams: 1,
    credit: 8,
    outbox: 8,
    region: 1,
    rounds: 2,
    dirty: 0,
    cancel: None,
};

pub const DISK: DiskShape = DiskShape {
    blocks: 4,
    block_size: 16,
};

/// A half over a device of zeros, no call of which fails.
pub fn half_over(alloc: Global) -> Result<SourceHalf<MemDevice>, Fail>
    ensures half { IfOk result (λ half. half ≡ fresh (shape_of 1 16 (DISK ∷ [])) CONFIG half.told half.faults) }
    ensures laid { IfOk result (λ half. half.told.shape ≡ shape_of 1 16 (DISK ∷ [])) }
    ensures written { IfOk result (λ half. half.told.writes ≡ replicate 5 0) }
    ensures counted { IfOk result (λ half. half.told.counted ≡ Some (record { plan = record { reads = []; writes = []; flushes = [] }; calls = record { reads = 0; writes = 0; flushes = 0 } })) }
{
    let layout = Layout::new(1, 16, &[DISK])?;
    let plan = DevicePlan {
        reads: Vec::new(alloc),
        writes: Vec::new(alloc),
        flushes: Vec::new(alloc),
    };
    let device = MemDevice::new(alloc, &layout, &[], plan)?;
    match SourceHalf::new(alloc, &layout, &CONFIG, 1, device) {
        Ok(half) => Ok(half),
        Err(device) => {
            drop(device);
            Err(Fail::from(NoMemory))
        }
    }
}

/// The answer of an event that is done.
pub fn done(a: u32, b: u32) -> Turn
    ensures { result ≡ Turn.Done (record { a = a; b = b }) }
{
    Turn::Done(Note { a, b })
}

/// A write of a whole block of 16 bytes.
fn write(unit: u32, byte: u8) -> UnitOp
    ensures { result ≡ record { unit = record { 0 = unit }; offset = 0; len = 16; write = Some (byte ∷ []) } }
{
    UnitOp {
        unit: UnitId(unit),
        offset: 0,
        len: 16,
        write: Some(Pattern::new(&[byte])),
    }
}

#[test]
fn writes_ahead(rt: HostRuntime) -> Result<(), Fail> {
    let mut half = half_over(rt.alloc())?;
    let mut into = [0; 64];
    let op = write(4, 0xaa);
    let waits = half.guest_waits(GuestId(0), &op);
    let turns = [half.guest(GuestId(0), &op, 0, &mut into)];
    let issued = half.issued(UnitId(4));
    let is_written = half.device().content(UnitId(4)) == [0xaa; 16].as_slice();
    drop(half);
    assert_eq!(rt; waits, None);
    assert_eq!(rt; turns, [done(0, 0)]);
    assert_eq!(rt; issued, 0);
    assert!(rt; is_written);
    Ok(())
}

#[test]
fn mirrors_a_write_behind(rt: HostRuntime) -> Result<(), Fail> {
    let mut half = half_over(rt.alloc())?;
    let mut into = [0; 64];
    let op = write(1, 0xbb);
    let turns = [
        half.begin(0),
        half.read(0),
        half.advance(0, 0),
        half.guest(GuestId(0), &op, 0, &mut into),
    ];
    let messages = half.outbox(UnitId(1));
    drop(half);
    assert_eq!(rt; turns, [done(1, 0), done(1, 0), done(1, 0), done(0, 0)]);
    assert_eq!(rt; messages, 2);
    Ok(())
}

#[test]
fn queues_a_write_inside(rt: HostRuntime) -> Result<(), Fail> {
    let mut half = half_over(rt.alloc())?;
    let mut into = [0; 64];
    let op = write(1, 0xcc);
    let turns = [
        half.begin(0),
        half.guest(GuestId(0), &op, 0, &mut into),
        half.release(0, &op, 0),
    ];
    drop(half);
    assert_eq!(rt; turns, [done(1, 0), Turn::Queued, Turn::Wait(Why::NotNow)]);
    Ok(())
}

#[test]
fn releases_a_write_alone(rt: HostRuntime) -> Result<(), Fail> {
    let mut half = half_over(rt.alloc())?;
    let mut into = [0; 64];
    let op = write(1, 0xee);
    let turns = [
        half.begin(0),
        half.guest(GuestId(0), &op, 0, &mut into),
        half.release_alone(0, &op),
    ];
    drop(half);
    assert_eq!(rt; turns, [done(1, 0), Turn::Queued, done(0, 0)]);
    Ok(())
}

#[test]
fn reads_alone(rt: HostRuntime) -> Result<(), Fail> {
    let mut half = half_over(rt.alloc())?;
    let mut into = [1; 64];
    let op = UnitOp {
        unit: UnitId(0),
        offset: 12,
        len: 4,
        write: None,
    };
    let turns = [half.guest_alone(&op, &mut into)];
    drop(half);
    assert_eq!(rt; turns, [done(4, 0)]);
    let read = [into[0], into[1], into[2], into[3], into[4]];
    assert_eq!(rt; read, [0, 0, 0, 0, 1]);
    Ok(())
}

#[test]
fn releases_a_write_behind(rt: HostRuntime) -> Result<(), Fail> {
    let mut half = half_over(rt.alloc())?;
    let mut into = [0; 64];
    let op = write(1, 0xcc);
    let turns = [
        half.begin(0),
        half.guest(GuestId(0), &op, 0, &mut into),
        half.read(0),
        half.advance(0, 0),
        half.release(0, &op, 0),
    ];
    let messages = half.outbox(UnitId(1));
    drop(half);
    assert_eq!(rt;
        turns,
        [done(1, 0), Turn::Queued, done(1, 0), done(1, 0), done(0, 0)]
    );
    assert_eq!(rt; messages, 2);
    Ok(())
}
