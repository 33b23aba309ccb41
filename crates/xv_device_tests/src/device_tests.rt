ghost use Rattle.std.specs.Prelude.{◌≡◌, ◌<◌, ◌≤◌, ◌∷◌, [], length, IfOk};
ghost use Rattle.xv_base.specs.Units.{units, size, shape_of};
ghost use Rattle.xv_device.specs.Device.{FlushAll};
ghost use Rattle.xv_device.specs.Told.{MayCall, HasRoomToCount};
ghost use Rattle.xv_device.specs.Memory.{told};

use std::alloc::Global;
use std::process::Abort;
use std::test::Fail;
use xv_base::{DiskShape, Failed, Init, Layout, Pattern, UnitId, UnitOp};
use xv_device::{DevicePlan, MemDevice, UnitDevice, operate};

fn plan(alloc: Global, reads: u32, writes: u32, flushes: u32) -> Result<DevicePlan, Fail> {
    Ok(DevicePlan {
        reads: vec![in alloc; reads]?,
        writes: vec![in alloc; writes]?,
        flushes: vec![in alloc; flushes]?,
    })
}

#[test]
fn changes_one_unit_beside_its_neighbours(rt: HostRuntime) -> Result<(), Fail> {
    let alloc = rt.alloc();
    let layout = Layout::new(3, 16, &[])?;
    let init = [Init {
        unit: UnitId(1),
        pattern: Pattern::new(b"cd"),
    }];
    let mut device = MemDevice::new(alloc, &layout, &init, plan(alloc, 0, 0, 0)?)?;
    let first = device.patch(UnitId(1), 0, b"ab");
    let second = device.patch(UnitId(1), 14, b"yz");
    assert_eq!(rt; (first, second), (Ok(()), Ok(())));
    assert_eq!(rt; device.content(UnitId(0)), [0; 16].as_slice());
    assert_eq!(rt; device.content(UnitId(1)), b"abcdcdcdcdcdcdyz".as_slice());
    assert_eq!(rt; device.content(UnitId(2)), [0; 16].as_slice());
    assert_eq!(rt; device.written(UnitId(1)), 2);
    drop(device);
    Ok(())
}

#[test]
fn fails_at_the_planned_calls(rt: HostRuntime) -> Result<(), Fail> {
    let alloc = rt.alloc();
    let layout = Layout::new(1, 16, &[])?;
    let mut device = MemDevice::new(alloc, &layout, &[], plan(alloc, 1, 2, 1)?)?;
    let mut into = [9; 2];
    assert_eq!(rt; device.read(UnitId(0), 14, &mut into), Err(Failed));
    assert_eq!(rt; device.read(UnitId(0), 14, &mut into), Ok(()));
    assert_eq!(rt; into.as_slice(), [0, 0].as_slice());
    assert_eq!(rt; device.write(UnitId(0), b"0123456789abcdef"), Ok(()));
    assert_eq!(rt; device.patch(UnitId(0), 0, b"-"), Err(Failed));
    assert_eq!(rt; device.content(UnitId(0)), b"0123456789abcdef".as_slice());
    assert_eq!(rt; device.flush(), Err(Failed));
    assert_eq!(rt; flush_through(&mut device), Ok(()));
    drop(device);
    Ok(())
}

/// A device of one unit, of which the calls of one number are to fail.
fn failing(alloc: Global, number: u32) -> Result<MemDevice, Fail>
    ensures { IfOk result (λ device. (units device.shape ≡ 1) × (size device.shape 0 ≡ 16) × (device.writes ≡ 0 ∷ [])) }
{
    let layout = Layout::new(1, 16, &[])?;
    Ok(MemDevice::new(alloc, &layout, &[], plan(alloc, number, number, number)?)?)
}

/// Which of the first two reads fail, where those of one number are to.
fn failed_reads(alloc: Global, number: u32) -> Result<[bool; 2], Fail> {
    let mut device = failing(alloc, number)?;
    let mut into = [9; 2];
    let first = device.read(UnitId(0), 14, &mut into).is_err();
    let second = device.read(UnitId(0), 0, &mut into).is_err();
    drop(device);
    Ok([first, second])
}

/// Which of the first two writes fail, where those of one number are to.
fn failed_writes(alloc: Global, number: u32) -> Result<[bool; 2], Fail> {
    let mut device = failing(alloc, number)?;
    let writes = match device.write(UnitId(0), b"0123456789abcdef") {
        Ok(()) => [false, device.patch(UnitId(0), 15, b"-").is_err()],
        Err(Failed) => [true, device.patch(UnitId(0), 15, b"-").is_err()],
    };
    drop(device);
    Ok(writes)
}

/// Which of the first two flushes fail, where those of one number are to.
fn failed_flushes(alloc: Global, number: u32) -> Result<[bool; 2], Fail> {
    let mut device = failing(alloc, number)?;
    let first = device.flush().is_err();
    let second = device.flush().is_err();
    drop(device);
    Ok([first, second])
}

/// Compares which of the first two calls of each kind fail, where those of one number are to.
fn fails_so(rt: &impl Abort, alloc: Global, number: u32, want: [bool; 2]) -> Result<(), Fail> {
    let reads = failed_reads(alloc, number)?;
    let writes = failed_writes(alloc, number)?;
    let flushes = failed_flushes(alloc, number)?;
    assert_eq!(rt; [reads, writes, flushes], [want; 3], "call {number}");
    Ok(())
}

#[test]
fn fails_at_the_number_of_its_plan_alone(rt: HostRuntime) -> Result<(), Fail> {
    fails_so(&rt, rt.alloc(), 1, [true, false])?;
    fails_so(&rt, rt.alloc(), 2, [false, true])?;
    fails_so(&rt, rt.alloc(), 3, [false, false])
}

/// Flushes any device.
fn flush_through<D: UnitDevice>(device: &mut D) -> Result<(), Failed>
    requires { MayCall FlushAll (D.told device.old) }
{
    device.flush()
}

#[test]
fn carries_out_operations(rt: HostRuntime) -> Result<(), Fail> {
    let layout = Layout::new(2, 16, &[])?;
    carries_out(
        &rt,
        rt.alloc(),
        &layout,
        1,
        Some(Pattern::new(b"ab")),
        b"cabacdcdcdcdcdcd",
        &[0; 3],
    )?;
    carries_out(
        &rt,
        rt.alloc(),
        &layout,
        3,
        None,
        b"cdcdcdcdcdcdcdcd",
        b"dcd",
    )
}

/// Carries out an operation on a device whose unit 1 is filled, and compares that unit and what was read.
fn carries_out(
    rt: &impl Abort,
    alloc: Global,
    layout: &Layout,
    offset: u32,
    write: Option<Pattern>,
    unit: &[u8],
    read: &[u8],
) -> Result<(), Fail>
    requires shape { layout.now ≡ shape_of 2 16 [] }
    requires within { offset ≤ 13 }
{
    let mut into = [0; 3];
    let mut device = one_filled(alloc, layout)?;
    let done = carry_out(&mut device, layout, offset, write, &mut into);
    assert_eq!(rt; done, Ok(()));
    assert_eq!(rt; device.content(UnitId(1)), unit);
    assert_eq!(rt; into.as_slice(), read);
    drop(device);
    Ok(())
}

/// Carries out an operation on three bytes of unit 1 of any device of two pages.
#[tactic(auto, using(crate::proofs::OnPages::on_page))]
fn carry_out<D: UnitDevice>(
    device: &mut D,
    layout: &Layout,
    offset: u32,
    write: Option<Pattern>,
    into: &mut [u8],
) -> Result<(), Failed>
    requires shape { layout.now ≡ shape_of 2 16 [] }
    requires layout { (D.told device.old).shape ≡ layout.now }
    requires countable { HasRoomToCount (D.told device.old) }
    requires within { offset ≤ 13 }
    requires room { length into.old ≡ 3 }
    ensures { (D.told device.new).shape ≡ layout.now }
{
    let op = UnitOp {
        unit: UnitId(1),
        offset,
        len: 3,
        write,
    };
    operate(device, layout, &op, &mut [0; 16], into)
}

/// A device whose unit 1 is filled.
fn one_filled(alloc: Global, layout: &Layout) -> Result<MemDevice, Fail>
    requires { 1 < units layout.now }
    ensures { IfOk result (λ device. (device.shape ≡ layout.now) × HasRoomToCount (told device)) }
{
    let init = [Init {
        unit: UnitId(1),
        pattern: Pattern::new(b"cd"),
    }];
    Ok(MemDevice::new(alloc, layout, &init, plan(alloc, 0, 0, 0)?)?)
}
