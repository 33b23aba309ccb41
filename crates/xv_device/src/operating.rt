//! A guest's operation on a device.

ghost use Rattle.std.specs.Prelude.{◌≡◌, ◌≤◌, false, Some, length, take, is_some, is_err, OnOk, IfSome};
ghost use Rattle.xv_base.specs.Legal.{IsLegal};
ghost use Rattle.xv_base.specs.Pattern.{repeated};
ghost use Rattle.xv_device.specs.Told.{CallMade, HasRoomToCount, IsSized};
ghost use Rattle.xv_device.specs.Operations.{operation_call, AreRead};

use crate::device::UnitDevice;
use xv_base::{Failed, Layout, Pattern, UnitOp};

/// Carries out a guest's operation by one call of the device. What a read gives stands in the first bytes of `into`. What a
/// write is to lay stands in the first bytes of `unit`, whatever the answer. Each has room for the operation's bytes. A block
/// is written whole.
/// Errors: the call failed.
pub fn operate<D: UnitDevice>(
    device: &mut D,
    layout: &Layout,
    op: &UnitOp,
    unit: &mut [u8],
    into: &mut [u8],
) -> Result<(), Failed>
    requires layout { (D.told device.old).shape ≡ layout.now }
    requires legal { IsLegal layout.now op.now }
    requires countable { HasRoomToCount (D.told device.old) }
    requires wide { op.now.len ≤ length unit.old }
    requires room { is_some op.now.write ≡ false → op.now.len ≤ length into.old }
    ensures made { CallMade (operation_call layout.now op.now) (is_err result) (D.told device.old) (D.told device.new) (D.faults device.old) (D.faults device.new) }
    ensures reads { OnOk result (AreRead op.now into.new (D.told device.old)) }
    ensures laid { IfSome op.now.write (λ pattern. take op.now.len unit.new ≡ repeated pattern op.now.len) }
    ensures sized { IsSized (D.told device.old) }
{
    match op.write {
        Some(pattern) => write_pattern(device, layout, op, &pattern, unit),
        None => device.read(op.unit, op.offset, &mut into[..op.len as usize]),
    }
}

/// Writes a pattern over an operation's part of a page, or over a whole block. It is laid before in the first bytes of
/// `unit`.
fn write_pattern<D: UnitDevice>(
    device: &mut D,
    layout: &Layout,
    op: &UnitOp,
    pattern: &Pattern,
    unit: &mut [u8],
) -> Result<(), Failed>
    requires layout { (D.told device.old).shape ≡ layout.now }
    requires legal { IsLegal layout.now op.now }
    requires countable { HasRoomToCount (D.told device.old) }
    requires wide { op.now.len ≤ length unit.old }
    requires write { op.now.write ≡ Some pattern.now }
    ensures made { CallMade (operation_call layout.now op.now) (is_err result) (D.told device.old) (D.told device.new) (D.faults device.old) (D.faults device.new) }
    ensures laid { take op.now.len unit.new ≡ repeated pattern.now op.now.len }
    ensures sized { IsSized (D.told device.old) }
{
    fill(unit, op.len as usize, pattern);
    let bytes = &unit[..op.len as usize];
    if layout.is_page(op.unit) {
        device.patch(op.unit, op.offset, bytes)
    } else {
        device.write(op.unit, bytes)
    }
}

/// Lays a pattern over the first bytes of a buffer.
fn fill(buffer: &mut [u8], count: usize, pattern: &Pattern)
    requires { count ≤ length buffer.old }
    ensures { take count buffer.new ≡ repeated pattern.now count }
{
    pattern.fill(&mut buffer[..count]);
}
