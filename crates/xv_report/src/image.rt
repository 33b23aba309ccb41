//! The image of a migration: the bytes of both sides.

ghost use Rattle.std.specs.Prelude.{◌≡◌, ◌<◌, ◌≤◌, ◌+◌, ◌*◌, ◌++◌, ◌∷◌, [], length, decimal, map, OnOk, OnErr};
ghost use Rattle.std.specs.Simd.Lanes.{Each1};
ghost use Rattle.xv_base.specs.Hex.{hex, hex_digit};
ghost use Rattle.xv_base.specs.Units.{units};
ghost use Rattle.xv_base.specs.Calls.{CountRose};
ghost use Rattle.xv_io.specs.Io.{TookFront, TookMore};
ghost use Rattle.xv_report.specs.Texts.{is_zero, full_line, unit_line, side_text, image_text};

use std::simd::prelude::*;
use xv_base::{Layout, LineBuf, UnitId};
use xv_device::MemDevice;
use xv_io::{Sink, WriteFault, write_text};

/// How many bytes of a unit are written at once.
const PIECE: usize = 512;

/// Writes a line for each unit whose bytes are not all zero, first those of the source and then those of the
/// destination. Takes no memory.
///
/// Errors: `WriteFault` where a write failed; the bytes taken are then a front of the image.
pub fn write_image<O: Sink>(
    layout: &Layout,
    source: &MemDevice,
    dest: &MemDevice,
    sink: &mut O,
) -> Result<(), WriteFault>
    requires source_layout { source.now.shape ≡ layout.now }
    requires dest_layout { dest.now.shape ≡ layout.now }
    ensures whole { OnOk result (TookMore (O.taken sink.old) (O.taken sink.new) (image_text source.now.contents dest.now.contents)) }
    ensures fault { OnErr result (CountRose (O.faults sink.old) (O.faults sink.new)) }
    ensures quiet { OnOk result (O.faults sink.new ≡ O.faults sink.old) }
    ensures front { TookFront (O.taken sink.old) (O.taken sink.new) (image_text source.now.contents dest.now.contents) }
{
    let _ = layout;
    write_side(b"src", source, sink)?;
    write_side(b"dst", dest, sink)
}

fn write_side<O: Sink>(side: &[u8], device: &MemDevice, sink: &mut O) -> Result<(), WriteFault>
    requires { length side.now ≤ 8 }
    ensures whole { OnOk result (TookMore (O.taken sink.old) (O.taken sink.new) (side_text side.now device.now.contents)) }
    ensures fault { OnErr result (CountRose (O.faults sink.old) (O.faults sink.new)) }
    ensures quiet { OnOk result (O.faults sink.new ≡ O.faults sink.old) }
    ensures front { TookFront (O.taken sink.old) (O.taken sink.new) (side_text side.now device.now.contents) }
{
    for unit in 0..device.layout().units() {
        write_unit(side, unit, device.content(UnitId(unit)), sink)?;
    }
    Ok(())
}

fn write_unit<O: Sink>(side: &[u8], unit: u32, bytes: &[u8], sink: &mut O) -> Result<(), WriteFault>
    requires { length side.now ≤ 8 }
    ensures whole { OnOk result (TookMore (O.taken sink.old) (O.taken sink.new) (unit_line side.now unit bytes.now)) }
    ensures fault { OnErr result (CountRose (O.faults sink.old) (O.faults sink.new)) }
    ensures quiet { OnOk result (O.faults sink.new ≡ O.faults sink.old) }
    ensures front { TookFront (O.taken sink.old) (O.taken sink.new) (unit_line side.now unit bytes.now) }
{
    if is_zero(bytes) {
        Ok(())
    } else {
        write_line(side, unit, bytes, sink)
    }
}

fn write_line<O: Sink>(side: &[u8], unit: u32, bytes: &[u8], sink: &mut O) -> Result<(), WriteFault>
    requires { length side.now ≤ 8 }
    ensures whole { OnOk result (TookMore (O.taken sink.old) (O.taken sink.new) (full_line side.now unit bytes.now)) }
    ensures fault { OnErr result (CountRose (O.faults sink.old) (O.faults sink.new)) }
    ensures quiet { OnOk result (O.faults sink.new ≡ O.faults sink.old) }
    ensures front { TookFront (O.taken sink.old) (O.taken sink.new) (full_line side.now unit bytes.now) }
{
    write_text(sink, unit_head(side, unit).bytes())?;
    write_hex(bytes, sink)?;
    write_text(sink, b"\n")
}

fn write_hex<O: Sink>(bytes: &[u8], sink: &mut O) -> Result<(), WriteFault>
    ensures whole { OnOk result (TookMore (O.taken sink.old) (O.taken sink.new) (hex bytes.now)) }
    ensures fault { OnErr result (CountRose (O.faults sink.old) (O.faults sink.new)) }
    ensures quiet { OnOk result (O.faults sink.new ≡ O.faults sink.old) }
    ensures front { TookFront (O.taken sink.old) (O.taken sink.new) (hex bytes.now) }
{
    let mut done = 0;
    while done < bytes.len() {
        let next = bytes.len().min(done + PIECE);
        write_piece(&bytes[done..next], &mut [0; 2 * PIECE], sink)?;
        done = next;
    }
    Ok(())
}

/// Writes the digits of the bytes, which fit into `room`.
fn write_piece<O: Sink>(bytes: &[u8], room: &mut [u8], sink: &mut O) -> Result<(), WriteFault>
    requires { 2 * length bytes.now ≤ length room.old }
    ensures whole { OnOk result (TookMore (O.taken sink.old) (O.taken sink.new) (hex bytes.now)) }
    ensures fault { OnErr result (CountRose (O.faults sink.old) (O.faults sink.new)) }
    ensures quiet { OnOk result (O.faults sink.new ≡ O.faults sink.old) }
    ensures front { TookFront (O.taken sink.old) (O.taken sink.new) (hex bytes.now) }
{
    let digits = &mut room[..2 * bytes.len()];
    put_hex(bytes, digits);
    write_text(sink, digits)
}

// What stands before a unit's bytes.
fn unit_head(side: &[u8], unit: u32) -> LineBuf
    requires { length side.now ≤ 8 }
    ensures { result ≡ side.now ++ 32 ∷ decimal unit ++ 32 ∷ [] }
{
    let mut line = LineBuf::new();
    line.push_all(side);
    line.push(b' ');
    line.push_number(unit);
    line.push(b' ');
    line
}

/// Writes two digits a byte over `digits`, those of sixteen bytes at once.
fn put_hex(bytes: &[u8], digits: &mut [u8])
    requires { length digits.old ≡ 2 * length bytes.now }
    ensures { digits.new ≡ hex bytes.now }
{
    let mut done = 0;
    while bytes.len() - done >= 16 {
        let lanes = digits_of(u8x16::from_slice(&bytes[done..]));
        lanes.copy_to_slice(&mut digits[2 * done..]);
        done += 16;
    }
    for i in done..bytes.len() {
        digits[2 * i] = hex_digit(bytes[i] / 16);
        digits[2 * i + 1] = hex_digit(bytes[i] % 16);
    }
}

/// The digits of sixteen bytes.
#[inline(always)]
fn digits_of(bytes: u8x16) -> u8x32
    requires sixteen { length bytes ≡ 16 }
    ensures { result ≡ hex bytes }
{
    let high = hex_digits(bytes >> u8x16::splat(4));
    let low = hex_digits(bytes & u8x16::splat(15));
    high.shuffle::<32>(
        low,
        [
            0, 16, 1, 17, 2, 18, 3, 19, 4, 20, 5, 21, 6, 22, 7, 23, 8, 24, 9, 25, 10, 26, 11, 27,
            12, 28, 13, 29, 14, 30, 15, 31,
        ],
    )
}

/// The hexadecimal digits of sixteen numbers below 16.
#[inline(always)]
fn hex_digits(numbers: u8x16) -> u8x16
    requires sixteen { length numbers ≡ 16 }
    requires small { Each1 (λ n. n < 16) numbers }
    ensures { result ≡ map hex_digit numbers }
{
    u8x16::from_array(*b"0123456789abcdef").swizzle_dyn(numbers)
}

/// The hexadecimal digit of a number below 16.
fn hex_digit(n: u8) -> u8
    requires { n < 16 }
    ensures { result ≡ hex_digit n }
{
    let to_letter = if n < 10 { 0 } else { b'a' - 10 - b'0' };
    b'0' + n + to_letter
}

/// Whether all bytes are zero. Joins them without a branch, so that LLVM takes many at once.
fn is_zero(bytes: &[u8]) -> bool
    ensures { result ≡ is_zero bytes.now }
{
    let mut joined = 0;
    for byte in bytes {
        joined |= *byte;
    }
    joined == 0
}
