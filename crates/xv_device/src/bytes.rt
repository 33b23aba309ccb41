//! Lists of bytes: zeros, and parts.

ghost use Rattle.std.specs.Prelude.{◌≡◌, ◌+◌, ◌≤◌, length, take, drop, replicate, IfOk};
ghost use Rattle.xv_base.specs.Pattern.{repeated};
ghost use Rattle.xv_device.specs.Device.{patched};

use std::alloc::Global;
use xv_base::{NoMemory, Pattern};

/// How many bytes are laid at once. Some C libraries fill longer runs by one instruction that repeats itself for each byte.
const RUN: usize = 2048;

/// As many zeros, laid in runs over memory that is taken at once.
pub fn zeros(alloc: Global, count: usize) -> Result<Vec<u8>, NoMemory>
    ensures { IfOk result (λ bytes. bytes.items ≡ replicate count 0) }
{
    let Ok(mut bytes) = Vec::with_capacity(alloc, count) else {
        return Err(NoMemory);
    };
    while bytes.len() < count {
        let run = (count - bytes.len()).min(RUN);
        if bytes.resize(bytes.len() + run, 0).is_err() {
            return Err(NoMemory);
        }
    }
    Ok(bytes)
}

/// The bytes from `at` on, `count` of them.
pub fn part(bytes: &[u8], at: usize, count: usize) -> &[u8]
    requires { at + count ≤ length bytes.now }
    ensures { result.now ≡ take count (drop at bytes.now) }
{
    &bytes[at..at + count]
}

/// Copies the bytes from `at` on, as many as `into` holds.
pub fn copy_out(bytes: &[u8], at: usize, into: &mut [u8])
    requires { at + length into.old ≤ length bytes.now }
    ensures { into.new ≡ take (length into.old) (drop at bytes.now) }
{
    into.copy_from_slice(&bytes[at..at + into.len()]);
}

/// Lays `from` over the bytes from `at` on.
pub fn copy_in(bytes: &mut [u8], at: usize, from: &[u8])
    requires { at + length from.now ≤ length bytes.old }
    ensures { bytes.new ≡ patched at from.now bytes.old }
{
    bytes[at..at + from.len()].copy_from_slice(from);
}

/// Lays the pattern over `count` bytes from `at` on.
pub fn fill_in(bytes: &mut [u8], at: usize, count: usize, pattern: &Pattern)
    requires { at + count ≤ length bytes.old }
    ensures { bytes.new ≡ patched at (repeated pattern.now count) bytes.old }
{
    pattern.fill(&mut bytes[at..at + count]);
}
