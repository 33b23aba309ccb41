//! Takes from a wire until enough bytes are gathered.

ghost use Rattle.std.specs.Prelude.{◌≡◌, ℕ, ◌+◌, ◌-◌, ◌<◌, ◌≤◌, ◌++◌, length, take, drop, min, max, false};
ghost use Rattle.xv_streams.specs.Taking.{TakesMade};

use xv_wire::Wire;

/// How many bytes are gathered, and whether a take failed before there were enough.
#[derive(Clone, Copy)]
pub struct Filled {
    pub count: usize,
    pub failed: bool,
}

/// Gathers bytes behind the first `have` of the buffer until there are `want`, none are in transit, or a take fails.
pub fn fill<W: Wire>(wire: &mut W, buffer: &mut [u8], have: usize, want: usize) -> Filled
    requires within { have ≤ want }
    requires room { want ≤ length buffer.old }
    ensures more { have ≤ result.count }
    ensures most { result.count ≤ want }
    ensures there { result.count - have ≤ length (W.told wire.old).transit }
    ensures gathered { take result.count buffer.new ≡ take have buffer.old ++ take (result.count - have) (W.told wire.old).transit }
    ensures made { TakesMade (result.count - have) result.failed (want - have) (W.told wire.old) (W.told wire.new) (W.faults wire.old) (W.faults wire.new) }
    ensures enough { result.failed ≡ false → result.count ≡ min want (have + length (W.told wire.old).transit) }
{
    let mut count = have;
    while count < want {
        match wire.take(&mut buffer[count..want]) {
            Ok(0) => {
                return Filled {
                    count,
                    failed: false,
                };
            }
            Ok(moved) => count += moved as usize,
            Err(_) => {
                return Filled {
                    count,
                    failed: true,
                };
            }
        }
    }
    Filled {
        count,
        failed: false,
    }
}
