//! Numbers and zeros in bytes.

ghost use Rattle.std.specs.Prelude.{◌≡◌, ◌+◌, ◌≤◌, ◌++◌, length, take, drop};
ghost use Rattle.xv_frame.specs.Fields.{short_at, word_at, long_at, all_zero, zero_at};

/// Writes `bytes` from `at` on, and answers where they end.
pub fn put(into: &mut [u8], at: usize, bytes: &[u8]) -> usize
    requires { at + length bytes.now ≤ length into.old }
    ensures end { result ≡ at + length bytes.now }
    ensures written { into.new ≡ take at into.old ++ (bytes.now ++ drop result into.old) }
{
    let end = at + bytes.len();
    into[at..end].copy_from_slice(bytes);
    end
}

/// The number of two bytes from `at` on.
pub fn short_at(bytes: &[u8], at: usize) -> u16
    requires { at + 2 ≤ length bytes.now }
    ensures { result ≡ short_at bytes.now at }
{
    u16::from_be_bytes([bytes[at], bytes[at + 1]])
}

/// The number of four bytes from `at` on.
pub fn word_at(bytes: &[u8], at: usize) -> u32
    requires { at + 4 ≤ length bytes.now }
    ensures { result ≡ word_at bytes.now at }
{
    u32::from_be_bytes([bytes[at], bytes[at + 1], bytes[at + 2], bytes[at + 3]])
}

/// The number of eight bytes from `at` on.
pub fn long_at(bytes: &[u8], at: usize) -> u64
    requires { at + 8 ≤ length bytes.now }
    ensures { result ≡ long_at bytes.now at }
{
    u64::from_be_bytes([
        bytes[at],
        bytes[at + 1],
        bytes[at + 2],
        bytes[at + 3],
        bytes[at + 4],
        bytes[at + 5],
        bytes[at + 6],
        bytes[at + 7],
    ])
}

/// Whether `count` bytes from `at` on are zero.
pub fn is_zero(bytes: &[u8], at: usize, count: usize) -> bool
    requires { at + count ≤ length bytes.now }
    ensures { result ≡ zero_at bytes.now at count }
{
    all_zero(&bytes[at..at + count])
}

/// Whether all bytes are zero.
pub fn all_zero(bytes: &[u8]) -> bool
    ensures { result ≡ all_zero bytes.now }
{
    bytes.iter().all(|b| *b == 0)
}
