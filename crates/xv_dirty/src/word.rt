//! One word of 64 bits.

ghost use Rattle.std.specs.Prelude.{◌≡◌, ◌≢◌, ℕ, ◌<◌, ◌≤◌, true, false};
ghost use Rattle.xv_dirty.specs.Bits.{has};

/// Whether the word has the bit.
pub fn has_bit(word: u64, bit: u32) -> bool
    requires { bit < 64 }
    ensures { result ≡ has word bit }
{
    (word >> bit) & 1 == 1
}

/// The word with the bit set.
pub fn with_bit(word: u64, bit: u32) -> u64
    requires { bit < 64 }
    ensures there { has result bit ≡ true }
    ensures others { (i : ℕ) → i ≢ bit → has result i ≡ has word i }
{
    word | (1 << bit)
}

/// The word with the bit cleared.
pub fn without_bit(word: u64, bit: u32) -> u64
    requires { bit < 64 }
    ensures gone { has result bit ≡ false }
    ensures others { (i : ℕ) → i < 64 → i ≢ bit → has result i ≡ has word i }
{
    word & !(1 << bit)
}

/// The lowest bit of a word that is not 0.
pub fn lowest_bit(word: u64) -> u32
    requires { 0 < word }
    ensures within { result < 64 }
    ensures there { has word result ≡ true }
    ensures first { (i : ℕ) → i < result → has word i ≡ false }
{
    word.trailing_zeros()
}

/// The word with this many of the lowest bits set.
pub fn low_bits(count: u32) -> u64
    requires { count < 64 }
    ensures there { (i : ℕ) → i < count → has result i ≡ true }
    ensures none_past { (i : ℕ) → count ≤ i → has result i ≡ false }
{
    (1 << count) - 1
}
