//! One level of bits.

ghost use Rattle.std.specs.Prelude.{◌≡◌, ℕ, ◌<◌, ◌-◌, ◌^◌, ◌/◌, ◌↔◌, true, false, IsTrue, length, get_or, slice_set, replicate, IfOk};
ghost use Rattle.std.specs.Int.{div_ceil};
ghost use Rattle.xv_dirty.specs.Pages.{member};
ghost use Rattle.xv_dirty.specs.Bits.{is_set, HasBits};
ghost use Rattle.xv_dirty.specs.Levels.{IsClear, IsFirstOf, IsLeast};

use crate::word::{has_bit, low_bits, lowest_bit, with_bit, without_bit};
use std::alloc::Global;
use std::marker::Model;
use xv_base::NoMemory;

/// How many bits a word has, for which one bit of the level above stands.
pub const WORD: usize = 64;

/// A number of bits, kept in words.
#[derive(Drop)]
pub struct Level {
    words: Vec<u64>,
    len: usize,
}

impl Model for Level {
    ghost use Rattle.std.specs.Prelude.{List, Bool};
    ghost use Rattle.xv_dirty.specs.Bits.{bits_of, HasBits};

    ghost Value = { List Bool };

    ghost view = { λ l. bits_of l.words.items l.len };

    ghost invariant = { λ l. HasBits l.words.items l.len };
}

impl Level {
    /// A level of `len` bits, all of them set or none.
    pub fn of(alloc: Global, len: usize, set: bool) -> Result<Level, NoMemory>
        ensures { IfOk result (λ level. level ≡ replicate len set) }
    {
        if set {
            Level::full(alloc, len)
        } else {
            Level::empty(alloc, len)
        }
    }

    /// A level of `len` bits, none of them set.
    fn empty(alloc: Global, len: usize) -> Result<Level, NoMemory>
        ensures { IfOk result (λ level. level ≡ replicate len false) }
    {
        let Ok(words) = Vec::from_elem(alloc, 0, len.div_ceil(WORD)) else {
            return Err(NoMemory);
        };
        Ok(Level { words, len })
    }

    /// A level of `len` bits, all of them set.
    fn full(alloc: Global, len: usize) -> Result<Level, NoMemory>
        ensures { IfOk result (λ level. level ≡ replicate len true) }
    {
        let Ok(mut words) = Vec::from_elem(alloc, u64::MAX, len.div_ceil(WORD)) else {
            return Err(NoMemory);
        };
        clear_past(&mut words, len);
        Ok(Level { words, len })
    }

    /// The least bit that is set in a word which has one.
    pub fn first_of(&self, word: usize) -> usize
        requires { ¬ IsClear self.now word }
        ensures first { IsFirstOf self.now word result }
        ensures within { result < length self.now }
    {
        let bit = lowest_bit(self.words[word]);
        word * WORD + bit as usize
    }

    /// The least bit that is set, or none where none is. It looks at one word after another.
    pub fn first(&self) -> Option<usize>
        ensures { IsLeast self.now result }
    {
        for word in 0..self.words.len() {
            if self.words[word] != 0 {
                return Some(self.first_of(word));
            }
        }
        None
    }

    /// Whether the bit is set.
    pub fn has(&self, i: usize) -> bool
        requires { i < length self.now }
        ensures { result ≡ member self.now i }
    {
        has_bit(self.words[i / WORD], (i % WORD) as u32)
    }

    /// Sets the bit.
    pub fn insert(&mut self, i: usize)
        requires { i < length self.old }
        ensures { self.new ≡ slice_set self.old i true }
    {
        self.words[i / WORD] = with_bit(self.words[i / WORD], (i % WORD) as u32);
    }

    /// Clears the bit, and answers whether its word has no bit left.
    pub fn remove(&mut self, i: usize) -> bool
        requires { i < length self.old }
        ensures gone { self.new ≡ slice_set self.old i false }
        ensures clear { IsTrue result ↔ IsClear self.new (i / 64) }
    {
        let word = without_bit(self.words[i / WORD], (i % WORD) as u32);
        self.words[i / WORD] = word;
        word == 0
    }
}

/// Leaves the first `len` bits of words that are all set.
fn clear_past(words: &mut [u64], len: usize)
    requires { words.old ≡ replicate (div_ceil len 64) (2 ^ 64 - 1) }
    ensures bits { HasBits words.new len }
    ensures all { (i : ℕ) → i < len → is_set words.new i ≡ true }
{
    if len % WORD == 0 {
        return;
    }
    words[len / WORD] = low_bits((len % WORD) as u32);
}
