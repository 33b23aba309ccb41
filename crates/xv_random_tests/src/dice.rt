//! Numbers that look random and follow from one number.

/// A generator whose state goes up by a fixed step, and is mixed for each number that it gives, so that the numbers of
/// two neighbouring states have nothing in common.
pub(crate) struct Dice {
    state: u64,
}

impl Drop for Dice {
    fn drop(self) {
        let Dice { state: _ } = self;
    }
}

impl Dice {
    /// The generator of a number.
    pub(crate) fn new(number: u64) -> Dice {
        Dice {
            state: mixed(number),
        }
    }

    /// A number below 2^32.
    fn throw(&mut self) -> u64 {
        self.state = self.state.wrapping_add(0x9e37_79b9_7f4a_7c15);
        mixed(self.state) / 0x1_0000_0000
    }

    /// A number below this one, which is at most 2^32; 0 below 0.
    pub(crate) fn below(&mut self, bound: u64) -> u64 {
        if bound == 0 {
            return 0;
        }
        self.throw() % bound
    }

    /// A number from the first to the second, which is not below it.
    pub(crate) fn between(&mut self, least: u64, most: u64) -> u64 {
        least.wrapping_add(self.below(most.wrapping_sub(least).wrapping_add(1)))
    }

    /// A number from the first to the second; each of these two comes a quarter of the time and more.
    pub(crate) fn edge(&mut self, least: u64, most: u64) -> u64 {
        match self.below(4) {
            0 => least,
            1 => most,
            _ => self.between(least, most),
        }
    }

    /// A number from the first to the second, mostly small: in a quarter of the throws any, in each other quarter from the
    /// first half, quarter or eighth alone.
    pub(crate) fn few(&mut self, least: u64, most: u64) -> u64 {
        let span = most.wrapping_sub(least);
        let part = match self.below(4) {
            0 => span,
            1 => span / 2,
            2 => span / 4,
            _ => span / 8,
        };
        least.wrapping_add(self.below(part.wrapping_add(1)))
    }

    /// One of these numbers; 0 where there are none.
    pub(crate) fn pick(&mut self, numbers: &[u64]) -> u64 {
        let place = self.below(numbers.len() as u64) as usize;
        match numbers.get(place) {
            Some(number) => *number,
            None => 0,
        }
    }
}

/// The bits of a number stirred, no two numbers alike.
fn mixed(number: u64) -> u64 {
    let once = (number ^ (number / 0x4000_0000)).wrapping_mul(0xbf58_476d_1ce4_e5b9);
    let twice = (once ^ (once / 0x800_0000)).wrapping_mul(0x94d0_49bb_1331_11eb);
    twice ^ (twice / 0x8000_0000)
}
