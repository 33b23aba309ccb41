//! How many texts are read, and how many are refused for each reason.

use xv_base::{LineFault, LineWhy, TextError};

/// What becomes of a text.
#[derive(Clone, Copy, Debug, PartialEq, Eq)]
pub(crate) enum Fate {
    Read,
    Refused,
    Unended,
    BadWord,
    Order,
    BadNumber,
    BadHex,
    Limit,
    OutOfRange,
    CrossesPage,
    TooMany,
}

/// How many texts have each fate.
#[derive(Clone, Copy, Debug)]
pub(crate) struct Tally {
    counts: [u64; 11],
}

impl Tally {
    pub(crate) fn new() -> Tally {
        Tally { counts: [0; 11] }
    }

    /// Counts a text with this fault.
    pub(crate) fn count(&mut self, fault: Option<TextError>) {
        match fault {
            None => self.add(Fate::Read),
            Some(TextError::Fault(LineFault { line: _, why })) => {
                self.add(Fate::Refused);
                self.add(fate_of(why));
            }
            Some(TextError::NoMemory) => {}
        }
    }

    fn add(&mut self, fate: Fate) {
        let place = place_of(fate) % 11;
        self.counts[place] = self.counts[place].wrapping_add(1);
    }

    /// How many texts have had this fate.
    pub(crate) fn of(&self, fate: Fate) -> u64 {
        self.counts[place_of(fate) % 11]
    }
}

fn fate_of(why: LineWhy) -> Fate {
    match why {
        LineWhy::Unended => Fate::Unended,
        LineWhy::BadWord => Fate::BadWord,
        LineWhy::Order => Fate::Order,
        LineWhy::BadNumber => Fate::BadNumber,
        LineWhy::BadHex => Fate::BadHex,
        LineWhy::Limit(_) => Fate::Limit,
        LineWhy::OutOfRange => Fate::OutOfRange,
        LineWhy::CrossesPage => Fate::CrossesPage,
        LineWhy::TooMany => Fate::TooMany,
    }
}

fn place_of(fate: Fate) -> usize {
    match fate {
        Fate::Read => 0,
        Fate::Refused => 1,
        Fate::Unended => 2,
        Fate::BadWord => 3,
        Fate::Order => 4,
        Fate::BadNumber => 5,
        Fate::BadHex => 6,
        Fate::Limit => 7,
        Fate::OutOfRange => 8,
        Fate::CrossesPage => 9,
        Fate::TooMany => 10,
    }
}
