//! The messages that were written and are not yet acknowledged.

ghost use Rattle.std.specs.Prelude.{◌≡◌, ◌+◌, ◌<◌, ◌≤◌};

use std::marker::Model;
use xv_base::MOST_CREDIT;

/// How many messages the next acknowledgement is of: at most `MOST_CREDIT`, which is as many as one can tell.
#[derive(Debug, Drop)]
pub struct Freed {
    count: u32,
}

impl Model for Freed {
    ghost use Rattle.std.specs.Prelude.{ℕ, ◌≤◌};
    ghost use Rattle.xv_base.specs.declared.limits.TheConstants.{MOST_CREDIT};

    ghost Value = { ℕ };

    ghost view = { λ f. f.count };

    ghost invariant = { λ f. f.count ≤ MOST_CREDIT };
}

impl Freed {
    /// Nothing to acknowledge.
    pub fn new() -> Freed
        ensures { result ≡ 0 }
    {
        Freed { count: 0 }
    }

    /// Counts one message more, of fewer than `MOST_CREDIT`.
    pub fn add(&mut self)
        requires { self.old < MOST_CREDIT }
        ensures { self.new ≡ self.old + 1 }
    {
        self.count += 1;
    }

    /// How many there are, at most `MOST_CREDIT`.
    pub fn count(&self) -> u32
        ensures exactly { result ≡ self.now }
        ensures within { result ≤ MOST_CREDIT }
    {
        self.count
    }

    /// Takes all of them and answers how many there were, at most `MOST_CREDIT`; none is left.
    pub fn drain(&mut self) -> u32
        ensures exactly { result ≡ self.old }
        ensures within { result ≤ MOST_CREDIT }
        ensures none { self.new ≡ 0 }
    {
        let count = self.count;
        self.count = 0;
        count
    }
}
