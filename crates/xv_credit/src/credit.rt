//! The credit of a sender.

ghost use Rattle.std.specs.Prelude.{◌≡◌, ◌+◌, ◌-◌, ◌≤◌, ◌==◌, nat_lt};
ghost use Rattle.xv_credit.specs.Counts.{untouched};

use std::marker::Model;

/// How many messages may still be sent before one is acknowledged, out of a whole. It is not copied, since a copy
/// could be spent twice.
#[derive(Debug, Drop)]
pub struct Credit {
    left: u32,
    whole: u32,
}

impl Model for Credit {
    ghost use Rattle.std.specs.Prelude.{◌≤◌};
    ghost use Rattle.xv_credit.specs.Counts.{Count};

    ghost Value = { Count };

    ghost view = { λ c. record { left = c.left; whole = c.whole } };

    ghost invariant = { λ c. c.left ≤ c.whole };
}

impl Credit {
    /// A credit of which nothing is taken.
    pub fn new(whole: u32) -> Credit
        ensures { result ≡ untouched whole }
    {
        Credit { left: whole, whole }
    }

    /// Takes one, or answers false where none is left; nothing changes then.
    pub fn take(&mut self) -> bool
        ensures taken { result ≡ nat_lt 0 self.old.left }
        // Subtraction stops at 0.
        ensures left { self.new ≡ record self.old { left = self.old.left - 1 } }
        ensures within { self.new.left ≤ self.new.whole }
    {
        if self.left == 0 {
            return false;
        }
        self.left -= 1;
        true
    }

    /// Gives `n` back, which are no more than were taken.
    pub fn restore(&mut self, n: u32)
        requires { self.old.left + n ≤ self.old.whole }
        ensures { self.new ≡ record self.old { left = self.old.left + n } }
    {
        self.left += n;
    }

    /// How much is left, which is never more than the whole.
    pub fn left(&self) -> u32
        ensures exactly { result ≡ self.now.left }
        ensures within { self.now.left ≤ self.now.whole }
    {
        self.left
    }

    /// Whether nothing is taken.
    pub fn is_whole(&self) -> bool
        ensures { result ≡ (self.now.left == self.now.whole) }
    {
        self.left == self.whole
    }
}
