//! Who may step on the words: the publisher, and the readers.

ghost use Rattle.std.specs.Prelude.{◌≡◌};
ghost use Rattle.xv_progress.specs.Numbers.{IsFit};

use crate::numbers::Numbers;
use crate::words::Pass;
use std::marker::Model;

/// The one writing pass, with the numbers that it last published.
#[derive(Drop)]
pub struct Publisher {
    pub(crate) pass: Pass,
    pub(crate) last: Numbers,
}

impl Model for Publisher {
    ghost use Rattle.std.specs.Prelude.{true};
    ghost use Rattle.xv_progress.specs.Passes.{Known, Knows};

    ghost Value = { Known };

    ghost view = { λ p. record { belongs = p.pass.table_id; numbers = p.last } };

    ghost invariant = { λ p. Knows p.pass.me true p.last };
}

impl Publisher {
    /// The numbers that were last published.
    pub fn last(&self) -> Numbers
        ensures exactly { result ≡ self.now.numbers }
        ensures fit { IsFit result }
    {
        self.last
    }
}

/// A pass that only reads, with the numbers that it has seen.
#[derive(Drop)]
pub struct Reader {
    pub(crate) pass: Pass,
    pub(crate) seen: Numbers,
}

impl Model for Reader {
    ghost use Rattle.std.specs.Prelude.{false};
    ghost use Rattle.xv_progress.specs.Passes.{Known, Knows};

    ghost Value = { Known };

    ghost view = { λ r. record { belongs = r.pass.table_id; numbers = r.seen } };

    ghost invariant = { λ r. Knows r.pass.me false r.seen };
}

impl Reader {
    /// The numbers that were seen.
    pub fn seen(&self) -> Numbers
        ensures exactly { result ≡ self.now.numbers }
        ensures fit { IsFit result }
    {
        self.seen
    }
}
