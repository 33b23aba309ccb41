//! The ledgers that count entries of the journal, and the origin that one of them names.

use std::marker::Brand;
use std::sync::ledger::{Blank, Ledger};

/// A ledger that names the migration that a shared one comes from, as contracts see it.
pub trait Named: Ledger {
    ghost use Rattle.xv_core.specs.Seen.{Seen};

    ghost origin: { Seen };
}

impl Named for Brand {
    ghost use Rattle.xv_shared.specs.NoOrigin.{no_origin};

    ghost origin = { no_origin };
}

/// What the four ledgers are opened from: as many parts as there are guests for each of the first three, and as many as
/// there are other workers for the last.
#[derive(Drop)]
pub struct Blanks {
    pub done: Blank,
    pub queued: Blank,
    pub faulted: Blank,
    pub other: Blank,
}
