//! All passes of a shared migration.

use crate::ledgers::Named;
use crate::passes::Pass;
use std::sync::ledger::Ledger;
use xv_progress::Reader;

/// The passes, in the order of the workers' numbers, and a reader of the numbers of progress.
#[derive(Drop)]
pub struct Crew<D: Named, Q: Ledger, F: Ledger, R: Ledger> {
    pub passes: Vec<Pass<D, Q, F, R>>,
    pub reader: Reader,
}
