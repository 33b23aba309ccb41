//! The numbers that are published.

ghost use Rattle.std.specs.Prelude.{◌≡◌, ◌+◌, ◌≤◌};
ghost use Rattle.xv_progress.specs.Numbers.{rest};

/// Counts of a migration: its history's entries, copied units, applied messages, and the journal's entries.
#[derive(Clone, Copy, Debug, PartialEq, Eq)]
pub struct Numbers {
    pub history: u64,
    pub copied: u64,
    pub applied: u64,
    pub journal: u64,
}

/// The entries of the journal that are in neither history nor applied.
pub(crate) fn rest(numbers: &Numbers) -> u64
    requires { numbers.now.history + numbers.now.applied ≤ numbers.now.journal }
    ensures { result ≡ rest numbers.now }
{
    numbers.journal - (numbers.history + numbers.applied)
}
