//! The four words, the rule that they keep, and what each step on a word tells.
//!
//! A pass is a seat at the table of words. Its view is the numbers that it has seen, and whether it may write.

ghost use Rattle.std.specs.Prelude.{◌≡◌, ◌^◌, ◌<◌, ◌≤◌, true, false, [], length, slice_index};
ghost use Rattle.xv_progress.specs.Steps.{Raised, Loaded, Retired, with_number};

use atomic_table::{Join, Play, Seat, Split, Table, TableRule};
use std::alloc::Global;

pub(crate) const HISTORY: usize = 0;

pub(crate) const COPIED: usize = 1;

pub(crate) const APPLIED: usize = 2;

/// The entries of the journal that are in neither history nor applied.
pub(crate) const REST: usize = 3;

/// What a pass knows: its numbers, one for each word. No value of it is made.
pub struct View {
    pub writes: bool,
    /// A clause reads an array as a list, of any length.
    pub seen: [u64; 0],
}

pub(crate) struct Rule;

impl TableRule<(), View, ()> for Rule {
    ghost use Rattle.xv_progress.specs.Words.{IsSound, first_view};

    ghost holds = { λ _ state. IsSound state.words state.views };

    ghost first = { λ _. first_view };
}

pub(crate) type Words = Table<(), View, (), Rule, Global>;

pub(crate) type Pass = Seat<(), View>;

pub(crate) struct Raising;

impl Play<(), View> for Raising {
    ghost then = { Raised };
}

pub(crate) struct Loading;

impl Play<(), View> for Loading {
    ghost then = { Loaded };
}

pub(crate) struct Retiring;

impl Play<(), View> for Retiring {
    ghost then = { Retired };
}

/// Both passes have seen the same.
pub(crate) struct Copied;

impl Split<View> for Copied {
    ghost left = { λ view. view };

    ghost right = { λ view. view };
}

/// One pass has the greater of each number, and the other is spent.
pub(crate) struct Greater;

impl Join<View> for Greater {
    ghost use Rattle.xv_progress.specs.Words.{greater_view, spent_view};

    ghost both = { greater_view };

    ghost spent = { spent_view };
}

/// Raises a word to a number, by one step.
pub(crate) fn raise(words: &Words, pass: &mut Pass, word: usize, number: u64)
    requires own { (pass.old.table_id ≡ words.now.shared.table_id) × (words.now.shared.table_id.words ≡ 4) }
    requires word_in { word < 4 }
    requires writing { (pass.old.me.0.writes ≡ true) × (length pass.old.me.0.seen ≡ 4) × (pass.old.me.1 ≡ []) }
    requires rises { slice_index pass.old.me.0.seen word ≤ number }
    requires fits { number < 2 ^ 62 }
    ensures own { pass.new.table_id ≡ pass.old.table_id }
    ensures raised { pass.new.me ≡ (with_number pass.old.me.0 word number, []) }
{
    words.shared.fetch_max::<Raising>(pass, word, number);
}

/// Loads a word, by one step.
pub(crate) fn load(words: &Words, pass: &mut Pass, word: usize) -> u64
    requires own { (pass.old.table_id ≡ words.now.shared.table_id) × (words.now.shared.table_id.words ≡ 4) }
    requires word_in { word < 4 }
    requires reading { (pass.old.me.0.writes ≡ false) × (length pass.old.me.0.seen ≡ 4) × (pass.old.me.1 ≡ []) }
    ensures own { pass.new.table_id ≡ pass.old.table_id }
    ensures loaded { pass.new.me ≡ (with_number pass.old.me.0 word result, []) }
    ensures rises { slice_index pass.old.me.0.seen word ≤ result }
    ensures fits { result < 2 ^ 62 }
{
    words.shared.load::<Loading>(pass, word)
}
