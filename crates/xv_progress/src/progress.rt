//! The words that are shared, and the steps on them.

ghost use Rattle.std.specs.Prelude.{◌≡◌, ◌+◌, ◌^◌, ◌<◌, ◌≤◌, IfOk};
ghost use Rattle.xv_progress.specs.Numbers.{IsFit, IsNotBelow, greater, no_numbers};

use crate::numbers::{Numbers, rest};
use crate::passes::{Publisher, Reader};
use crate::words::{APPLIED, COPIED, Copied, Greater, HISTORY, REST, Retiring, Words, load, raise};
use std::alloc::Global;
use std::marker::Model;
use xv_base::NoMemory;

const NO_NUMBERS: Numbers = Numbers {
    history: 0,
    copied: 0,
    applied: 0,
    journal: 0,
};

/// Four words in which numbers are published. A publisher or reader belongs to the progress that it was made with.
#[derive(Drop)]
pub struct Progress {
    words: Words,
}

impl Model for Progress {
    ghost use Rattle.std.specs.Prelude.{◌≡◌};
    ghost use Rattle.atomic_table.specs.Seated.{TableId, table_id_coded};

    ghost Value = { TableId };

    ghost coded = { table_id_coded };

    ghost view = { λ p. p.words.shared.table_id };

    ghost invariant = { λ p. p.words.shared.table_id.words ≡ 4 };
}

impl Progress {
    /// Four words of 0, their one publisher, and the first reader.
    pub fn new(alloc: Global) -> Result<(Progress, Publisher, Reader), NoMemory>
        ensures publisher { IfOk result (λ parts. parts.1 ≡ record { belongs = parts.0; numbers = no_numbers }) }
        ensures reader { IfOk result (λ parts. parts.2 ≡ record { belongs = parts.0; numbers = no_numbers }) }
    {
        let Ok((words, mut writing)) = Words::of_words(alloc, &[0; 4], &()) else {
            return Err(NoMemory);
        };
        let mut reading = words.shared.split_seat::<Copied>(&mut writing);
        words.shared.load::<Retiring>(&mut reading, HISTORY);
        let publisher = Publisher {
            pass: writing,
            last: NO_NUMBERS,
        };
        let reader = Reader {
            pass: reading,
            seen: NO_NUMBERS,
        };
        Ok((Progress { words }, publisher, reader))
    }

    /// Publishes these numbers, by one atomic step on each word. Takes no memory and never waits.
    pub fn publish(&self, publisher: &mut Publisher, numbers: Numbers)
        requires own { publisher.old.belongs ≡ self.now }
        requires parts { numbers.history + numbers.applied ≤ numbers.journal }
        requires rises { IsNotBelow publisher.old.numbers numbers }
        requires journal_fits { numbers.journal < 2 ^ 62 }
        requires copied_fits { numbers.copied < 2 ^ 62 }
        ensures { publisher.new ≡ record { belongs = publisher.old.belongs; numbers = numbers } }
    {
        let pass = &mut publisher.pass;
        raise(&self.words, pass, HISTORY, numbers.history);
        raise(&self.words, pass, COPIED, numbers.copied);
        raise(&self.words, pass, APPLIED, numbers.applied);
        raise(&self.words, pass, REST, rest(&numbers));
        publisher.last = numbers;
    }

    /// Loads each word once. Takes no memory and never waits.
    pub fn read(&self, reader: &mut Reader) -> Numbers
        requires { reader.old.belongs ≡ self.now }
        ensures seen { reader.new ≡ record { belongs = reader.old.belongs; numbers = result } }
        ensures rises { IsNotBelow reader.old.numbers result }
        ensures journal_rises { reader.old.numbers.journal ≤ result.journal }
        ensures fit { IsFit result }
    {
        let pass = &mut reader.pass;
        let history = load(&self.words, pass, HISTORY);
        let copied = load(&self.words, pass, COPIED);
        let applied = load(&self.words, pass, APPLIED);
        let journal = history + applied + load(&self.words, pass, REST);
        reader.seen = Numbers {
            history,
            copied,
            applied,
            journal,
        };
        reader.seen
    }

    /// Another reader, which has seen the same.
    pub fn split(&self, reader: &mut Reader) -> Reader
        requires { reader.old.belongs ≡ self.now }
        ensures new { result ≡ reader.old }
        ensures stays { reader.new ≡ reader.old }
    {
        Reader {
            pass: self.words.shared.split_seat::<Copied>(&mut reader.pass),
            seen: reader.seen,
        }
    }

    /// The kept reader has then seen the greater of each word's number.
    pub fn join(&self, kept: &mut Reader, spent: Reader)
        requires kept_own { kept.old.belongs ≡ self.now }
        requires spent_own { spent.belongs ≡ self.now }
        ensures { kept.new ≡ record { belongs = kept.old.belongs; numbers = greater kept.old.numbers spent.numbers } }
    {
        let Reader { pass, seen } = spent;
        self.words.shared.join_seat::<Greater>(&mut kept.pass, pass);
        kept.seen = greater(&kept.seen, &seen);
    }
}

/// The greater of each word's number, with the journal that they make.
fn greater(a: &Numbers, b: &Numbers) -> Numbers
    requires a_fit { IsFit a.now }
    requires b_fit { IsFit b.now }
    ensures exactly { result ≡ greater a.now b.now }
    ensures fit { IsFit result }
{
    let history = a.history.max(b.history);
    let applied = a.applied.max(b.applied);
    Numbers {
        history,
        copied: a.copied.max(b.copied),
        applied,
        journal: history + applied + rest(a).max(rest(b)),
    }
}
