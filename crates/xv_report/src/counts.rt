//! The workers of a migration, and how many entries of the journal each made.

ghost use Rattle.std.specs.Prelude.{◌≡◌, ◌≤◌, length};
ghost use Rattle.xv_report.specs.Workers.{worker_word, worker_number};

use std::fmt;
use std::marker::Model;

/// A worker, with the guest, the disk or the stream that it is of.
#[derive(Clone, Copy, Debug, PartialEq, Eq)]
pub enum Job1 {
    Guest(u8),
    Copier(u8),
    Pager,
    Sender(u8),
    Receiver(u8),
    Applier,
}

impl Job1 {
    /// What kind of worker it is, in one word.
    pub(crate) fn word(self) -> &'static str
        ensures exactly { result.now ≡ worker_word self }
        ensures few { length result.now ≤ 8 }
    {
        match self {
            Job1::Guest(_) => "guest",
            Job1::Copier(_) => "copier",
            Job1::Pager => "pager",
            Job1::Sender(_) => "sender",
            Job1::Receiver(_) => "receiver",
            Job1::Applier => "applier",
        }
    }

    /// Which of its kind it is, where there are several.
    pub(crate) fn number(self) -> Option<u8>
        ensures { result ≡ worker_number self }
    {
        match self {
            Job1::Guest(number)
            | Job1::Copier(number)
            | Job1::Sender(number)
            | Job1::Receiver(number) => Some(number),
            Job1::Pager | Job1::Applier => None,
        }
    }
}

impl fmt::Display for Job1 {
    ghost use Rattle.std.specs.Prelude.{Some};
    ghost use Rattle.xv_report.specs.Workers.{worker_name};

    ghost output = { λ worker. Some (worker_name worker) };

    fn fmt<W: fmt::Write>(&self, f: &mut fmt::Formatter<W>) -> fmt::Result {
        let word = self.word();
        match self.number() {
            Some(number) => write!(f, "{word} {number}"),
            None => f.write_str(word),
        }
    }
}

/// How many entries of the journal a worker made.
#[derive(Clone, Copy, Debug, PartialEq, Eq)]
pub struct Count {
    pub worker: Job1,
    pub steps: u64,
}

/// How many entries of the journal each worker made, in the order of the workers' numbers, and how many were made
/// after all of them.
#[derive(Drop)]
pub struct Counts {
    pub workers: Vec<Count>,
    pub finish: u64,
}

impl Model for Counts {
    ghost use Rattle.xv_report.specs.Workers.{Tally};

    ghost Value = { Tally };

    ghost view = { λ c. record { workers = c.workers.items; finish = c.finish } };
}
