//! Jobs, and the calls that their runs by the driver make where none fails: worked out from what each event does, in the driver's
//! order, and not from a run of the program.

use crate::calls::Call;
use std::alloc::Global;
use std::test::Fail;
use xv_base::Phase;

/// A kind of call, and its name in a job.
#[derive(Clone, Copy)]
pub(crate) struct Kind {
    pub(crate) word: &'static str,
    pub(crate) call: Call,
}

/// The kinds of calls of a job of three streams; a job of fewer has the first of them.
pub(crate) const KINDS: &[Kind] = &[
    Kind {
        word: "sread",
        call: Call::SourceRead,
    },
    Kind {
        word: "swrite",
        call: Call::SourceWrite,
    },
    Kind {
        word: "dread",
        call: Call::DestRead,
    },
    Kind {
        word: "dwrite",
        call: Call::DestWrite,
    },
    Kind {
        word: "flush",
        call: Call::Flush,
    },
    Kind {
        word: "ackput",
        call: Call::AckPut,
    },
    Kind {
        word: "acktake",
        call: Call::AckTake,
    },
    Kind {
        word: "put 0",
        call: Call::Put(0),
    },
    Kind {
        word: "take 0",
        call: Call::Take(0),
    },
    Kind {
        word: "put 1",
        call: Call::Put(1),
    },
    Kind {
        word: "take 1",
        call: Call::Take(1),
    },
    Kind {
        word: "put 2",
        call: Call::Put(2),
    },
    Kind {
        word: "take 2",
        call: Call::Take(2),
    },
];

/// A job without faults, cut where the line of a fault may stand, and what its run by the driver does.
#[derive(Clone, Copy)]
pub(crate) struct Case {
    pub(crate) name: &'static str,
    pub(crate) head: &'static str,
    pub(crate) tail: &'static str,
    pub(crate) phase: Phase,
    /// How many calls of each kind it makes.
    pub(crate) counts: &'static [u32],
    /// Of how many of these calls each alone fails the migration: of those that are no guest's.
    pub(crate) failing: u32,
}

/// Two guests with two operations each, and three streams, of which the first two carry messages. Four blocks, a page and a
/// load are read at the source; both writes come ahead of the copy and the store before the round, so that each unit is sent
/// once.
pub(crate) const TWO_GUESTS: Case = Case {
    name: "two guests",
    head: "job 1\npages 1 16\ndisk 4 16\nstreams 3\ncredit 8\noutbox 8\nregion 2\nrounds 2\ndirty 0\n",
    tail: "guest\nwr 0 0 1 11\nld 0 4\nguest\nwr 0 0 1 22\nst 0 4 33\nend\n",
    phase: Phase::Switched,
    counts: &[6, 3, 0, 5, 1, 2, 2, 4, 4, 1, 1, 0, 0],
    failing: 25,
};

/// The same in groups of two. A round beside the first region sends the page, and after the store another sends it again: a
/// read and a message more, and four groups, the page alone and then two, two and one.
pub(crate) const IN_GROUPS: Case = Case {
    name: "two guests, in groups",
    head: "job 2\npages 1 16\ndisk 4 16\nstreams 3\ncredit 8\noutbox 8\nregion 2\nrounds 2\ndirty 0\ngroup 2\n",
    tail: "guest\nwr 0 0 1 11\nld 0 4\nguest\nwr 0 0 1 22\nst 0 4 33\nend\n",
    phase: Phase::Switched,
    counts: &[7, 3, 0, 6, 1, 2, 2, 4, 4, 0, 0, 0, 0],
    failing: 25,
};

/// Two guests that write a block ahead of its copy, then within its region, where both wait in the queue and are mirrored once
/// they are released, and at the destination, where the last write and the last read are. Two blocks and a page are read at the
/// source and sent once, and the mirrors after them.
pub(crate) const WITH_QUEUE: Case = Case {
    name: "two guests, ahead of the copy, in its queue, and at the destination",
    head: "job 1\npages 1 16\ndisk 2 16\nstreams 1\ncredit 2\noutbox 2\nregion 2\nrounds 1\ndirty 0\n",
    tail: "guest\nwr 0 0 1 11\nwr 0 0 1 12\nguest\nst 0 4 33\nrd 0 0 0 4\nwr 0 0 1 22\nwr 0 1 1 23\nrd 0 1 0 2\nend\n",
    phase: Phase::Switched,
    counts: &[4, 4, 1, 6, 1, 3, 3, 5, 5],
    failing: 25,
};

pub(crate) const CASES: &[Case] = &[
    TWO_GUESTS,
    IN_GROUPS,
    WITH_QUEUE,
    Case {
        name: "two guests, cancelled after three operations",
        head: "job 1\npages 1 16\ndisk 4 16\nstreams 3\ncredit 8\noutbox 8\nregion 2\nrounds 2\ndirty 0\ncancel 3\n",
        tail: "guest\nwr 0 0 1 11\nld 0 4\nguest\nwr 0 0 1 22\nst 0 4 33\nend\n",
        phase: Phase::Cancelled,
        counts: &[2, 3, 0, 0, 0, 0, 0, 0, 0, 0, 0, 0, 0],
        failing: 1,
    },
    Case {
        name: "three guests and two disks, with queued writes, and with operations at the destination",
        head: "job 1\npages 2 16\ndisk 3 16\ndisk 2 32\nstreams 2\ncredit 4\noutbox 4\nregion 2\nrounds 1\ndirty 2\n",
        tail: "init 0 a5\ninit 3 5a5b\nguest\nwr 0 0 3 11\nld 0 4\nwr 1 1 1 12\nrd 0 2 4 8\nst 16 16 13\nrd 1 1 0 32\nwr 0 1 2 14\nld 16 16\nguest\nwr 0 2 1 22\nst 4 4 23\nrd 1 0 8 8\nwr 1 0 2 24\nguest\nst 8 8 33\nld 0 16\nwr 0 0 2 34\nst 24 8 35\nrd 0 0 0 16\nwr 1 1 1 36\nst 0 16 37\nrd 1 1 16 16\nld 0 16\nwr 0 1 1 39\nrd 0 1 0 16\nld 16 8\nld 0 8\nwr 0 0 2 3a\nrd 0 1 0 4\nst 20 4 3b\nld 16 16\nld 0 2\nst 8 4 3c\nrd 1 1 30 2\nend\n",
        phase: Phase::Switched,
        counts: &[14, 17, 9, 21, 1, 5, 5, 16, 16, 0, 0],
        failing: 66,
    },
    Case {
        name: "three guests and two disks in groups of three, with queued writes, and with operations at the destination",
        head: "job 2\npages 2 16\ndisk 3 16\ndisk 2 32\nstreams 2\ncredit 4\noutbox 4\nregion 3\nrounds 1\ndirty 2\ngroup 3\n",
        tail: "init 0 a5\nguest\nwr 0 0 2 11\nld 0 4\nwr 1 1 1 12\nrd 1 1 0 32\nwr 1 0 1 43\nst 0 2 44\nrd 0 0 4 4\nguest\nwr 0 2 1 22\nst 4 4 23\nrd 1 0 8 8\nguest\nst 8 8 33\nwr 0 0 2 34\nrd 0 0 0 16\nend\n",
        phase: Phase::Switched,
        counts: &[9, 6, 4, 14, 1, 4, 4, 4, 4, 1, 1],
        failing: 37,
    },
];

/// A planned fault.
#[derive(Clone, Copy)]
pub(crate) struct Line {
    pub(crate) word: &'static str,
    pub(crate) number: u32,
    /// Whether the run without faults makes that call; else the number is the next one.
    pub(crate) made: bool,
}

/// A line for each call that a job's run makes, and of each kind one for the number behind the last.
pub(crate) fn lines_of(alloc: Global, case: &Case) -> Result<Vec<Line>, Fail> {
    let mut lines = Vec::new(alloc);
    for (kind, count) in KINDS.iter().zip(case.counts) {
        for number in 1..=count.saturating_add(1) {
            lines.push(Line {
                word: kind.word,
                number,
                made: number <= *count,
            })?;
        }
    }
    Ok(lines)
}
