//! The words that lines of a job begin with, and which may come where.

ghost use Rattle.std.specs.Prelude.{◌≡◌, ◌≤◌, ◌<◌, ◌↔◌, true, IsTrue};
ghost use Rattle.xv_text.specs.Words.{is_spelled};
ghost use Rattle.xv_job.specs.Words.{own_word, word_of, rank, repeats, needed, is_group, may_come, call_of};

use xv_base::GROUP_FORMAT;
use xv_text::is_spelled;
use xv_trace::{Verb, verb_of};

/// The rank of a group's line, that of the lines of guests and their operations, and that of the end.
const GROUP_RANK: u8 = 10;

pub(crate) const GUEST_RANK: u8 = 14;

pub(crate) const END_RANK: u8 = 15;

/// The word of a line.
#[derive(Clone, Copy, Debug, PartialEq, Eq)]
pub enum Word {
    Job,
    Pages,
    Disk,
    Streams,
    Credit,
    Outbox,
    Region,
    Rounds,
    Dirty,
    Group,
    Cancel,
    Fault,
    Init,
    Guest,
    Operation(Verb),
    End,
}

/// The word of a call that is planned to fail.
#[derive(Clone, Copy, Debug, PartialEq, Eq)]
pub enum Call {
    SourceRead,
    SourceWrite,
    DestRead,
    DestWrite,
    Flush,
    Put,
    Take,
    AckPut,
    AckTake,
}

/// The word of a job's own line; none where it is not known.
pub(crate) fn own_word(word: &[u8]) -> Option<Word>
    ensures { result ≡ own_word word.now }
{
    if is_spelled(b"job", word) {
        Some(Word::Job)
    } else if is_spelled(b"pages", word) {
        Some(Word::Pages)
    } else if is_spelled(b"disk", word) {
        Some(Word::Disk)
    } else if is_spelled(b"streams", word) {
        Some(Word::Streams)
    } else if is_spelled(b"credit", word) {
        Some(Word::Credit)
    } else if is_spelled(b"outbox", word) {
        Some(Word::Outbox)
    } else if is_spelled(b"region", word) {
        Some(Word::Region)
    } else if is_spelled(b"rounds", word) {
        Some(Word::Rounds)
    } else if is_spelled(b"dirty", word) {
        Some(Word::Dirty)
    } else if is_spelled(b"group", word) {
        Some(Word::Group)
    } else if is_spelled(b"cancel", word) {
        Some(Word::Cancel)
    } else if is_spelled(b"fault", word) {
        Some(Word::Fault)
    } else if is_spelled(b"init", word) {
        Some(Word::Init)
    } else if is_spelled(b"guest", word) {
        Some(Word::Guest)
    } else if is_spelled(b"end", word) {
        Some(Word::End)
    } else {
        None
    }
}

/// The word of a call that is planned to fail; none where it is not known.
pub(crate) fn call_of(word: &[u8]) -> Option<Call>
    ensures { result ≡ call_of word.now }
{
    if is_spelled(b"sread", word) {
        Some(Call::SourceRead)
    } else if is_spelled(b"swrite", word) {
        Some(Call::SourceWrite)
    } else if is_spelled(b"dread", word) {
        Some(Call::DestRead)
    } else if is_spelled(b"dwrite", word) {
        Some(Call::DestWrite)
    } else if is_spelled(b"flush", word) {
        Some(Call::Flush)
    } else if is_spelled(b"put", word) {
        Some(Call::Put)
    } else if is_spelled(b"take", word) {
        Some(Call::Take)
    } else if is_spelled(b"ackput", word) {
        Some(Call::AckPut)
    } else if is_spelled(b"acktake", word) {
        Some(Call::AckTake)
    } else {
        None
    }
}

/// The word of a line; those of operations are known behind the first guest.
pub(crate) fn word_of(in_traces: bool, word: &[u8]) -> Option<Word>
    ensures { result ≡ word_of in_traces word.now }
{
    match own_word(word) {
        Some(own) => Some(own),
        None if in_traces => match verb_of(word) {
            Some(verb) => Some(Word::Operation(verb)),
            None => None,
        },
        None => None,
    }
}

impl Word {
    /// Where the line stands in the order of the lines, from 1.
    pub(crate) fn rank(self) -> u8
        ensures exactly { result ≡ rank self }
        ensures few { result ≤ 15 }
    {
        match self {
            Word::Job => 1,
            Word::Pages => 2,
            Word::Disk => 3,
            Word::Streams => 4,
            Word::Credit => 5,
            Word::Outbox => 6,
            Word::Region => 7,
            Word::Rounds => 8,
            Word::Dirty => 9,
            Word::Group => GROUP_RANK,
            Word::Cancel => 11,
            Word::Fault => 12,
            Word::Init => 13,
            Word::Guest => GUEST_RANK,
            Word::Operation(_) => GUEST_RANK,
            Word::End => END_RANK,
        }
    }

    /// Whether the line may stand several times in a row.
    fn repeats(self) -> bool
        ensures { result ≡ repeats self }
    {
        match self {
            Word::Disk | Word::Fault | Word::Init | Word::Guest | Word::Operation(_) => true,
            Word::Job
            | Word::Pages
            | Word::Streams
            | Word::Credit
            | Word::Outbox
            | Word::Region
            | Word::Rounds
            | Word::Dirty
            | Word::Group
            | Word::Cancel
            | Word::End => false,
        }
    }

    /// Whether the line may come behind a line of rank `last`, or first where that is 0.
    pub(crate) fn may_come(self, format: u8, last: u8) -> bool
        requires { last ≤ 15 }
        ensures { result ≡ may_come format last self }
    {
        let rank = self.rank();
        if last > rank || (last == rank && !self.repeats()) {
            return false;
        }
        if rank > needed(format, last) {
            return false;
        }
        format == GROUP_FORMAT || rank != GROUP_RANK
    }
}

/// The rank of the next line that may not be missing. A group is said in job format 2 alone.
fn needed(format: u8, last: u8) -> u8
    requires { last ≤ 15 }
    ensures { result ≡ needed format last }
{
    match last {
        0..=1 => last + 1,
        2..=3 => 4,
        4..=8 => last + 1,
        9 => {
            if format == GROUP_FORMAT {
                GROUP_RANK
            } else {
                GUEST_RANK
            }
        }
        10..=13 => GUEST_RANK,
        _ => END_RANK,
    }
}
