//! The lines of one number: the limits, the group and the cancel number.

ghost use Rattle.std.specs.Prelude.{◌≡◌, ◌≤◌, ◌<◌, ◌^◌, Some, None, true, IfOk, IfErr, OnOk};
ghost use Rattle.xv_text.specs.Fields.{values, number_at};
ghost use Rattle.xv_job.specs.Words.{kinds};
ghost use Rattle.xv_job.specs.Draft.{outside, limit_fault, with_number, is_limit};
ghost use Rattle.xv_job.specs.Held.{job_held, IsConsistent, IsTaken, behind_fault};
ghost use Rattle.xv_text.specs.Reading.{Stops};

use crate::held::Held;
use crate::word::Word;
use xv_base::{
    LineWhy, MOST_CREDIT, MOST_DIRTY, MOST_GROUP, MOST_OUTBOX, MOST_REGION, MOST_ROUNDS,
    MOST_STREAMS,
};
use xv_text::{
    Fields, Kind, LIMIT_OF_CREDIT, LIMIT_OF_DIRTY, LIMIT_OF_GROUP, LIMIT_OF_OUTBOX,
    LIMIT_OF_REGION, LIMIT_OF_ROUNDS, LIMIT_OF_STREAMS, Stop, read_fields,
};

/// What is wrong with a number that is to be from `least` to `most`.
fn outside(limit: u8, least: u32, most: u32, n: u32) -> Option<LineWhy>
    ensures { result ≡ outside limit least most n }
{
    if n < least || n > most {
        Some(LineWhy::Limit(limit))
    } else {
        None
    }
}

impl Held {
    /// What is wrong with the number of a limit.
    fn limit_fault(&self, word: Word, n: u32) -> Option<LineWhy>
        ensures { result ≡ limit_fault (job_held self.now) word n }
    {
        match word {
            Word::Streams => outside(LIMIT_OF_STREAMS, 1, u32::from(MOST_STREAMS), n),
            Word::Credit => outside(LIMIT_OF_CREDIT, 1, MOST_CREDIT, n),
            Word::Outbox => outside(LIMIT_OF_OUTBOX, 1, MOST_OUTBOX, n),
            Word::Region => {
                if n > self.config.outbox {
                    Some(LineWhy::Limit(LIMIT_OF_REGION))
                } else {
                    outside(LIMIT_OF_REGION, 1, MOST_REGION, n)
                }
            }
            Word::Rounds => outside(LIMIT_OF_ROUNDS, 1, MOST_ROUNDS, n),
            Word::Dirty => outside(LIMIT_OF_DIRTY, 0, MOST_DIRTY, n),
            Word::Group => outside(LIMIT_OF_GROUP, 1, u32::from(MOST_GROUP), n),
            Word::Job
            | Word::Pages
            | Word::Disk
            | Word::Cancel
            | Word::Fault
            | Word::Init
            | Word::Guest
            | Word::Operation(_)
            | Word::End => None,
        }
    }

    /// Sets the number of a limit.
    fn set_limit(&mut self, word: Word, n: u32)
        requires consistent { IsConsistent self.old }
        requires fits { limit_fault (job_held self.old) word n ≡ None }
        ensures is { job_held self.new ≡ with_number (job_held self.old) word n }
        ensures consistent { IsConsistent self.new }
        ensures last { self.new.last ≡ self.old.last }
    {
        match word {
            Word::Streams => self.config.streams = n as u8,
            Word::Credit => self.config.credit = n,
            Word::Outbox => self.config.outbox = n,
            Word::Region => self.config.region = n,
            Word::Rounds => self.config.rounds = n,
            Word::Dirty => self.config.dirty = n,
            Word::Group => self.group = n,
            Word::Cancel => self.config.cancel = Some(n),
            Word::Job
            | Word::Pages
            | Word::Disk
            | Word::Fault
            | Word::Init
            | Word::Guest
            | Word::Operation(_)
            | Word::End => {}
        }
    }

    /// Reads the number of a limit.
    pub(crate) fn take_limit(&mut self, word: Word, args: &Fields) -> Result<(), Stop>
        requires consistent { IsConsistent self.old }
        requires limit { is_limit word ≡ true }
        ensures taken { OnOk result (IsTaken word args.now self.old self.new) }
        ensures stopped { IfErr result (Stops (behind_fault (job_held self.old) word args.now)) }
    {
        let row = match read_fields(&[Kind::Number], args) {
            Ok(row) => row,
            Err(why) => return Err(Stop::Refused(why)),
        };
        let n = row.number(0);
        if let Some(why) = self.limit_fault(word, n) {
            return Err(Stop::Refused(why));
        }
        self.set_limit(word, n);
        Ok(())
    }
}
