//! One line of a job, read into what is held.

ghost use Rattle.std.specs.Prelude.{◌≡◌, false, true, None, IfErr, OnOk};
ghost use Rattle.xv_text.specs.Lines.{fields};
ghost use Rattle.xv_job.specs.Words.{may_come, is_operation};
ghost use Rattle.xv_job.specs.Draft.{line_fault, next_draft, is_complete, is_in_traces};
ghost use Rattle.xv_job.specs.Held.{job_held, draft_held, IsConsistent, IsReached, IsTaken, behind_fault};
ghost use Rattle.xv_text.specs.Reading.{Stops};

use crate::held::Held;
use crate::word::{GUEST_RANK, Word, word_of};
use std::alloc::Global;
use xv_base::LineWhy;
use xv_text::{Fields, Stop, first_field};

impl Held {
    /// Reads what follows a word that may come.
    fn take(&mut self, alloc: Global, word: Word, args: &Fields) -> Result<(), Stop>
        requires consistent { IsConsistent self.old }
        requires reached { IsReached (draft_held self.old) }
        requires comes { may_come self.old.format self.old.last word ≡ true }
        requires traces { is_operation word ≡ true → self.old.last ≡ 14 }
        ensures taken { OnOk result (IsTaken word args.now self.old self.new) }
        ensures stopped { IfErr result (Stops (behind_fault (job_held self.old) word args.now)) }
    {
        match word {
            Word::Job => self.take_format(args),
            Word::Pages => self.take_pages(args),
            Word::Disk => self.take_disk(args),
            Word::Streams
            | Word::Credit
            | Word::Outbox
            | Word::Region
            | Word::Rounds
            | Word::Dirty
            | Word::Group
            | Word::Cancel => self.take_limit(word, args),
            Word::Fault => self.take_fault(args),
            Word::Init => self.take_init(args),
            Word::Guest => self.take_guest(alloc, args),
            Word::Operation(verb) => self.take_operation(verb, args),
            Word::End => self.take_end(args),
        }
    }

    /// Reads a line.
    pub(crate) fn take_line(&mut self, alloc: Global, line: &[u8]) -> Result<(), Stop>
        requires consistent { IsConsistent self.old }
        requires reached { IsReached (draft_held self.old) }
        requires more { is_complete (draft_held self.old) ≡ false }
        ensures no_fault { OnOk result (line_fault (draft_held self.old) (fields line.now) ≡ None) }
        ensures next { OnOk result (draft_held self.new ≡ next_draft (draft_held self.old) (fields line.now)) }
        ensures reached { OnOk result (IsReached (draft_held self.new)) }
        ensures consistent { OnOk result (IsConsistent self.new) }
        ensures stopped { IfErr result (Stops (line_fault (draft_held self.old) (fields line.now))) }
    {
        let (first, args) = first_field(line);
        let Some(word) = word_of(self.last == GUEST_RANK, first) else {
            return Err(Stop::Refused(LineWhy::BadWord));
        };
        if !word.may_come(self.format, self.last) {
            return Err(Stop::Refused(LineWhy::Order));
        }
        match self.take(alloc, word, &args) {
            Ok(()) => {
                self.last = word.rank();
                Ok(())
            }
            Err(stop) => Err(stop),
        }
    }
}
