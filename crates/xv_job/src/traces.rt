//! The lines of guests and of their operations, and the end.

ghost use Rattle.std.specs.Prelude.{◌≡◌, ◌≤◌, ◌<◌, ◌+◌, ◌^◌, ◌++◌, ◌∷◌, [], length, sum_by, IfErr, OnOk};
ghost use Rattle.xv_base.specs.Layout.{IsGood};
ghost use Rattle.xv_trace.specs.Operations.{op_count, count_all};
ghost use Rattle.xv_trace.specs.OpText.{IsGoodOp};
ghost use Rattle.xv_job.specs.declared.word.Word.TheVariants.{Guest, End, Operation};
ghost use Rattle.xv_job.specs.Draft.{with_op};
ghost use Rattle.xv_job.specs.Held.{job_held, IsConsistent, IsTaken, behind_fault};
ghost use Rattle.xv_text.specs.Reading.{Stops};
ghost use Rattle.xv_job.specs.Written.{AreTraces, ops_held};

use crate::held::Held;
use crate::machine::known;
use std::alloc::Global;
use xv_base::{Layout, LineWhy, MOST_GUESTS, MOST_OPERATIONS, NoMemory};
use xv_text::{Fields, LIMIT_OF_CANCEL, LIMIT_OF_GUESTS, Stop, read_fields};
use xv_trace::{Op, Trace, Verb, read_op};

/// Appends an operation to the last trace.
fn push_op(layout: &Layout, traces: &mut Vec<Trace>, op: Op) -> Result<(), NoMemory>
    requires some { 1 ≤ length traces.old.items }
    requires traces { AreTraces layout.now traces.old.items }
    requires good { IsGoodOp layout.now op }
    requires room { sum_by count_all (ops_held traces.old.items) + op_count op ≤ 2 ^ 20 }
    ensures is { OnOk result (ops_held traces.new.items ≡ with_op (ops_held traces.old.items) op) }
    ensures traces { OnOk result (AreTraces layout.now traces.new.items) }
{
    let last = traces.len() - 1;
    let trace = &mut traces[last];
    trace.push(op)
}

impl Held {
    /// Begins the trace of the next guest.
    pub(crate) fn take_guest(&mut self, alloc: Global, args: &Fields) -> Result<(), Stop>
        requires consistent { IsConsistent self.old }
        requires machine { IsGood (job_held self.old).shape }
        ensures taken { OnOk result (IsTaken Guest args.now self.old self.new) }
        ensures stopped { IfErr result (Stops (behind_fault (job_held self.old) Guest args.now)) }
    {
        if let Err(why) = read_fields(&[], args) {
            return Err(Stop::Refused(why));
        }
        if self.traces.len() >= usize::from(MOST_GUESTS) {
            return Err(Stop::Refused(LineWhy::Limit(LIMIT_OF_GUESTS)));
        }
        let trace = Trace::new(alloc, known(&self.layout));
        match self.traces.push(trace) {
            Ok(()) => Ok(()),
            Err(_) => Err(Stop::NoMemory),
        }
    }

    /// Reads an operation of the last guest.
    pub(crate) fn take_operation(&mut self, verb: Verb, args: &Fields) -> Result<(), Stop>
        requires consistent { IsConsistent self.old }
        requires machine { IsGood (job_held self.old).shape }
        requires some { 1 ≤ length self.old.traces.items }
        requires few { self.old.operations ≤ 2 ^ 20 }
        ensures taken { OnOk result (IsTaken (Operation verb) args.now self.old self.new) }
        ensures stopped { IfErr result (Stops (behind_fault (job_held self.old) (Operation verb) args.now)) }
    {
        let layout = known(&self.layout);
        let op = match read_op(&layout, MOST_OPERATIONS - self.operations, verb, args) {
            Ok(op) => op,
            Err(why) => return Err(Stop::Refused(why)),
        };
        match push_op(&layout, &mut self.traces, op) {
            Ok(()) => {
                self.operations += op.count();
                Ok(())
            }
            Err(NoMemory) => Err(Stop::NoMemory),
        }
    }

    /// Reads the end.
    pub(crate) fn take_end(&mut self, args: &Fields) -> Result<(), Stop>
        requires consistent { IsConsistent self.old }
        ensures taken { OnOk result (IsTaken End args.now self.old self.new) }
        ensures stopped { IfErr result (Stops (behind_fault (job_held self.old) End args.now)) }
    {
        if let Err(why) = read_fields(&[], args) {
            return Err(Stop::Refused(why));
        }
        match self.config.cancel {
            Some(cancel) if cancel > self.operations => Err(Stop::Refused(LineWhy::Limit(
                LIMIT_OF_CANCEL,
            ))),
            Some(_) => Ok(()),
            None => Ok(()),
        }
    }
}
