//! The lines of planned faults.

ghost use Rattle.std.specs.Prelude.{◌≡◌, ◌≤◌, ◌<◌, ◌^◌, Some, None, true, false, IfOk, IfErr, IfSome, IfNone, OnOk};
ghost use Rattle.xv_text.specs.Fields.{values, number_at, fields_fault};
ghost use Rattle.xv_text.specs.Row.{IsRow};
ghost use Rattle.xv_job.specs.declared.word.Word.TheVariants.{Fault as FaultWord};
ghost use Rattle.xv_job.specs.Words.{call_kinds};
ghost use Rattle.xv_job.specs.Draft.{fault_of, has_bad_number};
ghost use Rattle.xv_job.specs.Held.{job_held, IsConsistent, IsTaken, behind_fault};
ghost use Rattle.xv_text.specs.Reading.{Stops};

use crate::held::Held;
use crate::word::{Call, call_of};
use xv_base::{Fault, LineWhy, MOST_FAULTS};
use xv_text::{Fields, Kind, LIMIT_OF_FAULTS, LIMIT_OF_PLANNED, Row, Stop, read_fields};

/// Reads the numbers behind the word of a call.
fn read_call(call: Call, args: &Fields) -> Result<Row, LineWhy>
    ensures no_fault { IfOk result (λ row. fields_fault (call_kinds call) args.now ≡ None) }
    ensures values { IfOk result (λ row. row ≡ values (call_kinds call) args.now) }
    ensures fault { IfErr result (λ why. fields_fault (call_kinds call) args.now ≡ Some why) }
{
    match call {
        Call::Put | Call::Take => read_fields(&[Kind::Number, Kind::Number], args),
        Call::SourceRead
        | Call::SourceWrite
        | Call::DestRead
        | Call::DestWrite
        | Call::Flush
        | Call::AckPut
        | Call::AckTake => read_fields(&[Kind::Number], args),
    }
}

/// The fault that a call's numbers say; none where one of them is not allowed.
fn fault_of(call: Call, row: &Row, streams: u8) -> Option<Fault>
    ensures is { IfSome result (λ fault. fault ≡ fault_of call row.now) }
    ensures good { IfSome result (λ fault. has_bad_number streams fault ≡ false) }
    ensures bad { IfNone result (has_bad_number streams (fault_of call row.now) ≡ true) }
{
    let first = row.number(0);
    let second = row.number(1);
    let is_stream = first < u32::from(streams);
    match call {
        Call::Put if second > 0 && is_stream => Some(Fault::Put(first as u8, second)),
        Call::Take if second > 0 && is_stream => Some(Fault::Take(first as u8, second)),
        Call::Put | Call::Take => None,
        _ if first == 0 => None,
        Call::SourceRead => Some(Fault::SourceRead(first)),
        Call::SourceWrite => Some(Fault::SourceWrite(first)),
        Call::DestRead => Some(Fault::DestRead(first)),
        Call::DestWrite => Some(Fault::DestWrite(first)),
        Call::Flush => Some(Fault::Flush(first)),
        Call::AckPut => Some(Fault::AckPut(first)),
        Call::AckTake => Some(Fault::AckTake(first)),
    }
}

impl Held {
    /// Reads a planned fault.
    pub(crate) fn take_fault(&mut self, args: &Fields) -> Result<(), Stop>
        requires consistent { IsConsistent self.old }
        ensures taken { OnOk result (IsTaken FaultWord args.now self.old self.new) }
        ensures stopped { IfErr result (Stops (behind_fault (job_held self.old) FaultWord args.now)) }
    {
        let Some((what, numbers)) = args.split_first() else {
            return Err(Stop::Refused(LineWhy::BadWord));
        };
        let Some(call) = call_of(what) else {
            return Err(Stop::Refused(LineWhy::BadWord));
        };
        let row = match read_call(call, &numbers) {
            Ok(row) => row,
            Err(why) => return Err(Stop::Refused(why)),
        };
        if self.faults.len() >= MOST_FAULTS as usize {
            return Err(Stop::Refused(LineWhy::Limit(LIMIT_OF_FAULTS)));
        }
        let Some(fault) = fault_of(call, &row, self.config.streams) else {
            return Err(Stop::Refused(LineWhy::Limit(LIMIT_OF_PLANNED)));
        };
        match self.faults.push(fault) {
            Ok(()) => Ok(()),
            Err(_) => Err(Stop::NoMemory),
        }
    }
}
