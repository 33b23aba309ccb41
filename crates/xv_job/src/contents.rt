//! The lines of first contents.

ghost use Rattle.std.specs.Prelude.{◌≡◌, IfErr, OnOk};
ghost use Rattle.xv_base.specs.Layout.{IsGood};
ghost use Rattle.xv_job.specs.declared.word.Word.TheVariants.{Init as InitWord};
ghost use Rattle.xv_job.specs.Held.{job_held, IsConsistent, IsTaken, behind_fault};
ghost use Rattle.xv_text.specs.Reading.{Stops};

use crate::held::Held;
use crate::machine::known;
use xv_base::{Init, LineWhy, UnitId};
use xv_text::{Fields, Kind, Stop, read_fields};

impl Held {
    /// Reads a first content.
    pub(crate) fn take_init(&mut self, args: &Fields) -> Result<(), Stop>
        requires consistent { IsConsistent self.old }
        requires machine { IsGood (job_held self.old).shape }
        ensures taken { OnOk result (IsTaken InitWord args.now self.old self.new) }
        ensures stopped { IfErr result (Stops (behind_fault (job_held self.old) InitWord args.now)) }
    {
        let row = match read_fields(&[Kind::Number, Kind::Bytes], args) {
            Ok(row) => row,
            Err(why) => return Err(Stop::Refused(why)),
        };
        let unit = row.number(0);
        if unit >= known(&self.layout).units() {
            return Err(Stop::Refused(LineWhy::OutOfRange));
        }
        if unit < self.after_last {
            return Err(Stop::Refused(LineWhy::Order));
        }
        let init = Init {
            unit: UnitId(unit),
            pattern: row.pattern(),
        };
        match self.init.push(init) {
            Ok(()) => {
                self.after_last = unit + 1;
                Ok(())
            }
            Err(_) => Err(Stop::NoMemory),
        }
    }
}
