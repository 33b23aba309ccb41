//! A whole run by the driver.

ghost use Rattle.std.specs.Prelude.{◌≡◌, ◌≤◌, ◌+◌, true, length, take};
ghost use Rattle.xv_model.specs.Work.{bound, is_finished};
ghost use Rattle.xv_job.specs.Written.{job_of};
ghost use Rattle.xv_core.specs.Seen.{Seen, view_of};
ghost use Rattle.xv_core.specs.Keeping.{IsKept};
ghost use Rattle.xv_core.specs.Origin.{HasOrigin};
ghost use Rattle.xv_driver.specs.Driven.{AreDriven};

use crate::finding::next;
use xv_core::Migration;
use xv_device::UnitDevice;
use xv_wire::Wire;

/// Steps by the driver's next event until the run is finished, and answers by how much the journal grew. It takes no memory.
pub fn finish<S: UnitDevice, T: UnitDevice, W: Wire>(migration: &mut Migration<S, T, W>) -> u64
    ensures finished { is_finished (job_of migration.new.job) (view_of migration.new) ≡ true }
    ensures grew { length migration.new.journal ≡ length migration.old.journal + result }
    ensures within { length migration.new.journal ≤ bound (job_of migration.new.job) }
    ensures before { take (length migration.old.journal) migration.new.journal ≡ migration.old.journal }
    ensures driven { AreDriven result migration.old migration.new }
    ensures job { migration.new.job ≡ migration.old.job }
    ensures origin { (start : Seen) → HasOrigin start migration.old → HasOrigin start migration.new }
    ensures kept { IsKept migration.new }
{
    let mut grown = 0;
    while let Some(event) = next(migration) {
        let _ = migration.step(event);
        grown += 1;
    }
    grown
}
