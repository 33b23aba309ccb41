//! One step under the lock, and what is published of it.

ghost use Rattle.std.specs.Prelude.{◌≡◌, true, length};
ghost use Rattle.std.specs.Arc.{arc_value};
ghost use Rattle.xv_model.specs.Wait.{fits};
ghost use Rattle.xv_job.specs.Written.{job_of};
ghost use Rattle.xv_core.specs.Stepped.{IsStep};
ghost use Rattle.xv_core.specs.Keeping.{IsKept};
ghost use Rattle.xv_shared.specs.Held.{numbers_of};

use crate::numbers::numbers_after;
use std::sync::Arc;
use xv_base::{Event, Turn};
use xv_core::Migration;
use xv_device::UnitDevice;
use xv_progress::{Progress, Publisher};
use xv_wire::Wire;

/// A step: its answer, and how many bytes the guests had read before it and after it.
#[derive(Clone, Copy)]
pub(crate) struct Played {
    pub(crate) turn: Turn,
    pub(crate) before: usize,
    pub(crate) later: usize,
}

/// One event of the migration, whose numbers are then published.
pub(crate) fn step<S: UnitDevice, T: UnitDevice, W: Wire>(
    migration: &mut Migration<S, T, W>,
    publisher: &mut Publisher,
    progress: &Arc<Progress>,
    event: Event,
) -> Played
    requires fitting { fits (job_of migration.old.job) event ≡ true }
    requires own { publisher.old.belongs ≡ arc_value progress.now }
    requires last { publisher.old.numbers ≡ numbers_of migration.old }
    ensures stepped { IsStep migration.old event result.turn migration.new }
    ensures kept { IsKept migration.old }
    ensures kept_on { IsKept migration.new }
    ensures before { result.before ≡ length migration.old.reads }
    ensures later { result.later ≡ length migration.new.reads }
    ensures published { publisher.new ≡ record { belongs = publisher.old.belongs; numbers = numbers_of migration.new } }
{
    let before = migration.reads().len();
    let turn = migration.step(event);
    let later = migration.reads().len();
    let last = publisher.last();
    progress.publish(publisher, numbers_after(&last, event, turn));
    Played {
        turn,
        before,
        later,
    }
}
