//! What the driver steps next.

ghost use Rattle.std.specs.Prelude.{◌≡◌, ◌≤◌, ◌<◌, ◌^◌, true, false, length, take, drop, None, IfSome, IfNone};
ghost use Rattle.xv_model.specs.Wait.{wait, fits};
ghost use Rattle.xv_model.specs.Driver.{driver_events, first_able, next_event};
ghost use Rattle.xv_model.specs.Work.{is_finished};
ghost use Rattle.xv_job.specs.Written.{job_of};
ghost use Rattle.xv_core.specs.Seen.{view_of};
ghost use Rattle.xv_core.specs.Keeping.{IsKept};
ghost use Rattle.xv_driver.specs.Order.{AreNumbersOf, event_total};

use crate::order::{Numbers, event_at, event_count, numbers_of};
use xv_base::Event;
use xv_core::Migration;
use xv_device::UnitDevice;
use xv_wire::Wire;

/// The first event that can act, of the driver's list counted round from the place that is the journal's length; none
/// exactly where the run is finished. It asks of each event at most once whether it can act, and takes no memory.
pub fn next<S: UnitDevice, T: UnitDevice, W: Wire>(migration: &Migration<S, T, W>) -> Option<Event>
    ensures event { result ≡ next_event (job_of migration.now.job) (view_of migration.now) (length migration.now.journal) }
    ensures none { IfNone result (is_finished (job_of migration.now.job) (view_of migration.now) ≡ true) }
    ensures some { is_finished (job_of migration.now.job) (view_of migration.now) ≡ true → result ≡ None }
    ensures fits { IfSome result (λ e. fits (job_of migration.now.job) e ≡ true) }
    ensures can { IfSome result (λ e. wait (job_of migration.now.job) (view_of migration.now) e false ≡ None) }
    ensures kept { IsKept migration.now }
{
    let numbers = numbers_of(migration.job());
    let count = event_count(numbers);
    let place = (migration.journal().len() % usize::from(count)) as u8;
    if let Some(event) = first_between(migration, numbers, place, count) {
        return Some(event);
    }
    first_between(migration, numbers, 0, place)
}

/// The first event that can act, of those from one number up to another.
fn first_between<S: UnitDevice, T: UnitDevice, W: Wire>(
    migration: &Migration<S, T, W>,
    numbers: Numbers,
    first: u8,
    end: u8,
) -> Option<Event>
    requires of_job { AreNumbersOf (job_of migration.now.job) numbers.guests numbers.disks numbers.streams }
    requires few { event_total numbers.guests numbers.disks numbers.streams < 2 ^ 8 }
    requires within { end ≤ length (driver_events (job_of migration.now.job)) }
    ensures { result ≡ first_able (job_of migration.now.job) (view_of migration.now) (drop first (take end (driver_events (job_of migration.now.job)))) }
{
    for index in first..end {
        let event = event_at(numbers, index);
        if migration.can(event) {
            return Some(event);
        }
    }
    None
}
