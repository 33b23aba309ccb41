//! The driver's list of events, each by its number in it.

ghost use Rattle.std.specs.Prelude.{◌≡◌, ◌<◌, ◌≤◌, ◌+◌, ◌*◌, ◌^◌, ◌/◌, ◌%◌, length, get_or};
ghost use Rattle.xv_base.specs.declared.event.Event.TheVariants.{Cancel};
ghost use Rattle.xv_model.specs.Job.{Job as MachineJob};
ghost use Rattle.xv_model.specs.Driver.{driver_events};
ghost use Rattle.xv_job.specs.Written.{job_of};
ghost use Rattle.xv_driver.specs.Order.{AreNumbersOf, event_total, copy_events, round_events, end_events, later_events};

use xv_base::{Event, GuestId};
use xv_job::Job;

/// How many events there are of the rounds, and of the destination and the ends.
const ROUNDS: u8 = 2;

const ENDS: u8 = 6;

/// How many guests, disks and streams a job has: all that its list of events is made of.
#[derive(Clone, Copy)]
pub(crate) struct Numbers {
    pub(crate) guests: u8,
    pub(crate) disks: u8,
    pub(crate) streams: u8,
}

/// The numbers of a job.
pub(crate) fn numbers_of(job: &Job) -> Numbers
    ensures of_job { AreNumbersOf (job_of job.now) result.guests result.disks result.streams }
    ensures few { event_total result.guests result.disks result.streams < 2 ^ 8 }
{
    Numbers {
        guests: job.guests(),
        disks: job.layout.disks(),
        streams: job.config.streams,
    }
}

/// How many events the list has.
pub(crate) fn event_count(numbers: Numbers) -> u8
    requires { event_total numbers.guests numbers.disks numbers.streams < 2 ^ 8 }
    ensures exactly { (job : MachineJob) → AreNumbersOf job numbers.guests numbers.disks numbers.streams → result ≡ length (driver_events job) }
    ensures some { 0 < result }
{
    numbers.guests + 4 * numbers.disks + ROUNDS + 2 * numbers.streams + ENDS
}

/// The event of a number: the guests, each disk's copy, the rounds, the streams, the destination, and the ends.
pub(crate) fn event_at(numbers: Numbers, index: u8) -> Event
    requires few { event_total numbers.guests numbers.disks numbers.streams < 2 ^ 8 }
    requires within { index < event_total numbers.guests numbers.disks numbers.streams }
    ensures { (job : MachineJob) → AreNumbersOf job numbers.guests numbers.disks numbers.streams → result ≡ get_or (driver_events job) index Cancel }
{
    let copies = numbers.guests + 4 * numbers.disks;
    if index < numbers.guests {
        Event::Guest(GuestId(index))
    } else if index < copies {
        copy_event(index - numbers.guests)
    } else {
        later_event(numbers.streams, index - copies)
    }
}

/// The event of a number among the copies of all disks.
fn copy_event(index: u8) -> Event
    ensures { result ≡ get_or (copy_events (index / 4)) (index % 4) Cancel }
{
    let disk = index / 4;
    match index % 4 {
        0 => Event::Begin(disk),
        1 => Event::Read(disk),
        2 => Event::Advance(disk),
        _ => Event::Release(disk),
    }
}

/// The event of a number behind the disks.
fn later_event(streams: u8, index: u8) -> Event
    requires few { 2 * streams + 8 < 2 ^ 8 }
    requires within { index < length (later_events streams) }
    ensures { result ≡ get_or (later_events streams) index Cancel }
{
    let sends = ROUNDS;
    let deliveries = sends + streams;
    let ends = deliveries + streams;
    if index < sends {
        round_event(index)
    } else if index < deliveries {
        Event::Send(index - sends)
    } else if index < ends {
        Event::Deliver(index - deliveries)
    } else {
        end_event(index - ends)
    }
}

/// The event of a number among those of the rounds.
fn round_event(index: u8) -> Event
    requires { index < 2 }
    ensures { result ≡ get_or round_events index Cancel }
{
    match index {
        0 => Event::Round,
        _ => Event::Page,
    }
}

/// The event of a number among those of the destination and the ends.
fn end_event(index: u8) -> Event
    ensures { result ≡ get_or end_events index Cancel }
{
    match index {
        0 => Event::Apply,
        1 => Event::Ack,
        2 => Event::Credit,
        3 => Event::Stun,
        4 => Event::Switch,
        _ => Event::Cancel,
    }
}
