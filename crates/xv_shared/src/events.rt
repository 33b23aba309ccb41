//! The events of each worker, in turn.

ghost use Rattle.std.specs.Prelude.{◌≡◌, ◌<◌, ◌%◌, length, get_or};
ghost use Rattle.xv_base.specs.declared.event.Event.TheVariants.{Cancel};
ghost use Rattle.xv_report.specs.declared.counts.Job1.TheVariants.{Copier, Pager, Applier};
ghost use Rattle.xv_shared.specs.Running.{events};

use xv_base::{Event, GuestId};
use xv_report::Job1;

/// The event that a worker tries at a step: its events in turn, again and again.
pub fn event_at(worker: Job1, step: u64) -> Event
    ensures { result ≡ get_or (events worker) (step % length (events worker)) Cancel }
{
    match worker {
        Job1::Guest(guest) => Event::Guest(GuestId(guest)),
        Job1::Copier(disk) => copier_event(disk, step % 4),
        Job1::Pager => pager_event(step % 6),
        Job1::Sender(stream) => Event::Send(stream),
        Job1::Receiver(stream) => Event::Deliver(stream),
        Job1::Applier => applier_event(step % 2),
    }
}

/// How many events a worker goes through in turn.
pub(crate) fn event_count(worker: Job1) -> u32
    ensures { result ≡ length (events worker) }
{
    match worker {
        Job1::Guest(_) | Job1::Sender(_) | Job1::Receiver(_) => 1,
        Job1::Copier(_) => 4,
        Job1::Pager => 6,
        Job1::Applier => 2,
    }
}

fn copier_event(disk: u8, place: u64) -> Event
    requires { place < 4 }
    ensures { result ≡ get_or (events (Copier disk)) place Cancel }
{
    match place {
        0 => Event::Begin(disk),
        1 => Event::Read(disk),
        2 => Event::Advance(disk),
        _ => Event::Release(disk),
    }
}

fn pager_event(place: u64) -> Event
    requires { place < 6 }
    ensures { result ≡ get_or (events Pager) place Cancel }
{
    match place {
        0 => Event::Credit,
        1 => Event::Round,
        2 => Event::Page,
        3 => Event::Stun,
        4 => Event::Switch,
        _ => Event::Cancel,
    }
}

fn applier_event(place: u64) -> Event
    requires { place < 2 }
    ensures { result ≡ get_or (events Applier) place Cancel }
{
    match place {
        0 => Event::Apply,
        _ => Event::Ack,
    }
}
