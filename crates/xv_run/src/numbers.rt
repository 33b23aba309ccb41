//! How many entries of a journal each worker made.

ghost use Rattle.std.specs.Prelude.{◌≡◌, ◌≤◌, ◌-◌, ◌++◌, map, take, length, IfOk, OnOk, ◌∷◌, []};
ghost use Rattle.std.specs.List.{range_with_len};
ghost use Rattle.xv_job.specs.Written.{job_of};
ghost use Rattle.xv_report.specs.Workers.{AreDistinct, is_worker};
ghost use Rattle.xv_report.specs.declared.counts.Job1.TheVariants.{Guest, Copier, Sender, Receiver};
ghost use Rattle.xv_run.specs.Numbers.{worker_of, steps_of, counted, workers, tally};

use std::alloc::Global;
use xv_base::{Entry, Event, NoMemory};
use xv_job::Job;
use xv_report::{Count, Counts, Job1};

/// The numbers of a job's workers over a journal, whose last entries, so many, were made after them.
/// Errors: want of memory.
pub fn count_workers(
    alloc: Global,
    job: &Job,
    journal: &[Entry],
    finish: u64,
) -> Result<Counts, NoMemory>
    requires { finish ≤ length journal.now }
    ensures counted { IfOk result (λ counts. counts ≡ tally (job_of job.now) journal.now finish) }
    ensures distinct { IfOk result (λ counts. AreDistinct counts.workers) }
{
    let list = workers(alloc, job)?;
    let workers = count_each(alloc, &list, made_before(journal, finish))?;
    Ok(Counts { workers, finish })
}

/// The entries before the last, so many.
fn made_before(journal: &[Entry], finish: u64) -> &[Entry]
    requires { finish ≤ length journal.now }
    ensures { result.now ≡ take (length journal.now - finish) journal.now }
{
    &journal[..journal.len() - finish as usize]
}

/// The number of each worker.
fn count_each(alloc: Global, workers: &[Job1], journal: &[Entry]) -> Result<Vec<Count>, NoMemory>
    ensures { IfOk result (λ counts. counts.items ≡ map (counted journal.now) workers.now) }
{
    let mut counts = Vec::new(alloc);
    for worker in workers {
        let Ok(()) = counts.push(counted(*worker, journal)) else {
            return Err(NoMemory);
        };
    }
    Ok(counts)
}

/// The workers of a job, in their order.
fn workers(alloc: Global, job: &Job) -> Result<Vec<Job1>, NoMemory>
    ensures { IfOk result (λ list. list.items ≡ workers (job_of job.now)) }
{
    let mut list = Vec::new(alloc);
    push_guests(&mut list, job.guests())?;
    push_copiers(&mut list, job.layout.disks())?;
    push_one(&mut list, Job1::Pager)?;
    push_senders(&mut list, job.config.streams)?;
    push_receivers(&mut list, job.config.streams)?;
    push_one(&mut list, Job1::Applier)?;
    Ok(list)
}

fn push_one(list: &mut Vec<Job1>, worker: Job1) -> Result<(), NoMemory>
    ensures { OnOk result (list.new.items ≡ list.old.items ++ worker ∷ []) }
{
    match list.push(worker) {
        Ok(()) => Ok(()),
        Err(_) => Err(NoMemory),
    }
}

fn push_guests(list: &mut Vec<Job1>, guests: u8) -> Result<(), NoMemory>
    ensures { OnOk result (list.new.items ≡ list.old.items ++ map Guest (range_with_len 0 guests)) }
{
    for guest in 0..guests {
        push_one(list, Job1::Guest(guest))?;
    }
    Ok(())
}

fn push_copiers(list: &mut Vec<Job1>, disks: u8) -> Result<(), NoMemory>
    ensures { OnOk result (list.new.items ≡ list.old.items ++ map Copier (range_with_len 0 disks)) }
{
    for disk in 0..disks {
        push_one(list, Job1::Copier(disk))?;
    }
    Ok(())
}

fn push_senders(list: &mut Vec<Job1>, streams: u8) -> Result<(), NoMemory>
    ensures { OnOk result (list.new.items ≡ list.old.items ++ map Sender (range_with_len 0 streams)) }
{
    for stream in 0..streams {
        push_one(list, Job1::Sender(stream))?;
    }
    Ok(())
}

fn push_receivers(list: &mut Vec<Job1>, streams: u8) -> Result<(), NoMemory>
    ensures { OnOk result (list.new.items ≡ list.old.items ++ map Receiver (range_with_len 0 streams)) }
{
    for stream in 0..streams {
        push_one(list, Job1::Receiver(stream))?;
    }
    Ok(())
}

fn counted(worker: Job1, journal: &[Entry]) -> Count
    ensures { result ≡ counted journal.now worker }
{
    Count {
        worker,
        steps: steps_of(worker, journal),
    }
}

/// How many entries are of a worker's events.
fn steps_of(worker: Job1, journal: &[Entry]) -> u64
    ensures { result ≡ steps_of worker journal.now }
{
    let mut count = 0;
    for entry in journal {
        count += u64::from(is_event_of(worker, entry.event));
    }
    count
}

/// Whether it is an event of this worker. It is asked of each entry for each worker, so it is one match.
fn is_event_of(worker: Job1, event: Event) -> bool
    ensures { result ≡ is_worker worker (worker_of event) }
{
    match worker {
        Job1::Guest(number) => matches!(event, Event::Guest(guest) if guest.0 == number),
        Job1::Copier(number) => match event {
            Event::Begin(disk) | Event::Read(disk) | Event::Advance(disk) | Event::Release(disk) =>
                disk == number,
            _ => false,
        },
        Job1::Pager => matches!(
            event,
            Event::Round | Event::Page | Event::Credit | Event::Stun | Event::Switch | Event::Cancel
        ),
        Job1::Sender(number) => matches!(event, Event::Send(stream) if stream == number),
        Job1::Receiver(number) => matches!(event, Event::Deliver(stream) if stream == number),
        Job1::Applier => matches!(event, Event::Apply | Event::Ack),
    }
}
