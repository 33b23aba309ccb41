//! The passes of all workers, made of the parts of the ledgers.

ghost use Rattle.std.specs.Prelude.{◌≡◌, ◌+◌, ◌*◌, ◌<◌, ◌≤◌, ◌++◌, [], ◌∷◌, IfOk, OnOk, length};
ghost use Rattle.xv_report.specs.declared.counts.Job1.TheVariants.{Copier, Sender, Receiver};
ghost use Rattle.xv_model.specs.Job.{guest_count};
ghost use Rattle.xv_job.specs.Written.{job_of};
ghost use Rattle.xv_shared.specs.FirstCrew.{each_below, fresh_tally, fresh_guest, fresh, first_crew, other_count};

use crate::books::{Books, Shares};
use crate::ledgers::{Blanks, Named};
use crate::making::job_numbers;
use crate::passes::{GuestPass, Pass, WorkerPass};
use std::alloc::Global;
use std::sync::ledger::{Ledger, Share};
use xv_base::{GuestId, NoMemory};
use xv_job::Job;
use xv_report::Job1;

/// Opens the four ledgers: the books, at 0, and shares of all parts.
pub(crate) fn open<D: Named, Q: Ledger, F: Ledger, R: Ledger>(
    blanks: Blanks,
) -> (Books<D, Q, F, R>, Shares<D, Q, F, R>)
    requires done { (blanks.done.name ≡ D.name) × (blanks.done.parts ≡ D.parts) }
    requires queued { (blanks.queued.name ≡ Q.name) × (blanks.queued.parts ≡ Q.parts) }
    requires faulted { (blanks.faulted.name ≡ F.name) × (blanks.faulted.parts ≡ F.parts) }
    requires other { (blanks.other.name ≡ R.name) × (blanks.other.parts ≡ R.parts) }
    ensures done_book { result.0.done.total ≡ 0 }
    ensures queued_book { result.0.queued.total ≡ 0 }
    ensures faulted_book { result.0.faulted.total ≡ 0 }
    ensures other_book { result.0.other.total ≡ 0 }
    ensures done_share { (result.1.done.parts ≡ D.parts) × (result.1.done.amount ≡ 0) }
    ensures queued_share { (result.1.queued.parts ≡ Q.parts) × (result.1.queued.amount ≡ 0) }
    ensures faulted_share { (result.1.faulted.parts ≡ F.parts) × (result.1.faulted.amount ≡ 0) }
    ensures other_share { (result.1.other.parts ≡ R.parts) × (result.1.other.amount ≡ 0) }
{
    let Blanks {
        done,
        queued,
        faulted,
        other,
    } = blanks;
    let (done_book, done) = done.open::<D>();
    let (queued_book, queued) = queued.open::<Q>();
    let (faulted_book, faulted) = faulted.open::<F>();
    let (other_book, other) = other.open::<R>();
    let books = Books {
        done: done_book,
        queued: queued_book,
        faulted: faulted_book,
        other: other_book,
    };
    let shares = Shares {
        done,
        queued,
        faulted,
        other,
    };
    (books, shares)
}

/// A pass for each worker of a job, in order, of as many parts; no part is left over.
pub(crate) fn muster<D: Named, Q: Ledger, F: Ledger, R: Ledger>(
    alloc: Global,
    job: &Job,
    shares: &mut Shares<D, Q, F, R>,
) -> Result<Vec<Pass<D, Q, F, R>>, NoMemory>
    requires job { job.now ≡ D.origin.job }
    requires done { (shares.old.done.parts ≡ guest_count (job_of job.now)) × (shares.old.done.amount ≡ 0) }
    requires queued { (shares.old.queued.parts ≡ guest_count (job_of job.now)) × (shares.old.queued.amount ≡ 0) }
    requires faulted { (shares.old.faulted.parts ≡ guest_count (job_of job.now)) × (shares.old.faulted.amount ≡ 0) }
    requires other { (shares.old.other.parts ≡ other_count (job_of job.now)) × (shares.old.other.amount ≡ 0) }
    ensures crew { IfOk result (λ passes. passes.items ≡ first_crew (job_of job.now)) }
    ensures no_done { OnOk result (shares.new.done.parts ≡ 0) }
    ensures no_queued { OnOk result (shares.new.queued.parts ≡ 0) }
    ensures no_faulted { OnOk result (shares.new.faulted.parts ≡ 0) }
    ensures no_other { OnOk result (shares.new.other.parts ≡ 0) }
{
    let (_, _, disks, streams) = job_numbers(job);
    let mut passes = Vec::new(alloc);
    push_guests(&mut passes, job, shares)?;
    let share = &mut shares.other;
    push_copiers(&mut passes, disks, share)?;
    push_worker(&mut passes, Job1::Pager, share)?;
    push_senders(&mut passes, streams, share)?;
    push_receivers(&mut passes, streams, share)?;
    push_worker(&mut passes, Job1::Applier, share)?;
    Ok(passes)
}

/// A pass for each guest.
fn push_guests<D: Named, Q: Ledger, F: Ledger, R: Ledger>(
    passes: &mut Vec<Pass<D, Q, F, R>>,
    job: &Job,
    shares: &mut Shares<D, Q, F, R>,
) -> Result<(), NoMemory>
    requires job { job.now ≡ D.origin.job }
    requires done { (guest_count (job_of job.now) ≤ shares.old.done.parts) × (shares.old.done.amount ≡ 0) }
    requires queued { (guest_count (job_of job.now) ≤ shares.old.queued.parts) × (shares.old.queued.amount ≡ 0) }
    requires faulted { (guest_count (job_of job.now) ≤ shares.old.faulted.parts) × (shares.old.faulted.amount ≡ 0) }
    ensures passes { OnOk result (passes.new.items ≡ passes.old.items ++ each_below (guest_count (job_of job.now)) (fresh_guest (job_of job.now))) }
    ensures done { OnOk result (shares.new.done.parts + guest_count (job_of job.now) ≡ shares.old.done.parts) }
    ensures queued { OnOk result (shares.new.queued.parts + guest_count (job_of job.now) ≡ shares.old.queued.parts) }
    ensures faulted { OnOk result (shares.new.faulted.parts + guest_count (job_of job.now) ≡ shares.old.faulted.parts) }
    ensures other { shares.new.other ≡ shares.old.other }
{
    for guest in 0..job.guests() {
        let pass = guest_pass(job, GuestId(guest), shares);
        if passes.push(Pass::Guest(pass)).is_err() {
            return Err(NoMemory);
        }
    }
    Ok(())
}

/// A guest's pass, of one part of each of its ledgers.
fn guest_pass<D: Named, Q: Ledger, F: Ledger, R: Ledger>(
    job: &Job,
    guest: GuestId,
    shares: &mut Shares<D, Q, F, R>,
) -> GuestPass<D, Q, F>
    requires job { job.now ≡ D.origin.job }
    requires there { guest.0 < guest_count (job_of job.now) }
    requires done { (0 < shares.old.done.parts) × (shares.old.done.amount ≡ 0) }
    requires queued { (0 < shares.old.queued.parts) × (shares.old.queued.amount ≡ 0) }
    requires faulted { (0 < shares.old.faulted.parts) × (shares.old.faulted.amount ≡ 0) }
    ensures pass { result ≡ fresh_tally (job_of job.now) guest.0 }
    ensures done { (shares.new.done.parts + 1 ≡ shares.old.done.parts) × (shares.new.done.amount ≡ 0) }
    ensures queued { (shares.new.queued.parts + 1 ≡ shares.old.queued.parts) × (shares.new.queued.amount ≡ 0) }
    ensures faulted { (shares.new.faulted.parts + 1 ≡ shares.old.faulted.parts) × (shares.new.faulted.amount ≡ 0) }
    ensures other { shares.new.other ≡ shares.old.other }
{
    GuestPass {
        guest,
        calls: 0,
        number: 0,
        done: 0,
        queued: 0,
        faulted: 0,
        left: job.operations_of(guest),
        read_at: 0,
        read_length: 0,
        done_share: shares.done.split_off(1, 0),
        queued_share: shares.queued.split_off(1, 0),
        faulted_share: shares.faulted.split_off(1, 0),
    }
}

/// A copier's pass for each disk.
fn push_copiers<D: Named, Q: Ledger, F: Ledger, R: Ledger>(
    passes: &mut Vec<Pass<D, Q, F, R>>,
    disks: u8,
    share: &mut Share<R>,
) -> Result<(), NoMemory>
    requires parts { disks ≤ share.old.parts }
    requires none { share.old.amount ≡ 0 }
    ensures passes { OnOk result (passes.new.items ≡ passes.old.items ++ each_below disks (λ disk. fresh (Copier disk))) }
    ensures parts { OnOk result (share.new.parts + disks ≡ share.old.parts) }
    ensures none { share.new.amount ≡ 0 }
{
    for disk in 0..disks {
        push_worker(passes, Job1::Copier(disk), share)?;
    }
    Ok(())
}

/// A sender's pass for each stream.
fn push_senders<D: Named, Q: Ledger, F: Ledger, R: Ledger>(
    passes: &mut Vec<Pass<D, Q, F, R>>,
    streams: u8,
    share: &mut Share<R>,
) -> Result<(), NoMemory>
    requires parts { streams ≤ share.old.parts }
    requires none { share.old.amount ≡ 0 }
    ensures passes { OnOk result (passes.new.items ≡ passes.old.items ++ each_below streams (λ stream. fresh (Sender stream))) }
    ensures parts { OnOk result (share.new.parts + streams ≡ share.old.parts) }
    ensures none { share.new.amount ≡ 0 }
{
    for stream in 0..streams {
        push_worker(passes, Job1::Sender(stream), share)?;
    }
    Ok(())
}

/// A receiver's pass for each stream.
fn push_receivers<D: Named, Q: Ledger, F: Ledger, R: Ledger>(
    passes: &mut Vec<Pass<D, Q, F, R>>,
    streams: u8,
    share: &mut Share<R>,
) -> Result<(), NoMemory>
    requires parts { streams ≤ share.old.parts }
    requires none { share.old.amount ≡ 0 }
    ensures passes { OnOk result (passes.new.items ≡ passes.old.items ++ each_below streams (λ stream. fresh (Receiver stream))) }
    ensures parts { OnOk result (share.new.parts + streams ≡ share.old.parts) }
    ensures none { share.new.amount ≡ 0 }
{
    for stream in 0..streams {
        push_worker(passes, Job1::Receiver(stream), share)?;
    }
    Ok(())
}

/// The pass of one worker that is no guest.
fn push_worker<D: Named, Q: Ledger, F: Ledger, R: Ledger>(
    passes: &mut Vec<Pass<D, Q, F, R>>,
    worker: Job1,
    share: &mut Share<R>,
) -> Result<(), NoMemory>
    requires parts { 0 < share.old.parts }
    requires none { share.old.amount ≡ 0 }
    ensures passes { OnOk result (passes.new.items ≡ passes.old.items ++ fresh worker ∷ []) }
    ensures parts { share.new.parts + 1 ≡ share.old.parts }
    ensures none { share.new.amount ≡ 0 }
{
    let pass = WorkerPass {
        worker,
        calls: 0,
        steps: 0,
        share: share.split_off(1, 0),
    };
    match passes.push(Pass::Other(pass)) {
        Ok(()) => Ok(()),
        Err(_) => Err(NoMemory),
    }
}
