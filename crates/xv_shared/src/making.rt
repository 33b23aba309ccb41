//! What a shared migration is made of, beside the migration.

ghost use Rattle.std.specs.Prelude.{◌≡◌, IfOk};
ghost use Rattle.std.specs.Arc.{arc_value};
ghost use Rattle.xv_progress.specs.Numbers.{no_numbers};
ghost use Rattle.xv_model.specs.Job.{guest_count};
ghost use Rattle.xv_job.specs.Written.{job_of};
ghost use Rattle.xv_shared.specs.Held.{by_kind};
ghost use Rattle.xv_shared.specs.FirstCrew.{AreOfJob, first_crew, other_count};

use crate::books::{Books, Shares};
use crate::ledgers::{Blanks, Named};
use crate::mustering::{muster, open};
use crate::passes::Pass;
use std::alloc::Global;
use std::sync::Arc;
use std::sync::ledger::Ledger;
use xv_base::NoMemory;
use xv_job::Job;
use xv_progress::{Progress, Publisher, Reader};

/// The books at 0 and shares of no part, the passes, and the words of progress with their publisher and first reader.
pub(crate) struct Made<D: Named, Q: Ledger, F: Ledger, R: Ledger> {
    pub(crate) books: Books<D, Q, F, R>,
    pub(crate) spare: Shares<D, Q, F, R>,
    pub(crate) passes: Vec<Pass<D, Q, F, R>>,
    pub(crate) words: Words,
}

/// The words of progress, twice, with their publisher and first reader.
#[derive(Drop)]
pub(crate) struct Words {
    pub(crate) progress: Arc<Progress>,
    pub(crate) held: Arc<Progress>,
    pub(crate) publisher: Publisher,
    pub(crate) reader: Reader,
}

/// All that is made for a job.
pub(crate) fn make<D: Named, Q: Ledger, F: Ledger, R: Ledger>(
    alloc: Global,
    blanks: Blanks,
    job: &Job,
) -> Result<Made<D, Q, F, R>, NoMemory>
    requires job { job.now ≡ D.origin.job }
    requires done { (blanks.done.name ≡ D.name) × (blanks.done.parts ≡ D.parts) × (D.parts ≡ guest_count (job_of D.origin.job)) }
    requires queued { (blanks.queued.name ≡ Q.name) × (blanks.queued.parts ≡ Q.parts) × (Q.parts ≡ guest_count (job_of D.origin.job)) }
    requires faulted { (blanks.faulted.name ≡ F.name) × (blanks.faulted.parts ≡ F.parts) × (F.parts ≡ guest_count (job_of D.origin.job)) }
    requires other { (blanks.other.name ≡ R.name) × (blanks.other.parts ≡ R.parts) × (R.parts ≡ other_count (job_of D.origin.job)) }
    ensures books { IfOk result (λ made. by_kind made.books.done.total made.books.queued.total made.books.faulted.total made.books.other.total ≡ by_kind 0 0 0 0) }
    ensures spare { IfOk result (λ made. by_kind made.spare.done.parts made.spare.queued.parts made.spare.faulted.parts made.spare.other.parts ≡ by_kind 0 0 0 0) }
    ensures passes { IfOk result (λ made. made.passes.items ≡ first_crew (job_of D.origin.job)) }
    ensures held { IfOk result (λ made. arc_value made.words.held ≡ arc_value made.words.progress) }
    ensures publisher { IfOk result (λ made. made.words.publisher ≡ record { belongs = arc_value made.words.progress; numbers = no_numbers }) }
    ensures reader { IfOk result (λ made. made.words.reader ≡ record { belongs = arc_value made.words.progress; numbers = no_numbers }) }
{
    let words = make_words(alloc)?;
    let (books, mut spare) = open(blanks);
    let passes = muster(alloc, job, &mut spare)?;
    Ok(Made {
        books,
        spare,
        passes,
        words,
    })
}

/// New words of progress.
fn make_words(alloc: Global) -> Result<Words, NoMemory>
    ensures held { IfOk result (λ words. arc_value words.held ≡ arc_value words.progress) }
    ensures publisher { IfOk result (λ words. words.publisher ≡ record { belongs = arc_value words.progress; numbers = no_numbers }) }
    ensures reader { IfOk result (λ words. words.reader ≡ record { belongs = arc_value words.progress; numbers = no_numbers }) }
{
    let (progress, publisher, reader) = Progress::new(alloc)?;
    let Ok(progress) = Arc::new(alloc, progress) else {
        return Err(NoMemory);
    };
    let Ok(held) = Arc::try_clone(&progress) else {
        return Err(NoMemory);
    };
    Ok(Words {
        progress,
        held,
        publisher,
        reader,
    })
}

/// What is kept of a job beside the lock: the bound of its journal, its guests, disks and streams.
pub(crate) fn job_numbers(job: &Job) -> (u32, u8, u8, u8)
    ensures { AreOfJob (job_of job.now) result.0 result.1 result.2 result.3 }
{
    (
        job.bound(),
        job.guests(),
        job.layout.disks(),
        job.config.streams,
    )
}
