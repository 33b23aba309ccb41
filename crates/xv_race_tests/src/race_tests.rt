//! Two threads race for the lock of one shared migration, many times. Whatever their order, what each pass has counted is what
//! the journal has of it, and the journal is what one thread would have made.

ghost use Rattle.std.specs.Prelude.{◌≡◌, []};
ghost use Rattle.xv_model.specs.Job.{guest_count};
ghost use Rattle.xv_job.specs.Written.{job_of};
ghost use Rattle.xv_core.specs.Origin.{HasOrigin};
ghost use Rattle.xv_shared.specs.FirstCrew.{other_count};

use crate::made::{begun, blanks, job_said};
use crate::racing::{Pair, act_before, race};
use crate::replay::is_replayed;
use crate::tally::{Tally, changes, counted, entered};
use std::alloc::Global;
use std::marker::Brand;
use std::sync::Wait;
use std::sync::ledger::Ledger;
use std::test::Fail;
use std::thread::Threads;
use xv_base::{Event, NoMemory};
use xv_parts::Machine;
use xv_shared::{Blanks, Named, Shared};

/// Two guests that write the same block ahead of the copy, store to the same page, read both, and write in the region. The second
/// write of the source fails, whoever makes it.
const TWO_GUESTS: &[u8] =
    b"job 1\npages 1 16\ndisk 4 16\nstreams 1\ncredit 2\noutbox 2\nregion 1\nrounds 1\ndirty 0\nfault swrite 2\nguest\nwr 0 3 1 aa\nrd 0 3 0 2\nst 0 1 aa\nld 0 2\nwr 0 0 1 aa\nguest\nwr 0 3 1 bb\nrd 0 3 0 2\nst 0 1 bb\nld 0 2\nwr 0 0 1 bb\nend\n";

/// A guest that writes and reads the blocks of a disk while these are copied, and one that does nothing.
const A_GUEST_AND_A_COPIER: &[u8] =
    b"job 1\npages 1 16\ndisk 4 16\nstreams 1\ncredit 8\noutbox 8\nregion 1\nrounds 1\ndirty 0\nguest\nwr 0 3 1 31\nwr 0 0 1 01\nrd 0 0 0 2\nwr 0 1 1 11\nwr 0 2 1 21\nrd 0 2 0 2\nguest\nend\n";

/// The places of passes: two guests, and then the copier.
const FIRST: usize = 0;

const SECOND: usize = 1;

const COPIER: usize = 2;

/// How often each race is run, since the threads may take turns otherwise each time.
const ROUNDS: u32 = 50;

/// What a race left.
#[derive(Clone, Copy, Debug, PartialEq)]
struct Left {
    /// Whether the two threads were there at the same time.
    met: bool,
    /// What the passes have counted, and what the journal has.
    counted: Tally,
    entered: Tally,
    /// How long the journal is, and how often it passes from one to the other.
    long: usize,
    changes: u32,
    /// Whether one thread, which plays the journal again, makes the same of it.
    replayed: bool,
}

/// A race of the passes at two places, after events of the copier.
#[derive(Clone, Copy)]
struct Race {
    text: &'static [u8],
    before: &'static [Event],
    first: usize,
    second: usize,
}

const GUESTS: Race = Race {
    text: TWO_GUESTS,
    before: &[Event::Begin(0), Event::Read(0)],
    first: FIRST,
    second: SECOND,
};

const GUEST_AND_COPIER: Race = Race {
    text: A_GUEST_AND_A_COPIER,
    before: &[],
    first: FIRST,
    second: COPIER,
};

#[test]
fn two_guests_race_for_the_lock(rt: HostRuntime) -> Result<(), Fail> {
    let mut changes: u32 = 0;
    for round in 0..ROUNDS {
        let left = raced(&rt, rt.alloc(), GUESTS)?;
        changes = changes.saturating_add(left.changes);
        assert!(rt; is_one_order(&left), "{round}");
        // Each guest has done or failed in four operations and waits with its last; one has failed.
        assert_eq!(rt; ended(&left), (5, 5, 1, 2, 12), "{round}");
    }
    // Had each guest made all its calls in one go, the turn would have passed once a round.
    assert!(rt; changes > ROUNDS);
    Ok(())
}

#[test]
fn a_guest_and_a_copier_race_for_the_lock(rt: HostRuntime) -> Result<(), Fail> {
    let mut changes: u32 = 0;
    for round in 0..ROUNDS {
        let left = raced(&rt, rt.alloc(), GUEST_AND_COPIER)?;
        changes = changes.saturating_add(left.changes);
        assert!(rt; is_one_order(&left), "{round}");
        assert!(rt; left.counted.first.sum() > 0, "{round}");
        assert!(rt; left.counted.other > 0, "{round}");
        assert_eq!(rt; left.counted.second.sum(), 0, "{round}");
    }
    assert!(rt; changes > ROUNDS);
    Ok(())
}

/// Whether both threads were there, the passes have counted what the journal has, and one thread makes the same of it.
fn is_one_order(left: &Left) -> bool {
    left.met
        && left.counted == left.entered
        && left.counted.sum() == left.long as u64
        && left.replayed
}

/// The entries of the two guests, those that failed, those of other workers, and the length of the journal.
fn ended(left: &Left) -> (u64, u64, u64, u64, usize) {
    let counted = left.counted;
    (
        counted.first.sum(),
        counted.second.sum(),
        counted.first.faulted.wrapping_add(counted.second.faulted),
        counted.other,
        left.long,
    )
}

/// Runs a race, and looks at what it left.
fn raced<X: Threads + Wait + Sync>(rt: &X, alloc: Global, of: Race) -> Result<Left, Fail> {
    let machine = begun(alloc, job_said(alloc, of.text)?)?;
    let blanks = blanks(machine.job());
    let pair = Pair::new(of.first, of.second);
    let (machine, counted) = run::<Brand, Brand, Brand, Brand, _>(
        rt, alloc, blanks, machine, of.before, &pair,
    )?;
    let left = looked_at(alloc, of, &pair, counted, &machine);
    drop(machine);
    left
}

fn looked_at(
    alloc: Global,
    of: Race,
    pair: &Pair,
    counted: Tally,
    machine: &Machine,
) -> Result<Left, Fail> {
    let journal = machine.journal();
    Ok(Left {
        met: pair.met(),
        counted,
        entered: entered(journal),
        long: journal.len(),
        changes: changes(journal, of.before.len()),
        replayed: is_replayed(alloc, of.text, machine)?,
    })
}

/// Shares a migration, lets the copier act and then the pair race, and ends the sharing.
fn run<
    D: Named + Send + Sync,
    Q: Ledger + Send + Sync,
    F: Ledger + Send + Sync,
    R: Ledger + Send + Sync,
    X: Threads + Wait + Sync,
>(
    rt: &X,
    alloc: Global,
    blanks: Blanks,
    machine: Machine,
    before: &[Event],
    pair: &Pair,
) -> Result<(Machine, Tally), Fail>
    requires none { machine.journal ≡ [] }
    requires came { HasOrigin D.origin machine }
    requires done { (blanks.done.name ≡ D.name) × (blanks.done.parts ≡ D.parts) × (D.parts ≡ guest_count (job_of D.origin.job)) }
    requires queued { (blanks.queued.name ≡ Q.name) × (blanks.queued.parts ≡ Q.parts) × (Q.parts ≡ guest_count (job_of D.origin.job)) }
    requires faulted { (blanks.faulted.name ≡ F.name) × (blanks.faulted.parts ≡ F.parts) × (F.parts ≡ guest_count (job_of D.origin.job)) }
    requires other { (blanks.other.name ≡ R.name) × (blanks.other.parts ≡ R.parts) × (R.parts ≡ other_count (job_of D.origin.job)) }
{
    let (shared, mut crew) = match Shared::<_, _, _, D, Q, F, R>::new(alloc, blanks, machine) {
        Ok(made) => made,
        Err(machine) => {
            drop(machine);
            return Err(Fail::from(NoMemory));
        }
    };
    act_before(rt, &shared, COPIER, before, &mut crew.passes);
    race(rt, &shared, pair, &mut crew);
    let counted = counted(&crew.passes);
    Ok((shared.close(crew), counted))
}
