ghost use Rattle.std.specs.Prelude.{◌≡◌, ◌*◌, ◌^◌, ◌<◌};
ghost use Rattle.std.specs.Thread.{IsSync};
ghost use Rattle.xv_progress.specs.Numbers.{no_numbers};

use std::sync::Wait;
use std::test::Fail;
use std::thread::{Threads, join, yield_now};
use xv_progress::{Numbers, Progress, Publisher, Reader};

fn numbers(history: u64, copied: u64, applied: u64, journal: u64) -> Numbers
    ensures { result ≡ record { history = history; copied = copied; applied = applied; journal = journal } }
{
    Numbers {
        history,
        copied,
        applied,
        journal,
    }
}

#[test]
fn what_one_reader_saw_another_gets_by_joining(rt: HostRuntime) -> Result<(), Fail> {
    let (progress, mut publisher, mut a) = Progress::new(rt.alloc())?;
    let (early, late) = (numbers(1, 0, 0, 2), numbers(2, 1, 0, 5));
    progress.publish(&mut publisher, early);
    assert_eq!(rt; publisher.last(), early);
    assert_eq!(rt; progress.read(&mut a), early);
    let mut b = progress.split(&mut a);
    progress.publish(&mut publisher, late);
    assert_eq!(rt; progress.read(&mut b), late);
    assert_eq!(rt; a.seen(), early);
    progress.join(&mut a, b);
    assert_eq!(rt; a.seen(), late);
    Ok(())
}

const LAST: u64 = 100_000;

fn publish_all(progress: &Progress, publisher: &mut Publisher)
    requires own { publisher.old.belongs ≡ progress.now }
    requires begins { publisher.old.numbers ≡ no_numbers }
{
    for n in 0..LAST {
        progress.publish(publisher, numbers(n + 1, n + 1, n + 1, 3 * n + 3));
    }
}

/// Reads until the last numbers are there, and answers whether no number fell on the way.
fn reads_rise<R: Wait>(rt: &R, progress: &Progress, mut reader: Reader) -> bool
    requires { reader.belongs ≡ progress.now }
{
    let mut before = reader.seen();
    for _ in rt.forever() {
        let now = progress.read(&mut reader);
        if !is_rise(&before, &now) {
            return false;
        }
        if now == numbers(LAST, LAST, LAST, 3 * LAST) {
            return true;
        }
        before = now;
        yield_now();
    }
    unreachable!()
}

fn is_rise(before: &Numbers, now: &Numbers) -> bool {
    before.history <= now.history
        && before.copied <= now.copied
        && before.applied <= now.applied
        && before.journal <= now.journal
}

/// Publishes while one reader reads in a thread of its own.
fn beside_one<R: Threads + Wait + Sync>(
    rt: &R,
    progress: &Progress,
    reader: Reader,
    mut publisher: Publisher,
) -> bool
    requires reader { reader.belongs ≡ progress.now }
    requires publisher { publisher ≡ record { belongs = progress.now; numbers = no_numbers } }
{
    join(
        rt,
        || reads_rise(rt, progress, reader),
        || publish_all(progress, &mut publisher),
    )
    .0
}

fn beside_two<R: Threads + Wait + Sync>(
    rt: &R,
    progress: &Progress,
    readers: (Reader, Reader),
    publisher: Publisher,
) -> bool
    requires first { readers.0.belongs ≡ progress.now }
    requires second { readers.1.belongs ≡ progress.now }
    requires publisher { publisher ≡ record { belongs = progress.now; numbers = no_numbers } }
{
    let (first, second) = readers;
    let (a, b) = join(
        rt,
        || reads_rise(rt, progress, first),
        || -> bool
            requires { IsSync R.row × (second.belongs ≡ progress.now) × (publisher ≡ record { belongs = progress.now; numbers = no_numbers }) }
        { beside_one(rt, progress, second, publisher) },
    );
    a && b
}

// Three readers in threads of their own, or after the publisher where no thread can be made.
#[test]
fn no_number_falls_for_any_reader(rt: HostRuntime) -> Result<(), Fail> {
    let (progress, publisher, mut first) = Progress::new(rt.alloc())?;
    let second = progress.split(&mut first);
    let third = progress.split(&mut first);
    let (a, b) = join(
        &rt,
        || reads_rise(&rt, &progress, first),
        || beside_two(&rt, &progress, (second, third), publisher),
    );
    assert!(rt; a && b);
    Ok(())
}
