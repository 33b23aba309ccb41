//! The hold beside a list that is scanned.

ghost use Rattle.std.specs.Prelude.{◌≡◌, ◌<◌, ◌+◌, ◌^◌, [], length, replicate, count_by, position, IfOk};
ghost use Rattle.std.specs.List.{position_or_len};
ghost use Rattle.xv_hold.specs.Messages.{is_version, is_next};
ghost use Rattle.xv_engine_tests.specs.Beside.{IsBeside};

use std::alloc::{AllocError, Global};
use std::test::Fail;
use xv_base::{Layout, UnitHead, UnitId};
use xv_hold::Hold;

/// Messages in order of arrival, and for each unit the version that was written last.
#[derive(Drop)]
struct Scan {
    held: Vec<UnitHead>,
    written: Vec<u32>,
}

impl Scan {
    /// The place of the first message that is its unit's next version.
    fn ready(&self) -> Option<usize>
        ensures { result ≡ position (is_next self.now.written.items) self.now.held.items }
    {
        self.held
            .iter()
            .position(|head| is_next(&self.written, head))
    }

    /// How many messages of a unit and version there are.
    fn count(&self, unit: UnitId, version: u32) -> usize
        ensures { result ≡ count_by (is_version unit.0 version) self.now.held.items }
    {
        self.held
            .iter()
            .filter(|head| head.unit.0 == unit.0 && head.version == version)
            .count()
    }
}

fn is_next(written: &[u32], head: &UnitHead) -> bool
    ensures { result ≡ is_next written.now head.now }
{
    let version = match written.get(head.unit.0 as usize) {
        Some(version) => *version,
        None => 0,
    };
    u64::from(head.version) == u64::from(version) + 1
}

/// Lets a message arrive at both, where it may. The last places are kept for next versions.
fn arrive(hold: &mut Hold, scan: &mut Scan, unit: UnitId, ahead: u32) -> Result<(), AllocError>
    requires beside { IsBeside hold.old scan.old.held.items scan.old.written.items }
    requires unit_in { unit.0 < 4 }
    requires ahead { ahead < 4 }
    ensures { IfOk result (λ _. IsBeside hold.new scan.new.held.items scan.new.written.items) }
{
    let version = u64::from(hold.version(unit)) + 1 + u64::from(ahead);
    let Ok(version) = u32::try_from(version) else {
        return Ok(());
    };
    let room = if ahead > 0 { 12 } else { 16 };
    if scan.held.len() >= room || scan.count(unit, version) > 0 {
        return Ok(());
    }
    let head = UnitHead {
        unit,
        version,
        at: 0,
    };
    scan.held.push(head)?;
    hold.arrive(head, b"0123456789abcdef");
    Ok(())
}

/// Writes the message that is ready at both, and answers whether they name the same.
fn write(hold: &mut Hold, scan: &mut Scan) -> bool
    requires { IsBeside hold.old scan.old.held.items scan.old.written.items }
    ensures { IsBeside hold.new scan.new.held.items scan.new.written.items }
{
    match (hold.ready(), scan.ready()) {
        (Some(slot), Some(place)) => {
            let head = hold.head(slot);
            let same = scan.held.remove(place) == head;
            scan.written[head.unit.0 as usize] = head.version;
            hold.applied(slot);
            same
        }
        (None, None) => true,
        (Some(_), None) => false,
        (None, Some(_)) => false,
    }
}

/// Makes mixed calls of both, and answers whether they named the same each time.
fn agree(hold: &mut Hold, scan: &mut Scan, calls: u32) -> Result<bool, AllocError>
    requires { IsBeside hold.old scan.old.held.items scan.old.written.items }
{
    let mut seed: u32 = 1;
    for _call in 0..calls {
        seed = seed.wrapping_mul(1_664_525).wrapping_add(1_013_904_223);
        if seed >> 31 == 0 {
            arrive(hold, scan, UnitId((seed >> 16) % 4), (seed >> 20) % 4)?;
        } else if !write(hold, scan) {
            return Ok(false);
        }
    }
    Ok(true)
}

/// Whether a hold and a scan that begin with nothing named the same each time.
fn agreed(scan: &mut Scan, alloc: Global) -> Result<bool, Fail>
    requires held { scan.old.held.items ≡ [] }
    requires written { scan.old.written.items ≡ replicate 4 0 }
{
    let mut hold = Hold::new(alloc, 16, &Layout::new(4, 16, &[])?)?;
    let agreed = agree(&mut hold, scan, 10_000);
    drop(hold);
    Ok(agreed?)
}

#[test]
fn agrees_with_a_scan(rt: HostRuntime) -> Result<(), Fail> {
    let mut scan = Scan {
        held: Vec::new(rt.alloc()),
        written: Vec::from_elem(rt.alloc(), 0, 4)?,
    };
    let agreed = agreed(&mut scan, rt.alloc());
    let is_long = scan.written.iter().all(|version| *version > 100);
    drop(scan);
    assert_eq!(rt; agreed?, true);
    assert!(rt; is_long);
    Ok(())
}
