ghost use Rattle.std.specs.Prelude.{◌≡◌, ◌+◌};

mod scan;

use std::test::Fail;
use xv_base::{Layout, UnitHead, UnitId};
use xv_hold::Hold;

#[test]
fn names_the_first_next_version(rt: HostRuntime) -> Result<(), Fail> {
    let mut hold = Hold::new(rt.alloc(), 4, &Layout::new(3, 16, &[])?)?;
    hold.arrive(head(1, 2), b"bbbbbbbbbbbbbbbb");
    hold.arrive(head(2, 1), b"cccccccccccccccc");
    hold.arrive(head(1, 1), b"aaaaaaaaaaaaaaaa");
    let count = hold.count(UnitId(1));
    let written = [
        write_next(&mut hold, b"cccccccccccccccc"),
        write_next(&mut hold, b"aaaaaaaaaaaaaaaa"),
        write_next(&mut hold, b"bbbbbbbbbbbbbbbb"),
    ];
    let left = hold.ready();
    drop(hold);
    assert_eq!(rt; count, 2);
    assert_eq!(rt;
        written,
        [Some(head(2, 1)), Some(head(1, 1)), Some(head(1, 2))]
    );
    assert_eq!(rt; left, None);
    Ok(())
}

#[test]
fn names_an_earlier_message_that_became_next(rt: HostRuntime) -> Result<(), Fail> {
    let mut hold = Hold::new(rt.alloc(), 4, &Layout::new(3, 16, &[])?)?;
    hold.arrive(head(1, 1), b"aaaaaaaaaaaaaaaa");
    hold.arrive(head(1, 2), b"bbbbbbbbbbbbbbbb");
    hold.arrive(head(2, 1), b"cccccccccccccccc");
    let written = [
        write_next(&mut hold, b"aaaaaaaaaaaaaaaa"),
        write_next(&mut hold, b"bbbbbbbbbbbbbbbb"),
        write_next(&mut hold, b"cccccccccccccccc"),
    ];
    let left = hold.ready();
    drop(hold);
    assert_eq!(rt;
        written,
        [Some(head(1, 1)), Some(head(1, 2)), Some(head(2, 1))]
    );
    assert_eq!(rt; left, None);
    Ok(())
}

/// A message whose `at` is ten and its version.
fn head(unit: u32, version: u32) -> UnitHead
    ensures { result ≡ record { unit = record { 0 = unit }; version = version; at = version + 10 } }
{
    UnitHead {
        unit: UnitId(unit),
        version,
        at: u64::from(version) + 10,
    }
}

/// Writes the message that is ready, where its content is this one, and answers what is then recorded of its unit.
fn write_next(hold: &mut Hold, content: &[u8]) -> Option<UnitHead> {
    let slot = hold.ready()?;
    let UnitHead { unit, .. } = hold.head(slot);
    if hold.bytes(slot) != content {
        return None;
    }
    hold.applied(slot);
    let version = hold.version(unit);
    if version == 0 {
        return None;
    }
    Some(UnitHead {
        unit,
        version,
        at: hold.at(unit),
    })
}
