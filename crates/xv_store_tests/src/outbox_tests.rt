use std::test::Fail;
use xv_base::{Layout, UnitHead, UnitId};
use xv_outbox::Outbox;

#[test]
fn goes_round_the_limit(rt: HostRuntime) -> Result<(), Fail> {
    let layout = Layout::new(2, 16, &[])?;
    let mut outbox = Outbox::new(rt.alloc(), 2, &layout)?;
    outbox.issue(UnitId(0), 5, b"aaaaaaaaaaaaaaaa");
    outbox.issue(UnitId(1), 6, b"bbbbbbbbbbbbbbbb");
    outbox.take();
    assert_eq!(rt; outbox.issue(UnitId(1), 7, b"cccccccccccccccc"), 2);
    assert_eq!(rt; outbox.room(), 0);
    assert_eq!(rt; outbox.front(), Some(head(1, 6)));
    assert_eq!(rt; outbox.front_bytes(), b"bbbbbbbbbbbbbbbb".as_slice());
    assert_eq!(rt; outbox.nth(0), head(1, 6));
    assert_eq!(rt; outbox.nth(1), head(2, 7));
    assert_eq!(rt; outbox.nth_bytes(1), b"cccccccccccccccc".as_slice());
    assert_eq!(rt; outbox.issued(UnitId(0)), 1);
    assert_eq!(rt; outbox.count(UnitId(0)), 0);
    assert_eq!(rt; outbox.count(UnitId(1)), 2);
    Ok(())
}

/// A message of unit 1.
fn head(version: u32, at: u64) -> UnitHead {
    UnitHead {
        unit: UnitId(1),
        version,
        at,
    }
}
