use xv_base::{GuestId, Side, UnitId, Waiting};
use xv_filter::{Queue, place};

#[test]
fn places_a_block_on_one_of_three_sides(rt: HostRuntime) {
    for (cursor, length, block, want) in [
        (4, 3, 3, Side::Behind),
        (4, 3, 4, Side::Inside),
        (4, 3, 6, Side::Inside),
        (4, 3, 7, Side::Ahead),
        (0, 0, 0, Side::Ahead),
    ] {
        assert_eq!(rt; place(cursor, length, block), want, "block {block}");
    }
}

#[test]
fn gives_the_writes_in_order_of_joining(rt: HostRuntime) {
    let mut queue = Queue::new();
    for number in 0..40_u32 {
        let guest = GuestId((number % 16) as u8);
        if number >= 16 {
            assert!(rt; queue.holds(guest));
            assert_eq!(rt; queue.front().map(|first| first.guest), Some(guest));
            if queue.holds(guest) {
                let first = queue.leave();
                assert_eq!(rt; first.unit, UnitId(number - 16));
            }
        }
        if !queue.holds(guest) {
            queue.join(Waiting {
                guest,
                unit: UnitId(number),
            });
        }
    }
    assert_eq!(rt; queue.front().map(|first| first.unit), Some(UnitId(24)));
}
