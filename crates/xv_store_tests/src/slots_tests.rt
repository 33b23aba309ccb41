use std::test::Fail;
use xv_slots::Slots;

#[test]
fn keeps_the_slots_apart(rt: HostRuntime) -> Result<(), Fail> {
    let mut slots = Slots::new(rt.alloc(), 3, 4)?;
    slots.put(1, b"abcd");
    slots.put(1, b"xy");
    slots.put(2, b"z");
    assert_eq!(rt; slots.part(0, 4), [0; 4].as_slice());
    assert_eq!(rt; slots.part(1, 4), b"xycd".as_slice());
    assert_eq!(rt; slots.part(2, 1), b"z".as_slice());
    Ok(())
}
