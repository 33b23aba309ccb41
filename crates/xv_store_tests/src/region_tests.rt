use std::test::Fail;
use xv_region::Region;

#[test]
fn ends_with_a_region_of_the_blocks_that_are_left(rt: HostRuntime) -> Result<(), Fail> {
    let mut region = Region::new(rt.alloc(), 3, 2)?;
    assert_eq!(rt; region.begin(4), 3);
    for byte in [7, 8, 9] {
        if region.read() < region.length() {
            region.buffer().fill(byte);
            region.put_read();
        }
    }
    for (i, want) in [(0, [7, 7]), (1, [8, 8]), (2, [9, 9])] {
        assert!(rt; i < region.read());
        assert_eq!(rt; region.copy(i), want.as_slice(), "block {i}");
    }
    assert!(rt; region.ready());
    region.advance();
    assert!(rt; region.cursor() == 3);
    assert_eq!(rt; region.begin(4), 1);
    assert!(rt; !region.ready());
    region.buffer().fill(5);
    region.put_read();
    assert_eq!(rt; region.copy(0), [5, 5].as_slice());
    assert!(rt; region.ready());
    region.advance();
    assert_eq!(rt; region.cursor(), 4);
    Ok(())
}

#[test]
fn gives_a_region_up_and_leaves_the_cursor(rt: HostRuntime) -> Result<(), Fail> {
    let mut region = Region::new(rt.alloc(), 2, 1)?;
    region.begin(2);
    region.buffer().fill(1);
    region.put_read();
    region.abandon();
    assert_eq!(rt; region.cursor(), 0);
    assert_eq!(rt; region.length(), 0);
    assert_eq!(rt; region.read(), 0);
    Ok(())
}
