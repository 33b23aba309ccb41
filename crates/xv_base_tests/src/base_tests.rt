//! What the units of a small layout are, where each fault of a layout begins, and the bytes that are written.

use std::test::Fail;
use xv_base::{
    DiskShape, Failed, Layout, LayoutFault, LineBuf, NoMemory, Pattern, PlannedCalls, Status,
    UnitId,
};

/// Two pages of 16 bytes, a disk of four blocks of 32 bytes and one of three blocks of 64.
fn small() -> Result<Layout, LayoutFault> {
    let disks = [
        DiskShape {
            blocks: 4,
            block_size: 32,
        },
        DiskShape {
            blocks: 3,
            block_size: 64,
        },
    ];
    Layout::new(2, 16, &disks)
}

#[test]
fn tells_whole_layout(rt: HostRuntime) -> Result<(), Fail> {
    let layout = small()?;
    assert_eq!(rt; layout.units(), 9);
    assert_eq!(rt; layout.pages(), 2);
    assert_eq!(rt; layout.page_size(), 16);
    assert_eq!(rt; layout.max_size(), 64);
    assert_eq!(rt; layout.bytes(), 352);
    assert_eq!(rt; layout.disks(), 2);
    for disk in 0..layout.disks() {
        let want = if disk == 0 { (4, 32) } else { (3, 64) };
        assert_eq!(rt; (layout.blocks(disk), layout.block_size(disk)), want);
    }
    Ok(())
}

#[test]
fn tells_units(rt: HostRuntime) -> Result<(), Fail> {
    let layout = small()?;
    let mut sizes = Vec::new(rt.alloc());
    let mut places = Vec::new(rt.alloc());
    for unit in 0..layout.units() {
        sizes.push(layout.size(UnitId(unit)))?;
        places.push(layout.place(UnitId(unit)))?;
    }
    assert_eq!(rt;
        sizes.as_slice(),
        [16, 16, 32, 32, 32, 32, 64, 64, 64].as_slice()
    );
    assert_eq!(rt;
        places.as_slice(),
        [0, 16, 32, 64, 96, 128, 160, 224, 288].as_slice()
    );
    Ok(())
}

#[test]
fn tells_blocks(rt: HostRuntime) -> Result<(), Fail> {
    let layout = small()?;
    let mut disks = Vec::new(rt.alloc());
    let mut blocks = Vec::new(rt.alloc());
    for unit in layout.pages()..layout.units() {
        assert!(rt; !layout.is_page(UnitId(unit)));
        disks.push(layout.disk_of(UnitId(unit)))?;
        blocks.push(layout.block_of(UnitId(unit)))?;
    }
    assert_eq!(rt; disks.as_slice(), [0, 0, 0, 0, 1, 1, 1].as_slice());
    assert_eq!(rt; blocks.as_slice(), [0, 1, 2, 3, 0, 1, 2].as_slice());
    Ok(())
}

#[test]
fn tells_units_of_blocks(rt: HostRuntime) -> Result<(), Fail> {
    let layout = small()?;
    let mut units = Vec::new(rt.alloc());
    for disk in 0..layout.disks() {
        for block in 0..layout.blocks(disk) {
            units.push(layout.unit_of_block(disk, block).0)?;
        }
    }
    assert_eq!(rt; units.as_slice(), [2, 3, 4, 5, 6, 7, 8].as_slice());
    Ok(())
}

#[test]
fn finds_first_fault(rt: HostRuntime) {
    let cases = [
        (0, 15, 1, 16, Some(LayoutFault::NoPage)),
        (1, 8, 1, 17, Some(LayoutFault::BadSize(0))),
        (1, 48, 1, 16, Some(LayoutFault::BadSize(0))),
        (1, 16, 1, 8192, Some(LayoutFault::BadSize(1))),
        (1, 16, 0, 16, None),
        (1, 4096, 1, 4096, None),
        (1048575, 16, 1, 16, None),
        (1048575, 4096, 2, 16, Some(LayoutFault::TooManyUnits)),
        (1, 16, 4294967295, 4096, Some(LayoutFault::TooManyUnits)),
        (131072, 4096, 0, 16, None),
        (131072, 4096, 1, 16, Some(LayoutFault::TooManyBytes)),
    ];
    for (pages, page_size, blocks, block_size, want) in cases {
        let made = Layout::new(pages, page_size, &[DiskShape { blocks, block_size }]);
        assert_eq!(rt;
            made.err(),
            want,
            "at {pages} {page_size} {blocks} {block_size}"
        );
    }
}

#[test]
fn fills_by_pattern(rt: HostRuntime) {
    let pattern = Pattern::new(&[1, 2, 3]);
    let mut unit = [9; 8];
    pattern.fill(&mut unit);
    assert_eq!(rt; unit, [1, 2, 3, 1, 2, 3, 1, 2]);
    assert_eq!(rt; pattern.len(), 3);
    assert_eq!(rt; pattern.bytes(), [1, 2, 3].as_slice());
}

#[test]
fn writes_line(rt: HostRuntime) {
    let mut line = LineBuf::new();
    line.push(b'=');
    line.push_all(b" at ");
    line.push_number(0);
    line.push(b' ');
    line.push_number(4294967295);
    assert_eq!(rt; line.bytes(), b"= at 0 4294967295".as_slice());
}

#[test]
fn codes_statuses(rt: HostRuntime) {
    let cases = [
        (Status::Fine, 0),
        (Status::BadWords, 1),
        (Status::BadInput, 2),
        (Status::ReadFault, 3),
        (Status::WriteFault, 4),
        (Status::NoMemory, 5),
        (Status::Failed, 6),
        (Status::Cancelled, 7),
        (Status::FileFault, 8),
    ];
    for (status, want) in cases {
        assert_eq!(rt; status.code(), want);
    }
}

#[test]
fn fails_planned_calls_alone(rt: HostRuntime) -> Result<(), Fail> {
    for (fails, want) in [
        ([1, 3], [Err(Failed), Ok(()), Err(Failed), Ok(())]),
        ([4, 4], [Ok(()), Ok(()), Ok(()), Err(Failed)]),
    ] {
        let mut calls = PlannedCalls::new(rt.alloc(), &fails)?;
        for answer in want {
            assert_eq!(rt; calls.begin(), answer);
        }
    }
    Ok(())
}
