use std::test::Fail;
use xv_base::{Layout, UnitHead, UnitId};
use xv_frame::{
    FrameFault, GroupFault, Head, check_group, decode_entry, decode_group_head, decode_head,
    encode_ack, encode_entry, encode_group_head, encode_unit, frame_size, read_head,
};

/// Unit 1 in version 2, made at 1.
const FIRST: UnitHead = UnitHead {
    unit: UnitId(1),
    version: 2,
    at: 1,
};

/// Unit 2 in version 1, made at 0.
const SECOND: UnitHead = UnitHead {
    unit: UnitId(2),
    version: 1,
    at: 0,
};

/// The frame of unit 1 in version 2 with 16 bytes `bb`.
const FRAME: [u8; 40] = [
    1, 1, 0, 0, 0, 0, 0, 1, 0, 0, 0, 2, 0, 0, 0, 16, 0, 0, 0, 0, 0, 0, 0, 1, 0xbb, 0xbb, 0xbb,
    0xbb, 0xbb, 0xbb, 0xbb, 0xbb, 0xbb, 0xbb, 0xbb, 0xbb, 0xbb, 0xbb, 0xbb, 0xbb,
];

/// The acknowledgement of 258 messages.
const ACK: [u8; 24] = [
    1, 2, 0, 0, 0, 0, 0, 0, 0, 0, 1, 2, 0, 0, 0, 0, 0, 0, 0, 0, 0, 0, 0, 0,
];

/// The group of unit 1 with bytes `bb` and of unit 2 with zeros.
const GROUP: [u8; 80] = [
    2, 1, 0, 2, 0, 0, 0, 56, 0, 0, 0, 0, 0, 0, 0, 0, 0, 0, 0, 0, 0, 0, 0, 0, 0, 0, 0, 1, 0, 0, 0,
    2, 0, 0, 0, 0, 0, 0, 0, 1, 0, 0, 0, 0, 0xbb, 0xbb, 0xbb, 0xbb, 0xbb, 0xbb, 0xbb, 0xbb, 0xbb,
    0xbb, 0xbb, 0xbb, 0xbb, 0xbb, 0xbb, 0xbb, 0, 0, 0, 2, 0, 0, 0, 1, 0, 0, 0, 0, 0, 0, 0, 0, 1, 0,
    0, 0,
];

#[test]
fn spells_frames(rt: HostRuntime) -> Result<(), Fail> {
    let layout = Layout::new(3, 16, &[])?;
    let mut frame = [9; 40];
    assert_eq!(rt; encode_unit(&layout, FIRST, &[0xbb; 16], &mut frame), 40);
    assert_eq!(rt; frame, FRAME);
    let mut ack = [9; 24];
    encode_ack(258, &mut ack);
    assert_eq!(rt; ack, ACK);
    Ok(())
}

#[test]
fn spells_a_group(rt: HostRuntime) -> Result<(), Fail> {
    let layout = Layout::new(3, 16, &[])?;
    let mut head = [9; 24];
    encode_group_head(2, 56, &mut head);
    assert_eq!(rt; head.as_slice(), &GROUP[..24]);
    let mut entry = [9; 36];
    assert_eq!(rt; encode_entry(&layout, FIRST, &[0xbb; 16], &mut entry), 36);
    assert_eq!(rt; entry.as_slice(), &GROUP[24..60]);
    assert_eq!(rt; encode_entry(&layout, SECOND, &[0; 16], &mut entry), 20);
    assert_eq!(rt; &entry[..20], &GROUP[60..]);
    Ok(())
}

#[test]
fn reads_what_was_spelled(rt: HostRuntime) -> Result<(), Fail> {
    let layout = Layout::new(3, 16, &[])?;
    let mut head = [0; 24];
    head.copy_from_slice(&FRAME[..24]);
    assert_eq!(rt; decode_head(&head, &layout), Ok(Head::Unit(FIRST)));
    assert_eq!(rt; decode_head(&ACK, &layout), Ok(Head::Ack(258)));
    assert_eq!(rt; check_group(&GROUP, &layout), Ok(2));
    assert_eq!(rt;
        decode_group_head(&GROUP).map(|head| (head.count, head.bytes)),
        Ok((2, 56))
    );
    let second = decode_entry(&layout, &GROUP[60..]);
    assert_eq!(rt;
        second.map(|entry| (entry.head, entry.zero)),
        Ok((SECOND, true))
    );
    Ok(())
}

#[test]
fn tells_the_size_of_a_frame_by_its_head(rt: HostRuntime) -> Result<(), Fail> {
    let layout = Layout::new(3, 16, &[])?;
    assert_eq!(rt; read_head(&ACK, &layout), Ok(Head::Ack(258)));
    assert_eq!(rt; frame_size(&ACK, &layout), Some(24));
    assert_eq!(rt; frame_size(&FRAME[..24], &layout), Some(40));
    assert_eq!(rt; frame_size(&GROUP[..24], &layout), Some(80));
    Ok(())
}

#[test]
fn finds_each_fault_of_a_head(rt: HostRuntime) -> Result<(), Fail> {
    let layout = Layout::new(3, 16, &[])?;
    let units = [
        (0, 2, FrameFault::BadFormat),
        (0, 0, FrameFault::BadFormat),
        (1, 3, FrameFault::BadKind),
        (2, 1, FrameFault::NotZero),
        (3, 1, FrameFault::NotZero),
        (7, 3, FrameFault::BadUnit),
        (11, 0, FrameFault::BadVersion),
        (15, 17, FrameFault::BadLength),
    ];
    for (at, byte, want) in units {
        let mut head = [0; 24];
        head.copy_from_slice(&FRAME[..24]);
        head[at] = byte;
        assert_eq!(rt; decode_head(&head, &layout), Err(want), "at {at}");
    }
    let acks = [
        (4, 1, FrameFault::NotZero),
        (7, 1, FrameFault::NotZero),
        (12, 1, FrameFault::NotZero),
        (23, 1, FrameFault::NotZero),
        (10, 4, FrameFault::BadCount),
        (9, 1, FrameFault::BadCount),
    ];
    for (at, byte, want) in acks {
        let mut head = ACK;
        head[at] = byte;
        assert_eq!(rt; decode_head(&head, &layout), Err(want), "at {at}");
    }
    Ok(())
}

#[test]
fn finds_each_fault_of_a_group(rt: HostRuntime) -> Result<(), Fail> {
    let layout = Layout::new(3, 16, &[])?;
    let cases = [
        (0, 1, GroupFault::BadFormat),
        (1, 2, GroupFault::BadKind),
        (3, 0, GroupFault::BadCount),
        (3, 17, GroupFault::BadCount),
        (8, 1, GroupFault::NotZero),
        (23, 1, GroupFault::NotZero),
        (7, 55, GroupFault::BadLength),
        (27, 3, GroupFault::BadUnit),
        (31, 0, GroupFault::BadVersion),
        (40, 2, GroupFault::BadMark),
        (41, 1, GroupFault::NotZero),
        (67, 0, GroupFault::BadVersion),
        (76, 0, GroupFault::Short),
        (3, 1, GroupFault::Long),
        (3, 3, GroupFault::Short),
    ];
    for (at, byte, want) in cases {
        let mut group = GROUP;
        if let Some(changed) = group.get_mut(at) {
            *changed = byte;
        }
        assert_eq!(rt; check_group(&group, &layout), Err(want), "at {at} {byte}");
    }
    assert_eq!(rt; check_group(&GROUP[..23], &layout), Err(GroupFault::Short));
    let mut unmarked = [0; 96];
    unmarked[..80].copy_from_slice(&GROUP);
    unmarked[7] = 72;
    unmarked[76] = 0;
    assert_eq!(rt; check_group(&unmarked, &layout), Err(GroupFault::BadMark));
    Ok(())
}
