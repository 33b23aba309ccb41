//! Bytes that no text has: each is refused by the line on which it stands, as any other wrong word or number.

use crate::calling::is_refused;

/// An input of `replay`, and the line and the reason of its refusal.
const ODD: &[(&[u8], u32, &str)] = &[
    (b"job 1\r\npages 1 16\r\n", 1, "bad-word"),
    (b"\r\n", 1, "bad-word"),
    (b"\xef\xbb\xbfjob 1\n", 1, "bad-word"),
    (b"\xffjob 1\n", 1, "bad-word"),
    (b"job\x001\n", 1, "bad-word"),
    (b"job\t1\n", 1, "bad-word"),
    (b"\0\n", 1, "bad-word"),
    (b"\n", 1, "bad-word"),
    (b"\0", 1, "unended"),
    (b"\xff\xfe\xfd", 1, "unended"),
    (b"job 1\npages 1 16\r\n", 2, "bad-number"),
    (b"job 1\npages \xc3\xa9 16\n", 2, "bad-number"),
    (b"job 1\npages 1\0 16\n", 2, "bad-number"),
    (b"job 1\npages 1\xa016\n", 2, "bad-word"),
    (b"job 1\npages -1 16\n", 2, "bad-number"),
    (b"job 1\npages +1 16\n", 2, "bad-number"),
    (b"job 1\npages 0x1 16\n", 2, "bad-number"),
    (b"job 1\npages 1. 16\n", 2, "bad-number"),
    (b"job 1\npages 1 16\0\n", 2, "bad-number"),
    (
        b"job 1\npages 1 16\nstreams 1\ncredit 1\noutbox 1\nregion 1\nrounds 1\ndirty 0\ninit 0 \xe0\xe0\n",
        9,
        "bad-hex",
    ),
    (
        b"job 1\npages 1 16\nstreams 1\ncredit 1\noutbox 1\nregion 1\nrounds 1\ndirty 0\nguest\nend\nstop\r\n",
        11,
        "bad-word",
    ),
    (
        b"job 1\npages 1 16\nstreams 1\ncredit 1\noutbox 1\nregion 1\nrounds 1\ndirty 0\nguest\nend\nstop\n\0",
        12,
        "order",
    ),
    (
        b"job 1\npages 1 16\nstreams 1\ncredit 1\noutbox 1\nregion 1\nrounds 1\ndirty 0\nguest\nend\nstop\n\n",
        12,
        "order",
    ),
];

#[test]
fn refuses_bytes_that_no_text_has(rt: HostRuntime) {
    for &(input, line, why) in ODD {
        let refused = is_refused(rt.alloc(), &["replay"], input, line, why);
        assert!(rt; refused, "{input:?}");
    }
}

/// An input of `handover`, and the line and the reason of its refusal.
const ODD_WORLDS: &[(&[u8], u32, &str)] = &[
    (b"offer\r\nstop\r\n", 1, "bad-word"),
    (b"offer\n\xff\nstop\n", 2, "bad-word"),
    (b"offer\npass 0\0\nstop\n", 2, "bad-number"),
    (b"offer\nstop\n\0", 3, "order"),
    (b"\0", 1, "unended"),
];

#[test]
fn refuses_bytes_that_no_handover_has(rt: HostRuntime) {
    for &(input, line, why) in ODD_WORLDS {
        let refused = is_refused(rt.alloc(), &["handover"], input, line, why);
        assert!(rt; refused, "{input:?}");
    }
}
