//! What `gen` writes, and the words beside it and `drive`.

use crate::tests::{Case, plays};
use std::test::Fail;

/// How the job of 7 begins, as far as there is room.
const SEVEN: &[u8] =
    b"job 1\npages 1024 4096\ndisk 4096 512\ndisk 2048 512\nstreams 4\ncredit 64\noutbox 64\nregion 16\nrounds 8\ndirty 32\ninit 0 08\ninit 64 09\n";

const CASES: &[Case] = &[
    Case {
        name: "the job of a number, as far as there is room",
        words: &["gen", "7"],
        input: b"",
        fails: &[1],
        room: 129,
        status: 4,
        output: SEVEN,
    },
    Case {
        name: "gen without a number",
        words: &["gen"],
        input: b"",
        fails: &[],
        room: 500,
        status: 1,
        output: b"refused words\n",
    },
    Case {
        name: "a number above all",
        words: &["gen", "65536"],
        input: b"",
        fails: &[],
        room: 500,
        status: 1,
        output: b"refused words\n",
    },
    Case {
        name: "a number with leading zeros",
        words: &["gen", "007"],
        input: b"",
        fails: &[],
        room: 500,
        status: 1,
        output: b"refused words\n",
    },
    Case {
        name: "two numbers",
        words: &["gen", "7", "8"],
        input: b"",
        fails: &[],
        room: 500,
        status: 1,
        output: b"refused words\n",
    },
    Case {
        name: "a sign",
        words: &["gen", "+7"],
        input: b"",
        fails: &[],
        room: 500,
        status: 1,
        output: b"refused words\n",
    },
    Case {
        name: "no number",
        words: &["gen", ""],
        input: b"",
        fails: &[],
        room: 500,
        status: 1,
        output: b"refused words\n",
    },
    Case {
        name: "a number for replay",
        words: &["replay", "7"],
        input: b"",
        fails: &[],
        room: 500,
        status: 1,
        output: b"refused words\n",
    },
    Case {
        name: "drive without a number",
        words: &["drive"],
        input: b"",
        fails: &[],
        room: 500,
        status: 1,
        output: b"refused words\n",
    },
    Case {
        name: "drive as JSON",
        words: &["drive", "--json", "7"],
        input: b"",
        fails: &[],
        room: 500,
        status: 1,
        output: b"refused words\n",
    },
    Case {
        name: "a number to drive above all",
        words: &["drive", "65536"],
        input: b"",
        fails: &[],
        room: 500,
        status: 1,
        output: b"refused words\n",
    },
];

#[test]
fn makes_a_job_of_a_number_as_it_is_written(rt: HostRuntime) -> Result<(), Fail> {
    plays(&rt, rt.alloc(), CASES)
}
