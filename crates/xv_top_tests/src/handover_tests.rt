//! What `handover` answers and writes: two whole scripts, each refusal and fault once, and the words beside it.

use crate::tests::{Case, plays};
use std::test::Fail;

pub const REPEATS: &[u8] =
    b"write a\noffer\npass 0\nimage 1\npass 0\nwrite a\npass 1\nrestart a\nwrite a\npass 2\npass 2\nwrite b\nstop\n";

const REPEATS_OUT: &[u8] =
    b"write a done\noffer done prepare 1 1\npass 0 done\nimage 1 done\npass 0 done ready 1 1\nwrite a wait not-now\npass 1 done commit 1 1\nrestart a done\nwrite a wait not-now\npass 2 done\npass 2 done\nwrite b done\na gone 1 1\nb owner 1 2\n";

const WITHDRAWN: &[u8] =
    b"offer\npass 0\nwithdraw\nwrite a\npass 1\noffer\npass 2\npass 0\nimage 1\npass 3\nrestart a\npass 4\nwrite a\npass 9\nstop\n";

const WITHDRAWN_OUT: &[u8] =
    b"offer done prepare 1 0\npass 0 done ready 1 0\nwithdraw done abort 1 0\nwrite a done\npass 1 done\noffer done prepare 2 1\npass 2 done\npass 0 done\nimage 1 done\npass 3 done ready 2 1\nrestart a done\npass 4 done\nwrite a done\npass 9 wait nothing-there\na owner 2 2\nb prepared 2 1\n";

const CASES: &[Case] = &[
    Case {
        name: "messages that are repeated",
        words: &["handover"],
        input: REPEATS,
        fails: &[],
        room: 500,
        status: 0,
        output: REPEATS_OUT,
    },
    Case {
        name: "an offer that is withdrawn",
        words: &["handover"],
        input: WITHDRAWN,
        fails: &[],
        room: 500,
        status: 0,
        output: WITHDRAWN_OUT,
    },
    Case {
        name: "no event",
        words: &["handover"],
        input: b"stop\n",
        fails: &[],
        room: 500,
        status: 0,
        output: b"a owner 0 0\nb idle 0 0\n",
    },
    Case {
        name: "an offer that stands",
        words: &["handover"],
        input: b"offer\nresend a\nresend b\nstop\n",
        fails: &[],
        room: 500,
        status: 0,
        output: b"offer done prepare 1 0\nresend a done prepare 1 0\nresend b wait not-now\na offered 1 0\nb idle 0 0\n",
    },
    Case {
        name: "an option of handover",
        words: &["handover", "--json"],
        input: REPEATS,
        fails: &[],
        room: 500,
        status: 1,
        output: b"refused words\n",
    },
    Case {
        name: "both commands",
        words: &["replay", "handover"],
        input: REPEATS,
        fails: &[],
        room: 500,
        status: 1,
        output: b"refused words\n",
    },
    Case {
        name: "another case",
        words: &["Handover"],
        input: REPEATS,
        fails: &[],
        room: 500,
        status: 1,
        output: b"refused words\n",
    },
    Case {
        name: "a script of nodes for replay",
        words: &["replay"],
        input: REPEATS,
        fails: &[],
        room: 500,
        status: 2,
        output: b"refused line 1 bad-word\n",
    },
    Case {
        name: "a job for handover",
        words: &["handover"],
        input: b"job 1\nstop\n",
        fails: &[],
        room: 500,
        status: 2,
        output: b"refused line 1 bad-word\n",
    },
    Case {
        name: "an empty input",
        words: &["handover"],
        input: b"",
        fails: &[],
        room: 500,
        status: 2,
        output: b"refused line 1 unended\n",
    },
    Case {
        name: "no stop",
        words: &["handover"],
        input: b"offer\npass 0\n",
        fails: &[],
        room: 500,
        status: 2,
        output: b"refused line 3 unended\n",
    },
    Case {
        name: "a line behind the stop",
        words: &["handover"],
        input: b"offer\nstop\noffer\n",
        fails: &[],
        room: 500,
        status: 2,
        output: b"refused line 3 order\n",
    },
    Case {
        name: "a third node",
        words: &["handover"],
        input: b"offer\nrestart c\nimage x\n",
        fails: &[],
        room: 500,
        status: 2,
        output: b"refused line 2 bad-word\n",
    },
    Case {
        name: "the greatest number, and one more",
        words: &["handover"],
        input: b"image 4294967295\nimage 4294967296\nstop\n",
        fails: &[],
        room: 500,
        status: 2,
        output: b"refused line 2 bad-number\n",
    },
    Case {
        name: "a read of a script that fails",
        words: &["handover"],
        input: REPEATS,
        fails: &[3],
        room: 500,
        status: 3,
        output: b"",
    },
    Case {
        name: "room for the first answer and a part of the second",
        words: &["handover"],
        input: REPEATS,
        fails: &[],
        room: 20,
        status: 4,
        output: b"write a done\noffer d",
    },
    Case {
        name: "room for all but the last byte",
        words: &["handover"],
        input: b"stop\n",
        fails: &[],
        room: 22,
        status: 4,
        output: b"a owner 0 0\nb idle 0 0",
    },
    Case {
        name: "no room for the refusal of a script",
        words: &["handover"],
        input: b"x\n",
        fails: &[],
        room: 7,
        status: 4,
        output: b"refused",
    },
    Case {
        name: "no room for the refusal of words",
        words: &["handover", "a"],
        input: b"stop\n",
        fails: &[],
        room: 7,
        status: 4,
        output: b"refused",
    },
];

#[test]
fn hands_over_as_the_script_says(rt: HostRuntime) -> Result<(), Fail> {
    plays(&rt, rt.alloc(), CASES)
}
