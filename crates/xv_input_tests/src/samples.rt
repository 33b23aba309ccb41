//! Whole inputs, each with what is written of it.

/// Words and an input that they accept, and what is written.
pub(crate) struct Sample {
    pub name: &'static str,
    pub words: &'static [&'static str],
    pub input: &'static [u8],
    pub status: u8,
    pub output: &'static [u8],
}

/// The copy of a page and of two blocks, to the switchover.
pub(crate) const FIRST_PATH: &[u8] =
    b"job 1\npages 1 16\ndisk 2 16\nstreams 1\ncredit 4\noutbox 4\nregion 1\nrounds 1\ndirty 0\nguest\nend\nbegin 0\nread 0\nadvance 0\nbegin 0\nread 0\nadvance 0\nround\npage\nsend 0\nsend 0\nsend 0\ndeliver 0\ndeliver 0\ndeliver 0\napply\napply\napply\nack\ncredit\nstun\nswitch\nstop\n";

const FIRST_PATH_OUT: &[u8] =
    b"begin 0 done 1\nread 0 done 1\nadvance 0 done 1\nbegin 0 done 1\nread 0 done 2\nadvance 0 done 1\nround done 1\npage done 0 1\nsend 0 done 1 1\nsend 0 done 2 1\nsend 0 done 0 1\ndeliver 0 done 1 1\ndeliver 0 done 2 1\ndeliver 0 done 0 1\napply done 1 1\napply done 2 1\napply done 0 1\nack done 3\ncredit done 3\nstun done 0\nswitch done\nphase switched\nowner destination\nhistory 0\nfaulted 0\njournal 21\nstun 0\ncopied 2\nrounds 1\nmessages 3\nmirrors 0\napplied 3\ncredit 4\n";

/// A guest that writes and reads on both sides of the switchover.
pub(crate) const AFTER_THE_SWITCH: &[u8] =
    b"job 1\npages 1 16\ndisk 1 16\nstreams 1\ncredit 2\noutbox 2\nregion 1\nrounds 1\ndirty 0\nguest\nwr 0 0 1 5a\nrd 0 0 0 2\nwr 0 0 1 a5\nrd 0 0 14 2\nend\nguest 0\nbegin 0\nread 0\nadvance 0\nround\npage\nsend 0\nsend 0\ndeliver 0\ndeliver 0\napply\napply\nack\ncredit\nstun\nguest 0\nswitch\nguest 0\nguest 0\nguest 0\nstop\n";

const AFTER_THE_SWITCH_OUT: &[u8] =
    b"guest 0 done\nbegin 0 done 1\nread 0 done 1\nadvance 0 done 1\nround done 1\npage done 0 1\nsend 0 done 1 1\nsend 0 done 0 1\ndeliver 0 done 1 1\ndeliver 0 done 0 1\napply done 1 1\napply done 0 1\nack done 2\ncredit done 2\nstun done 0\nguest 0 wait stunned\nswitch done\nguest 0 read 5a5a\nguest 0 done\nguest 0 read a5a5\nphase switched\nowner destination\nhistory 4\nfaulted 0\njournal 19\nstun 1\ncopied 1\nrounds 1\nmessages 2\nmirrors 0\napplied 2\ncredit 2\nsrc 1 5a5a5a5a5a5a5a5a5a5a5a5a5a5a5a5a\ndst 1 a5a5a5a5a5a5a5a5a5a5a5a5a5a5a5a5\n";

/// Messages in groups.
pub(crate) const GROUPS: &[u8] =
    b"job 2\npages 1 16\ndisk 2 16\nstreams 1\ncredit 4\noutbox 4\nregion 1\nrounds 1\ndirty 0\ngroup 2\nguest\nend\nbegin 0\nread 0\nadvance 0\nbegin 0\nread 0\nadvance 0\nround\npage\nsend 0\nsend 0\ndeliver 0\ndeliver 0\napply\napply\napply\nack\ncredit\nstun\nswitch\nstop\n";

const GROUPS_OUT: &[u8] =
    b"begin 0 done 1\nread 0 done 1\nadvance 0 done 1\nbegin 0 done 1\nread 0 done 2\nadvance 0 done 1\nround done 1\npage done 0 1\nsend 0 done 2 1\nsend 0 done 1 0\ndeliver 0 done 2 1\ndeliver 0 done 1 0\napply done 1 1\napply done 2 1\napply done 0 1\nack done 3\ncredit done 3\nstun done 0\nswitch done\nphase switched\nowner destination\nhistory 0\nfaulted 0\njournal 19\nstun 0\ncopied 2\nrounds 1\nmessages 3\nmirrors 0\napplied 3\ncredit 4\n";

/// No event.
pub(crate) const EMPTY_SCRIPT: &[u8] =
    b"job 1\npages 1 16\ndisk 2 16\nstreams 1\ncredit 4\noutbox 4\nregion 1\nrounds 1\ndirty 0\nguest\nend\nstop\n";

const EMPTY_SCRIPT_OUT: &[u8] =
    b"{\"applied\":0,\"copied\":0,\"credit\":4,\"faulted\":0,\"history\":0,\"journal\":0,\"messages\":0,\"mirrors\":0,\"owner\":\"source\",\"phase\":\"running\",\"rounds\":0,\"stun\":null}\n";

/// A guest that is handed over, its messages repeated.
pub(crate) const REPEATS: &[u8] =
    b"write a\noffer\npass 0\nimage 1\npass 0\nwrite a\npass 1\nrestart a\nwrite a\npass 2\npass 2\nwrite b\nstop\n";

const REPEATS_OUT: &[u8] =
    b"write a done\noffer done prepare 1 1\npass 0 done\nimage 1 done\npass 0 done ready 1 1\nwrite a wait not-now\npass 1 done commit 1 1\nrestart a done\nwrite a wait not-now\npass 2 done\npass 2 done\nwrite b done\na gone 1 1\nb owner 1 2\n";

/// An offer that is withdrawn, and made again.
pub(crate) const WITHDRAWN: &[u8] =
    b"offer\npass 0\nwithdraw\nwrite a\npass 1\noffer\npass 2\npass 0\nimage 1\npass 3\nrestart a\npass 4\nwrite a\npass 9\nstop\n";

const WITHDRAWN_OUT: &[u8] =
    b"offer done prepare 1 0\npass 0 done ready 1 0\nwithdraw done abort 1 0\nwrite a done\npass 1 done\noffer done prepare 2 1\npass 2 done\npass 0 done\nimage 1 done\npass 3 done ready 2 1\nrestart a done\npass 4 done\nwrite a done\npass 9 wait nothing-there\na owner 2 2\nb prepared 2 1\n";

/// Inputs that are accepted.
pub(crate) const SAMPLES: &[Sample] = &[
    Sample {
        name: "the copy of a page and of two blocks, to the switchover",
        words: &["replay"],
        input: FIRST_PATH,
        status: 0,
        output: FIRST_PATH_OUT,
    },
    Sample {
        name: "a guest that writes and reads on both sides of the switchover",
        words: &["replay"],
        input: AFTER_THE_SWITCH,
        status: 0,
        output: AFTER_THE_SWITCH_OUT,
    },
    Sample {
        name: "messages in groups",
        words: &["replay"],
        input: GROUPS,
        status: 0,
        output: GROUPS_OUT,
    },
    Sample {
        name: "no event",
        words: &["replay", "--json"],
        input: EMPTY_SCRIPT,
        status: 0,
        output: EMPTY_SCRIPT_OUT,
    },
    Sample {
        name: "a guest that is handed over, its messages repeated",
        words: &["handover"],
        input: REPEATS,
        status: 0,
        output: REPEATS_OUT,
    },
    Sample {
        name: "an offer that is withdrawn, and made again",
        words: &["handover"],
        input: WITHDRAWN,
        status: 0,
        output: WITHDRAWN_OUT,
    },
];

/// Inputs and words that are refused.
pub(crate) const REFUSED: &[Sample] = &[
    Sample {
        name: "a number with a leading zero",
        words: &["replay"],
        input: b"job 1\npages 1 16\ndisk 2 16\nstreams 1\ncredit 04\noutbox 4\nregion 1\nrounds 1\ndirty 0\nguest\nend\n",
        status: 2,
        output: b"refused line 5 bad-number\n",
    },
    Sample {
        name: "a script of two nodes that goes on behind its end",
        words: &["handover"],
        input: b"offer\nstop\nstop\n",
        status: 2,
        output: b"refused line 3 order\n",
    },
];
