//! How scripts of a handover are refused at their edges, and how their answers read.

use std::alloc::{AllocError, Global};
use std::test::Fail;
use xv_base::{LineFault, LineWhy, TextError};
use xv_handover::{
    KeptA, KeptB, Kind, Message, Reply, Stage, World, WorldEvent, print_reply, print_world,
    read_world,
};

/// What is wrong with a script.
fn fault_of(alloc: Global, text: &str) -> Option<TextError> {
    read_world(alloc, text.as_bytes()).err()
}

/// Scripts that are refused, with the line and the reason.
const REFUSED: &[(&str, u32, LineWhy)] = &[
    ("", 1, LineWhy::Unended),
    ("stop", 1, LineWhy::Unended),
    ("offer\n", 2, LineWhy::Unended),
    ("offer\nstop", 2, LineWhy::Unended),
    ("offer\npass 01", 2, LineWhy::Unended),
    ("stop\n\n", 2, LineWhy::Order),
    ("stop\nstop\n", 2, LineWhy::Order),
    ("offer\nstop\nx", 3, LineWhy::Order),
    ("\n", 1, LineWhy::BadWord),
    ("Offer\n", 1, LineWhy::BadWord),
    ("offers\n", 1, LineWhy::BadWord),
    ("receive a\n", 1, LineWhy::BadWord),
    ("write\n", 1, LineWhy::BadWord),
    ("write c\n", 1, LineWhy::BadWord),
    ("write A\n", 1, LineWhy::BadWord),
    ("write ab\n", 1, LineWhy::BadWord),
    ("write a b\n", 1, LineWhy::BadWord),
    ("write  a\n", 1, LineWhy::BadWord),
    ("write a \n", 1, LineWhy::BadWord),
    ("resend 0\n", 1, LineWhy::BadWord),
    ("restart\n", 1, LineWhy::BadWord),
    ("offer a\n", 1, LineWhy::BadWord),
    ("withdraw 1\n", 1, LineWhy::BadWord),
    ("stop a\n", 1, LineWhy::BadWord),
    ("image\n", 1, LineWhy::BadWord),
    ("image 1 x\n", 1, LineWhy::BadWord),
    ("image a\n", 1, LineWhy::BadNumber),
    ("image 01\n", 1, LineWhy::BadNumber),
    ("image 4294967296\n", 1, LineWhy::BadNumber),
    ("image 4294967295\npass 4294967296\n", 2, LineWhy::BadNumber),
    ("pass 0\npass 00\n", 2, LineWhy::BadNumber),
    ("pass -1\nx\n", 1, LineWhy::BadNumber),
];

#[test]
fn refuses_scripts(rt: HostRuntime) {
    for &(text, line, why) in REFUSED {
        let want = Some(TextError::Fault(LineFault { line, why }));
        assert_eq!(rt; fault_of(rt.alloc(), text), want, "{text}");
    }
}

/// So many lines `offer`, and then this text.
fn offers(alloc: Global, count: u32, rest: &str) -> Result<Vec<u8>, AllocError> {
    let mut text = Vec::new(alloc);
    for _ in 0..count {
        text.extend_from_slice(b"offer\n")?;
    }
    text.extend_from_slice(rest.as_bytes())?;
    Ok(text)
}

/// How many events such a text has; none where line 65537 is refused by this reason.
fn count(alloc: Global, offers_before: u32, rest: &str, why: LineWhy) -> Option<Option<usize>> {
    let Ok(text) = offers(alloc, offers_before, rest) else {
        return None;
    };
    match read_world(alloc, &text) {
        Ok(events) => Some(Some(events.len())),
        Err(TextError::Fault(fault)) if fault == (LineFault { line: 65537, why }) => Some(None),
        Err(_) => None,
    }
}

/// So many offers and a text behind them: the reason why line 65537 is refused, or how many events are read.
const LONG: &[(u32, &str, LineWhy, Option<usize>)] = &[
    (65535, "stop\n", LineWhy::Limit(19), Some(65535)),
    (65536, "stop\n", LineWhy::Limit(19), Some(65536)),
    (65536, "offer\nstop\n", LineWhy::Limit(19), None),
    (65536, "restart b\n", LineWhy::Limit(19), None),
    (65536, "pass 01\n", LineWhy::BadNumber, None),
    (65536, "write c\n", LineWhy::BadWord, None),
    (65536, "offer", LineWhy::Unended, None),
    (65536, "", LineWhy::Unended, None),
];

#[test]
fn reads_65536_events_at_most(rt: HostRuntime) {
    for &(lines, rest, why, want) in LONG {
        assert_eq!(rt;
            count(rt.alloc(), lines, rest, why),
            Some(want),
            "{lines} {rest}"
        );
    }
}

#[test]
fn reads_every_event(rt: HostRuntime) -> Result<(), Fail> {
    let text =
        b"write a\nwrite b\nimage 0\noffer\nwithdraw\nresend a\nresend b\nrestart a\nrestart b\npass 4294967295\nstop\n".as_slice();
    let events = read_world(rt.alloc(), text).expect(&rt, "a script");
    assert_eq!(rt;
        events.as_slice(),
        [
            WorldEvent::WriteA,
            WorldEvent::WriteB,
            WorldEvent::Image(0),
            WorldEvent::Offer,
            WorldEvent::Withdraw,
            WorldEvent::ResendA,
            WorldEvent::ResendB,
            WorldEvent::RestartA,
            WorldEvent::RestartB,
            WorldEvent::Pass(u32::MAX),
        ]
        .as_slice()
    );
    Ok(())
}

fn sent(kind: Kind, attempt: u32, number: u32) -> Reply {
    Reply::Done(Some(Message {
        kind,
        attempt,
        number,
    }))
}

#[test]
fn prints_answers(rt: HostRuntime) {
    let full = u32::MAX;
    let cases = [
        (WorldEvent::WriteA, Reply::Done(None), "write a done\n"),
        (
            WorldEvent::Offer,
            sent(Kind::Prepare, 1, 20),
            "offer done prepare 1 20\n",
        ),
        (
            WorldEvent::ResendB,
            sent(Kind::Ready, 3, 4),
            "resend b done ready 3 4\n",
        ),
        (
            WorldEvent::Pass(full),
            sent(Kind::Commit, full, full),
            "pass 4294967295 done commit 4294967295 4294967295\n",
        ),
        (
            WorldEvent::Withdraw,
            sent(Kind::Abort, 7, 0),
            "withdraw done abort 7 0\n",
        ),
        (
            WorldEvent::Image(5),
            Reply::NotNow,
            "image 5 wait not-now\n",
        ),
        (
            WorldEvent::Pass(9),
            Reply::NotNow,
            "pass 9 wait nothing-there\n",
        ),
    ];
    for &(event, reply, want) in &cases {
        assert!(rt; !matches!(reply, Reply::Failed));
        let line = print_reply(event, reply);
        assert_eq!(rt; line.bytes(), want.as_bytes());
    }
}

#[test]
fn prints_both_nodes(rt: HostRuntime) {
    let cases = [
        (false, false, Stage::Idle, "a owner 3 40\nb idle 2 1\n"),
        (
            false,
            true,
            Stage::Prepared,
            "a offered 3 40\nb prepared 2 1\n",
        ),
        (true, false, Stage::Owner, "a gone 3 40\nb owner 2 1\n"),
    ];
    for &(gone, offered, stage, want) in &cases {
        let world = World {
            a: KeptA {
                attempt: 3,
                number: 40,
                gone,
            },
            offered,
            b: KeptB {
                stage,
                attempt: 2,
                number: 1,
            },
            sent: Vec::new(rt.alloc()),
        };
        assert_eq!(rt; print_world(&world).bytes(), want.as_bytes());
    }
}
