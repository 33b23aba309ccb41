ghost use Rattle.std.specs.Prelude.{◌≡◌};

use std::alloc::Global;
use std::test::Fail;
use xv_handover::{
    Keeper, KeptA, KeptB, Kind, MemKeeper, Message, NodeA, NodeB, Reply, Stage, WorldEvent,
    play_world,
};

const DONE: Reply = Reply::Done(None);

fn sent(kind: Kind, attempt: u32, number: u32) -> Reply {
    Reply::Done(Some(word(kind, attempt, number)))
}

fn word(kind: Kind, attempt: u32, number: u32) -> Message
    ensures { result.kind ≡ kind }
{
    Message {
        kind,
        attempt,
        number,
    }
}

/// What both nodes keep after the events, where the replies are these; `out` has a reply already.
fn kept_after(
    alloc: Global,
    events: &[WorldEvent],
    replies: &[Reply],
) -> Result<Option<(KeptA, KeptB)>, Fail> {
    let mut out = vec![in alloc; Reply::Failed]?;
    let world = play_world(alloc, events, &mut out)?;
    let same = out.len() == replies.len() + 1 && &out[1..] == replies;
    Ok(same.then_some((world.a, world.b)))
}

#[test]
fn hands_the_guest_over(rt: HostRuntime) -> Result<(), Fail> {
    let events = [
        WorldEvent::WriteA,
        WorldEvent::Offer,
        WorldEvent::Pass(0),
        WorldEvent::Image(1),
        WorldEvent::Pass(0),
        WorldEvent::WriteA,
        WorldEvent::Pass(1),
        WorldEvent::RestartA,
        WorldEvent::WriteA,
        WorldEvent::Pass(2),
        WorldEvent::Pass(2),
        WorldEvent::WriteB,
    ];
    let replies = [
        DONE,
        sent(Kind::Prepare, 1, 1),
        DONE,
        DONE,
        sent(Kind::Ready, 1, 1),
        Reply::NotNow,
        sent(Kind::Commit, 1, 1),
        DONE,
        Reply::NotNow,
        DONE,
        DONE,
        DONE,
    ];
    let a = KeptA {
        attempt: 1,
        number: 1,
        gone: true,
    };
    let b = KeptB {
        stage: Stage::Owner,
        attempt: 1,
        number: 2,
    };
    let kept = kept_after(rt.alloc(), &events, &replies)?;
    assert_eq!(rt; kept, Some((a, b)));
    Ok(())
}

#[test]
fn ends_an_attempt_that_is_withdrawn(rt: HostRuntime) -> Result<(), Fail> {
    let events = [
        WorldEvent::Offer,
        WorldEvent::Pass(0),
        WorldEvent::Withdraw,
        WorldEvent::WriteA,
        WorldEvent::Pass(1),
        WorldEvent::Offer,
        WorldEvent::Pass(2),
        WorldEvent::Pass(0),
        WorldEvent::Image(1),
        WorldEvent::Pass(3),
        WorldEvent::RestartA,
        WorldEvent::Pass(4),
        WorldEvent::WriteA,
        WorldEvent::Pass(9),
    ];
    let replies = [
        sent(Kind::Prepare, 1, 0),
        sent(Kind::Ready, 1, 0),
        sent(Kind::Abort, 1, 0),
        DONE,
        DONE,
        sent(Kind::Prepare, 2, 1),
        DONE,
        DONE,
        DONE,
        sent(Kind::Ready, 2, 1),
        DONE,
        DONE,
        DONE,
        Reply::NotNow,
    ];
    let a = KeptA {
        attempt: 2,
        number: 2,
        gone: false,
    };
    let b = KeptB {
        stage: Stage::Prepared,
        attempt: 2,
        number: 1,
    };
    let kept = kept_after(rt.alloc(), &events, &replies)?;
    assert_eq!(rt; kept, Some((a, b)));
    Ok(())
}

/// A call of node A.
#[derive(Clone, Copy)]
enum CallA {
    Write,
    Offer,
    Withdraw,
    Resend,
    /// A `Ready` of this attempt and this number comes.
    Receive(u32, u32),
}

fn node_a(alloc: Global, kept: KeptA, fails: &[u32]) -> Result<NodeA<MemKeeper<KeptA>>, Fail> {
    Ok(NodeA::wake(MemKeeper::new(alloc, kept, fails)?))
}

fn call_a(a: &mut NodeA<MemKeeper<KeptA>>, call: CallA) -> Reply {
    match call {
        CallA::Write => a.write(),
        CallA::Offer => a.offer(),
        CallA::Withdraw => a.withdraw(),
        CallA::Resend => a.resend(),
        CallA::Receive(attempt, number) => a.receive(word(Kind::Ready, attempt, number)),
    }
}

/// What node A keeps, whether an offer stands, and whether it has the guest.
fn state_a(a: &NodeA<MemKeeper<KeptA>>) -> (KeptA, bool, bool) {
    (a.kept(), a.offered(), a.owns())
}

// Each call is made twice: the first time its keeper fails.
#[test]
fn node_a_is_as_it_was_where_its_keeper_fails(rt: HostRuntime) -> Result<(), Fail> {
    let first = KeptA {
        attempt: 0,
        number: 0,
        gone: false,
    };
    let cases = [
        (CallA::Write, 0, 0, false, DONE),
        (CallA::Offer, 0, 1, false, sent(Kind::Prepare, 1, 1)),
        (CallA::Receive(1, 1), 1, 1, true, sent(Kind::Commit, 1, 1)),
    ];
    let mut a = node_a(rt.alloc(), first, &[1, 3, 5])?;
    for &(call, attempt, number, offered, reply) in &cases {
        let kept = KeptA {
            attempt,
            number,
            gone: false,
        };
        assert_eq!(rt; call_a(&mut a, call), Reply::Failed);
        assert_eq!(rt; state_a(&a), (kept, offered, true));
        assert_eq!(rt; call_a(&mut a, call), reply);
    }
    let (kept, offered, owns) = state_a(&a);
    assert!(rt; kept.gone && !offered && !owns);
    assert!(rt; a.into_keeper().kept().gone);
    Ok(())
}

/// A call of node B.
#[derive(Clone, Copy)]
enum CallB {
    Image(u32),
    Write,
    Resend,
    Prepare(u32, u32),
    Commit(u32, u32),
    Abort(u32, u32),
}

fn node_b(alloc: Global, kept: KeptB, fails: &[u32]) -> Result<NodeB<MemKeeper<KeptB>>, Fail> {
    Ok(NodeB::wake(MemKeeper::new(alloc, kept, fails)?))
}

fn call_b(b: &mut NodeB<MemKeeper<KeptB>>, call: CallB) -> Reply {
    match call {
        CallB::Image(number) => b.image(number),
        CallB::Write => b.write(),
        CallB::Resend => b.resend(),
        CallB::Prepare(attempt, number) => b.receive(word(Kind::Prepare, attempt, number)),
        CallB::Commit(attempt, number) => b.receive(word(Kind::Commit, attempt, number)),
        CallB::Abort(attempt, number) => b.receive(word(Kind::Abort, attempt, number)),
    }
}

// Each call is made twice: the first time its keeper fails.
#[test]
fn node_b_is_as_it_was_where_its_keeper_fails(rt: HostRuntime) -> Result<(), Fail> {
    let first = KeptB {
        stage: Stage::Idle,
        attempt: 0,
        number: 0,
    };
    let cases = [
        (CallB::Image(5), DONE, Stage::Idle, 0),
        (
            CallB::Prepare(1, 5),
            sent(Kind::Ready, 1, 5),
            Stage::Prepared,
            1,
        ),
        (CallB::Prepare(2, 6), DONE, Stage::Idle, 1),
        (CallB::Abort(2, 0), DONE, Stage::Idle, 2),
        (
            CallB::Prepare(3, 5),
            sent(Kind::Ready, 3, 5),
            Stage::Prepared,
            3,
        ),
        (CallB::Abort(3, 0), DONE, Stage::Idle, 3),
        (
            CallB::Prepare(4, 5),
            sent(Kind::Ready, 4, 5),
            Stage::Prepared,
            4,
        ),
        (CallB::Commit(4, 5), DONE, Stage::Owner, 4),
        (CallB::Write, DONE, Stage::Owner, 4),
    ];
    let mut b = node_b(rt.alloc(), first, &[1, 3, 5, 7, 9, 11, 13, 15, 17])?;
    for &(call, reply, stage, attempt) in &cases {
        let before = b.kept();
        assert_eq!(rt; call_b(&mut b, call), Reply::Failed);
        assert_eq!(rt; b.kept(), before);
        assert_eq!(rt; call_b(&mut b, call), reply);
        assert_eq!(rt; (b.kept().stage, b.kept().attempt), (stage, attempt));
    }
    assert!(rt; b.owns());
    assert_eq!(rt; b.into_keeper().kept().number, 6);
    Ok(())
}

#[test]
fn node_a_waits_at_the_greatest_number(rt: HostRuntime) -> Result<(), Fail> {
    let kept = KeptA {
        attempt: u32::MAX,
        number: u32::MAX,
        gone: false,
    };
    let mut a = node_a(rt.alloc(), kept, &[])?;
    for &call in &[CallA::Write, CallA::Offer, CallA::Withdraw, CallA::Resend] {
        assert_eq!(rt; call_a(&mut a, call), Reply::NotNow);
    }
    assert_eq!(rt; a.kept(), kept);
    Ok(())
}

#[test]
fn node_b_waits_at_the_greatest_number(rt: HostRuntime) -> Result<(), Fail> {
    let kept = KeptB {
        stage: Stage::Owner,
        attempt: 1,
        number: u32::MAX,
    };
    let mut b = node_b(rt.alloc(), kept, &[])?;
    for &call in &[CallB::Write, CallB::Image(1), CallB::Resend] {
        assert_eq!(rt; call_b(&mut b, call), Reply::NotNow);
    }
    assert_eq!(rt; b.kept(), kept);
    Ok(())
}
