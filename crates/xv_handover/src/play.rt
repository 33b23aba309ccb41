//! Plays events on two real nodes in memory.

ghost use Rattle.std.specs.Prelude.{◌≡◌, ◌+◌, ◌<◌, ◌≤◌, ◌++◌, ◌∷◌, [], true, false, length, slice_get, vec_len, vec_capacity, IfOk, OnErr};
ghost use Rattle.xv_handover.specs.World.{delivered, first_world, replies, step, world_after};
ghost use Rattle.xv_handover.specs.Safe.{IsSafe, AlwaysHandsOver};
ghost use Rattle.xv_handover.specs.Play.{shown, posted_by};

use crate::kept::{KeptA, KeptB, Stage};
use crate::memory::MemKeeper;
use crate::message::{Kind, Message, Reply};
use crate::node_a::NodeA;
use crate::node_b::NodeB;
use crate::world::{World, WorldEvent};
use std::alloc::Global;
use xv_base::NoMemory;

/// Plays the events on two nodes over keepers in memory, from their beginnings. Appends one reply for each event to
/// `out`, which is as it was where there is no memory.
#[tactic(auto, using(crate::proofs::Sound::always_hands_over))]
pub fn play_world(
    alloc: Global,
    events: &[WorldEvent],
    out: &mut Vec<Reply>,
) -> Result<World, NoMemory>
    ensures world { IfOk result (λ w. w ≡ world_after first_world events.now) }
    ensures replies { IfOk result (λ w. out.new.items ≡ out.old.items ++ replies first_world events.now) }
    ensures memory { OnErr result (out.new.items ≡ out.old.items) }
    ensures safe { IfOk result (λ w. IsSafe w.a w.b) }
    ensures hands_over { AlwaysHandsOver events.now }
{
    let nodes = Nodes::new(alloc)?;
    let Ok(sent) = Vec::with_capacity(alloc, events.len()) else {
        return Err(NoMemory);
    };
    match out.reserve(events.len()) {
        Ok(()) => Ok(nodes.play(sent, events, out)),
        Err(_) => Err(NoMemory),
    }
}

/// Both nodes, over keepers that never fail.
#[derive(Drop)]
struct Nodes {
    a: NodeA<MemKeeper<KeptA>>,
    b: NodeB<MemKeeper<KeptB>>,
    ghost steady: { (a.steady ≡ true) × (b.steady ≡ true) },
}

impl Nodes {
    /// Two nodes that have done nothing. All their memory is taken here.
    fn new(alloc: Global) -> Result<Nodes, NoMemory>
        ensures { IfOk result (λ nodes. shown nodes.a nodes.b [] ≡ first_world) }
    {
        let kept_a = KeptA {
            attempt: 0,
            number: 0,
            gone: false,
        };
        let kept_b = KeptB {
            stage: Stage::Idle,
            attempt: 0,
            number: 0,
        };
        let a = NodeA::wake(MemKeeper::new(alloc, kept_a, &[])?);
        let b = NodeB::wake(MemKeeper::new(alloc, kept_b, &[])?);
        Ok(Nodes { a, b })
    }

    /// Plays the events after one another. There is room for a message and a reply of each.
    fn play(self, mut sent: Vec<Message>, events: &[WorldEvent], out: &mut Vec<Reply>) -> World
        requires none { sent.items ≡ [] }
        requires room { length events.now ≤ vec_capacity sent }
        requires replies_room { vec_len out.old + length events.now ≤ vec_capacity out.old }
        ensures world { result ≡ world_after (shown self.a self.b []) events.now }
        ensures replies { out.new.items ≡ out.old.items ++ replies (shown self.a self.b []) events.now }
    {
        let mut nodes = self;
        for event in events {
            let (next, reply) = nodes.act(&sent, *event);
            nodes = next;
            post(&mut sent, reply);
            push_reply(out, reply);
        }
        World {
            a: nodes.a.kept(),
            offered: nodes.a.offered(),
            b: nodes.b.kept(),
            sent,
        }
    }

    /// One event.
    fn act(mut self, sent: &[Message], event: WorldEvent) -> (Nodes, Reply)
        ensures { (shown result.0.a result.0.b (posted_by sent.now result.1), result.1) ≡ step (shown self.a self.b sent.now) event }
    {
        match event {
            WorldEvent::WriteA => {
                let reply = self.a.write();
                (self, reply)
            }
            WorldEvent::WriteB => {
                let reply = self.b.write();
                (self, reply)
            }
            WorldEvent::Image(number) => {
                let reply = self.b.image(number);
                (self, reply)
            }
            WorldEvent::Offer => {
                let reply = self.a.offer();
                (self, reply)
            }
            WorldEvent::Withdraw => {
                let reply = self.a.withdraw();
                (self, reply)
            }
            WorldEvent::ResendA => {
                let reply = self.a.resend();
                (self, reply)
            }
            WorldEvent::ResendB => {
                let reply = self.b.resend();
                (self, reply)
            }
            WorldEvent::RestartA => (self.restart_a(), Reply::Done(None)),
            WorldEvent::RestartB => (self.restart_b(), Reply::Done(None)),
            WorldEvent::Pass(number) => self.pass(sent, number),
        }
    }

    /// Node A begins again from what it keeps.
    fn restart_a(self) -> Nodes
        ensures a { result.a.side ≡ record self.a.side { offered = false } }
        ensures b { result.b ≡ self.b }
    {
        let Nodes { a, b } = self;
        let a = NodeA::wake(a.into_keeper());
        Nodes { a, b }
    }

    /// Node B begins again from what it keeps.
    fn restart_b(self) -> Nodes
        ensures a { result.a ≡ self.a }
        ensures b { result.b.side ≡ self.b.side }
    {
        let Nodes { a, b } = self;
        let b = NodeB::wake(b.into_keeper());
        Nodes { a, b }
    }

    /// Delivers a message that was sent.
    fn pass(mut self, sent: &[Message], number: u32) -> (Nodes, Reply)
        ensures { (shown result.0.a result.0.b (posted_by sent.now result.1), result.1) ≡ delivered (shown self.a self.b sent.now) (slice_get sent.now number) }
    {
        let Some(&message) = sent.get(number as usize) else {
            return (self, Reply::NotNow);
        };
        match message.kind {
            Kind::Ready => {
                let reply = self.a.receive(message);
                (self, reply)
            }
            Kind::Prepare | Kind::Commit | Kind::Abort => {
                let reply = self.b.receive(message);
                (self, reply)
            }
        }
    }
}

/// Puts the message of a reply after those that were sent.
fn post(sent: &mut Vec<Message>, reply: Reply)
    requires { vec_len sent.old < vec_capacity sent.old }
    ensures items { sent.new.items ≡ posted_by sent.old.items reply }
    ensures len { vec_len sent.new ≤ vec_len sent.old + 1 }
    ensures capacity { vec_capacity sent.old ≤ vec_capacity sent.new }
{
    if let Reply::Done(Some(message)) = reply {
        match sent.push(message) {
            Ok(()) => {}
            Err(_) => unreachable!(),
        }
    }
}

fn push_reply(out: &mut Vec<Reply>, reply: Reply)
    requires { vec_len out.old < vec_capacity out.old }
    ensures items { out.new.items ≡ out.old.items ++ reply ∷ [] }
    ensures len { vec_len out.new ≡ vec_len out.old + 1 }
    ensures capacity { vec_capacity out.old ≤ vec_capacity out.new }
{
    match out.push(reply) {
        Ok(()) => {}
        Err(_) => unreachable!(),
    }
}
