//! The lines that a handover prints.

ghost use Rattle.std.specs.Prelude.{◌≡◌, ◌≢◌, ◌≤◌, ◌+◌, ◌++◌, ◌∷◌, length, codes, decimal};
ghost use Rattle.xv_handover.specs.declared.message.Reply.TheVariants.{Failed};
ghost use Rattle.xv_handover.specs.Lines.{event_words, kind_words, message_words, wait_words, reply_words, reply_line, side_words, stage_words, nodes_text};

use crate::kept::Stage;
use crate::message::{Kind, Message, Reply};
use crate::world::{World, WorldEvent};
use xv_base::LineBuf;

/// The line of an event and its answer, with its line feed. Takes no memory. A pass waits only for a message that was
/// not sent yet, and every other event for another time.
pub fn print_reply(event: WorldEvent, reply: Reply) -> LineBuf
    requires { reply ≢ Failed }
    ensures { result ≡ reply_line event reply }
{
    let mut line = LineBuf::new();
    push_event(&mut line, event);
    line.push(b' ');
    push_reply(&mut line, event, reply);
    line.push(b'\n');
    line
}

/// The two lines of the nodes as they stand, with their line feeds. Takes no memory.
pub fn print_world(world: &World) -> LineBuf
    ensures { result ≡ nodes_text world.now }
{
    let mut lines = LineBuf::new();
    lines.push_all(b"a ");
    lines.push_all(side_word(world.a.gone, world.offered));
    push_numbers(&mut lines, world.a.attempt, world.a.number);
    lines.push_all(b"\nb ");
    lines.push_all(stage_word(world.b.stage));
    push_numbers(&mut lines, world.b.attempt, world.b.number);
    lines.push(b'\n');
    lines
}

fn push_event(line: &mut LineBuf, event: WorldEvent)
    requires { length line.old ≤ 100 }
    ensures exactly { line.new ≡ line.old ++ event_words event }
    ensures few { length line.new ≤ length line.old + 16 }
{
    match event {
        WorldEvent::WriteA => line.push_all(b"write a"),
        WorldEvent::WriteB => line.push_all(b"write b"),
        WorldEvent::Image(number) => push_numbered(line, b"image ", number),
        WorldEvent::Offer => line.push_all(b"offer"),
        WorldEvent::Withdraw => line.push_all(b"withdraw"),
        WorldEvent::ResendA => line.push_all(b"resend a"),
        WorldEvent::ResendB => line.push_all(b"resend b"),
        WorldEvent::RestartA => line.push_all(b"restart a"),
        WorldEvent::RestartB => line.push_all(b"restart b"),
        WorldEvent::Pass(number) => push_numbered(line, b"pass ", number),
    }
}

fn push_reply(line: &mut LineBuf, event: WorldEvent, reply: Reply)
    requires room { length line.old ≤ 100 }
    requires told { reply ≢ Failed }
    ensures exactly { line.new ≡ line.old ++ reply_words event reply }
    ensures few { length line.new ≤ length line.old + 34 }
{
    match reply {
        Reply::Done(None) => line.push_all(b"done"),
        Reply::Done(Some(message)) => push_message(line, message),
        Reply::NotNow => push_wait(line, event),
        Reply::Failed => unreachable!(),
    }
}

fn push_message(line: &mut LineBuf, message: Message)
    requires { length line.old ≤ 100 }
    ensures exactly { line.new ≡ line.old ++ (codes "done " ++ message_words message) }
    ensures few { length line.new ≤ length line.old + 34 }
{
    line.push_all(b"done ");
    line.push_all(kind_word(message.kind));
    push_numbers(line, message.attempt, message.number);
}

fn kind_word(kind: Kind) -> &'static [u8]
    ensures exactly { result.now ≡ kind_words kind }
    ensures few { length result.now ≤ 7 }
{
    match kind {
        Kind::Prepare => b"prepare",
        Kind::Ready => b"ready",
        Kind::Commit => b"commit",
        Kind::Abort => b"abort",
    }
}

fn push_wait(line: &mut LineBuf, event: WorldEvent)
    requires { length line.old ≤ 100 }
    ensures exactly { line.new ≡ line.old ++ (codes "wait " ++ wait_words event) }
    ensures few { length line.new ≤ length line.old + 18 }
{
    match event {
        WorldEvent::Pass(_) => line.push_all(b"wait nothing-there"),
        WorldEvent::WriteA
        | WorldEvent::WriteB
        | WorldEvent::Image(_)
        | WorldEvent::Offer
        | WorldEvent::Withdraw
        | WorldEvent::ResendA
        | WorldEvent::ResendB
        | WorldEvent::RestartA
        | WorldEvent::RestartB => line.push_all(b"wait not-now"),
    }
}

fn side_word(gone: bool, offered: bool) -> &'static [u8]
    ensures exactly { result.now ≡ side_words gone offered }
    ensures few { length result.now ≤ 7 }
{
    if gone {
        b"gone"
    } else if offered {
        b"offered"
    } else {
        b"owner"
    }
}

fn stage_word(stage: Stage) -> &'static [u8]
    ensures exactly { result.now ≡ stage_words stage }
    ensures few { length result.now ≤ 8 }
{
    match stage {
        Stage::Idle => b"idle",
        Stage::Prepared => b"prepared",
        Stage::Owner => b"owner",
    }
}

/// Appends an attempt and a number, with a space before each.
fn push_numbers(line: &mut LineBuf, attempt: u32, number: u32)
    requires { length line.old ≤ 200 }
    ensures exactly { line.new ≡ line.old ++ (32 ∷ decimal attempt ++ 32 ∷ decimal number) }
    ensures few { length line.new ≤ length line.old + 22 }
{
    push_numbered(line, b" ", attempt);
    push_numbered(line, b" ", number);
}

fn push_numbered(line: &mut LineBuf, word: &[u8], n: u32)
    requires { length line.old + length word.now + 10 ≤ 256 }
    ensures exactly { line.new ≡ line.old ++ (word.now ++ decimal n) }
    ensures few { length line.new ≤ length line.old + length word.now + 10 }
{
    line.push_all(word);
    line.push_number(n);
}
