//! The lines that events answer.

ghost use Rattle.std.specs.Prelude.{◌≡◌, ◌≤◌, ◌+◌, ◌++◌, length, codes, decimal};
ghost use Rattle.xv_base.specs.Hex.{hex};
ghost use Rattle.xv_script.specs.Lines.{event_words, why_words, cause_words, done_two, done_guest, done_text, turn_text, turn_line, side_words, probe_line};

use xv_base::{Cause, Event, LineBuf, Note, Probe, Side, Turn, Why};

/// The line of an event and its answer, with its line feed. `read` are the bytes that a guest read, where that is
/// the answer. Takes no memory.
pub fn print_turn(event: Event, turn: Turn, read: &[u8]) -> LineBuf
    requires { length read.now ≤ 64 }
    ensures { result ≡ turn_line event turn read.now }
{
    let mut line = LineBuf::new();
    push_turn(&mut line, event, turn, read);
    line
}

/// Appends the line of an event and its answer, as `print_turn` makes it, where there is room for 200 bytes. A caller
/// that plays many events saves the copies of the line that a result costs.
pub fn push_turn(line: &mut LineBuf, event: Event, turn: Turn, read: &[u8])
    requires room { length line.old ≤ 56 }
    requires short { length read.now ≤ 64 }
    ensures { line.new ≡ line.old ++ turn_line event turn read.now }
{
    push_event(line, event);
    line.push(b' ');
    push_answer(line, event, turn, read);
    line.push(b'\n');
}

/// The line of what is asked of a unit, with its line feed. Takes no memory.
pub fn print_probe(probe: Probe) -> LineBuf
    ensures { result ≡ probe_line probe }
{
    let mut line = LineBuf::new();
    push_numbered(&mut line, b"probe ", probe.unit.0);
    line.push(b' ');
    push_word(&mut line, side_word(probe.side));
    push_numbered(&mut line, b" ", probe.issued);
    push_numbered(&mut line, b" ", probe.applied);
    push_numbered(&mut line, b" ", probe.outbox);
    push_numbered(&mut line, b" ", probe.wires);
    push_numbered(&mut line, b" ", probe.held);
    line.push(b'\n');
    line
}

fn side_word(side: Side) -> &'static [u8]
    ensures exactly { result.now ≡ side_words side }
    ensures few { length result.now ≤ 10 }
{
    match side {
        Side::Ahead => b"ahead",
        Side::Inside => b"inside",
        Side::Behind => b"behind",
        Side::Dirty => b"dirty",
        Side::Waiting => b"waiting",
        Side::Clean => b"clean",
    }
}

fn push_event(line: &mut LineBuf, event: Event)
    requires { length line.old ≤ 100 }
    ensures exactly { line.new ≡ line.old ++ event_words event }
    ensures few { length line.new ≤ length line.old + 20 }
{
    match event {
        Event::Guest(guest) => push_numbered(line, b"guest ", u32::from(guest.0)),
        Event::Begin(disk) => push_numbered(line, b"begin ", u32::from(disk)),
        Event::Read(disk) => push_numbered(line, b"read ", u32::from(disk)),
        Event::Advance(disk) => push_numbered(line, b"advance ", u32::from(disk)),
        Event::Release(disk) => push_numbered(line, b"release ", u32::from(disk)),
        Event::Round => push_word(line, b"round"),
        Event::Page => push_word(line, b"page"),
        Event::Send(stream) => push_numbered(line, b"send ", u32::from(stream)),
        Event::Deliver(stream) => push_numbered(line, b"deliver ", u32::from(stream)),
        Event::Apply => push_word(line, b"apply"),
        Event::Ack => push_word(line, b"ack"),
        Event::Credit => push_word(line, b"credit"),
        Event::Stun => push_word(line, b"stun"),
        Event::Switch => push_word(line, b"switch"),
        Event::Cancel => push_word(line, b"cancel"),
    }
}

fn push_answer(line: &mut LineBuf, event: Event, turn: Turn, read: &[u8])
    requires room { length line.old ≤ 80 }
    requires short { length read.now ≤ 64 }
    ensures exactly { line.new ≡ line.old ++ turn_text event turn read.now }
    ensures few { length line.new ≤ length line.old + 140 }
{
    match turn {
        Turn::Done(note) => push_done(line, event, note, read),
        Turn::Queued => push_word(line, b"queued"),
        Turn::Faulted => push_word(line, b"faulted"),
        Turn::Wait(why) => push_why(line, why),
        Turn::Failed(cause) => push_cause(line, cause),
    }
}

fn push_done(line: &mut LineBuf, event: Event, note: Note, read: &[u8])
    requires room { length line.old ≤ 80 }
    requires short { length read.now ≤ 64 }
    ensures exactly { line.new ≡ line.old ++ done_text event note read.now }
    ensures few { length line.new ≤ length line.old + 140 }
{
    match event {
        Event::Guest(_) => push_guest(line, note, read),
        Event::Begin(_)
        | Event::Read(_)
        | Event::Advance(_)
        | Event::Release(_)
        | Event::Round
        | Event::Ack
        | Event::Credit
        | Event::Stun => push_numbered(line, b"done ", note.a),
        Event::Page | Event::Send(_) | Event::Deliver(_) | Event::Apply => push_two(line, note),
        Event::Switch | Event::Cancel => push_word(line, b"done"),
    }
}

fn push_two(line: &mut LineBuf, note: Note)
    requires { length line.old ≤ 100 }
    ensures exactly { line.new ≡ line.old ++ done_two note }
    ensures few { length line.new ≤ length line.old + 26 }
{
    push_numbered(line, b"done ", note.a);
    push_numbered(line, b" ", note.b);
}

// A read has a length, and a write none.
fn push_guest(line: &mut LineBuf, note: Note, read: &[u8])
    requires room { length line.old ≤ 100 }
    requires short { length read.now ≤ 64 }
    ensures exactly { line.new ≡ line.old ++ done_guest note read.now }
    ensures few { length line.new ≤ length line.old + 140 }
{
    if note.a > 0 {
        push_read(line, read);
    } else {
        push_word(line, b"done");
    }
}

fn push_read(line: &mut LineBuf, read: &[u8])
    requires room { length line.old ≤ 100 }
    requires short { length read.now ≤ 64 }
    ensures exactly { line.new ≡ line.old ++ (codes "read " ++ hex read.now) }
    ensures few { length line.new ≤ length line.old + 140 }
{
    push_word(line, b"read ");
    line.push_hex(read);
}

fn push_why(line: &mut LineBuf, why: Why)
    requires { length line.old ≤ 100 }
    ensures exactly { line.new ≡ line.old ++ (codes "wait " ++ why_words why) }
    ensures few { length line.new ≤ length line.old + 30 }
{
    push_word(line, b"wait ");
    push_word(line, why_word(why));
}

fn why_word(why: Why) -> &'static [u8]
    ensures exactly { result.now ≡ why_words why }
    ensures few { length result.now ≤ 20 }
{
    match why {
        Why::TraceEnd => b"trace-end",
        Why::InQueue => b"in-queue",
        Why::CancelDue => b"cancel-due",
        Why::Stunned => b"stunned",
        Why::Throttled => b"throttled",
        Why::NoCredit => b"no-credit",
        Why::NothingThere => b"nothing-there",
        Why::NotNow => b"not-now",
    }
}

fn push_cause(line: &mut LineBuf, cause: Cause)
    requires { length line.old ≤ 100 }
    ensures exactly { line.new ≡ line.old ++ (codes "failed " ++ cause_words cause) }
    ensures few { length line.new ≤ length line.old + 30 }
{
    match cause {
        Cause::SourceRead => push_word(line, b"failed source-read"),
        Cause::DestWrite => push_word(line, b"failed dest-write"),
        Cause::Flush => push_word(line, b"failed flush"),
        Cause::Put(stream) => push_numbered(line, b"failed put ", u32::from(stream)),
        Cause::Take(stream) => push_numbered(line, b"failed take ", u32::from(stream)),
        Cause::AckPut => push_word(line, b"failed ack-put"),
        Cause::AckTake => push_word(line, b"failed ack-take"),
    }
}

fn push_word(line: &mut LineBuf, word: &[u8])
    requires { length line.old + length word.now ≤ 256 }
    ensures exactly { line.new ≡ line.old ++ word.now }
    ensures long { length line.new ≡ length line.old + length word.now }
{
    line.push_all(word);
}

fn push_numbered(line: &mut LineBuf, word: &[u8], n: u32)
    requires { length line.old + length word.now + 10 ≤ 256 }
    ensures exactly { line.new ≡ line.old ++ (word.now ++ decimal n) }
    ensures few { length line.new ≤ length line.old + length word.now + 10 }
{
    push_word(line, word);
    line.push_number(n);
}
