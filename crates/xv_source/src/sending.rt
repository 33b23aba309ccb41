//! Messages on their way from an outbox to a stream.

ghost use Rattle.std.specs.Prelude.{◌≡◌, ◌-◌, ◌<◌, ◌≤◌, ◌^◌, [], length, take, is_err, IfSome};
ghost use Rattle.xv_frame.specs.Frame.{Each};
ghost use Rattle.xv_streams.specs.Streamed.{lane, OnlyLane};
ghost use Rattle.xv_streams.specs.Fronts.{PutsGroup, HasRoomFor};
ghost use Rattle.xv_source.specs.Step.{IsMost};
ghost use Rattle.xv_source.specs.Batches.{outbox_past};

use xv_base::{Failed, GROUP_FORMAT, MOST_GROUP, SINGLE_FORMAT};
use xv_credit::Credit;
use xv_outbox::Outbox;
use xv_streams::Streams;
use xv_wire::Wire;

/// Puts the first `count` messages on a stream as one frame, where it fits the wire: one in format 1, and at most 16 in
/// format 2.
/// Errors: the wire failed, and nothing is on the way that was not.
pub fn put_batch<W: Wire>(
    streams: &mut Streams<W>,
    stream: u8,
    outbox: &Outbox,
    count: u32,
) -> Result<(), Failed>
    requires stream_in { stream < length streams.old.lanes }
    requires layout { outbox.now.shape ≡ streams.old.shape }
    requires there { count ≤ length outbox.now.messages }
    requires most { IsMost streams.old.format count }
    requires made { Each (λ m. 1 ≤ m.head.version) outbox.now.messages }
    requires none_made { streams.old.making ≡ [] }
    requires room { HasRoomFor streams.old.shape streams.old.format count (lane streams.old stream) }
    requires countable { IfSome (lane streams.old stream).wire.counted (λ c. c.puts < 2 ^ 63) }
    ensures others { OnlyLane stream streams.old streams.new }
    ensures none_made { streams.new.making ≡ [] }
    ensures put { PutsGroup streams.old.format (take count outbox.now.messages) (is_err result) (lane streams.old stream) (lane streams.new stream) }
{
    if streams.format() == SINGLE_FORMAT {
        put_one(streams, stream, outbox)
    } else {
        put_several(streams, stream, outbox, count)
    }
}

/// Puts the first message on a stream.
fn put_one<W: Wire>(streams: &mut Streams<W>, stream: u8, outbox: &Outbox) -> Result<(), Failed>
    requires stream_in { stream < length streams.old.lanes }
    requires layout { outbox.now.shape ≡ streams.old.shape }
    requires format { streams.old.format ≡ SINGLE_FORMAT }
    requires there { 1 ≤ length outbox.now.messages }
    requires made { Each (λ m. 1 ≤ m.head.version) outbox.now.messages }
    requires room { HasRoomFor streams.old.shape 1 1 (lane streams.old stream) }
    requires countable { IfSome (lane streams.old stream).wire.counted (λ c. c.puts < 2 ^ 63) }
    ensures others { OnlyLane stream streams.old streams.new }
    ensures put { PutsGroup 1 (take 1 outbox.now.messages) (is_err result) (lane streams.old stream) (lane streams.new stream) }
{
    streams.hold_spellings();
    streams.send(stream, outbox.nth(0), outbox.nth_bytes(0))
}

/// Puts the first `count` messages on a stream as a group.
fn put_several<W: Wire>(
    streams: &mut Streams<W>,
    stream: u8,
    outbox: &Outbox,
    count: u32,
) -> Result<(), Failed>
    requires stream_in { stream < length streams.old.lanes }
    requires layout { outbox.now.shape ≡ streams.old.shape }
    requires format { streams.old.format ≡ GROUP_FORMAT }
    requires some { 1 ≤ count }
    requires few { count ≤ MOST_GROUP }
    requires there { count ≤ length outbox.now.messages }
    requires made { Each (λ m. 1 ≤ m.head.version) outbox.now.messages }
    requires none_made { streams.old.making ≡ [] }
    requires room { HasRoomFor streams.old.shape 2 count (lane streams.old stream) }
    requires countable { IfSome (lane streams.old stream).wire.counted (λ c. c.puts < 2 ^ 63) }
    ensures others { OnlyLane stream streams.old streams.new }
    ensures none_made { streams.new.making ≡ [] }
    ensures put { PutsGroup 2 (take count outbox.now.messages) (is_err result) (lane streams.old stream) (lane streams.new stream) }
{
    add_first(streams, outbox, count);
    streams.hold_spellings();
    streams.send_group(stream)
}

/// Makes a group of the first `count` messages.
fn add_first<W: Wire>(streams: &mut Streams<W>, outbox: &Outbox, count: u32)
    requires layout { outbox.now.shape ≡ streams.old.shape }
    requires format { streams.old.format ≡ GROUP_FORMAT }
    requires few { count ≤ MOST_GROUP }
    requires there { count ≤ length outbox.now.messages }
    requires made { Each (λ m. 1 ≤ m.head.version) outbox.now.messages }
    requires none_made { streams.old.making ≡ [] }
    ensures { streams.new ≡ record streams.old { making = take count outbox.now.messages } }
{
    for i in 0..count {
        streams.add(outbox.nth(i), outbox.nth_bytes(i));
    }
}

/// Takes the first `count` messages off, and one of the credit for each.
#[tactic(auto, using(crate::proofs::Batching::drop_one_more))]
pub fn take_off(outbox: &mut Outbox, credit: &mut Credit, count: u32)
    requires { count ≤ length outbox.old.messages }
    ensures outbox { outbox.new ≡ outbox_past count outbox.old }
    ensures credit { credit.new ≡ record credit.old { left = credit.old.left - count } }
{
    for _ in 0..count {
        outbox.take();
        let _ = credit.take();
    }
}
