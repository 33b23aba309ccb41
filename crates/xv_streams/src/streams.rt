//! Streams of messages over some wires.

ghost use Rattle.std.specs.Prelude.{◌≡◌, ℕ, false, ◌+◌, ◌-◌, ◌*◌, ◌<◌, ◌≤◌, ◌^◌, [], ◌∷◌, ◌++◌, length, take, drop, map, replicate, All, IfOk, IfErr, is_err, IfSome, if◌then◌else◌};
ghost use Rattle.xv_base.specs.Units.{units, size, max_size};
ghost use Rattle.xv_frame.specs.Frame.{UnitFrame, GroupFrame, Each, IsMessage, message, spelled};
ghost use Rattle.xv_wire.specs.Wire.{PutBytes};
ghost use Rattle.xv_wire.specs.Told.{MayCall, CallMade};
ghost use Rattle.xv_streams.specs.Streamed.{lane, fresh_lane, frame_room, OnlyLane, FramePut, IsLaneOf, MessageTaken, GroupTaken, seen_lane, first_group, content_of_first, lent, message_at};
ghost use Rattle.xv_streams.specs.Carried.{IsCarried, IsMade};
ghost use Rattle.xv_streams.specs.Groups.{IsReceived, most_received};
ghost use Rattle.xv_base.specs.Layout.{IsGood};
ghost use Rattle.xv_frame.specs.Reading.{front_head};
ghost use Rattle.xv_frame.specs.Faults.{read_head};
ghost use Rattle.xv_frame.specs.declared.heads.Head.TheVariants as Head;

use crate::lane::Lane;
use crate::making::{add_entry, put_head};
use crate::received::Received;
use std::alloc::Global;
use std::marker::Model;
use xv_base::{
    Failed, GROUP_FORMAT, Layout, MOST_GROUP, MOST_STREAMS, NoMemory, SINGLE_FORMAT, UnitHead,
};
use xv_frame::{ENTRY_HEAD_SIZE, HEAD_SIZE, Head, encode_unit, read_head};
use xv_wire::Wire;

/// Some wires, each of which carries the messages of one stream.
#[derive(Drop)]
pub struct Streams<W: Wire> {
    layout: Layout,
    format: u8,
    wires: Vec<W>,
    lanes: Vec<Lane>,
    /// The frame that is put, or the group that is being made.
    frame: Vec<u8>,
    /// How many messages that group has.
    count: u32,
    /// Where its entries end.
    end: usize,
    received: Received,
}

impl<W: Wire> Model for Streams<W> {
    ghost use Rattle.xv_streams.specs.Streamed.{Streamed, seen_lanes};
    ghost use Rattle.xv_streams.specs.Groups.{messages_in, AreStreams};

    ghost Value = { Streamed };

    ghost view = { λ s. record {
      shape = s.layout;
      format = s.format;
      lanes = seen_lanes W.told W.faults s.layout s.wires.items s.lanes.items;
      making = messages_in s.layout s.count s.frame.items;
      got = s.received.messages;
    } };

    ghost invariant = { λ s. AreStreams W.told s.layout s.format s.wires.items s.lanes.items s.frame.items s.count s.end s.received };
}

impl<W: Wire> Streams<W> {
    /// Streams over these wires, from 1 to `MOST_STREAMS`, in which nothing is in transit, with frames of one of the two formats.
    /// Errors: want of memory, with the wires as they were.
    pub fn new(
        alloc: Global,
        wires: Vec<W>,
        layout: Layout,
        format: u8,
    ) -> Result<Streams<W>, Vec<W>>
        requires some { 1 ≤ length wires.items }
        requires few { length wires.items ≤ MOST_STREAMS }
        requires format { (SINGLE_FORMAT ≤ format) × (format ≤ GROUP_FORMAT) }
        requires none { All (λ w. (W.told w).transit ≡ []) wires.items }
        ensures shape { IfOk result (λ streams. streams.shape ≡ layout) }
        ensures format { IfOk result (λ streams. streams.format ≡ format) }
        ensures empty { IfOk result (λ streams. streams.lanes ≡ map (λ w. fresh_lane (W.told w) (W.faults w)) wires.items) }
        ensures making { IfOk result (λ streams. streams.making ≡ []) }
        ensures got { IfOk result (λ streams. streams.got ≡ []) }
        ensures back { IfErr result (λ back. back.items ≡ wires.items) }
    {
        let room = frame_room(&layout, format);
        let Ok(lanes) = new_lanes(alloc, wires.len(), room) else {
            return Err(wires);
        };
        let Ok(frame) = Vec::from_elem(alloc, 0, room) else {
            return Err(wires);
        };
        let size = layout.max_size() as usize;
        let Ok(received) = Received::new(alloc, most_received(format), size) else {
            return Err(wires);
        };
        Ok(Streams {
            layout,
            format,
            wires,
            lanes,
            frame,
            count: 0,
            end: HEAD_SIZE,
            received,
        })
    }

    /// The format of the frames.
    pub fn format(&self) -> u8
        ensures exactly { result ≡ self.now.format }
        ensures known { (SINGLE_FORMAT ≤ result) × (result ≤ GROUP_FORMAT) }
    {
        self.format
    }

    /// How many groups of messages are on a stream.
    pub fn waiting(&self, stream: u8) -> u32
        requires { stream < length self.now.lanes }
        ensures exactly { result ≡ length (lane self.now stream).groups }
        ensures carried { IsCarried self.now.shape self.now.format (lane self.now stream) }
    {
        self.lanes[stream as usize].waiting()
    }

    /// Sends a message on a stream, where the frame fits the wire.
    /// Errors: the wire failed, and the lists are unchanged.
    pub fn send(&mut self, stream: u8, head: UnitHead, bytes: &[u8]) -> Result<(), Failed>
        requires stream_in { stream < length self.old.lanes }
        requires format { self.old.format ≡ SINGLE_FORMAT }
        requires unit_in { head.unit.0 < units self.old.shape }
        requires made { 1 ≤ head.version }
        requires whole { length bytes.now ≡ size self.old.shape head.unit.0 }
        requires room { length (lane self.old stream).wire.transit + (HEAD_SIZE + length bytes.now) ≤ (lane self.old stream).wire.capacity }
        requires countable { IfSome (lane self.old stream).wire.counted (λ c. c.puts < 2 ^ 63) }
        ensures others { OnlyLane stream self.old self.new }
        ensures put { FramePut (UnitFrame (message head bytes.now)) (is_err result) (lane self.old stream) (lane self.new stream) }
    {
        let size = encode_unit(&self.layout, head, bytes, &mut self.frame);
        let place = stream as usize;
        put_frame(
            &mut self.wires[place],
            &mut self.lanes[place],
            &self.frame[..size],
        )
    }

    /// Takes the first message off a stream; its content then is in the first bytes of `into`, which has the greatest
    /// size of a unit.
    /// Errors: the wire failed; the lists are unchanged, and a later call goes on with the bytes gathered.
    pub fn receive(&mut self, stream: u8, into: &mut [u8]) -> Result<Option<UnitHead>, Failed>
        requires stream_in { stream < length self.old.lanes }
        requires format { self.old.format ≡ SINGLE_FORMAT }
        requires room { max_size self.old.shape ≤ length into.old }
        ensures others { OnlyLane stream self.old self.new }
        ensures taken { MessageTaken self.old.shape result (take (length (content_of_first (first_group (lane self.old stream).groups))) into.new) (lane self.old stream) (lane self.new stream) }
    {
        let place = stream as usize;
        receive_message(
            &mut self.wires[place],
            &mut self.lanes[place],
            &self.layout,
            into,
        )
    }

    /// Puts a message into the group that is being made, in which fewer than `MOST_GROUP` are.
    pub fn add(&mut self, head: UnitHead, bytes: &[u8])
        requires format { self.old.format ≡ GROUP_FORMAT }
        requires few { length self.old.making < MOST_GROUP }
        requires unit_in { head.unit.0 < units self.old.shape }
        requires made { 1 ≤ head.version }
        requires whole { length bytes.now ≡ size self.old.shape head.unit.0 }
        ensures { self.new ≡ record self.old { making = self.old.making ++ message head bytes.now ∷ [] } }
    {
        self.end = add_entry(&self.layout, head, bytes, &mut self.frame, self.end);
        self.count += 1;
    }

    /// Sends the group that is being made on a stream, where its frame fits the wire. After it no group is being made.
    /// Errors: the wire failed, and the lists are unchanged.
    pub fn send_group(&mut self, stream: u8) -> Result<(), Failed>
        requires stream_in { stream < length self.old.lanes }
        requires some { 1 ≤ length self.old.making }
        requires room { length (lane self.old stream).wire.transit + length (spelled (GroupFrame self.old.making)) ≤ (lane self.old stream).wire.capacity }
        requires countable { IfSome (lane self.old stream).wire.counted (λ c. c.puts < 2 ^ 63) }
        ensures others { OnlyLane stream (record self.old { making = [] }) self.new }
        ensures put { FramePut (GroupFrame self.old.making) (is_err result) (lane self.old stream) (lane self.new stream) }
    {
        let end = self.end;
        put_head(self.count, end, &mut self.frame);
        self.count = 0;
        self.end = HEAD_SIZE;
        let place = stream as usize;
        put_frame(
            &mut self.wires[place],
            &mut self.lanes[place],
            &self.frame[..end],
        )
    }

    /// Takes the first group off a stream, and answers how many messages it has: 0 exactly where there is none. `got`
    /// and `got_bytes` lend them until the next receipt.
    /// Errors: the wire failed; the lists are unchanged, and a later call goes on with the bytes gathered.
    pub fn receive_group(&mut self, stream: u8) -> Result<u32, Failed>
        requires stream_in { stream < length self.old.lanes }
        requires format { self.old.format ≡ GROUP_FORMAT }
        ensures others { OnlyLane stream (record self.old { got = lent (is_err result) (lane self.old stream) }) self.new }
        ensures taken { GroupTaken self.old.shape result (lane self.old stream) (lane self.new stream) }
    {
        let place = stream as usize;
        receive_messages(
            &mut self.wires[place],
            &mut self.lanes[place],
            &self.layout,
            &mut self.received,
        )
    }

    /// A message of the group that was received last: its unit, version and when it was made.
    pub fn got(&self, i: u32) -> UnitHead
        requires { i < length self.now.got }
        ensures exactly { result ≡ (message_at self.now.got i).head }
        ensures unit_in { result.unit.0 < units self.now.shape }
        ensures made { 1 ≤ result.version }
    {
        self.received.head(i as usize)
    }

    /// The content of a message of the group that was received last.
    pub fn got_bytes(&self, i: u32) -> &[u8]
        requires { i < length self.now.got }
        ensures exactly { result.now ≡ (message_at self.now.got i).content }
        ensures whole { length result.now ≡ size self.now.shape (message_at self.now.got i).head.unit.0 }
    {
        self.received.bytes(i as usize)
    }

    /// A law: what the bytes gathered and in transit are, and the messages that are being made into a group or lent.
    pub fn hold_spellings(&self)
        ensures lanes { Each (IsCarried self.now.shape self.now.format) self.now.lanes }
        ensures making { IsMade self.now.shape self.now.making }
        ensures got { Each (IsMessage self.now.shape) self.now.got }
        ensures only_in_groups { self.now.format ≡ SINGLE_FORMAT → (self.now.making ≡ []) × (self.now.got ≡ []) }
        ensures good { IsGood self.now.shape }
    {
        let _ = &self.layout;
    }

    /// The wires as they are.
    pub fn into_wires(self) -> Vec<W>
        ensures told { map W.told result.items ≡ map (λ l. l.wire) self.lanes }
        ensures faults { map W.faults result.items ≡ map (λ l. l.faults) self.lanes }
    {
        self.wires
    }
}

/// Puts a frame, which then is on the way.
fn put_frame<W: Wire>(wire: &mut W, lane: &mut Lane, frame: &[u8]) -> Result<(), Failed>
    requires room { MayCall (PutBytes frame.now) (W.told wire.old) }
    requires few { lane.old.waiting * HEAD_SIZE ≤ length lane.old.bytes + length (W.told wire.old).transit }
    requires short { length lane.old.bytes < 2 ^ 32 }
    ensures made { CallMade (PutBytes frame.now) (is_err result) (W.told wire.old) (W.told wire.new) (W.faults wire.old) (W.faults wire.new) }
    ensures counted { lane.new ≡ record lane.old { waiting = if is_err result then lane.old.waiting else lane.old.waiting + 1 } }
{
    let fits = frame.len() <= wire.capacity() as usize;
    prove!(fits);
    match wire.put(frame) {
        Ok(()) => {
            lane.sent();
            Ok(())
        }
        Err(_) => Err(Failed),
    }
}

/// Takes the first message off a lane of unit frames.
fn receive_message<W: Wire>(
    wire: &mut W,
    lane: &mut Lane,
    layout: &Layout,
    into: &mut [u8],
) -> Result<Option<UnitHead>, Failed>
    requires good { IsGood layout.now }
    requires lane { IsLaneOf layout.now SINGLE_FORMAT (W.told wire.old) lane.old }
    requires room { max_size layout.now ≤ length into.old }
    ensures lane { IsLaneOf layout.now SINGLE_FORMAT (W.told wire.new) lane.new }
    ensures taken { MessageTaken layout.now result (take (length (content_of_first (first_group (seen_lane layout.now (W.told wire.old) (W.faults wire.old) lane.old).groups))) into.new) (seen_lane layout.now (W.told wire.old) (W.faults wire.old) lane.old) (seen_lane layout.now (W.told wire.new) (W.faults wire.new) lane.new) }
{
    match lane.gather(wire, layout) {
        Ok(true) => {
            let head = read_unit(lane.bytes(), layout, into);
            lane.taken_off();
            Ok(Some(head))
        }
        Ok(false) => Ok(None),
        Err(_) => Err(Failed),
    }
}

/// Takes the first group off a lane of groups, and keeps its messages.
fn receive_messages<W: Wire>(
    wire: &mut W,
    lane: &mut Lane,
    layout: &Layout,
    received: &mut Received,
) -> Result<u32, Failed>
    requires good { IsGood layout.now }
    requires lane { IsLaneOf layout.now GROUP_FORMAT (W.told wire.old) lane.old }
    requires received { IsReceived layout.now GROUP_FORMAT received.old }
    ensures lane { IsLaneOf layout.now GROUP_FORMAT (W.told wire.new) lane.new }
    ensures received { IsReceived layout.now GROUP_FORMAT received.new }
    ensures messages { received.new.messages ≡ lent (is_err result) (seen_lane layout.now (W.told wire.old) (W.faults wire.old) lane.old) }
    ensures taken { GroupTaken layout.now result (seen_lane layout.now (W.told wire.old) (W.faults wire.old) lane.old) (seen_lane layout.now (W.told wire.new) (W.faults wire.new) lane.new) }
{
    match lane.gather(wire, layout) {
        Ok(true) => {
            let count = received.read(lane.bytes(), layout);
            lane.taken_off();
            Ok(count)
        }
        Ok(false) => {
            received.clear();
            Ok(0)
        }
        Err(_) => {
            received.clear();
            Err(Failed)
        }
    }
}

/// Reads a unit frame, whose content goes to the first bytes of `into`.
fn read_unit(frame: &[u8], layout: &Layout, into: &mut [u8]) -> UnitHead
    requires long { HEAD_SIZE ≤ length frame.now }
    requires room { length frame.now ≤ HEAD_SIZE + length into.old }
    requires known { read_head layout.now (take HEAD_SIZE frame.now) ≡ Ok (Head.Unit (front_head frame.now)) }
    ensures head { result ≡ front_head frame.now }
    ensures content { take (length frame.now - HEAD_SIZE) into.new ≡ drop HEAD_SIZE frame.now }
{
    let content = frame.len() - HEAD_SIZE;
    into[..content].copy_from_slice(&frame[HEAD_SIZE..]);
    match read_head(&frame[..HEAD_SIZE], layout) {
        Ok(Head::Unit(head)) => head,
        Ok(Head::Ack(_)) => unreachable!(),
        Err(_) => unreachable!(),
    }
}

/// How many bytes the greatest frame of a format has.
fn frame_room(layout: &Layout, format: u8) -> usize
    ensures room { result ≡ frame_room layout.now format }
    ensures good { IsGood layout.now }
{
    let size = layout.max_size() as usize;
    if format == SINGLE_FORMAT {
        HEAD_SIZE + size
    } else {
        HEAD_SIZE + usize::from(MOST_GROUP) * (ENTRY_HEAD_SIZE + size)
    }
}

/// How many messages may be received together.
fn most_received(format: u8) -> usize
    ensures { result ≡ most_received format }
{
    if format == SINGLE_FORMAT {
        0
    } else {
        usize::from(MOST_GROUP)
    }
}

/// Lanes on which nothing is.
fn new_lanes(alloc: Global, count: usize, room: usize) -> Result<Vec<Lane>, NoMemory>
    ensures { IfOk result (λ lanes. lanes.items ≡ replicate count (record { bytes = []; room = room; waiting = 0 })) }
{
    let Ok(mut lanes) = Vec::with_capacity(alloc, count) else {
        return Err(NoMemory);
    };
    while lanes.len() < count {
        let Ok(lane) = Lane::new(alloc, room) else {
            return Err(NoMemory);
        };
        let Ok(()) = lanes.push(lane) else {
            return Err(NoMemory);
        };
    }
    Ok(lanes)
}
