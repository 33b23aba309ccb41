ghost use Rattle.std.specs.Prelude.{◌≡◌, ◌+◌, ◌*◌, ◌<◌, ◌≤◌, ◌^◌, [], length, drop, IfOk, IfSome, None};
ghost use Rattle.xv_base.specs.Units.{shape_of};
ghost use Rattle.xv_streams.specs.Streamed.{lane, OnlyLane};
ghost use Rattle.xv_engine_tests.specs.Single.{IsSingle, IsEmptyLane};

use std::alloc::Global;
use std::test::Fail;
use xv_base::{Failed, Layout, NoMemory, UnitHead, UnitId};
use xv_streams::{BackWire, Streams};
use xv_wire::{MemWire, Wire, WirePlan};

/// Unit 1 in version 2, made at 5.
const HEAD: UnitHead = UnitHead {
    unit: UnitId(1),
    version: 2,
    at: 5,
};

/// A wire for 16 messages of 16 bytes, whose takes give at most `piece` bytes, and fail once at the piece `take`.
fn wire(alloc: Global, piece: u32, take: u32) -> Result<MemWire, Fail>
    ensures { IfOk result (λ wire. (wire.transit ≡ []) × (wire.capacity ≡ 960) × (wire.counted.puts ≡ 0)) }
{
    let plan = WirePlan {
        puts: vec![in alloc; 0]?,
        takes: vec![in alloc; take]?,
    };
    Ok(MemWire::new(alloc, 960, piece.max(1), plan)?)
}

/// A wire whose takes give at most 10 bytes, and of which the third fails.
#[derive(Drop)]
struct ThirdFails {
    bytes: Vec<u8>,
    /// How many of the bytes were taken.
    gone: usize,
    takes: u8,
    faults: u64,
    ghost within: { gone ≤ length bytes.items },
}

impl Wire for ThirdFails {
    ghost told = { λ w. record { capacity = 960; transit = drop w.gone w.bytes.items; counted = None } };

    ghost faults = { λ w. w.faults };

    fn capacity(&self) -> u32 {
        960
    }

    fn put(&mut self, bytes: &[u8]) -> Result<(), Failed> {
        match self.bytes.extend_from_slice(bytes) {
            Ok(()) => Ok(()),
            Err(_) => {
                self.faults = self.faults.saturating_add(1);
                Err(Failed)
            }
        }
    }

    fn take(&mut self, into: &mut [u8]) -> Result<u32, Failed> {
        self.takes = self.takes.saturating_add(1);
        if self.takes == 3 {
            self.faults = self.faults.saturating_add(1);
            return Err(Failed);
        }
        let count = into.len().min(10).min(self.bytes.len() - self.gone);
        into[..count].copy_from_slice(&self.bytes[self.gone..self.gone + count]);
        self.gone += count;
        Ok(count as u32)
    }
}

/// A wire whose third take fails, in which nothing is in transit.
fn third_fails(alloc: Global) -> ThirdFails
    ensures bytes { result.bytes.items ≡ [] }
    ensures gone { result.gone ≡ 0 }
{
    ThirdFails {
        bytes: Vec::new(alloc),
        gone: 0,
        takes: 0,
        faults: 0,
    }
}

/// What `receive` answers.
type Taken = Result<Option<UnitHead>, Failed>;

/// Takes a message off the one stream, and copies its content.
fn take<W: Wire>(streams: &mut Streams<W>, content: &mut [u8]) -> Taken
    requires single { IsSingle streams.old }
    requires room { length content.old ≡ 16 }
    ensures single { IsSingle streams.new }
    ensures room { length content.new ≡ 16 }
{
    streams.receive(0, content)
}

/// How many messages are on the one stream.
fn waiting<W: Wire>(streams: &Streams<W>) -> u32
    requires { IsSingle streams.now }
{
    streams.waiting(0)
}

/// Sends a message on the one stream, on which nothing is.
fn send<W: Wire>(streams: &mut Streams<W>) -> Result<(), Failed>
    requires single { IsSingle streams.old }
    requires empty { IsEmptyLane (lane streams.old 0) }
    ensures { IsSingle streams.new }
{
    streams.send(0, HEAD, b"0123456789abcdef")
}

/// The one stream of format 1 over a wire of which the first take fails.
fn single(alloc: Global, piece: u32) -> Result<Streams<MemWire>, Fail>
    ensures single { IfOk result (λ streams. IsSingle streams) }
    ensures empty { IfOk result (λ streams. IsEmptyLane (lane streams 0)) }
{
    let layout = Layout::new(3, 16, &[])?;
    let wires = vec![in alloc; wire(alloc, piece, 1)?]?;
    match Streams::new(alloc, wires, layout, 1) {
        Ok(streams) => Ok(streams),
        Err(wires) => {
            drop(wires);
            Err(Fail::from(NoMemory))
        }
    }
}

/// What a stream tells of itself once a message has passed.
fn told(streams: Streams<MemWire>) -> (u8, usize)
    requires { IsSingle streams }
{
    let format = streams.format();
    let wires = streams.into_wires();
    let count = wires.len();
    drop(wires);
    (format, count)
}

#[test]
fn passes_in_any_pieces(rt: HostRuntime) -> Result<(), Fail> {
    for piece in [1, 23, 24, 25, 700] {
        let mut streams = single(rt.alloc(), piece)?;
        let mut content = [0; 16];
        let sent = send(&mut streams);
        let waits = waiting(&streams);
        let failed = take(&mut streams, &mut content);
        let left = waiting(&streams);
        let taken = take(&mut streams, &mut content);
        let none = take(&mut streams, &mut content);
        let told = told(streams);
        assert_eq!(rt; (sent, waits, left), (Ok(()), 1, 1));
        assert_eq!(rt;
            (failed, taken, none),
            (Err(Failed), Ok(Some(HEAD)), Ok(None))
        );
        assert_eq!(rt; content, *b"0123456789abcdef");
        assert_eq!(rt; told, (1, 1));
    }
    Ok(())
}

/// The message of a number, of unit 0, 1 or 2 in turn.
fn head(i: u32) -> UnitHead
    requires { i < 32 }
    ensures unit_in { result.unit.0 < 3 }
    ensures made { 1 ≤ result.version }
{
    UnitHead {
        unit: UnitId(i % 3),
        version: i + 1,
        at: u64::from(i) * 7,
    }
}

/// The content of the message of a number; that of each second one is all zero.
fn content(i: u32) -> [u8; 16] {
    [(i % 2) as u8; 16]
}

/// Sends the messages of the numbers from `first` on as one group, on a stream on which nothing is.
fn send_some<W: Wire>(
    streams: &mut Streams<W>,
    stream: u8,
    first: u32,
    count: u32,
) -> Result<(), Failed>
    requires stream_in { stream < length streams.old.lanes }
    requires format { streams.old.format ≡ 2 }
    requires shape { streams.old.shape ≡ shape_of 3 16 [] }
    requires none { streams.old.making ≡ [] }
    requires some { 1 ≤ count }
    requires few { count ≤ 16 }
    requires small { first ≤ 16 }
    requires empty { IsEmptyLane (lane streams.old stream) }
    ensures { OnlyLane stream streams.old streams.new }
{
    for i in 0..count {
        streams.add(head(first + i), &content(first + i));
    }
    streams.hold_spellings();
    streams.send_group(stream)
}

/// Whether the first group on a stream has the messages of the numbers from `first` on.
fn gives_some<W: Wire>(streams: &mut Streams<W>, stream: u8, first: u32, count: u32) -> bool
    requires stream_in { stream < length streams.old.lanes }
    requires format { streams.old.format ≡ 2 }
    requires few { count ≤ 16 }
    requires small { first ≤ 16 }
    ensures format { streams.new.format ≡ streams.old.format }
    ensures many { length streams.new.lanes ≡ length streams.old.lanes }
{
    match streams.receive_group(stream) {
        Ok(received) => received == count && are_got(streams, first, received),
        Err(_) => false,
    }
}

/// Whether the messages that are lent are those of the numbers from `first` on.
fn are_got<W: Wire>(streams: &Streams<W>, first: u32, count: u32) -> bool
    requires lent { count ≡ length streams.now.got }
    requires few { count ≤ 16 }
    requires small { first ≤ 16 }
{
    let mut all = true;
    for i in 0..count {
        all = all && streams.got(i) == head(first + i);
        all = all && streams.got_bytes(i) == content(first + i).as_slice();
    }
    all
}

/// Two streams of format 2; of the second the first take fails.
fn pair(alloc: Global, piece: u32) -> Result<Streams<MemWire>, Fail>
    ensures lanes { IfOk result (λ streams. length streams.lanes ≡ 2) }
    ensures format { IfOk result (λ streams. streams.format ≡ 2) }
    ensures shape { IfOk result (λ streams. streams.shape ≡ shape_of 3 16 []) }
    ensures none { IfOk result (λ streams. streams.making ≡ []) }
    ensures first { IfOk result (λ streams. IsEmptyLane (lane streams 0)) }
    ensures second { IfOk result (λ streams. IsEmptyLane (lane streams 1)) }
{
    let layout = Layout::new(3, 16, &[])?;
    let wires = vec![in alloc; wire(alloc, piece, 0)?, wire(alloc, piece, 1)?]?;
    match Streams::new(alloc, wires, layout, 2) {
        Ok(streams) => Ok(streams),
        Err(wires) => {
            drop(wires);
            Err(Fail::from(NoMemory))
        }
    }
}

/// Takes the groups of a pair of streams, of `count` messages and of two; whether each was there, the first stream then was
/// empty, and the first take of the second failed.
fn gives_both(streams: &mut Streams<MemWire>, count: u32) -> [bool; 4]
    requires lanes { length streams.old.lanes ≡ 2 }
    requires format { streams.old.format ≡ 2 }
    requires few { count ≤ 16 }
    ensures { length streams.new.lanes ≡ 2 }
{
    let first = gives_some(streams, 0, 0, count);
    let none = gives_some(streams, 0, 0, 0);
    let failed = streams.receive_group(1) == Err(Failed);
    [first, none, failed, gives_some(streams, 1, 16, 2)]
}

#[test]
fn passes_groups_in_any_pieces(rt: HostRuntime) -> Result<(), Fail> {
    for (piece, count) in [(1, 2), (23, 1), (24, 16), (25, 3), (700, 16)] {
        assert!(rt; 1 <= count && count <= 16);
        let mut streams = pair(rt.alloc(), piece)?;
        let first = send_some(&mut streams, 0, 0, count);
        let second = send_some(&mut streams, 1, 16, 2);
        let before = streams.waiting(0);
        let given = gives_both(&mut streams, count);
        let after = streams.waiting(1);
        drop(streams);
        assert_eq!(rt; [first, second], [Ok(()), Ok(())], "of {count}");
        assert_eq!(rt; [before, after], [1, 0]);
        assert_eq!(rt; given, [true; 4], "in pieces of {piece}");
    }
    Ok(())
}

/// One stream of a format over a wire whose third take fails.
fn third_stream(alloc: Global, format: u8) -> Result<Streams<ThirdFails>, Fail>
    requires { (1 ≤ format) × (format ≤ 2) }
    ensures lanes { IfOk result (λ streams. length streams.lanes ≡ 1) }
    ensures format { IfOk result (λ streams. streams.format ≡ format) }
    ensures shape { IfOk result (λ streams. streams.shape ≡ shape_of 3 16 []) }
    ensures none { IfOk result (λ streams. streams.making ≡ []) }
    ensures empty { IfOk result (λ streams. IsEmptyLane (lane streams 0)) }
{
    let layout = Layout::new(3, 16, &[])?;
    let wires = vec![in alloc; third_fails(alloc)]?;
    match Streams::new(alloc, wires, layout, format) {
        Ok(streams) => Ok(streams),
        Err(wires) => {
            drop(wires);
            Err(Fail::from(NoMemory))
        }
    }
}

#[test]
fn goes_on_after_a_failed_take(rt: HostRuntime) -> Result<(), Fail> {
    let mut streams = third_stream(rt.alloc(), 1)?;
    let mut content = [0; 16];
    let sent = send(&mut streams);
    let failed = take(&mut streams, &mut content);
    let taken = take(&mut streams, &mut content);
    drop(streams);
    assert_eq!(rt; sent, Ok(()));
    assert_eq!(rt; [failed, taken], [Err(Failed), Ok(Some(HEAD))]);
    assert_eq!(rt; content, *b"0123456789abcdef");
    Ok(())
}

#[test]
fn goes_on_with_a_group_after_a_failed_take(rt: HostRuntime) -> Result<(), Fail> {
    let mut streams = third_stream(rt.alloc(), 2)?;
    let sent = send_some(&mut streams, 0, 0, 2);
    let failed = streams.receive_group(0);
    let is_given = gives_some(&mut streams, 0, 0, 2);
    drop(streams);
    assert_eq!(rt; sent, Ok(()));
    assert_eq!(rt; failed, Err(Failed));
    assert!(rt; is_given);
    Ok(())
}

#[test]
fn passes_acknowledgements_back(rt: HostRuntime) -> Result<(), Fail> {
    let mut back = BackWire::new(wire(rt.alloc(), 10, 1)?);
    let put = back.put_ack(258);
    let before = back.waiting();
    let taken = [back.take_ack(), back.take_ack(), back.take_ack()];
    let after = back.waiting();
    drop(back.into_wire());
    assert_eq!(rt; put, Ok(()));
    assert_eq!(rt; taken, [Err(Failed), Ok(Some(258)), Ok(None)]);
    assert_eq!(rt; [before, after], [1, 0]);
    Ok(())
}
