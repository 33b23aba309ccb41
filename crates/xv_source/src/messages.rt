//! The messages and their credit.

ghost use Rattle.std.specs.Prelude.{◌≡◌, ◌≤◌, ◌<◌, ◌+◌, ◌-◌, ◌^◌, [], true, length, take, get_or, if◌then◌else◌, is_err, IfSome};
ghost use Rattle.xv_model.specs.Job.{Job};
ghost use Rattle.xv_model.specs.View.{View, number, no_message};
ghost use Rattle.xv_model.specs.Step.{is_flagged, is_wait};
ghost use Rattle.xv_base.specs.declared.event.Event.TheVariants.{Send, Credit};
ghost use Rattle.xv_streams.specs.Streamed.{lane, OnlyLane};
ghost use Rattle.xv_streams.specs.Fronts.{PutsGroup, HasRoomFor};
ghost use Rattle.xv_streams.specs.Returned.{TakesFirst};
ghost use Rattle.xv_source.specs.Step.{Allows, StepsSource, MakesNoCall, IsMost, batch_of, batch, joined_messages, went_out};
ghost use Rattle.xv_source.specs.Batches.{past, told_of};

use crate::sending::{put_batch, take_off};
use crate::source::SourceHalf;
use xv_base::{Cause, Failed, Note, SINGLE_FORMAT, Turn, UnitHead, Why};
use xv_device::UnitDevice;
use xv_streams::{BackWire, Streams};
use xv_wire::Wire;

impl<S: UnitDevice> SourceHalf<S> {
    /// Takes an acknowledgement off the wire back, which gives as much credit back. The migration runs or is stunned.
    pub fn credit<W: Wire>(&mut self, back: &mut BackWire<W>) -> Turn
        requires { self.old.credit + number back.old.counts 0 ≤ self.old.config.credit }
        ensures step { (job : Job) (v : View) → Allows job v Credit self.old → v.acks ≡ back.old.counts → StepsSource job v Credit result self.old self.new }
        ensures call { MakesNoCall self.old self.new }
        ensures taken { TakesFirst (is_flagged result) back.old back.new }
    {
        match back.take_ack() {
            Ok(Some(count)) => {
                self.credit.restore(count);
                Turn::Done(Note { a: count, b: 0 })
            }
            Ok(None) => Turn::Wait(Why::NothingThere),
            Err(_) => Turn::Failed(Cause::AckTake),
        }
    }

    /// Sends messages on a stream: one in format 1, and in format 2 a group of at most `most`, where the frame fits the wire.
    /// The migration runs or is stunned.
    pub fn send<W: Wire>(&mut self, stream: u8, most: u32, streams: &mut Streams<W>) -> Turn
        requires stream_in { stream < length streams.old.lanes }
        requires layout { streams.old.shape ≡ self.old.shape }
        requires most { IsMost streams.old.format most }
        requires none_made { streams.old.making ≡ [] }
        requires room { 0 < length self.old.messages → 0 < self.old.credit → HasRoomFor self.old.shape streams.old.format (batch_of streams.old.format most self.old) (lane streams.old stream) }
        requires countable { IfSome (lane streams.old stream).wire.counted (λ c. c.puts < 2 ^ 63) }
        ensures step { (job : Job) (v : View) → Allows job v (Send stream) self.old → job.format ≡ streams.old.format → job.group ≡ most → StepsSource job v (Send stream) result self.old self.new }
        ensures call { MakesNoCall self.old self.new }
        ensures others { OnlyLane stream streams.old streams.new }
        ensures none_made { streams.new.making ≡ [] }
        ensures put { went_out result ≡ true → PutsGroup streams.old.format (batch streams.old.format most self.old) (is_flagged result) (lane streams.old stream) (lane streams.new stream) }
        ensures waits { is_wait result ≡ true → streams.new ≡ streams.old }
    {
        if let Some(why) = self.send_waits(stream) {
            return Turn::Wait(why);
        }
        let format = streams.format();
        let count = self.batch(format, most);
        let first = self.first();
        match self.send_batch(stream, count, streams) {
            Ok(()) => told_of(format, count, first),
            Err(Failed) => Turn::Failed(Cause::Put(stream)),
        }
    }

    /// How many messages go together on a stream of this format.
    fn batch(&self, format: u8, most: u32) -> u32
        ensures { result ≡ batch_of format most self.now }
    {
        if format == SINGLE_FORMAT {
            return 1;
        }
        let there = self.config.outbox - self.outbox.room();
        most.min(there.min(self.credit.left()))
    }

    /// The first message that is not sent.
    fn first(&self) -> UnitHead
        requires { 0 < length self.now.messages }
        ensures { result ≡ get_or self.now.messages 0 no_message }
    {
        self.outbox.nth(0)
    }

    /// Puts the first `count` messages on a stream as one frame, and takes them off and of the credit where it went well.
    fn send_batch<W: Wire>(
        &mut self,
        stream: u8,
        count: u32,
        streams: &mut Streams<W>,
    ) -> Result<(), Failed>
        requires stream_in { stream < length streams.old.lanes }
        requires layout { streams.old.shape ≡ self.old.shape }
        requires there { count ≤ length self.old.messages }
        requires most { IsMost streams.old.format count }
        requires none_made { streams.old.making ≡ [] }
        requires room { HasRoomFor self.old.shape streams.old.format count (lane streams.old stream) }
        requires countable { IfSome (lane streams.old stream).wire.counted (λ c. c.puts < 2 ^ 63) }
        ensures sent { self.new ≡ (if is_err result then self.old else past count self.old) }
        ensures others { OnlyLane stream streams.old streams.new }
        ensures none_made { streams.new.making ≡ [] }
        ensures put { PutsGroup streams.old.format (take count (joined_messages self.old.messages self.old.contents)) (is_err result) (lane streams.old stream) (lane streams.new stream) }
    {
        match put_batch(streams, stream, &self.outbox, count) {
            Ok(()) => {
                take_off(&mut self.outbox, &mut self.credit, count);
                Ok(())
            }
            Err(_) => Err(Failed),
        }
    }
}

/// The answer where messages were sent, of which this is the first.
fn told_of(format: u8, count: u32, first: UnitHead) -> Turn
    ensures { result ≡ told_of format count first }
{
    if format == SINGLE_FORMAT {
        Turn::Done(Note {
            a: first.unit.0,
            b: first.version,
        })
    } else {
        Turn::Done(Note {
            a: count,
            b: first.unit.0,
        })
    }
}
