//! Taking what has come over the streams.

ghost use Rattle.std.specs.Prelude.{◌≡◌, ◌+◌, ◌<◌, ◌++◌, ◌∷◌, [], length, set};
ghost use Rattle.xv_base.specs.Units.{units, size};
ghost use Rattle.xv_base.specs.declared.event.Event.TheVariants.{Deliver};
ghost use Rattle.xv_model.specs.Job.{Job};
ghost use Rattle.xv_model.specs.View.{View, number};
ghost use Rattle.xv_model.specs.Step.{is_flagged};
ghost use Rattle.xv_model.specs.Outstanding.{count, is_version};
ghost use Rattle.xv_model.specs.Contents.{Contents};
ghost use Rattle.xv_streams.specs.Streamed.{lane, first_group};
ghost use Rattle.xv_streams.specs.Fronts.{heads_of, heads_on, contents_on, TakesFront};
ghost use Rattle.xv_dest.specs.Half.{CanTake, HasDestBytes};
ghost use Rattle.xv_dest.specs.Step.{Allows, StepsDest, MovesDest, MakesNoCall};
ghost use Rattle.xv_dest.specs.Arrival.{Arrives, with_group};

use crate::dest::DestHalf;
use xv_base::{Cause, GROUP_FORMAT, Note, SINGLE_FORMAT, Turn, UnitHead, Why};
use xv_device::UnitDevice;
use xv_streams::Streams;
use xv_wire::Wire;

impl<T: UnitDevice> DestHalf<T> {
    /// Takes the front of a stream, whose messages are held from then on, in their order. Waits where nothing is there.
    /// Fails where the take failed; the messages are still on the stream.
    pub fn deliver<W: Wire>(&mut self, stream: u8, streams: &mut Streams<W>) -> Turn
        requires stream_in { stream < length streams.old.lanes }
        requires layout { streams.old.shape ≡ self.old.shape }
        requires may_take { CanTake self.old (heads_of (first_group (lane streams.old stream).groups)) }
        ensures step { (job : Job) (v : View) → Allows job v (Deliver stream) self.old → job.format ≡ streams.old.format → v.streams ≡ heads_on streams.old.lanes → StepsDest job v (Deliver stream) result self.old self.new }
        ensures bytes { (job : Job) (v : View) (c : Contents) → Allows job v (Deliver stream) self.old → v.streams ≡ heads_on streams.old.lanes → c.streams ≡ contents_on streams.old.lanes → HasDestBytes c self.old → MovesDest job v c (Deliver stream) result self.new }
        ensures call { MakesNoCall self.old self.new }
        ensures others { streams.new ≡ record streams.old { lanes = set streams.old.lanes stream (lane streams.new stream); got = streams.new.got } }
        ensures taken { TakesFront self.old.shape (is_flagged result) (lane streams.old stream) (lane streams.new stream) }
    {
        if streams.format() == SINGLE_FORMAT {
            self.deliver_message(stream, streams)
        } else {
            self.deliver_group(stream, streams)
        }
    }

    /// Takes the front of a stream of single messages.
    fn deliver_message<W: Wire>(&mut self, stream: u8, streams: &mut Streams<W>) -> Turn
        requires stream_in { stream < length streams.old.lanes }
        requires layout { streams.old.shape ≡ self.old.shape }
        requires format { streams.old.format ≡ SINGLE_FORMAT }
        requires may_take { CanTake self.old (heads_of (first_group (lane streams.old stream).groups)) }
        ensures arrives { Arrives SINGLE_FORMAT stream result (lane streams.old stream).groups self.old self.new }
        ensures others { streams.new ≡ record streams.old { lanes = set streams.old.lanes stream (lane streams.new stream); got = streams.new.got } }
        ensures taken { TakesFront self.old.shape (is_flagged result) (lane streams.old stream) (lane streams.new stream) }
    {
        // Each group on the stream is of one message.
        let _ = streams.waiting(stream);
        match streams.receive(stream, &mut self.unit) {
            Ok(Some(head)) => {
                let size = self.layout.size(head.unit) as usize;
                self.hold.arrive(head, &self.unit[..size]);
                Turn::Done(Note {
                    a: head.unit.0,
                    b: head.version,
                })
            }
            Ok(None) => Turn::Wait(Why::NothingThere),
            Err(_) => Turn::Failed(Cause::Take(stream)),
        }
    }

    /// Takes the front of a stream of groups.
    fn deliver_group<W: Wire>(&mut self, stream: u8, streams: &mut Streams<W>) -> Turn
        requires stream_in { stream < length streams.old.lanes }
        requires layout { streams.old.shape ≡ self.old.shape }
        requires format { streams.old.format ≡ GROUP_FORMAT }
        requires may_take { CanTake self.old (heads_of (first_group (lane streams.old stream).groups)) }
        ensures arrives { Arrives GROUP_FORMAT stream result (lane streams.old stream).groups self.old self.new }
        ensures others { streams.new ≡ record streams.old { lanes = set streams.old.lanes stream (lane streams.new stream); got = streams.new.got } }
        ensures taken { TakesFront self.old.shape (is_flagged result) (lane streams.old stream) (lane streams.new stream) }
    {
        match streams.receive_group(stream) {
            Ok(count) => {
                if count == 0 {
                    return Turn::Wait(Why::NothingThere);
                }
                self.hold_group(count, streams);
                Turn::Done(Note {
                    a: count,
                    b: streams.got(0).unit.0,
                })
            }
            Err(_) => Turn::Failed(Cause::Take(stream)),
        }
    }

    /// Holds the messages of a group that was received.
    fn hold_group<W: Wire>(&mut self, count: u32, streams: &Streams<W>)
        requires all { count ≡ length streams.now.got }
        requires layout { streams.now.shape ≡ self.old.shape }
        requires may_take { CanTake self.old (heads_of streams.now.got) }
        ensures { self.new ≡ with_group self.old streams.now.got }
    {
        for i in 0..count {
            self.hold_message(streams.got(i), streams.got_bytes(i));
        }
    }

    /// Holds a message behind the others.
    fn hold_message(&mut self, head: UnitHead, bytes: &[u8])
        requires unit_in { head.unit.0 < units self.old.shape }
        requires whole { length bytes.now ≡ size self.old.shape head.unit.0 }
        requires room { length self.old.held < self.old.limit }
        requires unwritten { number self.old.applied head.unit.0 < head.version }
        requires not_held { count (is_version head.unit.0 head.version) self.old.held ≡ 0 }
        ensures { self.new ≡ record self.old { held = self.old.held ++ head ∷ []; contents = self.old.contents ++ bytes.now ∷ [] } }
    {
        self.hold.arrive(head, bytes);
    }
}
