//! The events that move messages, and the switchover.

ghost use Rattle.std.specs.Prelude.{◌≡◌, ◌<◌};
ghost use Rattle.xv_base.specs.declared.event.Event.TheVariants.{Send, Deliver, Apply, Ack, Credit, Switch};
ghost use Rattle.xv_job.specs.Written.{job_of};
ghost use Rattle.xv_core.specs.Stepped.{IsStep};

use crate::migration::Migration;
use crate::settling::{is_live, settle};
use xv_base::{Event, Phase, Turn, Why};
use xv_device::UnitDevice;
use xv_job::Job;
use xv_wire::Wire;

impl<S: UnitDevice, T: UnitDevice, W: Wire> Migration<S, T, W> {
    /// Messages go from the outbox to a stream.
    pub(crate) fn send(&mut self, stream: u8) -> Turn
        requires { stream < (job_of self.old.job).config.streams }
        ensures { IsStep self.old (Send stream) result self.new }
    {
        if !is_live(self.phase) {
            return Turn::Wait(Why::NotNow);
        }
        // Each message is sent with its content, and what is on the streams is the spellings of messages.
        self.source.pair_contents();
        let most = group_of(&self.job);
        let turn = self.source.send(stream, most, &mut self.streams);
        self.streams.hold_spellings();
        settle(
            &mut self.journal,
            &mut self.phase,
            &mut self.source,
            Event::Send(stream),
            turn,
        )
    }

    /// The front of a stream is held.
    pub(crate) fn deliver(&mut self, stream: u8) -> Turn
        requires { stream < (job_of self.old.job).config.streams }
        ensures { IsStep self.old (Deliver stream) result self.new }
    {
        if !is_live(self.phase) {
            return Turn::Wait(Why::NotNow);
        }
        let turn = self.dest.deliver(stream, &mut self.streams);
        // What is left on the streams is the spellings of messages.
        self.streams.hold_spellings();
        settle(
            &mut self.journal,
            &mut self.phase,
            &mut self.source,
            Event::Deliver(stream),
            turn,
        )
    }

    /// A message that is held is written.
    pub(crate) fn apply(&mut self) -> Turn
        ensures { IsStep self.old Apply result self.new }
    {
        // Where one is ready, fewer than all are written and not acknowledged, so that it can be counted among them.
        if let Some(why) = self.apply_wait() {
            return Turn::Wait(why);
        }
        let turn = self.dest.apply();
        settle(
            &mut self.journal,
            &mut self.phase,
            &mut self.source,
            Event::Apply,
            turn,
        )
    }

    /// What was written is acknowledged.
    pub(crate) fn ack(&mut self) -> Turn
        ensures { IsStep self.old Ack result self.new }
    {
        if !is_live(self.phase) {
            return Turn::Wait(Why::NotNow);
        }
        let turn = self.dest.ack(&mut self.back);
        // All that is on the way back is acknowledgements.
        let _ = self.back.waiting();
        settle(
            &mut self.journal,
            &mut self.phase,
            &mut self.source,
            Event::Ack,
            turn,
        )
    }

    /// What was acknowledged is credit again.
    pub(crate) fn credit(&mut self) -> Turn
        ensures { IsStep self.old Credit result self.new }
    {
        if !is_live(self.phase) {
            return Turn::Wait(Why::NotNow);
        }
        let turn = self.source.credit(&mut self.back);
        // All that is on the way back is acknowledgements.
        let _ = self.back.waiting();
        settle(
            &mut self.journal,
            &mut self.phase,
            &mut self.source,
            Event::Credit,
            turn,
        )
    }

    /// The destination owns the guest from here on, where its flush went well.
    pub(crate) fn switch(&mut self) -> Turn
        ensures { IsStep self.old Switch result self.new }
    {
        if let Some(why) = self.switch_wait() {
            return Turn::Wait(why);
        }
        let turn = self.dest.flush();
        // Where the flush failed, the migration ends in another phase.
        self.phase = Phase::Switched;
        settle(
            &mut self.journal,
            &mut self.phase,
            &mut self.source,
            Event::Switch,
            turn,
        )
    }
}

/// How many messages a job has go together at most.
fn group_of(job: &Job) -> u32
    ensures { result ≡ job.now.group }
{
    job.group
}
