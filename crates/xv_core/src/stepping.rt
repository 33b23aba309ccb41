//! One event is one step; and whether an event would happen.

ghost use Rattle.std.specs.Prelude.{◌≡◌, true, false, is_none};
ghost use Rattle.xv_model.specs.Wait.{wait, fits};
ghost use Rattle.xv_job.specs.Written.{job_of};
ghost use Rattle.xv_core.specs.Seen.{view_of};
ghost use Rattle.xv_core.specs.Stepped.{IsStep};

use crate::migration::Migration;
use xv_base::{Event, Turn, Why};
use xv_device::UnitDevice;
use xv_wire::Wire;

impl<S: UnitDevice, T: UnitDevice, W: Wire> Migration<S, T, W> {
    /// One event. It waits, and nothing has changed; or it happens, by at most one call of a device or a wire, and the
    /// journal has one entry more. It takes no memory.
    pub fn step(&mut self, event: Event) -> Turn
        requires { fits (job_of self.old.job) event ≡ true }
        ensures { IsStep self.old event result self.new }
    {
        match event {
            Event::Guest(guest) => self.guest(guest),
            Event::Begin(disk) => self.begin(disk),
            Event::Read(disk) => self.read(disk),
            Event::Advance(disk) => self.advance(disk),
            Event::Release(disk) => self.release(disk),
            Event::Round => self.round(),
            Event::Page => self.page(),
            Event::Send(stream) => self.send(stream),
            Event::Deliver(stream) => self.deliver(stream),
            Event::Apply => self.apply(),
            Event::Ack => self.ack(),
            Event::Credit => self.credit(),
            Event::Stun => self.stun(),
            Event::Switch => self.switch(),
            Event::Cancel => self.cancel(),
        }
    }

    /// Whether an event would happen now: it would wait for nothing, if no call on the outside failed.
    pub fn can(&self, event: Event) -> bool
        requires { fits (job_of self.now.job) event ≡ true }
        ensures { result ≡ is_none (wait (job_of self.now.job) (view_of self.now) event false) }
    {
        self.waits(event).is_none()
    }

    /// What an event would wait for now.
    fn waits(&self, event: Event) -> Option<Why>
        requires { fits (job_of self.now.job) event ≡ true }
        ensures { result ≡ wait (job_of self.now.job) (view_of self.now) event false }
    {
        match event {
            Event::Guest(guest) => self.guest_wait(guest),
            Event::Release(disk) => self.release_wait(disk),
            Event::Send(stream) => self.send_wait(stream),
            Event::Deliver(stream) => self.deliver_wait(stream),
            Event::Apply => self.apply_wait(),
            Event::Ack => self.ack_wait(),
            Event::Credit => self.credit_wait(),
            Event::Switch => self.switch_wait(),
            Event::Begin(_)
            | Event::Read(_)
            | Event::Advance(_)
            | Event::Round
            | Event::Page
            | Event::Stun
            | Event::Cancel => self.own_wait(event),
        }
    }
}
