//! The rounds of dirty pages.

ghost use Rattle.std.specs.Prelude.{◌≡◌, ◌<◌, ◌≤◌, ◌+◌, ◌-◌, ◌^◌, ◌==◌, true, false, None, length as list_length, is_err, OnOk, OnErr, IfOk, IfSome};
ghost use Rattle.xv_base.specs.Units.{units, size as unit_size};
ghost use Rattle.xv_device.specs.Device.{ReadRange, range_of};
ghost use Rattle.xv_device.specs.Told.{HasRoomToCount, MayCall, CallMade};
ghost use Rattle.xv_outbox.specs.Messages.{made, message, issued};
ghost use Rattle.xv_model.specs.Job.{Job};
ghost use Rattle.xv_model.specs.View.{View, number, least, members, is_empty_set};
ghost use Rattle.xv_source.specs.Rounds.{with_dirty_taken, SendsPage};
ghost use Rattle.xv_source.specs.Step.{Allows, StepsSource, HasFewVersions, MakesCall, MakesNoCall, unit_read};
ghost use Rattle.xv_source.specs.Waits.{own_wait};
ghost use Rattle.xv_base.specs.declared.event.Event.TheVariants.{Round, Page, Stun};

use crate::source::SourceHalf;
use xv_base::{Cause, Failed, GROUP_FORMAT, Note, Turn, UnitId};
use xv_device::UnitDevice;
use xv_outbox::Outbox;

impl<S: UnitDevice> SourceHalf<S> {
    /// Begins a round of the dirty pages, while the migration runs; `beside` says whether one may begin beside the copy. It
    /// waits where a page of a round is left to send. Once all disks are copied it waits after the last round, and before
    /// where none may begin beside the copy, or no page is dirty.
    pub fn round(&mut self, beside: bool) -> Turn
        requires few { self.old.rounds < 2 ^ 32 - 1 }
        ensures step { (job : Job) (v : View) → Allows job v Round self.old → beside ≡ (job.format == GROUP_FORMAT) → StepsSource job v Round result self.old self.new }
        ensures call { MakesNoCall self.old self.new }
    {
        if let Some(why) = self.round_waits(beside) {
            return Turn::Wait(why);
        }
        let count = self.begin_round(beside);
        Turn::Done(Note { a: count, b: 0 })
    }

    /// Takes the dirty pages into a round, and answers how many they are.
    fn begin_round(&mut self, beside: bool) -> u32
        requires few { self.old.rounds < 2 ^ 32 - 1 }
        requires goes_on { own_wait beside self.old Round ≡ None }
        ensures count { result ≡ members self.old.dirty }
        ensures begun { self.new ≡ record (with_dirty_taken self.old) { rounds = self.old.rounds + 1 } }
    {
        let count = self.take_dirty();
        self.rounds += 1;
        count
    }

    /// Takes the dirty pages to those that are to be sent, of which there is none, and answers how many they are.
    fn take_dirty(&mut self) -> u32
        requires { is_empty_set self.old.to_send ≡ true }
        ensures count { result ≡ members self.old.dirty }
        ensures taken { self.new ≡ with_dirty_taken self.old }
    {
        let count = self.dirty.count();
        self.dirty.take_into(&mut self.to_send);
        count
    }

    /// Stops the guest, while the migration runs: what is dirty is to be sent, and no more becomes dirty. It waits where a
    /// disk is not copied, a write waits, a page of a round is left to send, or no round has begun, and where too many
    /// pages are dirty and a further round may begin.
    pub fn stun(&mut self) -> Turn
        ensures step { (job : Job) (v : View) → Allows job v Stun self.old → StepsSource job v Stun result self.old self.new }
        ensures call { MakesNoCall self.old self.new }
    {
        if let Some(why) = self.stun_waits() {
            return Turn::Wait(why);
        }
        let left = self.take_dirty();
        Turn::Done(Note { a: left, b: 0 })
    }

    /// Makes a message of the least page that is to be sent, while messages may move; `length` is that of the history. It
    /// waits where no page is left to send, or there is no room for the message. Failed: the device's read failed, and
    /// the page is left to send.
    pub fn page(&mut self, length: u32) -> Turn
        requires few { HasFewVersions self.old }
        requires countable { HasRoomToCount self.old.told }
        ensures step { (job : Job) (v : View) → Allows job v Page self.old → list_length v.history ≡ length → StepsSource job v Page result self.old self.new }
        ensures call { MakesCall (unit_read self.old.shape (least self.old.to_send)) result self.old self.new }
    {
        if let Some(why) = self.page_waits() {
            return Turn::Wait(why);
        }
        let page = self.least_page();
        match self.send_page(page, length) {
            Ok(version) => Turn::Done(Note {
                a: page,
                b: version,
            }),
            Err(Failed) => Turn::Failed(Cause::SourceRead),
        }
    }

    /// The least page that is to be sent.
    fn least_page(&self) -> u32
        requires { own_wait false self.now Page ≡ None }
        ensures exactly { result ≡ least self.now.to_send }
        ensures page { result < self.now.shape.pages }
    {
        match self.to_send.least() {
            Some(page) => page,
            None => unreachable!(),
        }
    }

    /// Reads a page that is to be sent, makes a message of it, and answers its version.
    fn send_page(&mut self, page: u32, at: u32) -> Result<u32, Failed>
        requires page { page < self.old.shape.pages }
        requires goes_on { own_wait false self.old Page ≡ None }
        requires few { HasFewVersions self.old }
        requires countable { HasRoomToCount self.old.told }
        ensures made { CallMade (unit_read self.old.shape page) (is_err result) self.old.told self.new.told self.old.faults self.new.faults }
        ensures version { IfOk result (λ version. version ≡ number self.old.issued page + 1) }
        ensures sent { OnOk result (SendsPage self.old page at self.new) }
        ensures failed { OnErr result (self.new ≡ record self.old { told = self.new.told; faults = self.new.faults }) }
    {
        let size = self.layout.page_size();
        let unit = UnitId(page);
        match issue_read(
            &mut self.outbox,
            &mut self.device,
            unit,
            at,
            size,
            &mut self.unit,
        ) {
            Ok(version) => {
                self.to_send.remove(page);
                Ok(version)
            }
            Err(Failed) => Err(Failed),
        }
    }
}

/// Reads a unit of this size into the first bytes of `into`, makes a message of it, and answers its version.
fn issue_read<S: UnitDevice>(
    outbox: &mut Outbox,
    device: &mut S,
    unit: UnitId,
    at: u32,
    size: u32,
    into: &mut [u8],
) -> Result<u32, Failed>
    requires fits { size ≤ list_length into.old }
    requires call { MayCall (ReadRange unit.0 0 size) (S.told device.old) }
    requires unit_in { unit.0 < units outbox.old.shape }
    requires room { list_length outbox.old.messages < outbox.old.limit }
    requires whole { unit_size outbox.old.shape unit.0 ≡ size }
    requires countable { issued outbox.old unit.0 < 2 ^ 32 - 1 }
    ensures made { CallMade (ReadRange unit.0 0 size) (is_err result) (S.told device.old) (S.told device.new) (S.faults device.old) (S.faults device.new) }
    ensures version { IfOk result (λ version. version ≡ issued outbox.old unit.0 + 1) }
    ensures issued { OnOk result (outbox.new ≡ made outbox.old unit.0 at (message outbox.new (list_length outbox.old.messages)).content) }
    ensures gives { OnOk result (IfSome (S.told device.old).contents (λ contents. (message outbox.new (list_length outbox.old.messages)).content ≡ range_of unit.0 0 size contents)) }
    ensures failed { OnErr result (outbox.new ≡ outbox.old) }
{
    match device.read(unit, 0, &mut into[..size as usize]) {
        Ok(()) => Ok(outbox.issue(unit, at, &into[..size as usize])),
        Err(Failed) => Err(Failed),
    }
}
