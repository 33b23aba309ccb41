//! What the half's own calls wait for.

ghost use Rattle.std.specs.Prelude.{◌≡◌, ◌<◌, ◌&&◌, ◌||◌, ◌==◌, not, nat_lt, nat_le, true, false, length, map, IfSome, if◌then◌else◌};
ghost use Rattle.xv_model.specs.Job.{Job};
ghost use Rattle.xv_model.specs.View.{View, is_empty_set, members, all_copied_by, queues_empty};
ghost use Rattle.xv_model.specs.Wait.{unless, wait, is_full};
ghost use Rattle.xv_source.specs.Half.{IsSourceOf};
ghost use Rattle.xv_source.specs.Step.{Allows, is_of_source};
ghost use Rattle.xv_source.specs.Waits.{own_wait, is_asked, judges};
ghost use Rattle.xv_base.specs.declared.event.Event.TheVariants.{Begin, Read, Advance, Release, Round, Page, Send, Stun};

use crate::source::SourceHalf;
use xv_base::{Event, GROUP_FORMAT, Why};
use xv_device::UnitDevice;

/// Waits for what a condition names where it holds, and else as a later one says.
pub(crate) fn unless(holds: bool, why: Why, later: Option<Why>) -> Option<Why>
    ensures { result ≡ unless holds why later }
{
    if holds { Some(why) } else { later }
}

impl<S: UnitDevice> SourceHalf<S> {
    /// What the half's own call of an event would wait for now, in the phase that it asks for; `beside` says whether a
    /// round may begin beside the copy.
    pub fn waits(&self, event: Event, beside: bool) -> Option<Why>
        requires { is_of_source (length self.now.disks) event ≡ true }
        ensures exactly { (job : Job) (v : View) → Allows job v event self.now → is_asked v.phase event ≡ true → beside ≡ (job.format == GROUP_FORMAT) → result ≡ wait job v event false }
        ensures own { IfSome result (λ why. judges event why ≡ true) }
    {
        self.own_waits(event, beside)
    }

    /// The same, as the half alone knows it.
    fn own_waits(&self, event: Event, beside: bool) -> Option<Why>
        requires { is_of_source (length self.now.disks) event ≡ true }
        ensures { result ≡ own_wait beside self.now event }
    {
        match event {
            Event::Begin(disk) => self.begin_waits(disk),
            Event::Read(disk) => self.read_waits(disk),
            Event::Advance(disk) => self.advance_waits(disk),
            Event::Release(disk) => self.release_waits(disk),
            Event::Round => self.round_waits(beside),
            Event::Page => self.page_waits(),
            Event::Send(stream) => self.send_waits(stream),
            Event::Stun => self.stun_waits(),
            Event::Guest(_)
            | Event::Deliver(_)
            | Event::Apply
            | Event::Ack
            | Event::Credit
            | Event::Switch
            | Event::Cancel => unreachable!(),
        }
    }

    /// What a region that is to begin waits for.
    pub(crate) fn begin_waits(&self, disk: u8) -> Option<Why>
        requires { disk < length self.now.disks }
        ensures { result ≡ own_wait false self.now (Begin disk) }
    {
        let copy = self.copy(disk);
        let is_copied = copy.is_copied(self.layout.blocks(disk));
        let is_busy = is_copied || copy.region.length() != 0 || !copy.is_free();
        unless(is_busy, Why::NotNow, None)
    }

    /// What the reading of a disk's next block waits for.
    pub(crate) fn read_waits(&self, disk: u8) -> Option<Why>
        requires { disk < length self.now.disks }
        ensures { result ≡ own_wait false self.now (Read disk) }
    {
        let copy = self.copy(disk);
        unless(
            copy.region.length() <= copy.region.read(),
            Why::NotNow,
            None,
        )
    }

    /// What a region waits for until its messages may be made.
    pub(crate) fn advance_waits(&self, disk: u8) -> Option<Why>
        requires { disk < length self.now.disks }
        ensures { result ≡ own_wait false self.now (Advance disk) }
    {
        let copy = self.copy(disk);
        let length = copy.region.length();
        let is_unread = length == 0 || copy.region.read() < length;
        let is_full = self.outbox.room() < length;
        unless(
            is_unread,
            Why::NotNow,
            unless(is_full, Why::Throttled, None),
        )
    }

    /// What the release of the write at a queue's front waits for.
    pub(crate) fn release_waits(&self, disk: u8) -> Option<Why>
        requires { disk < length self.now.disks }
        ensures { result ≡ own_wait false self.now (Release disk) }
    {
        let copy = self.copy(disk);
        match copy.queue.front() {
            Some(front) => {
                let is_inside = copy.is_inside(self.layout.block_of(front.unit));
                let throttled = unless(self.is_full(), Why::Throttled, None);
                unless(is_inside, Why::NotNow, throttled)
            }
            None => Some(Why::NothingThere),
        }
    }

    /// What a round of pages waits for, which may begin beside the copy or may not.
    pub(crate) fn round_waits(&self, beside: bool) -> Option<Why>
        ensures { result ≡ own_wait beside self.now Round }
    {
        let may_begin = self.is_round_sent() && self.is_round_due(beside);
        unless(!may_begin, Why::NotNow, None)
    }

    /// Whether a round is due: one of those that there may be once all disks are copied, and beside the copy as soon as
    /// a page is dirty.
    fn is_round_due(&self, beside: bool) -> bool
        ensures { result ≡ (if all_copied_by (map (λ s. s.blocks) self.now.shape.disks) self.now.disks then nat_lt self.now.rounds self.now.config.rounds else (beside && not (is_empty_set self.now.dirty))) }
    {
        if self.all_copied() {
            self.rounds < self.config.rounds
        } else {
            beside && !self.is_clean()
        }
    }

    /// What the sending off of a page waits for.
    pub(crate) fn page_waits(&self) -> Option<Why>
        ensures { result ≡ own_wait false self.now Page }
    {
        let throttled = unless(self.is_full(), Why::Throttled, None);
        unless(self.is_round_sent(), Why::NothingThere, throttled)
    }

    /// What a sending of messages waits for.
    pub(crate) fn send_waits(&self, stream: u8) -> Option<Why>
        ensures { result ≡ own_wait false self.now (Send stream) }
    {
        let has_none = self.credit.left() == 0;
        let is_empty = self.outbox.front().is_none();
        unless(
            is_empty,
            Why::NothingThere,
            unless(has_none, Why::NoCredit, None),
        )
    }

    /// What the stun waits for.
    pub(crate) fn stun_waits(&self) -> Option<Why>
        ensures { result ≡ own_wait false self.now Stun }
    {
        let may_stun = self.is_settled() && self.is_last_due();
        unless(!may_stun, Why::NotNow, None)
    }

    /// Whether all disks are copied, nobody waits, and the round is sent.
    fn is_settled(&self) -> bool
        ensures { result ≡ (all_copied_by (map (λ s. s.blocks) self.now.shape.disks) self.now.disks && queues_empty self.now.disks && is_empty_set self.now.to_send) }
    {
        self.all_copied() && self.all_free() && self.is_round_sent()
    }

    /// Whether what is dirty after some round is little enough, or may be sent in no further round.
    #[tactic(auto, using(crate::proofs::PageSets::members_counted))]
    fn is_last_due(&self) -> bool
        ensures { result ≡ (nat_lt 0 self.now.rounds && (nat_le (members self.now.dirty) self.now.config.dirty || nat_le self.now.config.rounds self.now.rounds)) }
    {
        let is_little = self.dirty.count() <= self.config.dirty;
        self.rounds > 0 && (is_little || self.config.rounds <= self.rounds)
    }

    /// Whether no page is dirty.
    #[tactic(auto, using(crate::proofs::PageSets::none_counted))]
    fn is_clean(&self) -> bool
        ensures { result ≡ is_empty_set self.now.dirty }
    {
        self.dirty.count() == 0
    }

    /// Whether no page of the round is left to send.
    #[tactic(auto, using(crate::proofs::PageSets::none_counted))]
    pub(crate) fn is_round_sent(&self) -> bool
        ensures { result ≡ is_empty_set self.now.to_send }
    {
        self.to_send.count() == 0
    }

    /// Whether there is no room for a message.
    pub fn is_full(&self) -> bool
        ensures exactly { result ≡ nat_le self.now.config.outbox (length self.now.messages) }
        ensures full { (job : Job) (v : View) → IsSourceOf job v self.now → result ≡ is_full job v }
    {
        self.outbox.room() == 0
    }
}
