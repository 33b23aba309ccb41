//! The source's half of a migration, and what may be asked of it.

ghost use Rattle.std.specs.Prelude.{◌≡◌, ◌≤◌, ◌<◌, ◌-◌, true, false, IfOk, IfErr, length, slice_get, get_or, if◌then◌else◌};
ghost use Rattle.xv_base.specs.Units.{units};
ghost use Rattle.xv_model.specs.Job.{Job};
ghost use Rattle.xv_model.specs.View.{View, no_disk, number, in_queue, side};
ghost use Rattle.xv_model.specs.Wait.{may_switch};
ghost use Rattle.xv_source.specs.Half.{IsSourceOf, unsent};
ghost use Rattle.xv_source.specs.Waits.{plain_job, plain_view};
ghost use Rattle.xv_source.specs.Limits.{AreLimits, fresh};

use crate::disk::DiskCopy;
use crate::parts::Parts;
use std::alloc::Global;
use std::marker::Model;
use xv_base::{Config, GuestId, Layout, MOST_GUESTS, Side, UnitId, Waiting};
use xv_credit::Credit;
use xv_device::UnitDevice;
use xv_dirty::DirtySet;
use xv_outbox::Outbox;

/// The source's half of a migration over a device.
#[derive(Drop)]
pub struct SourceHalf<S: UnitDevice> {
    pub(crate) layout: Layout,
    pub(crate) config: Config,
    pub(crate) device: S,
    pub(crate) disks: Vec<DiskCopy>,
    pub(crate) dirty: DirtySet,
    pub(crate) to_send: DirtySet,
    pub(crate) rounds: u32,
    pub(crate) outbox: Outbox,
    pub(crate) credit: Credit,
    /// The bytes of one unit on their way from or to the device.
    pub(crate) unit: Vec<u8>,
}

impl<S: UnitDevice> Model for SourceHalf<S> {
    ghost use Rattle.xv_source.specs.Half.{Source};
    ghost use Rattle.xv_source.specs.Kept.{source_of, IsKept};

    ghost Value = { Source };

    ghost view = { λ h. source_of h.layout h.config (S.told h.device) (S.faults h.device) h.disks.items h.dirty h.to_send h.rounds h.outbox h.credit };

    ghost invariant = { λ h. IsKept h.layout h.config (S.told h.device) h.disks.items h.dirty h.to_send h.outbox h.credit h.unit.items };
}

impl<S: UnitDevice> SourceHalf<S> {
    /// The source's half of a migration over this device, in which nothing has happened. All memory that it needs is taken
    /// here; there are at most 16 guests.
    /// Errors: want of memory, with the device as it was.
    pub fn new(
        alloc: Global,
        layout: &Layout,
        config: &Config,
        guests: u8,
        device: S,
    ) -> Result<SourceHalf<S>, S>
        requires layout { (S.told device).shape ≡ layout.now }
        requires limits { AreLimits config.now }
        requires few { guests ≤ MOST_GUESTS }
        ensures half { IfOk result (λ half. half ≡ fresh layout.now config.now (S.told device) (S.faults device)) }
        ensures back { IfErr result (λ back. back ≡ device) }
    {
        let Some(parts) = Parts::new(alloc, layout, config) else {
            return Err(device);
        };
        let Parts {
            disks,
            dirty,
            to_send,
            outbox,
            unit,
        } = parts;
        Ok(SourceHalf {
            layout: *layout,
            config: *config,
            device,
            disks,
            dirty,
            to_send,
            rounds: 0,
            outbox,
            credit: Credit::new(config.credit),
            unit,
        })
    }

    /// The device.
    pub fn device(&self) -> &S
        ensures told { S.told result.now ≡ self.now.told }
        ensures faults { S.faults result.now ≡ self.now.faults }
    {
        &self.device
    }

    /// The device as it is.
    pub fn into_device(self) -> S
        ensures told { S.told result ≡ self.told }
        ensures faults { S.faults result ≡ self.faults }
    {
        self.device
    }

    /// Where a unit stands: a block against the copy of its disk, a page against the rounds.
    pub fn side(&self, unit: UnitId) -> Side
        requires { unit.0 < units self.now.shape }
        ensures { (job : Job) (v : View) → IsSourceOf job v self.now → result ≡ side job v unit.0 }
    {
        self.own_side(unit)
    }

    /// The same, as the half alone knows it.
    fn own_side(&self, unit: UnitId) -> Side
        requires { unit.0 < units self.now.shape }
        ensures { result ≡ side (plain_job false self.now) (plain_view self.now) unit.0 }
    {
        if self.layout.is_page(unit) {
            return page_side(self.dirty.contains(unit.0), self.to_send.contains(unit.0));
        }
        let copy = self.copy(self.layout.disk_of(unit));
        copy.side(self.layout.block_of(unit))
    }

    /// How many versions of a unit were made.
    pub fn issued(&self, unit: UnitId) -> u32
        requires { unit.0 < units self.now.shape }
        ensures { result ≡ number self.now.issued unit.0 }
    {
        self.outbox.issued(unit)
    }

    /// How many messages of a unit are made and not sent.
    pub fn outbox(&self, unit: UnitId) -> u32
        ensures { result ≡ unsent self.now unit.0 }
    {
        self.outbox.count(unit)
    }

    /// How many blocks of a disk are behind.
    pub fn cursor(&self, disk: u8) -> u32
        requires { disk < length self.now.disks }
        ensures { result ≡ (get_or self.now.disks disk no_disk).cursor }
    {
        self.disks[disk as usize].region.cursor()
    }

    /// How many rounds were begun.
    pub fn rounds(&self) -> u32
        ensures { result ≡ self.now.rounds }
    {
        self.rounds
    }

    /// How much credit is left.
    pub fn left(&self) -> u32
        ensures { result ≡ self.now.credit }
    {
        self.credit.left()
    }

    /// Whether a guest waits in a queue.
    pub fn queued(&self, guest: GuestId) -> bool
        ensures { result ≡ in_queue self.now.disks guest.0 }
    {
        for disk in 0..self.layout.disks() {
            if self.copy(disk).holds(guest) {
                return true;
            }
        }
        false
    }

    /// The first that waits in a disk's queue, or none where nobody waits.
    pub fn front(&self, disk: u8) -> Option<Waiting>
        requires { disk < length self.now.disks }
        ensures { result ≡ slice_get (get_or self.now.disks disk no_disk).queue 0 }
    {
        self.copy(disk).queue.front()
    }

    /// Whether nothing is left to send, and all credit is there.
    pub fn may_switch(&self) -> bool
        ensures { (job : Job) (v : View) → IsSourceOf job v self.now → result ≡ may_switch job v }
    {
        self.is_all_sent()
    }

    /// The same, as the half alone knows it.
    fn is_all_sent(&self) -> bool
        ensures { result ≡ may_switch (plain_job false self.now) (plain_view self.now) }
    {
        let is_empty = self.outbox.front().is_none();
        self.is_round_sent() && is_empty && self.config.credit <= self.credit.left()
    }
}

/// The side of a page that is dirty or not, and to be sent in the round or not.
fn page_side(is_dirty: bool, is_to_send: bool) -> Side
    ensures { result ≡ (if is_dirty then Side.Dirty else (if is_to_send then Side.Waiting else Side.Clean)) }
{
    if is_dirty {
        Side::Dirty
    } else if is_to_send {
        Side::Waiting
    } else {
        Side::Clean
    }
}
