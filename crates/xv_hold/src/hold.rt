//! The messages that were delivered and not written yet.

ghost use Rattle.std.specs.Prelude.{◌≡◌, ◌+◌, ◌<◌, ◌≤◌, length, Some, None, IfOk, IfSome, vec_capacity};
ghost use Rattle.std.specs.List.{range_with_len};
ghost use Rattle.xv_base.specs.Units.{units, size};
ghost use Rattle.xv_hold.specs.Messages.{fresh, arrived, written, version, at, count, copies, last_slot, ready_slot, ready_message};
ghost use Rattle.xv_hold.specs.Chains.{IsWalkable, IsEnd, IsLastBelow, is_below, end_with, end_without};
ghost use Rattle.xv_hold.specs.Kept.{ready_after, with_next};

use crate::ready::ReadySlots;
use std::alloc::Global;
use std::marker::Model;
use xv_base::{Layout, NoMemory, UnitHead, UnitId};
use xv_slots::Slots;

/// A message without its content, and the number by which it arrived.
#[derive(Clone, Copy)]
struct Held {
    head: UnitHead,
    arrival: u64,
}

/// Messages in order of arrival, at most as many as the limit, with their contents; and for each unit the version
/// that was written last, and its `at`.
///
/// A message lies in a slot, in no order. The messages of a unit are a chain with rising versions: a link leads from
/// the unit to its first, and one from each message to the next; its last is known. A slot is ready where its message
/// is its unit's next version, which only the first of a chain can be. So a message that arrives is put behind its
/// chain's last, or, where a greater version came before it, into the chain by a walk along the smaller ones; one that
/// is written shows which comes next; and the rest is one path of the ready slots' tournament.
#[derive(Drop)]
pub struct Hold {
    layout: Layout,
    limit: u32,
    slots: Vec<Option<Held>>,
    /// Each slot's link, and after those each unit's.
    links: Vec<Option<u32>>,
    /// Each unit's last slot.
    ends: Vec<Option<u32>>,
    contents: Slots,
    ready: ReadySlots,
    /// The slots that hold nothing.
    free: Vec<u32>,
    applied: Vec<u32>,
    recorded: Vec<u64>,
    /// How many messages of each unit are held.
    counts: Vec<u32>,
    /// How many messages have arrived. Each had a version of its own, so the number cannot run over.
    arrivals: u64,
}

impl Model for Hold {
    ghost use Rattle.xv_hold.specs.Messages.{Hold};

    ghost Value = { Hold };

    ghost use Rattle.std.specs.Prelude.{◌≤◌, vec_capacity};
    ghost use Rattle.xv_hold.specs.Kept.{seen_of, IsKept};
    ghost use Rattle.xv_hold.specs.Fields.{state_of};

    ghost view = { λ h. seen_of (state_of h) };

    ghost invariant = { λ h. IsKept (state_of h) × (h.limit ≤ vec_capacity h.free) };
}

impl Hold {
    /// A hold without messages, of this limit, for units of this layout. All memory is taken here.
    pub fn new(alloc: Global, limit: u32, layout: &Layout) -> Result<Hold, NoMemory>
        ensures { IfOk result (λ hold. hold ≡ fresh layout.now limit) }
    {
        let units = layout.units() as usize;
        let Ok(slots) = Vec::from_elem(alloc, None, limit as usize) else {
            return Err(NoMemory);
        };
        let Ok(links) = Vec::from_elem(alloc, None, limit as usize + units) else {
            return Err(NoMemory);
        };
        let Ok(ends) = Vec::from_elem(alloc, None, units) else {
            return Err(NoMemory);
        };
        let Ok(applied) = Vec::from_elem(alloc, 0, units) else {
            return Err(NoMemory);
        };
        let Ok(recorded) = Vec::from_elem(alloc, 0, units) else {
            return Err(NoMemory);
        };
        let Ok(counts) = Vec::from_elem(alloc, 0, units) else {
            return Err(NoMemory);
        };
        let free = all_slots(alloc, limit)?;
        let contents = Slots::new(alloc, limit, layout.max_size())?;
        let ready = ReadySlots::new(alloc, limit)?;
        Ok(Hold {
            layout: *layout,
            limit,
            slots,
            links,
            ends,
            contents,
            ready,
            free,
            applied,
            recorded,
            counts,
            arrivals: 0,
        })
    }

    /// Puts a message behind those that are held. Its version is not written yet and not held.
    pub fn arrive(&mut self, head: UnitHead, bytes: &[u8])
        requires unit_in { head.unit.0 < units self.old.shape }
        requires whole { length bytes.now ≡ size self.old.shape head.unit.0 }
        requires room { length self.old.messages < self.old.limit }
        requires unwritten { version self.old head.unit.0 < head.version }
        requires not_held { copies self.old head.unit.0 head.version ≡ 0 }
        ensures { self.new ≡ arrived self.old (last_slot self.new) head bytes.now }
    {
        let Some(slot) = self.free.pop() else {
            unreachable!()
        };
        let place = slot as usize;
        let unit = head.unit.0 as usize;
        let held = Held {
            head,
            arrival: self.arrivals,
        };
        let end = self.ends[unit];
        let before = link_below(&self.slots, &self.links, end, head);
        let next = self.links[before];
        self.links[place] = next;
        self.links[before] = Some(slot);
        self.ends[unit] = end_with(slot, next, end);
        self.slots[place] = Some(held);
        self.contents.put(slot, bytes);
        let version = self.applied[unit];
        self.ready.set(slot, ready_after(&Some(held), version));
        self.counts[unit] += 1;
        self.arrivals += 1;
    }

    /// The slot of the first message, in order of arrival, whose version is its unit's next; none exactly where no
    /// message is its unit's next.
    pub fn ready(&self) -> Option<u32>
        ensures { result ≡ ready_slot self.now }
    {
        self.ready.first()
    }

    /// The message in the slot that is ready.
    pub fn head(&self, slot: u32) -> UnitHead
        requires { ready_slot self.now ≡ Some slot }
        ensures exactly { result ≡ (ready_message self.now).head }
        ensures in_range { result.unit.0 < units self.now.shape }
        ensures next { result.version ≡ version self.now result.unit.0 + 1 }
    {
        match self.slots[slot as usize] {
            Some(held) => held.head,
            None => unreachable!(),
        }
    }

    /// The content of the message in the slot that is ready.
    pub fn bytes(&self, slot: u32) -> &[u8]
        requires { ready_slot self.now ≡ Some slot }
        ensures exactly { result.now ≡ (ready_message self.now).content }
        ensures whole { length result.now ≡ size self.now.shape (ready_message self.now).head.unit.0 }
    {
        let UnitHead { unit, .. } = self.head(slot);
        self.contents.part(slot, self.layout.size(unit))
    }

    /// Takes out the message in the slot that is ready, which was written: its version is its unit's last.
    pub fn applied(&mut self, slot: u32)
        requires { ready_slot self.old ≡ Some slot }
        ensures { self.new ≡ written self.old }
    {
        let UnitHead { unit, version, at } = self.head(slot);
        let place = slot as usize;
        let next = self.links[place];
        let first = self.limit as usize + unit.0 as usize;
        self.links[first] = next;
        self.ends[unit.0 as usize] = end_without(next, self.ends[unit.0 as usize]);
        self.slots[place] = None;
        match self.free.push(slot) {
            Ok(()) => {}
            Err(_) => unreachable!(),
        }
        self.applied[unit.0 as usize] = version;
        self.recorded[unit.0 as usize] = at;
        self.counts[unit.0 as usize] -= 1;
        self.ready.set(slot, None);
        make_ready(&mut self.ready, &self.slots, next, version);
    }

    /// The version of a unit that was written last, 0 where none was.
    pub fn version(&self, unit: UnitId) -> u32
        requires { unit.0 < units self.now.shape }
        ensures { result ≡ version self.now unit.0 }
    {
        self.applied[unit.0 as usize]
    }

    /// The `at` of the version of a unit that was written last.
    pub fn at(&self, unit: UnitId) -> u64
        requires unit_in { unit.0 < units self.now.shape }
        requires some { 1 ≤ version self.now unit.0 }
        ensures { result ≡ at self.now unit.0 }
    {
        self.recorded[unit.0 as usize]
    }

    /// How many messages of a unit are held.
    pub fn count(&self, unit: UnitId) -> u32
        ensures { result ≡ count self.now unit.0 }
    {
        match self.counts.get(unit.0 as usize) {
            Some(count) => *count,
            None => 0,
        }
    }
}

/// The slots up to a number, in a vector that has room for them.
fn all_slots(alloc: Global, count: u32) -> Result<Vec<u32>, NoMemory>
    ensures all { IfOk result (λ slots. slots.items ≡ range_with_len 0 count) }
    ensures room { IfOk result (λ slots. count ≤ vec_capacity slots) }
{
    let Ok(mut slots) = Vec::with_capacity(alloc, count as usize) else {
        return Err(NoMemory);
    };
    for slot in 0..count {
        let Ok(()) = slots.push(slot) else {
            return Err(NoMemory);
        };
    }
    Ok(slots)
}

/// The number by which a slot is ready once this version of its message's unit was written. One more than the
/// greatest version is no version, so they are compared as wider numbers.
fn ready_after(slot: &Option<Held>, version: u32) -> Option<u64>
    ensures { result ≡ ready_after version slot.now }
{
    match slot {
        Some(held) if u64::from(held.head.version) == u64::from(version) + 1 => Some(held.arrival),
        Some(_) => None,
        None => None,
    }
}

/// Makes the slot that comes next in a chain ready where its message is the version after this one.
fn make_ready(ready: &mut ReadySlots, slots: &[Option<Held>], next: Option<u32>, version: u32)
    requires { IfSome next (λ slot. (slot < length slots.now) × (slot < length ready.old)) }
    ensures { ready.new ≡ with_next slots.now next version ready.old }
{
    match next {
        Some(slot) => ready.set(slot, ready_after(&slots[slot as usize], version)),
        None => {}
    }
}

/// The last slot of a chain in which a slot was put before `next`.
fn end_with(slot: u32, next: Option<u32>, end: Option<u32>) -> Option<u32>
    ensures { result ≡ end_with slot next end }
{
    match next {
        None => Some(slot),
        Some(_) => end,
    }
}

/// The last slot of a chain of which the first was taken out, before `next`.
fn end_without(next: Option<u32>, end: Option<u32>) -> Option<u32>
    ensures { result ≡ end_without next end }
{
    match next {
        None => None,
        Some(_) => end,
    }
}

/// Whether a slot holds a message below a version.
fn is_below(slot: &Option<Held>, version: u32) -> bool
    ensures { result ≡ is_below version slot.now }
{
    match slot {
        Some(held) => held.head.version < version,
        None => false,
    }
}

/// The link behind which a message goes in its unit's chain: that of the last message below it, or the unit's own.
/// That is most often the chain's last.
fn link_below(
    slots: &[Option<Held>],
    links: &[Option<u32>],
    end: Option<u32>,
    head: UnitHead,
) -> usize
    requires walkable { IsWalkable slots.now links.now head.unit.0 }
    requires end { IsEnd slots.now links.now head.unit.0 end }
    ensures { IsLastBelow slots.now links.now head.unit.0 head.version result }
{
    match end {
        Some(end) if is_below(&slots[end as usize], head.version) => end as usize,
        Some(_) => walk_below(slots, links, head),
        None => walk_below(slots, links, head),
    }
}

/// The same, found by a walk from the chain's first message on.
fn walk_below(slots: &[Option<Held>], links: &[Option<u32>], head: UnitHead) -> usize
    requires { IsWalkable slots.now links.now head.unit.0 }
    ensures { IsLastBelow slots.now links.now head.unit.0 head.version result }
{
    let mut at = slots.len() + head.unit.0 as usize;
    while let Some(next) = links[at] {
        if !is_below(&slots[next as usize], head.version) {
            return at;
        }
        at = next as usize;
    }
    at
}
