//! The messages that were made and not sent yet.

ghost use Rattle.std.specs.Prelude.{◌≡◌, ◌+◌, ◌-◌, ◌<◌, ◌≤◌, ◌^◌, ◌↔◌, [], length, IfOk, IfSome, IsSome, IsNone, if◌then◌else◌, ◌==◌};
ghost use Rattle.xv_base.specs.Units.{units, size};
ghost use Rattle.xv_outbox.specs.Messages.{fresh, made, taken, message, issued, count, room};
ghost use Rattle.xv_outbox.specs.Places.{entry};

use circular_buffer::HeapCircularBuffer;
use std::alloc::Global;
use std::marker::Model;
use xv_base::{Layout, NoMemory, UnitHead, UnitId};
use xv_slots::Slots;

/// A message that waits to be sent, and the slot that its content lies in.
#[derive(Clone, Copy)]
struct Queued {
    head: UnitHead,
    slot: u32,
}

/// Messages in the order in which they were made, at most as many as the limit, with their contents; and for each
/// unit how many versions were issued.
#[derive(Drop)]
pub struct Outbox {
    layout: Layout,
    limit: u32,
    queue: HeapCircularBuffer<Queued>,
    /// Each message's content; the slots are filled in turn.
    contents: Slots,
    /// The slot of the next message's content.
    next: u32,
    issued: Vec<u32>,
    /// How many messages of each unit there are.
    counts: Vec<u32>,
}

impl Model for Outbox {
    ghost use Rattle.xv_outbox.specs.Messages.{Outbox};

    ghost Value = { Outbox };

    ghost use Rattle.xv_outbox.specs.Places.{messages_of, IsLaid, IsCounted};

    ghost view = { λ o. record {
      shape = o.layout;
      limit = o.limit;
      messages = messages_of o.layout o.contents o.queue.items;
      issued = o.issued.items;
    } };

    ghost invariant = { λ o. IsLaid o.layout o.limit o.queue.items o.queue.capacity o.contents o.next o.issued.items × IsCounted o.layout o.queue.items o.counts.items };
}

impl Outbox {
    /// An outbox without messages, of this limit, for units of this layout. All memory is taken here.
    pub fn new(alloc: Global, limit: u32, layout: &Layout) -> Result<Outbox, NoMemory>
        ensures { IfOk result (λ outbox. outbox ≡ fresh layout.now limit) }
    {
        let Ok(queue) = HeapCircularBuffer::with_capacity(alloc, limit as usize) else {
            return Err(NoMemory);
        };
        let Ok(issued) = Vec::from_elem(alloc, 0, layout.units() as usize) else {
            return Err(NoMemory);
        };
        let Ok(counts) = Vec::from_elem(alloc, 0, layout.units() as usize) else {
            return Err(NoMemory);
        };
        let contents = Slots::new(alloc, limit, layout.max_size())?;
        Ok(Outbox {
            layout: *layout,
            limit,
            queue,
            contents,
            next: 0,
            issued,
            counts,
        })
    }

    /// How many messages there is room for.
    pub fn room(&self) -> u32
        ensures exactly { result ≡ room self.now }
        ensures within { length self.now.messages ≤ self.now.limit }
    {
        self.limit - self.queue.len() as u32
    }

    /// Appends a message of the unit's next version with this content, and answers the version.
    pub fn issue(&mut self, unit: UnitId, at: u32, bytes: &[u8]) -> u32
        requires unit_in { unit.0 < units self.old.shape }
        requires room { length self.old.messages < self.old.limit }
        requires whole { length bytes.now ≡ size self.old.shape unit.0 }
        requires countable { issued self.old unit.0 < 2 ^ 32 - 1 }
        ensures version { result ≡ issued self.old unit.0 + 1 }
        ensures after { self.new ≡ made self.old unit.0 at bytes.now }
    {
        let slot = self.next;
        let version = self.issued[unit.0 as usize] + 1;
        let head = UnitHead {
            unit,
            version,
            at: u64::from(at),
        };
        self.contents.put(slot, bytes);
        match self.queue.try_push_back(Queued { head, slot }) {
            Ok(()) => {}
            Err(_) => unreachable!(),
        }
        self.issued[unit.0 as usize] = version;
        self.counts[unit.0 as usize] += 1;
        self.next = following(slot, self.limit);
        version
    }

    /// The message at the front; none exactly where there is no message.
    pub fn front(&self) -> Option<UnitHead>
        ensures some { IsSome result ↔ (0 < length self.now.messages) }
        ensures none { IsNone result ↔ (self.now.messages ≡ []) }
        ensures exactly { IfSome result (λ head. head ≡ (message self.now 0).head) }
        ensures in_range { IfSome result (λ head. head.unit.0 < units self.now.shape) }
    {
        self.queue.front().map(|queued| queued.head)
    }

    /// The content of the message at the front.
    pub fn front_bytes(&self) -> &[u8]
        requires { 0 < length self.now.messages }
        ensures exactly { result.now ≡ (message self.now 0).content }
        ensures whole { length result.now ≡ size self.now.shape (message self.now 0).head.unit.0 }
    {
        self.nth_bytes(0)
    }

    /// Takes the front away.
    pub fn take(&mut self)
        requires { 0 < length self.old.messages }
        ensures { self.new ≡ taken self.old }
    {
        let Some(queued) = self.queue.pop_front() else {
            unreachable!()
        };
        self.counts[queued.head.unit.0 as usize] -= 1;
    }

    /// The message at this place from the front.
    pub fn nth(&self, i: u32) -> UnitHead
        requires { i < length self.now.messages }
        ensures exactly { result ≡ (message self.now i).head }
        ensures in_range { result.unit.0 < units self.now.shape }
    {
        entry(&self.queue, i).head
    }

    /// The content of the message at this place from the front.
    pub fn nth_bytes(&self, i: u32) -> &[u8]
        requires { i < length self.now.messages }
        ensures exactly { result.now ≡ (message self.now i).content }
        ensures whole { length result.now ≡ size self.now.shape (message self.now i).head.unit.0 }
    {
        let Queued { head, slot } = entry(&self.queue, i);
        self.contents.part(slot, self.layout.size(head.unit))
    }

    /// How many versions of a unit were issued.
    pub fn issued(&self, unit: UnitId) -> u32
        requires { unit.0 < units self.now.shape }
        ensures { result ≡ issued self.now unit.0 }
    {
        self.issued[unit.0 as usize]
    }

    /// How many messages of a unit there are.
    pub fn count(&self, unit: UnitId) -> u32
        ensures { result ≡ count self.now unit.0 }
    {
        match self.counts.get(unit.0 as usize) {
            Some(count) => *count,
            None => 0,
        }
    }
}

/// The entry at this place from the front.
fn entry(queue: &HeapCircularBuffer<Queued>, i: u32) -> Queued
    requires { i < length queue.now.items }
    ensures { result ≡ entry queue.now.items i }
{
    match queue.get(i as usize) {
        Some(queued) => *queued,
        None => unreachable!(),
    }
}

/// The slot after this one, round a row of so many.
fn following(slot: u32, count: u32) -> u32
    requires { slot < count }
    ensures { result ≡ (if slot + 1 == count then 0 else slot + 1) }
{
    if slot + 1 == count { 0 } else { slot + 1 }
}
