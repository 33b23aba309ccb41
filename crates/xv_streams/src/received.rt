//! The messages of a group that was received.

ghost use Rattle.std.specs.Prelude.{◌≡◌, ◌+◌, ◌<◌, ◌≤◌, [], ◌++◌, length, take, drop, map, replicate, All, IfOk, None, if◌then◌else◌};
ghost use Rattle.xv_base.specs.Units.{max_size};
ghost use Rattle.xv_frame.specs.Frame.{message};
ghost use Rattle.xv_frame.specs.Faults.{entry_fault, entries_fault, group_fault};
ghost use Rattle.xv_frame.specs.Reading.{entry_message, entry_size, front_entries, front_group};
ghost use Rattle.xv_streams.specs.Groups.{Place, Received};
ghost use Rattle.xv_streams.specs.Streamed.{no_message, message_at};

use std::alloc::Global;
use std::marker::Model;
use xv_base::{Layout, MOST_GROUP, NoMemory, UnitHead, UnitId};
use xv_frame::{ENTRY_HEAD_SIZE, HEAD_SIZE, decode_entry, decode_group_head};

/// A message, with its content in a buffer that may have room for more.
#[derive(Drop)]
pub struct Place {
    head: UnitHead,
    size: usize,
    buffer: Vec<u8>,
}

impl Model for Place {
    ghost use Rattle.std.specs.Prelude.{◌≤◌, length, take};
    ghost use Rattle.xv_frame.specs.Frame.{message};
    ghost use Rattle.xv_streams.specs.Groups.{Place};

    ghost Value = { Place };

    ghost view = { λ p. record { message = message p.head (take p.size p.buffer.items); room = length p.buffer.items } };

    ghost invariant = { λ p. p.size ≤ length p.buffer.items };
}

impl Place {
    /// A place for a content of so many bytes, in which there is none.
    pub fn new(alloc: Global, room: usize) -> Result<Place, NoMemory>
        ensures { IfOk result (λ place. place ≡ record { message = no_message; room = room }) }
    {
        match Vec::from_elem(alloc, 0, room) {
            Ok(buffer) => Ok(Place {
                head: UnitHead {
                    unit: UnitId(0),
                    version: 0,
                    at: 0,
                },
                size: 0,
                buffer,
            }),
            Err(_) => Err(NoMemory),
        }
    }

    /// The unit of the message, its version and when it was made.
    pub fn head(&self) -> UnitHead
        ensures { result ≡ self.now.message.head }
    {
        self.head
    }

    /// The content of the message.
    pub fn bytes(&self) -> &[u8]
        ensures { result.now ≡ self.now.message.content }
    {
        &self.buffer[..self.size]
    }

    /// Keeps a message with this content.
    fn keep(&mut self, head: UnitHead, bytes: &[u8])
        requires { length bytes.now ≤ self.old.room }
        ensures { self.new ≡ record { message = message head bytes.now; room = self.old.room } }
    {
        self.head = head;
        self.size = bytes.len();
        lay(&mut self.buffer, bytes);
    }

    /// Keeps a message whose content is so many zeros.
    fn keep_zeros(&mut self, head: UnitHead, size: usize)
        requires { size ≤ self.old.room }
        ensures { self.new ≡ record { message = message head (replicate size 0); room = self.old.room } }
    {
        self.head = head;
        self.size = size;
        lay_zeros(&mut self.buffer, size);
    }

    /// Keeps the message of the entry that the bytes begin with, and answers how many bytes the entry has.
    pub fn read_entry(&mut self, bytes: &[u8], layout: &Layout) -> usize
        requires sound { entry_fault layout.now bytes.now ≡ None }
        requires room { max_size layout.now ≤ self.old.room }
        ensures size { result ≡ entry_size layout.now bytes.now }
        ensures within { result ≤ length bytes.now }
        ensures kept { self.new ≡ record { message = entry_message layout.now bytes.now; room = self.old.room } }
    {
        match decode_entry(layout, bytes) {
            Ok(entry) => {
                let size = layout.size(entry.head.unit) as usize;
                if entry.zero {
                    self.keep_zeros(entry.head, size);
                    ENTRY_HEAD_SIZE
                } else {
                    self.keep(entry.head, &bytes[ENTRY_HEAD_SIZE..ENTRY_HEAD_SIZE + size]);
                    ENTRY_HEAD_SIZE + size
                }
            }
            Err(_) => unreachable!(),
        }
    }
}

/// The messages of the group that was received last, each in a place of its own.
#[derive(Drop)]
pub struct Received {
    places: Vec<Place>,
    count: usize,
}

impl Model for Received {
    ghost use Rattle.std.specs.Prelude.{◌≤◌, length, take, map};
    ghost use Rattle.xv_streams.specs.Groups.{Place, Received};

    ghost Value = { Received };

    ghost view = { λ r. record { messages = take r.count (map (λ (p : Place). p.message) r.places.items); rooms = map (λ (p : Place). p.room) r.places.items } };

    ghost invariant = { λ r. r.count ≤ length r.places.items };
}

impl Received {
    /// No messages, and so many places for contents of so many bytes.
    pub fn new(alloc: Global, count: usize, room: usize) -> Result<Received, NoMemory>
        ensures { IfOk result (λ received. received ≡ record { messages = []; rooms = replicate count room }) }
    {
        let places = new_places(alloc, count, room)?;
        Ok(Received { places, count: 0 })
    }

    /// The unit of a message, its version and when it was made.
    pub fn head(&self, i: usize) -> UnitHead
        requires { i < length self.now.messages }
        ensures { result ≡ (message_at self.now.messages i).head }
    {
        self.places[i].head()
    }

    /// The content of a message.
    pub fn bytes(&self, i: usize) -> &[u8]
        requires { i < length self.now.messages }
        ensures { result.now ≡ (message_at self.now.messages i).content }
    {
        self.places[i].bytes()
    }

    /// No message is kept any more.
    pub fn clear(&mut self)
        ensures { self.new ≡ record self.old { messages = [] } }
    {
        self.count = 0;
    }

    /// Keeps the messages of a group instead, and answers how many they are.
    pub fn read(&mut self, frame: &[u8], layout: &Layout) -> u32
        requires sound { group_fault layout.now frame.now ≡ None }
        requires room { All (λ room. max_size layout.now ≤ room) self.old.rooms }
        requires places { length self.old.rooms ≡ MOST_GROUP }
        ensures count { result ≡ length (front_group layout.now frame.now) }
        ensures kept { self.new ≡ record self.old { messages = front_group layout.now frame.now } }
    {
        match decode_group_head(frame) {
            Ok(head) => {
                self.count = head.count as usize;
                read_entries(&mut self.places, self.count, &frame[HEAD_SIZE..], layout);
                u32::from(head.count)
            }
            Err(_) => unreachable!(),
        }
    }
}

/// Lays bytes over the first of a buffer.
fn lay(buffer: &mut [u8], bytes: &[u8])
    requires { length bytes.now ≤ length buffer.old }
    ensures { buffer.new ≡ bytes.now ++ drop (length bytes.now) buffer.old }
{
    buffer[..bytes.len()].copy_from_slice(bytes);
}

/// Lays zeros over the first bytes of a buffer.
fn lay_zeros(buffer: &mut [u8], count: usize)
    requires { count ≤ length buffer.old }
    ensures { buffer.new ≡ replicate count 0 ++ drop count buffer.old }
{
    buffer[..count].fill(0);
}

/// Keeps the messages of so many entries in the first places.
fn read_entries(places: &mut [Place], count: usize, bytes: &[u8], layout: &Layout)
    requires few { count ≤ length places.old }
    requires room { All (λ p. max_size layout.now ≤ p.room) places.old }
    requires sound { entries_fault layout.now count bytes.now ≡ None }
    ensures kept { take count (map (λ p. p.message) places.new) ≡ front_entries layout.now count bytes.now }
    ensures rooms { map (λ p. p.room) places.new ≡ map (λ p. p.room) places.old }
{
    let mut at = 0;
    let mut i = 0;
    while i < count {
        at += places[i].read_entry(&bytes[at..], layout);
        i += 1;
    }
}

/// Places in which there is nothing.
fn new_places(alloc: Global, count: usize, room: usize) -> Result<Vec<Place>, NoMemory>
    ensures { IfOk result (λ places. places.items ≡ replicate count (record { message = no_message; room = room })) }
{
    let Ok(mut places) = Vec::with_capacity(alloc, count) else {
        return Err(NoMemory);
    };
    while places.len() < count {
        let Ok(place) = Place::new(alloc, room) else {
            return Err(NoMemory);
        };
        let Ok(()) = places.push(place) else {
            return Err(NoMemory);
        };
    }
    Ok(places)
}
