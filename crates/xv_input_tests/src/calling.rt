//! A call of the program over an input and an output in memory.

use std::alloc::{AllocError, Global};
use xv_io::{MemSink, MemSource};
use xv_top::{Left, top};

/// Room for all that any call here writes.
pub(crate) const ROOM: u32 = 4096;

/// How many bytes a read gives, and a write takes, where it does not matter.
pub(crate) const PIECE: u32 = 65_536;

/// How the input and the output of a call act.
#[derive(Clone, Copy)]
pub(crate) struct Edges {
    /// The most that a read gives.
    pub gives: u32,
    /// The read that fails, from 1; none where it is 0.
    pub read: u32,
    /// The most that a write takes.
    pub takes: u32,
    /// The write or flush that fails, from 1; none where it is 0.
    pub write: u32,
    /// How many bytes the output takes, before each write fails.
    pub room: u32,
}

/// Edges of which no call fails.
pub(crate) const WHOLE: Edges = Edges {
    gives: PIECE,
    read: 0,
    takes: PIECE,
    write: 0,
    room: ROOM,
};

/// A call's status, and what it wrote.
#[derive(Drop)]
pub(crate) struct Answer {
    pub status: u8,
    pub output: Vec<u8>,
}

/// The status of a call that was not made for want of memory, which no call has.
const UNMADE: u8 = 255;

fn words_of(alloc: Global, all: &[&str]) -> Result<Vec<String>, AllocError> {
    let mut words = Vec::new(alloc);
    for word in all {
        words.push(String::from_str(alloc, word)?)?;
    }
    Ok(words)
}

/// The status of a call that leaves something.
fn status_of(
    alloc: Global,
    words: &[String],
    source: &mut MemSource,
    sink: &mut MemSink,
    left: &mut Left,
) -> u8 {
    top(alloc, words, source, sink, left).code()
}

fn status(alloc: Global, words: &[String], source: &mut MemSource, sink: &mut MemSink) -> u8 {
    let mut left = Left::Nothing;
    let status = status_of(alloc, words, source, sink, &mut left);
    drop(left);
    status
}

/// The answer of a call; none for want of memory before it or behind it.
fn made(alloc: Global, words: &[&str], input: &[u8], edges: Edges) -> Option<Answer> {
    let words = words_of(alloc, words).ok()?;
    let mut source = MemSource::new(alloc, input, edges.gives.max(1), &[edges.read]).ok()?;
    let mut sink = MemSink::new(alloc, edges.room, edges.takes.max(1), &[edges.write]).ok()?;
    let status = status(alloc, &words, &mut source, &mut sink);
    Some(Answer {
        status,
        output: sink.bytes().to_vec(alloc).ok()?,
    })
}

/// Calls the program.
pub(crate) fn call(alloc: Global, words: &[&str], input: &[u8], edges: Edges) -> Answer {
    match made(alloc, words, input, edges) {
        Some(answer) => answer,
        None => Answer {
            status: UNMADE,
            output: Vec::new(alloc),
        },
    }
}

impl Answer {
    pub(crate) fn is(&self, status: u8, output: &[u8]) -> bool {
        self.status == status && self.output.as_slice() == output
    }
}

/// Whether an input is refused by this line and this reason.
pub(crate) fn is_refused(
    alloc: Global,
    words: &[&str],
    input: &[u8],
    line: u32,
    why: &str,
) -> bool {
    match format!(in alloc; "refused line {line} {why}\n") {
        Ok(refusal) => call(alloc, words, input, WHOLE).is(2, refusal.as_bytes()),
        Err(_) => false,
    }
}
