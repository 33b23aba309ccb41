//! A call of the command over an input and an output in memory.

use crate::playing::{Played, play_again};
use std::alloc::{AllocError, Global};
use std::sync::Wait;
use std::test::Fail;
use std::thread::Threads;
use xv_io::{MemSink, MemSource};
use xv_run::top_run;
use xv_shared::{FreeGate, Gate};
use xv_top::{Left, top};

/// A call's status, what it wrote, and how its journal was answered when it was played again, where it left one.
#[derive(Drop)]
pub struct Ran {
    pub status: u8,
    pub output: Vec<u8>,
    pub played: Option<Played>,
}

/// Room for all that is printed of any job here.
const ROOM: u32 = 32_000_000;

/// How many bytes a read gives, and a write takes, where it does not matter.
const PIECE: u32 = 65_536;

pub(crate) fn words_of(alloc: Global, all: &[&str]) -> Result<Vec<String>, AllocError> {
    let mut words = Vec::new(alloc);
    for word in all {
        words.push(String::from_str(alloc, word)?)?;
    }
    Ok(words)
}

/// The status of the command, which leaves something.
pub(crate) fn status_of<G: Gate, X: Threads + Wait + Sync>(
    rt: &X,
    alloc: Global,
    words: &[String],
    source: &mut MemSource,
    sink: &mut MemSink,
    gate: &G,
    left: &mut Left,
) -> u8 {
    top_run(rt, alloc, words, source, sink, gate, left).code()
}

/// Runs a job whose calls pass a gate, with an output that has room for all.
pub(crate) fn ran_by<G: Gate, X: Threads + Wait + Sync>(
    rt: &X,
    alloc: Global,
    words: &[&str],
    input: &[u8],
    gate: &G,
) -> Result<Ran, Fail> {
    let words = words_of(alloc, words)?;
    let mut source = MemSource::new(alloc, input, PIECE, &[])?;
    let mut sink = MemSink::new(alloc, ROOM, PIECE, &[])?;
    let mut left = Left::Nothing;
    let status = status_of(rt, alloc, &words, &mut source, &mut sink, gate, &mut left);
    let played = played(alloc, input, &left);
    drop(left);
    Ok(Ran {
        status,
        played: played?,
        output: sink.bytes().to_vec(alloc)?,
    })
}

/// What the journal of a migration that is left gives when it is played again.
fn played(alloc: Global, input: &[u8], left: &Left) -> Result<Option<Played>, Fail> {
    match left {
        Left::First(machine) => Ok(Some(play_again(alloc, input, machine)?)),
        Left::Nothing => Ok(None),
    }
}

/// What a command of one thread without an input writes.
pub(crate) fn said(alloc: Global, words: &[&str]) -> Result<Vec<u8>, Fail> {
    let words = words_of(alloc, words)?;
    let mut source = MemSource::new(alloc, &[], PIECE, &[])?;
    let mut sink = MemSink::new(alloc, ROOM, PIECE, &[])?;
    let mut left = Left::Nothing;
    let _ = top(alloc, &words, &mut source, &mut sink, &mut left);
    drop(left);
    Ok(sink.bytes().to_vec(alloc)?)
}
