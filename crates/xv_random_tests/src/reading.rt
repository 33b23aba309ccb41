//! What becomes of a text, and the laws that hold of each text.

use crate::writing::put;
use std::alloc::Global;
use xv_base::{Event, LineFault, LineWhy, MOST_INPUT, Probe, Side, TextError, Turn, UnitId};
use xv_handover::{Reply, WorldEvent, print_reply, read_world};
use xv_io::{MemSource, read_all};
use xv_job::{Job, print_job, read_job};
use xv_script::{Line, print_probe, print_turn, read_events};

/// What a text is read as.
#[derive(Clone, Copy)]
pub(crate) enum Kind {
    /// A job and its script.
    Input,
    /// A script of a handover.
    World,
}

/// Whether a text keeps the laws, or the first that it breaks.
#[derive(Clone, Copy, Debug, PartialEq, Eq)]
pub(crate) enum Found {
    AllWell,
    /// It is read, and not printed back.
    PrintedOtherwise,
    /// Its lines to the refused one are not refused as it is.
    RefusedOtherwise,
    /// The lines before the refused one are refused, and not for their end.
    RefusedBefore,
    /// It is refused for its end at another line than that behind its whole lines, or past that one.
    RefusedElsewhere,
    /// Read in pieces it is another text.
    ReadOtherwise,
    /// Nothing is known, for want of memory.
    NoMemory,
}

/// The numbers of bytes that a read may give at most.
const PIECES: &[u32] = &[1, 2, 7, MOST_INPUT];

/// What is wrong with a text, and the first law that it breaks.
pub(crate) fn check(alloc: Global, kind: Kind, text: &[u8]) -> (Option<TextError>, Found) {
    let (fault, printed) = read(alloc, kind, text);
    let found = match fault {
        None if printed.as_slice() != text => Found::PrintedOtherwise,
        None => Found::AllWell,
        Some(TextError::Fault(fault)) => check_refusal(alloc, kind, text, fault),
        Some(TextError::NoMemory) => Found::NoMemory,
    };
    if found == Found::AllWell && !is_read_in_pieces(alloc, text) {
        return (fault, Found::ReadOtherwise);
    }
    (fault, found)
}

/// The laws of a text that is refused so.
fn check_refusal(alloc: Global, kind: Kind, text: &[u8], fault: LineFault) -> Found {
    let lines = line_count(text);
    let unended = LineFault {
        line: fault.line,
        why: LineWhy::Unended,
    };
    let (to_fault, _) = read(alloc, kind, first_lines(text, fault.line));
    let (before_fault, _) = read(alloc, kind, first_lines(text, fault.line.wrapping_sub(1)));
    if to_fault != Some(TextError::Fault(fault)) {
        return Found::RefusedOtherwise;
    }
    match before_fault {
        Some(before) if before != TextError::Fault(unended) => return Found::RefusedBefore,
        // Only what stands behind the whole text is refused although the lines before it are read.
        None if fault.why != LineWhy::Order => return Found::RefusedBefore,
        Some(_) | None => {}
    }
    let is_behind = fault.line == lines.wrapping_add(1);
    if fault.line == 0 || fault.line > lines.wrapping_add(1) || (fault == unended && !is_behind) {
        return Found::RefusedElsewhere;
    }
    Found::AllWell
}

/// How many lines are whole.
fn line_count(text: &[u8]) -> u32 {
    let mut count = 0u32;
    for byte in text {
        if *byte == b'\n' {
            count = count.wrapping_add(1);
        }
    }
    count
}

/// The first lines, so many of them or all of the text.
fn first_lines(text: &[u8], count: u32) -> &[u8] {
    let mut seen = 0u32;
    for (place, byte) in text.iter().enumerate() {
        if seen == count {
            return text.get(..place).unwrap_or(text);
        }
        if *byte == b'\n' {
            seen = seen.wrapping_add(1);
        }
    }
    text
}

/// What is wrong with a text, and what was read as it is printed.
fn read(alloc: Global, kind: Kind, text: &[u8]) -> (Option<TextError>, Vec<u8>) {
    match kind {
        Kind::Input => read_input(alloc, text),
        Kind::World => read_handover(alloc, text),
    }
}

/// A job and a script behind it.
fn read_input(alloc: Global, text: &[u8]) -> (Option<TextError>, Vec<u8>) {
    let mut printed = Vec::new(alloc);
    let (job, place) = match read_job(alloc, text) {
        Ok(found) => found,
        Err(error) => return (Some(error), printed),
    };
    if print_job(alloc, &job, &mut printed).is_err() {
        drop(job);
        return (Some(TextError::NoMemory), printed);
    }
    let script = text.get(place.byte..).unwrap_or(text);
    let fault = read_script(alloc, &job, script, place.line, &mut printed);
    drop(job);
    (fault, printed)
}

/// More than any text of these tests has bytes or lines.
const MOST: usize = 1 << 20;

/// A script of a job, whose first line has this number. A longer one than there is counts as want of memory.
#[tactic(auto, using(crate::proofs::Few::few))]
fn read_script(
    alloc: Global,
    job: &Job,
    script: &[u8],
    first_line: u32,
    printed: &mut Vec<u8>,
) -> Option<TextError> {
    if script.len() >= MOST || first_line as usize >= MOST {
        return Some(TextError::NoMemory);
    }
    let lines = match read_events(alloc, job, script, first_line) {
        Ok(lines) => lines,
        Err(error) => return Some(error),
    };
    for line in &lines {
        put_script_line(*line, printed);
    }
    put(printed, b"stop\n");
    None
}

/// Appends a line as it stands in a script: as it is printed with an answer, without that answer.
fn put_script_line(line: Line, printed: &mut Vec<u8>) {
    match line {
        Line::Step(event) => put_event(event, printed),
        Line::Ask(unit) => put_probe(unit, printed),
    }
}

fn put_event(event: Event, printed: &mut Vec<u8>) {
    let line = print_turn(event, Turn::Queued, b"".as_slice());
    put_without(line.bytes(), b" queued\n", printed);
}

fn put_probe(unit: UnitId, printed: &mut Vec<u8>) {
    let line = print_probe(Probe {
        unit,
        side: Side::Ahead,
        issued: 0,
        applied: 0,
        outbox: 0,
        wires: 0,
        held: 0,
    });
    put_without(line.bytes(), b" ahead 0 0 0 0 0\n", printed);
}

/// Appends a line without what it ends with.
fn put_without(line: &[u8], ending: &[u8], printed: &mut Vec<u8>) {
    match line.strip_suffix(ending) {
        Some(front) => put(printed, front),
        None => put(printed, line),
    }
    put(printed, b"\n");
}

/// A script of a handover.
fn read_handover(alloc: Global, text: &[u8]) -> (Option<TextError>, Vec<u8>) {
    let mut printed = Vec::new(alloc);
    let events = match read_world(alloc, text) {
        Ok(events) => events,
        Err(error) => return (Some(error), printed),
    };
    for event in &events {
        put_world_event(*event, &mut printed);
    }
    put(&mut printed, b"stop\n");
    (None, printed)
}

fn put_world_event(event: WorldEvent, printed: &mut Vec<u8>) {
    let line = print_reply(event, Reply::Done(None));
    put_without(line.bytes(), b" done\n", printed);
}

/// Whether a text comes whole from each source of it.
fn is_read_in_pieces(alloc: Global, text: &[u8]) -> bool {
    let mut is_whole = true;
    for piece in PIECES {
        is_whole = is_whole && is_read_in(alloc, text, *piece);
    }
    is_whole
}

/// Whether a text comes whole from a source that gives so many bytes at most a call.
fn is_read_in(alloc: Global, text: &[u8], piece: u32) -> bool {
    if piece == 0 {
        return false;
    }
    let Ok(mut source) = MemSource::new(alloc, text, piece, &[]) else {
        return false;
    };
    match read_all(alloc, &mut source, MOST_INPUT) {
        Ok(bytes) => bytes.as_slice() == text,
        Err(_) => false,
    }
}
