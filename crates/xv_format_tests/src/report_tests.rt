//! What no clause says: that the report and the image read as they should, and that a failed write is told.

ghost use Rattle.std.specs.Prelude.{◌≡◌, ◌<◌, IfOk};
ghost use Rattle.xv_base.specs.Units.{units};
ghost use Rattle.xv_report.specs.Workers.{AreDistinct};

use serde_json::Value;
use std::alloc::{AllocError, Global};
use std::test::Fail;
use xv_base::{Init, Layout, LayoutFault, Pattern, Phase, Totals, UnitId};
use xv_device::{DevicePlan, MemDevice};
use xv_io::{MemSink, WriteFault};
use xv_report::{
    Count, Counts, Job1, JsonFault, report_value, write_image, write_report, write_report_json,
};

/// Nothing was asked of the migration yet.
const IDLE: Totals = Totals {
    phase: Phase::Running,
    history: 0,
    faulted: 0,
    journal: 0,
    stun: None,
    copied: 0,
    rounds: 0,
    messages: 0,
    mirrors: 0,
    applied: 0,
    credit: 4,
};

const SWITCHED: Totals = Totals {
    phase: Phase::Switched,
    history: 2,
    faulted: 0,
    journal: 21,
    stun: Some(2),
    copied: 2,
    rounds: 1,
    messages: 3,
    mirrors: 0,
    applied: 3,
    credit: 4,
};

const REPORT: &[u8] =
    b"phase switched\nowner destination\nhistory 2\nfaulted 0\njournal 21\nstun 2\ncopied 2\nrounds 1\nmessages 3\nmirrors 0\napplied 3\ncredit 4\n";

const WORKERS: &[u8] =
    b"worker guest 2 1\nworker guest 10 1\nworker copier 0 4\nworker pager 5\nworker sender 0 3\nworker receiver 0 3\nworker applier 3\nfinish 1\n";

const IDLE_JSON: &[u8] =
    b"{\"applied\":0,\"copied\":0,\"credit\":4,\"faulted\":0,\"history\":0,\"journal\":0,\"messages\":0,\"mirrors\":0,\"owner\":\"source\",\"phase\":\"running\",\"rounds\":0,\"stun\":null}\n";

const SWITCHED_JSON: &[u8] =
    b"{\"applied\":3,\"copied\":2,\"credit\":4,\"faulted\":0,\"finish\":1,\"history\":2,\"journal\":21,\"messages\":3,\"mirrors\":0,\"owner\":\"destination\",\"phase\":\"switched\",\"rounds\":1,\"stun\":2,\"workers\":{\"applier\":3,\"copier 0\":4,\"guest 10\":1,\"guest 2\":1,\"pager\":5,\"receiver 0\":3,\"sender 0\":3}}\n";

/// Seven workers, which made 20 entries.
const CREW: [Count; 7] = [
    Count {
        worker: Job1::Guest(2),
        steps: 1,
    },
    Count {
        worker: Job1::Guest(10),
        steps: 1,
    },
    Count {
        worker: Job1::Copier(0),
        steps: 4,
    },
    Count {
        worker: Job1::Pager,
        steps: 5,
    },
    Count {
        worker: Job1::Sender(0),
        steps: 3,
    },
    Count {
        worker: Job1::Receiver(0),
        steps: 3,
    },
    Count {
        worker: Job1::Applier,
        steps: 3,
    },
];

/// Their counts, with one entry made after them.
fn crew(alloc: Global) -> Result<Counts, AllocError>
    ensures { IfOk result (λ tally. AreDistinct tally.workers) }
{
    Ok(Counts {
        workers: Vec::from_slice(alloc, &CREW)?,
        finish: 1,
    })
}

/// An output with room for so many bytes, of which a call takes at most so many.
fn sink_of(alloc: Global, room: u32, piece: u32) -> Result<MemSink, Fail>
    requires { 0 < piece }
{
    Ok(MemSink::new(alloc, room, piece, &[])?)
}

/// Whether an output has taken exactly this text.
fn has_taken(sink: &MemSink, text: &[u8]) -> bool {
    sink.bytes() == text
}

/// Whether an output has taken exactly these two texts.
fn has_taken_both(sink: &MemSink, first: &[u8], second: &[u8]) -> bool {
    sink.bytes().strip_prefix(first) == Some(second)
}

fn put_report(counts: Option<&Counts>, sink: &mut MemSink) -> Result<(), WriteFault> {
    write_report(&SWITCHED, counts, sink)
}

fn put_idle_json(alloc: Global, sink: &mut MemSink) -> Result<(), JsonFault> {
    write_report_json(alloc, &IDLE, None, sink)
}

fn put_crew_json(alloc: Global, sink: &mut MemSink) -> Result<(), JsonFault> {
    match crew(alloc) {
        Ok(counts) => write_report_json(alloc, &SWITCHED, Some(&counts), sink),
        Err(_) => Err(JsonFault::NoMemory),
    }
}

#[test]
fn writes_report(rt: HostRuntime) -> Result<(), Fail> {
    for &(room, want, text) in &[
        (200, Ok(()), REPORT),
        (6, Err(WriteFault), b"phase ".as_slice()),
    ] {
        let mut sink = sink_of(rt.alloc(), room, 4)?;
        assert_eq!(rt; put_report(None, &mut sink), want);
        assert!(rt; has_taken(&sink, text));
    }
    Ok(())
}

#[test]
fn writes_counts(rt: HostRuntime) -> Result<(), Fail> {
    let counts = crew(rt.alloc())?;
    let mut sink = sink_of(rt.alloc(), 400, 7)?;
    assert_eq!(rt; put_report(Some(&counts), &mut sink), Ok(()));
    assert!(rt; has_taken_both(&sink, REPORT, WORKERS));
    Ok(())
}

#[test]
fn writes_json_of_an_idle_migration(rt: HostRuntime) -> Result<(), Fail> {
    let mut sink = sink_of(rt.alloc(), 400, 9)?;
    assert_eq!(rt; put_idle_json(rt.alloc(), &mut sink), Ok(()));
    assert!(rt; has_taken(&sink, IDLE_JSON));
    Ok(())
}

#[test]
fn writes_json(rt: HostRuntime) -> Result<(), Fail> {
    for &(room, want, text) in &[
        (400, Ok(()), SWITCHED_JSON),
        (6, Err(JsonFault::WriteFault), b"{\"appl".as_slice()),
    ] {
        let mut sink = sink_of(rt.alloc(), room, 4)?;
        assert_eq!(rt; put_crew_json(rt.alloc(), &mut sink), want);
        assert!(rt; has_taken(&sink, text));
    }
    Ok(())
}

fn crew_value(alloc: Global) -> Result<Value, Fail> {
    let counts = crew(alloc)?;
    Ok(report_value(alloc, &SWITCHED, Some(&counts))?)
}

fn number_at(report: &Value, path: &str) -> Option<u64> {
    report.pointer(path).and_then(Value::as_u64)
}

#[test]
fn finds_numbers_by_names(rt: HostRuntime) -> Result<(), Fail> {
    let report = crew_value(rt.alloc())?;
    for &(path, want) in &[
        ("/workers/guest 10", 1),
        ("/workers/pager", 5),
        ("/finish", 1),
        ("/journal", 21),
    ] {
        assert_eq!(rt; number_at(&report, path), Some(want), "at {path}");
    }
    Ok(())
}

/// A layout of three pages of 16 bytes.
fn three_pages() -> Result<Layout, LayoutFault>
    ensures { IfOk result (λ layout. units layout ≡ 3) }
{
    Layout::new(3, 16, &[])
}

/// A device of which one unit is filled with a byte.
fn filled(alloc: Global, layout: &Layout, unit: u32, byte: u8) -> Result<MemDevice, Fail>
    requires { unit < units layout.now }
    ensures { IfOk result (λ device. device.shape ≡ layout.now) }
{
    let init = [Init {
        unit: UnitId(unit),
        pattern: Pattern::new(&[byte]),
    }];
    let plan = DevicePlan {
        reads: Vec::new(alloc),
        writes: Vec::new(alloc),
        flushes: Vec::new(alloc),
    };
    Ok(MemDevice::new(alloc, layout, &init, plan)?)
}

/// The image of a source, and of a destination of which unit 2 is filled with 13.
fn put_sides(
    alloc: Global,
    layout: &Layout,
    source: &MemDevice,
    sink: &mut MemSink,
) -> Result<(), Fail>
    requires source_layout { source.now.shape ≡ layout.now }
    requires unit_in { 2 < units layout.now }
{
    let dest = filled(alloc, layout, 2, 0x0d)?;
    Ok(write_image(layout, source, &dest, sink)?)
}

/// The same image, where unit 1 of the source is filled with 187.
fn put_image(alloc: Global, sink: &mut MemSink) -> Result<(), Fail> {
    let layout = three_pages()?;
    let source = filled(alloc, &layout, 1, 0xbb)?;
    put_sides(alloc, &layout, &source, sink)
}

const IMAGE: &[u8] =
    b"src 1 bbbbbbbbbbbbbbbbbbbbbbbbbbbbbbbb\ndst 2 0d0d0d0d0d0d0d0d0d0d0d0d0d0d0d0d\n";

#[test]
fn writes_image(rt: HostRuntime) -> Result<(), Fail> {
    let mut sink = sink_of(rt.alloc(), 100, 30)?;
    put_image(rt.alloc(), &mut sink)?;
    assert!(rt; has_taken(&sink, IMAGE));
    Ok(())
}
