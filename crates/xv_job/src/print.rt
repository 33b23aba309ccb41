//! The text of a job.

ghost use Rattle.std.specs.Prelude.{◌≡◌, ◌≤◌, ◌++◌, ◌∷◌, [], length, map, codes, OnOk, OnErr};
ghost use Rattle.std.specs.List.{flat_map};
ghost use Rattle.xv_text.specs.Lines.{line, text_of};
ghost use Rattle.xv_job.specs.Written.{IsGoodWritten, ops_held};
ghost use Rattle.xv_job.specs.JobText.{job_text, fault_fields, init_fields, disk_fields, guest_lines, limit_lines, cancel_lines, group_line, machine_of};

use crate::job::Job;
use std::alloc::Global;
use xv_base::{Config, Fault, Init, Layout, NoMemory};
use xv_text::{push_line, push_line_with};
use xv_trace::{Trace, print_ops};

/// Appends the text of a job, in its job format.
/// Errors: want of memory, where the text is as it was.
pub fn print_job(alloc: Global, job: &Job, out: &mut Vec<u8>) -> Result<(), NoMemory>
    ensures ok { OnOk result (out.new.items ≡ out.old.items ++ job_text job.now) }
    ensures err { OnErr result (out.new.items ≡ out.old.items) }
{
    let mut text = Vec::new(alloc);
    match print_lines(job, &mut text) {
        Ok(()) => {}
        Err(NoMemory) => return Err(NoMemory),
    }
    match out.extend_from_slice(&text) {
        Ok(()) => Ok(()),
        Err(_) => Err(NoMemory),
    }
}

/// Appends the lines of a job.
fn print_lines(job: &Job, out: &mut Vec<u8>) -> Result<(), NoMemory>
    ensures { OnOk result (out.new.items ≡ out.old.items ++ job_text job.now) }
{
    print_machine(job.format, &job.layout, out)?;
    print_settings(job.format, job.group, &job.config, out)?;
    print_contents(&job.faults, &job.init, out)?;
    print_traces(&job.traces, out)?;
    push_line(out, b"end", &[])
}

/// Appends the lines of the job format and of the machine.
fn print_machine(format: u8, layout: &Layout, out: &mut Vec<u8>) -> Result<(), NoMemory>
    ensures { OnOk result (out.new.items ≡ out.old.items ++ text_of (machine_of format layout.now)) }
{
    push_line(out, b"job", &[u32::from(format)])?;
    push_line(out, b"pages", &[layout.pages(), layout.page_size()])?;
    print_disks(layout, out)
}

/// Appends the lines of the limits, of the group and of the cancel number.
fn print_settings(
    format: u8,
    group: u32,
    config: &Config,
    out: &mut Vec<u8>,
) -> Result<(), NoMemory>
    ensures { OnOk result (out.new.items ≡ out.old.items ++ text_of (limit_lines config.now ++ (group_line format group ++ cancel_lines config.now.cancel))) }
{
    print_limits(config, out)?;
    print_group(format, group, out)?;
    print_cancel(config.cancel, out)
}

/// Appends the lines of the planned faults and of the first contents.
fn print_contents(faults: &[Fault], init: &[Init], out: &mut Vec<u8>) -> Result<(), NoMemory>
    ensures { OnOk result (out.new.items ≡ out.old.items ++ text_of (map fault_fields faults.now ++ map init_fields init.now)) }
{
    print_faults(faults, out)?;
    print_init(init, out)
}

/// Appends the lines of the disks.
fn print_disks(layout: &Layout, out: &mut Vec<u8>) -> Result<(), NoMemory>
    ensures { OnOk result (out.new.items ≡ out.old.items ++ text_of (map disk_fields layout.now.disks)) }
{
    for disk in 0..layout.disks() {
        push_line(
            out,
            b"disk",
            &[layout.blocks(disk), layout.block_size(disk)],
        )?;
    }
    Ok(())
}

/// Appends the lines of the limits.
fn print_limits(config: &Config, out: &mut Vec<u8>) -> Result<(), NoMemory>
    ensures { OnOk result (out.new.items ≡ out.old.items ++ text_of (limit_lines config.now)) }
{
    push_line(out, b"streams", &[u32::from(config.streams)])?;
    push_line(out, b"credit", &[config.credit])?;
    push_line(out, b"outbox", &[config.outbox])?;
    push_line(out, b"region", &[config.region])?;
    push_line(out, b"rounds", &[config.rounds])?;
    push_line(out, b"dirty", &[config.dirty])
}

/// Appends the line of the group, in job format 2.
fn print_group(format: u8, group: u32, out: &mut Vec<u8>) -> Result<(), NoMemory>
    ensures { OnOk result (out.new.items ≡ out.old.items ++ text_of (group_line format group)) }
{
    if format == 2 {
        push_line(out, b"group", &[group])?;
    }
    Ok(())
}

/// Appends the line of the cancel number, where there is one.
fn print_cancel(cancel: Option<u32>, out: &mut Vec<u8>) -> Result<(), NoMemory>
    ensures { OnOk result (out.new.items ≡ out.old.items ++ text_of (cancel_lines cancel)) }
{
    match cancel {
        Some(number) => push_line(out, b"cancel", &[number]),
        None => Ok(()),
    }
}

/// Appends the line of a planned fault.
fn print_fault(fault: Fault, out: &mut Vec<u8>) -> Result<(), NoMemory>
    ensures { OnOk result (out.new.items ≡ out.old.items ++ line (fault_fields fault)) }
{
    match fault {
        Fault::SourceRead(call) => push_line(out, b"fault sread", &[call]),
        Fault::SourceWrite(call) => push_line(out, b"fault swrite", &[call]),
        Fault::DestRead(call) => push_line(out, b"fault dread", &[call]),
        Fault::DestWrite(call) => push_line(out, b"fault dwrite", &[call]),
        Fault::Flush(call) => push_line(out, b"fault flush", &[call]),
        Fault::Put(stream, call) => push_line(out, b"fault put", &[u32::from(stream), call]),
        Fault::Take(stream, call) => push_line(out, b"fault take", &[u32::from(stream), call]),
        Fault::AckPut(call) => push_line(out, b"fault ackput", &[call]),
        Fault::AckTake(call) => push_line(out, b"fault acktake", &[call]),
    }
}

/// Appends the lines of the planned faults.
fn print_faults(faults: &[Fault], out: &mut Vec<u8>) -> Result<(), NoMemory>
    ensures { OnOk result (out.new.items ≡ out.old.items ++ text_of (map fault_fields faults.now)) }
{
    for fault in faults {
        print_fault(*fault, out)?;
    }
    Ok(())
}

/// Appends the lines of the first contents.
fn print_init(init: &[Init], out: &mut Vec<u8>) -> Result<(), NoMemory>
    ensures { OnOk result (out.new.items ≡ out.old.items ++ text_of (map init_fields init.now)) }
{
    for content in init {
        push_line_with(out, b"init", &[content.unit.0], &content.pattern)?;
    }
    Ok(())
}

/// Appends the lines of the guests.
fn print_traces(traces: &[Trace], out: &mut Vec<u8>) -> Result<(), NoMemory>
    ensures { OnOk result (out.new.items ≡ out.old.items ++ text_of (flat_map guest_lines (ops_held traces.now))) }
{
    for trace in traces {
        push_line(out, b"guest", &[])?;
        print_ops(trace, out)?;
    }
    Ok(())
}
