//! Jobs that follow from dice. Each is within all limits but one: the unit operations of a vast disk may be too many.

use crate::dice::Dice;
use crate::writing::{put, put_line, put_line_with};
use std::alloc::Global;

/// What the lines of a job and of its script name: pages and disks of these sizes, streams and guests.
pub(crate) struct Machine {
    pages: u64,
    page_size: u64,
    /// How many of the four disks there are.
    pub(crate) disks: u64,
    blocks: [u64; 4],
    block_sizes: [u64; 4],
    pub(crate) streams: u64,
    pub(crate) guests: u64,
}

impl Drop for Machine {
    fn drop(self) {
        let Machine {
            pages: _,
            page_size: _,
            disks: _,
            blocks: _,
            block_sizes: _,
            streams: _,
            guests: _,
        } = self;
    }
}

const SIZES: &[u64] = &[16, 32, 64, 128, 256, 512, 1024, 2048, 4096];

/// Sizes of the blocks of which there may be almost as many as there may be units, beside pages of 16 bytes.
const VAST_SIZES: &[u64] = &[16, 32, 64, 128, 256, 512];

const MOST_UNITS: u64 = 1_048_576;

impl Machine {
    /// A machine of few units, or, one in eight, of as many as there may be.
    fn new(dice: &mut Dice) -> Machine {
        let is_vast = dice.below(8) == 0;
        let blocks = [
            dice.few(1, 16),
            dice.few(1, 16),
            dice.few(1, 16),
            dice.few(1, 16),
        ];
        let block_sizes = [
            dice.pick(SIZES),
            dice.pick(SIZES),
            dice.pick(SIZES),
            dice.pick(SIZES),
        ];
        let vast_size = dice.pick(VAST_SIZES);
        Machine {
            pages: dice.few(1, 16),
            page_size: if is_vast { 16 } else { dice.pick(SIZES) },
            disks: if is_vast { 1 } else { dice.below(5) },
            blocks: if is_vast {
                [MOST_UNITS - 16; 4]
            } else {
                blocks
            },
            block_sizes: if is_vast { [vast_size; 4] } else { block_sizes },
            streams: dice.edge(1, 8),
            guests: if dice.below(16) == 0 {
                16
            } else {
                dice.few(1, 4)
            },
        }
    }

    /// How many units there are.
    pub(crate) fn units(&self) -> u64 {
        let mut units = self.pages;
        for disk in 0..self.disks {
            units = units.wrapping_add(self.blocks[(disk % 4) as usize]);
        }
        units
    }
}

/// Appends a job, and tells what its script may name.
pub(crate) fn put_job(alloc: Global, dice: &mut Dice, text: &mut Vec<u8>) -> Machine {
    let machine = Machine::new(dice);
    let format = dice.between(1, 2);
    put_line(text, b"job", &[format]);
    put_machine(&machine, text);
    put_limits(&machine, format, dice, text);
    // The cancel number stands before the guests, whose operations limit it.
    let mut guests = Vec::new(alloc);
    let operations = put_guests(&machine, dice, &mut guests);
    if dice.below(3) == 0 {
        put_line(text, b"cancel", &[dice.edge(0, operations)]);
    }
    put_faults(&machine, dice, text);
    put_contents(&machine, dice, text);
    put(text, &guests);
    put_line(text, b"end", &[]);
    machine
}

fn put_machine(machine: &Machine, text: &mut Vec<u8>) {
    put_line(text, b"pages", &[machine.pages, machine.page_size]);
    for disk in 0..machine.disks {
        let place = (disk % 4) as usize;
        put_line(
            text,
            b"disk",
            &[machine.blocks[place], machine.block_sizes[place]],
        );
    }
}

fn put_limits(machine: &Machine, format: u64, dice: &mut Dice, text: &mut Vec<u8>) {
    let outbox = dice.edge(1, 1024);
    put_line(text, b"streams", &[machine.streams]);
    put_line(text, b"credit", &[dice.edge(1, 1024)]);
    put_line(text, b"outbox", &[outbox]);
    put_line(text, b"region", &[dice.edge(1, outbox.min(256))]);
    put_line(text, b"rounds", &[dice.edge(1, 64)]);
    put_line(text, b"dirty", &[dice.edge(0, 1_048_576)]);
    if format == 2 {
        put_line(text, b"group", &[dice.edge(1, 16)]);
    }
}

/// The calls of which one may be planned to fail, each with whether it names a stream.
const CALLS: &[(&[u8], bool)] = &[
    (b"fault sread", false),
    (b"fault swrite", false),
    (b"fault dread", false),
    (b"fault dwrite", false),
    (b"fault flush", false),
    (b"fault put", true),
    (b"fault take", true),
    (b"fault ackput", false),
    (b"fault acktake", false),
];

fn put_faults(machine: &Machine, dice: &mut Dice, text: &mut Vec<u8>) {
    let count = if dice.below(16) == 0 {
        32
    } else {
        dice.few(0, 4)
    };
    for _fault in 0..count {
        let place = dice.below(CALLS.len() as u64) as usize;
        let call = dice.edge(1, 4_294_967_295);
        match CALLS.get(place) {
            Some(&(words, true)) => put_line(text, words, &[dice.below(machine.streams), call]),
            Some(&(words, false)) => put_line(text, words, &[call]),
            None => {}
        }
    }
}

fn put_contents(machine: &Machine, dice: &mut Dice, text: &mut Vec<u8>) {
    let units = machine.units();
    let mut unit = dice.few(0, units);
    for _content in 0..dice.few(0, 4) {
        if unit < units {
            put_line_with(text, dice, b"init", &[unit]);
        }
        unit = unit.wrapping_add(dice.few(1, 4));
    }
}

/// Appends the guests, and tells how many unit operations they have.
fn put_guests(machine: &Machine, dice: &mut Dice, text: &mut Vec<u8>) -> u64 {
    let mut operations = 0u64;
    for _guest in 0..machine.guests {
        put_line(text, b"guest", &[]);
        for _operation in 0..dice.few(0, 16) {
            operations = operations.wrapping_add(put_operation(machine, dice, text));
        }
    }
    operations
}

/// Appends an operation, and tells how many unit operations it is.
fn put_operation(machine: &Machine, dice: &mut Dice, text: &mut Vec<u8>) -> u64 {
    let verb = dice.below(if machine.disks > 0 { 4 } else { 2 });
    match verb {
        0 => put_store(machine, dice, text),
        1 => put_load(machine, dice, text),
        2 => put_write(machine, dice, text),
        _ => put_read(machine, dice, text),
    }
}

fn put_store(machine: &Machine, dice: &mut Dice, text: &mut Vec<u8>) -> u64 {
    let start = dice.below(machine.pages).wrapping_mul(machine.page_size);
    let offset = dice.below(machine.page_size);
    let count = dice.edge(1, machine.page_size.wrapping_sub(offset));
    put_line_with(text, dice, b"st", &[start.wrapping_add(offset), count]);
    1
}

fn put_load(machine: &Machine, dice: &mut Dice, text: &mut Vec<u8>) -> u64 {
    let start = dice.below(machine.pages).wrapping_mul(machine.page_size);
    let offset = dice.below(machine.page_size);
    let count = dice.edge(1, machine.page_size.wrapping_sub(offset).min(64));
    put_line(text, b"ld", &[start.wrapping_add(offset), count]);
    1
}

fn put_write(machine: &Machine, dice: &mut Dice, text: &mut Vec<u8>) -> u64 {
    let disk = dice.below(machine.disks);
    let blocks = machine.blocks[(disk % 4) as usize];
    let block = dice.few(0, blocks.wrapping_sub(1));
    let count = dice.edge(1, blocks.wrapping_sub(block));
    put_line_with(text, dice, b"wr", &[disk, block, count]);
    count
}

fn put_read(machine: &Machine, dice: &mut Dice, text: &mut Vec<u8>) -> u64 {
    let disk = dice.below(machine.disks);
    let place = (disk % 4) as usize;
    let block = dice.edge(0, machine.blocks[place].wrapping_sub(1));
    let size = machine.block_sizes[place];
    let offset = dice.below(size);
    let count = dice.edge(1, size.wrapping_sub(offset).min(64));
    put_line(text, b"rd", &[disk, block, offset, count]);
    1
}
