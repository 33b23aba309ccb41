//! Scripts that follow from dice: of a job, and of a handover.

use crate::dice::Dice;
use crate::jobs::Machine;
use crate::writing::put_line;

/// What the number behind a word names.
#[derive(Clone, Copy)]
enum Named {
    Nothing,
    OfGuests,
    OfDisks,
    OfStreams,
    OfUnits,
}

const EVENTS: &[(&[u8], Named)] = &[
    (b"guest", Named::OfGuests),
    (b"begin", Named::OfDisks),
    (b"read", Named::OfDisks),
    (b"advance", Named::OfDisks),
    (b"release", Named::OfDisks),
    (b"round", Named::Nothing),
    (b"page", Named::Nothing),
    (b"send", Named::OfStreams),
    (b"deliver", Named::OfStreams),
    (b"apply", Named::Nothing),
    (b"ack", Named::Nothing),
    (b"credit", Named::Nothing),
    (b"stun", Named::Nothing),
    (b"switch", Named::Nothing),
    (b"cancel", Named::Nothing),
    (b"probe", Named::OfUnits),
];

/// Appends a script of a job.
pub(crate) fn put_script(machine: &Machine, dice: &mut Dice, text: &mut Vec<u8>) {
    for _line in 0..dice.few(0, 24) {
        let place = dice.below(EVENTS.len() as u64) as usize;
        match EVENTS.get(place) {
            Some(&(word, named)) => put_event(machine, word, named, dice, text),
            None => {}
        }
    }
    put_line(text, b"stop", &[]);
}

/// Appends the line of a word; none where it is to name one of what there is none of.
fn put_event(machine: &Machine, word: &[u8], named: Named, dice: &mut Dice, text: &mut Vec<u8>) {
    let count = match named {
        Named::Nothing => return put_line(text, word, &[]),
        Named::OfGuests => machine.guests,
        Named::OfDisks => machine.disks,
        Named::OfStreams => machine.streams,
        Named::OfUnits => machine.units(),
    };
    if count > 0 {
        put_line(text, word, &[dice.edge(0, count.wrapping_sub(1))]);
    }
}

/// The events of a handover, each with whether a number follows.
const WORLD_EVENTS: &[(&[u8], bool)] = &[
    (b"write a", false),
    (b"write b", false),
    (b"image", true),
    (b"offer", false),
    (b"withdraw", false),
    (b"resend a", false),
    (b"resend b", false),
    (b"restart a", false),
    (b"restart b", false),
    (b"pass", true),
];

/// Appends a script of a handover.
pub(crate) fn put_world_script(dice: &mut Dice, text: &mut Vec<u8>) {
    for _line in 0..dice.few(0, 40) {
        let place = dice.below(WORLD_EVENTS.len() as u64) as usize;
        match WORLD_EVENTS.get(place) {
            Some(&(words, true)) => put_line(text, words, &[dice.edge(0, 4_294_967_295)]),
            Some(&(words, false)) => put_line(text, words, &[]),
            None => {}
        }
    }
    put_line(text, b"stop", &[]);
}
