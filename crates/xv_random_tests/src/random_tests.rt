//! Texts of random numbers with up to three mutations, each read, and read again as its first lines and in pieces.

use crate::dice::Dice;
use crate::jobs::put_job;
use crate::mutations::mutated;
use crate::reading::{Found, Kind, check};
use crate::scripts::{put_script, put_world_script};
use crate::tally::{Fate, Tally};
use std::alloc::Global;
use std::process::Abort;
use xv_base::TextError;

/// How many texts of each kind are made, of the numbers from `FIRST` on. By hand any will do: a built test takes a second
/// for 25,000, and a run of unproved sources a minute for 200. A number that a failure names is told again as `FIRST`, alone.
const CASES: u64 = 5000;

const FIRST: u64 = 0;

/// The text of a number.
fn text_of(alloc: Global, kind: Kind, number: u64) -> Vec<u8> {
    let mut dice = Dice::new(number);
    let mut text = Vec::new(alloc);
    match kind {
        Kind::Input => {
            let machine = put_job(alloc, &mut dice, &mut text);
            put_script(&machine, &mut dice, &mut text);
        }
        Kind::World => put_world_script(&mut dice, &mut text),
    }
    for _mutation in 0..dice.below(4) {
        text = mutated(alloc, &mut dice, &text);
    }
    text
}

/// What is wrong with the text of a number, and the first law that it breaks.
fn outcome(alloc: Global, kind: Kind, number: u64) -> (Option<TextError>, Found) {
    let text = text_of(alloc, kind, number);
    check(alloc, kind, &text)
}

/// How many texts of a kind have which fate. Each keeps the laws.
fn tally_of(rt: &impl Abort, alloc: Global, kind: Kind) -> Tally {
    let mut tally = Tally::new();
    for number in FIRST..FIRST + CASES {
        let (fault, found) = outcome(alloc, kind, number);
        assert_eq!(rt; found, Found::AllWell, "of {number}, {fault:?}");
        tally.count(fault);
    }
    tally
}

/// A fate and a number: one in so many texts has that fate at least.
type Floor = (Fate, u64);

/// A quarter of the inputs has no mutation and is read, but for less than an eighth of these whose operations are too many.
/// The other floors follow from the quarter with one mutation alone, which is of each of six kinds equally often: one input
/// in 24 is cut, one in 24 has another byte, and so on, at any place in three of four. A third of the bytes at least is of
/// words, and a tenth each of numbers and of patterns; half of the other bytes are wrong there. Of the lines that are dropped
/// or exchanged a fifth is of the head, where each line has its place. Of the numbers a fifth has a limit and as many name
/// something, and a tenth are lengths of stores and loads; half of the numbers that are set are too great. Operations are too
/// many on the one machine in eight with a vast disk, where one write in four goes to its end, as soon as there is another
/// large one. So they have one in 24, 192, 80, 640, 640, 320, 320, 640 and, with one job of four that has two such writes,
/// one in 32 at least. A floor is half of that at most, as other faults may come before.
const INPUT_FLOORS: &[Floor] = &[
    (Fate::Read, 10),
    (Fate::Refused, 10),
    (Fate::Unended, 100),
    (Fate::BadWord, 500),
    (Fate::Order, 250),
    (Fate::BadNumber, 1600),
    (Fate::BadHex, 1600),
    (Fate::Limit, 800),
    (Fate::OutOfRange, 800),
    (Fate::CrossesPage, 1600),
    (Fate::TooMany, 800),
];

/// Each script of a handover without a mutation is read. One in 24 is cut alone, one in 24 has another byte alone, which is
/// mostly of a word, and one in 24 another number, which is past its limit in half of these, where there is one at all. In
/// one in 24 a line is doubled, which is `stop` in one of eight and more, behind which a line then stands.
const WORLD_FLOORS: &[Floor] = &[
    (Fate::Read, 10),
    (Fate::Refused, 10),
    (Fate::Unended, 100),
    (Fate::BadWord, 200),
    (Fate::Order, 800),
    (Fate::BadNumber, 500),
];

/// Asserts that no fate is rarer than its floor.
fn assert_floors(rt: &impl Abort, tally: &Tally, floors: &[Floor]) {
    for &(fate, share) in floors {
        let least = CASES / share.max(1);
        assert!(rt; tally.of(fate) >= least, "{fate:?} of {tally:?}");
    }
}

#[test]
fn inputs_keep_the_laws(rt: HostRuntime) {
    let tally = tally_of(&rt, rt.alloc(), Kind::Input);
    assert_floors(&rt, &tally, INPUT_FLOORS);
}

#[test]
fn scripts_of_a_handover_keep_the_laws(rt: HostRuntime) {
    let tally = tally_of(&rt, rt.alloc(), Kind::World);
    assert_floors(&rt, &tally, WORLD_FLOORS);
}
