//! The text of a script, read.

ghost use Rattle.std.specs.Prelude.{◌≡◌, ◌≢◌, ◌<◌, ◌+◌, ◌^◌, List, length, None, Some, IfOk, IfErr};
ghost use Rattle.xv_text.specs.Lines.{whole_lines, fields};
ghost use Rattle.xv_text.specs.Reading.{IfFault};
ghost use Rattle.xv_job.specs.Written.{job_of};
ghost use Rattle.xv_script.specs.Words.{named, line_said};
ghost use Rattle.xv_script.specs.Lines.{script_text};
ghost use Rattle.xv_script.specs.Script.{counts_of, count_of, line_fault, line_in, text_fault, text_lines, IsScriptOf};
ghost use Rattle.xv_script.specs.declared.line.Line.{Line as LineRecord};

use crate::counts::{Counts, counts_of};
use crate::line::Line;
use crate::word::{Word, word_of};
use std::alloc::Global;
use xv_base::{Event, GuestId, LineWhy, TextError, UnitId};
use xv_job::Job;
use xv_text::{ReadsLines, Stop, first_field, read_fields, read_lines};

/// The lines of a script of a job, to its line `stop`, which ends the text. The first line of the text has the
/// number `first_line`; with the line feeds of the text it comes to less than 2^32.
/// Errors: the first faulty line, and the first reason why it is refused; want of memory.
pub fn read_events(
    alloc: Global,
    job: &Job,
    text: &[u8],
    first_line: u32,
) -> Result<Vec<Line>, TextError>
    requires { first_line + length (whole_lines text.now) < 2 ^ 32 }
    ensures fault { IfFault result (λ fault. text_fault (counts_of (job_of job.now)) first_line text.now ≡ Some fault) }
    ensures no_fault { IfOk result (λ lines. text_fault (counts_of (job_of job.now)) first_line text.now ≡ None) }
    ensures lines { IfOk result (λ lines. lines.items ≡ text_lines (counts_of (job_of job.now)) text.now) }
    ensures text { IfOk result (λ lines. text.now ≡ script_text lines.items) }
    ensures script { IfOk result (λ lines. IsScriptOf (job_of job.now) lines.items) }
    ensures only { IfOk result (λ found. (lines : List LineRecord) → IsScriptOf (job_of job.now) lines → text.now ≡ script_text lines → found.items ≡ lines) }
    ensures refused { IfFault result (λ fault. (lines : List LineRecord) → IsScriptOf (job_of job.now) lines → text.now ≢ script_text lines) }
{
    read_counted(alloc, counts_of(job), text, first_line)
}

/// The lines of a script where there are so many of what its lines name.
pub(crate) fn read_counted(
    alloc: Global,
    counts: Counts,
    text: &[u8],
    first_line: u32,
) -> Result<Vec<Line>, TextError>
    requires { first_line + length (whole_lines text.now) < 2 ^ 32 }
    ensures fault { IfFault result (λ fault. text_fault counts first_line text.now ≡ Some fault) }
    ensures no_fault { IfOk result (λ lines. text_fault counts first_line text.now ≡ None) }
    ensures lines { IfOk result (λ lines. lines.items ≡ text_lines counts text.now) }
{
    let mut read = LinesRead {
        counts,
        lines: Vec::new(alloc),
        is_stopped: false,
    };
    match read_lines(alloc, &mut read, text, first_line, true) {
        Ok(_) => Ok(read.lines),
        Err(error) => Err(error),
    }
}

/// A script as far as its lines have been read, where there are so many of what its lines name.
#[derive(Drop)]
struct LinesRead {
    counts: Counts,
    lines: Vec<Line>,
    is_stopped: bool,
}

impl ReadsLines for LinesRead {
    ghost use Rattle.xv_script.specs.Script.{Script, reader as script_table};

    ghost State = { Script };

    ghost reader = { λ r. script_table r.counts };

    ghost state = { λ r. record { lines = r.lines.items; stopped = r.is_stopped } };

    ghost holds = { λ r. Unit {0} };

    fn is_ended(&self) -> bool {
        self.is_stopped
    }

    fn read_line(&mut self, _alloc: Global, line: &[u8]) -> Result<(), Stop> {
        match read_line(self.counts, line) {
            Ok(Some(line)) => match self.lines.push(line) {
                Ok(()) => Ok(()),
                Err(_) => Err(Stop::NoMemory),
            },
            Ok(None) => {
                self.is_stopped = true;
                Ok(())
            }
            Err(why) => Err(Stop::Refused(why)),
        }
    }
}

/// What a line says; none where it is `stop`.
/// Errors: the first reason why the line is refused.
fn read_line(counts: Counts, line: &[u8]) -> Result<Option<Line>, LineWhy>
    ensures no_fault { IfOk result (λ found. line_fault counts (fields line.now) ≡ None) }
    ensures line { IfOk result (λ found. line_in (fields line.now) ≡ found) }
    ensures fault { IfErr result (λ why. line_fault counts (fields line.now) ≡ Some why) }
{
    let (first, args) = first_field(line);
    let Some(word) = word_of(first) else {
        return Err(LineWhy::BadWord);
    };
    let row = match read_fields(word.named().kinds(), &args) {
        Ok(row) => row,
        Err(why) => return Err(why),
    };
    let n = row.number(0);
    if n >= counts.of(word.named()) {
        return Err(LineWhy::OutOfRange);
    }
    Ok(line_said(counts, word, n))
}

/// The line that a word says with the number of something that is there; none where the script stops.
fn line_said(counts: Counts, word: Word, n: u32) -> Option<Line>
    requires { n < count_of counts (named word) }
    ensures { result ≡ line_said word n }
{
    match word {
        Word::Guest => Some(Line::Step(Event::Guest(GuestId(n as u8)))),
        Word::Begin => Some(Line::Step(Event::Begin(n as u8))),
        Word::Read => Some(Line::Step(Event::Read(n as u8))),
        Word::Advance => Some(Line::Step(Event::Advance(n as u8))),
        Word::Release => Some(Line::Step(Event::Release(n as u8))),
        Word::Round => Some(Line::Step(Event::Round)),
        Word::Page => Some(Line::Step(Event::Page)),
        Word::Send => Some(Line::Step(Event::Send(n as u8))),
        Word::Deliver => Some(Line::Step(Event::Deliver(n as u8))),
        Word::Apply => Some(Line::Step(Event::Apply)),
        Word::Ack => Some(Line::Step(Event::Ack)),
        Word::Credit => Some(Line::Step(Event::Credit)),
        Word::Stun => Some(Line::Step(Event::Stun)),
        Word::Switch => Some(Line::Step(Event::Switch)),
        Word::Cancel => Some(Line::Step(Event::Cancel)),
        Word::Probe => Some(Line::Ask(UnitId(n))),
        Word::Stop => None,
    }
}
