//! The lines of a text, read one after another.

ghost use Rattle.std.specs.Prelude.{◌≡◌, ◌≤◌, ◌<◌, ◌+◌, ◌^◌, true, false, length, take, None, Some, IfOk, IfErr, OnOk};
ghost use Rattle.xv_base.specs.declared.text.TextError.TheVariants.{Fault};
ghost use Rattle.xv_text.specs.Lines.{fields, lines_of, has_rest, text_of};
ghost use Rattle.xv_text.specs.Reading.{Reader, first_fault, last_state, line_count, IfFault, Stops};

use crate::lines::next_line;
use std::alloc::Global;
use xv_base::{LineFault, LineWhy, TextError};

/// Why reading a line stops.
#[derive(Clone, Copy, Debug, PartialEq, Eq)]
pub enum Stop {
    /// The line is refused.
    Refused(LineWhy),
    /// Want of memory.
    NoMemory,
}

/// Where a text goes on: the number of bytes before, and the number of the next line.
#[derive(Clone, Copy, Debug, PartialEq, Eq)]
pub struct Place {
    pub byte: usize,
    pub line: u32,
}

/// Reads lines one after another, as the table of a text has it.
pub trait ReadsLines {
    /// What lines say.
    ghost State: { Type 0 };

    /// In which states the text is at its end, what is wrong with a line, and the state after it.
    ghost reader: { Self → Reader State };

    /// What the lines so far say.
    ghost state: { Self → State };

    /// What is known between two lines.
    ghost holds: { Self → Type 0 };

    /// Whether the text is at its end.
    fn is_ended(&self) -> bool
        ensures { result ≡ (reader self.now).is_ended (state self.now) };

    /// Reads a line.
    /// Errors: what is wrong with it; want of memory. Then nothing is known of what has been read.
    fn read_line(&mut self, alloc: Global, line: &[u8]) -> Result<(), Stop>
        requires holds { holds self.old }
        requires more { (reader self.old).is_ended (state self.old) ≡ false }
        ensures no_fault { OnOk result ((reader self.old).fault (state self.old) (fields line.now) ≡ None) }
        ensures next { OnOk result (state self.new ≡ (reader self.old).next (state self.old) (fields line.now)) }
        ensures reader { OnOk result (reader self.new ≡ reader self.old) }
        ensures holds { OnOk result (holds self.new) }
        ensures stopped { IfErr result (Stops ((reader self.old).fault (state self.old) (fields line.now))) };
}

/// Reads the lines of a text to its end, which may stand before other bytes, or, where it ends the input, may not. The
/// first line has the number `first_line`. It reads the text once, and takes memory by its reader alone.
/// Errors: the first fault of the lines; want of memory.
pub fn read_lines<R: ReadsLines>(
    alloc: Global,
    reader: &mut R,
    text: &[u8],
    first_line: u32,
    ends_input: bool,
) -> Result<Place, TextError>
    requires holds { R.holds reader.old }
    requires numbered { first_line + line_count (R.reader reader.old) (R.state reader.old) (lines_of text.now) < 2 ^ 32 }
    ensures no_fault { IfOk result (λ place. first_fault (R.reader reader.old) ends_input (R.state reader.old) first_line (lines_of text.now) (has_rest text.now) ≡ None) }
    ensures state { OnOk result (R.state reader.new ≡ last_state (R.reader reader.old) (R.state reader.old) (lines_of text.now)) }
    ensures holds { OnOk result (R.holds reader.new) }
    ensures line { IfOk result (λ place. place.line ≡ first_line + line_count (R.reader reader.old) (R.state reader.old) (lines_of text.now)) }
    ensures within { IfOk result (λ place. place.byte ≤ length text.now) }
    ensures front { IfOk result (λ place. take place.byte text.now ≡ text_of (take (line_count (R.reader reader.old) (R.state reader.old) (lines_of text.now)) (lines_of text.now))) }
    ensures fault { IfFault result (λ fault. first_fault (R.reader reader.old) ends_input (R.state reader.old) first_line (lines_of text.now) (has_rest text.now) ≡ Some fault) }
{
    let mut rest = text;
    let mut line = first_line;
    while !reader.is_ended() {
        let Some((here, behind)) = next_line(rest) else {
            return Err(at_line(line, LineWhy::Unended));
        };
        match reader.read_line(alloc, here) {
            Ok(()) => {}
            Err(Stop::Refused(why)) => return Err(at_line(line, why)),
            Err(Stop::NoMemory) => return Err(TextError::NoMemory),
        }
        rest = behind;
        line += 1;
    }
    if ends_input && !rest.is_empty() {
        return Err(at_line(line, LineWhy::Order));
    }
    Ok(Place {
        byte: text.len() - rest.len(),
        line,
    })
}

/// A fault at a line.
pub fn at_line(line: u32, why: LineWhy) -> TextError
    ensures { result ≡ Fault (record { line = line; why = why }) }
{
    TextError::Fault(LineFault { line, why })
}
