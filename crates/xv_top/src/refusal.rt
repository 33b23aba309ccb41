//! How words and inputs are refused.

ghost use Rattle.std.specs.Prelude.{◌≡◌, ◌⊎◌, ◌≤◌, ◌+◌, ◌++◌, length, codes, decimal};
ghost use Rattle.xv_top.specs.Refused.{why_words, refused_line};
ghost use Rattle.xv_top.specs.Outcome.{OnInput, ReadsNothing, WritesAll, WritesFront, output_over, outcome};
ghost use Rattle.xv_top.specs.Promises.{WordsPromise};
ghost use Rattle.xv_top.specs.declared.program.Left.TheVariants.{Nothing};

use crate::output::write_out;
use xv_base::{LineBuf, LineFault, LineWhy, Status};
use xv_io::Sink;

/// Writes that the words call no command.
pub fn refuse_words<O: Sink>(output: &mut O) -> Status
    ensures { (input : OnInput) → ReadsNothing input → WordsPromise (outcome input (output_over O.taken O.faults O.keeps_back output.old output.new) result Nothing) }
{
    match write_out(output, b"refused words\n") {
        Ok(()) => Status::BadWords,
        Err(_) => Status::WriteFault,
    }
}

/// Writes why an input is refused.
pub fn refuse_input<O: Sink>(fault: LineFault, output: &mut O) -> Status
    ensures answers { (result ≡ Status.BadInput) ⊎ (result ≡ Status.WriteFault) }
    ensures whole { result ≡ Status.BadInput → WritesAll (output_over O.taken O.faults O.keeps_back output.old output.new) (refused_line fault) }
    ensures front { result ≡ Status.WriteFault → WritesFront (output_over O.taken O.faults O.keeps_back output.old output.new) (refused_line fault) }
{
    match write_out(output, print_refusal(fault).bytes()) {
        Ok(()) => Status::BadInput,
        Err(_) => Status::WriteFault,
    }
}

/// The line that refuses an input. Takes no memory.
fn print_refusal(fault: LineFault) -> LineBuf
    ensures { result ≡ refused_line fault }
{
    let mut line = LineBuf::new();
    line.push_all(b"refused line ");
    line.push_number(fault.line);
    line.push(b' ');
    push_why(&mut line, fault.why);
    line.push(b'\n');
    line
}

fn push_why(line: &mut LineBuf, why: LineWhy)
    requires { length line.old ≤ 100 }
    ensures exactly { line.new ≡ line.old ++ why_words why }
    ensures few { length line.new ≤ length line.old + 20 }
{
    match why {
        LineWhy::Unended => line.push_all(b"unended"),
        LineWhy::BadWord => line.push_all(b"bad-word"),
        LineWhy::Order => line.push_all(b"order"),
        LineWhy::BadNumber => line.push_all(b"bad-number"),
        LineWhy::BadHex => line.push_all(b"bad-hex"),
        LineWhy::Limit(limit) => push_limit(line, limit),
        LineWhy::OutOfRange => line.push_all(b"out-of-range"),
        LineWhy::CrossesPage => line.push_all(b"crosses-page"),
        LineWhy::TooMany => line.push_all(b"too-many"),
    }
}

fn push_limit(line: &mut LineBuf, limit: u8)
    requires { length line.old ≤ 100 }
    ensures exactly { line.new ≡ line.old ++ (codes "limit " ++ decimal limit) }
    ensures few { length line.new ≤ length line.old + 16 }
{
    line.push_all(b"limit ");
    line.push_number(u32::from(limit));
}
