//! A text as a whole.

ghost use Rattle.std.specs.Prelude.{◌≡◌, OnOk, OnErr};
ghost use Rattle.xv_base.specs.Calls.{CountRose};
ghost use Rattle.xv_io.specs.Io.{TookFront, TookMore};

use crate::sink::Sink;

/// A write failed, and a front of the text has been taken.
#[derive(Clone, Copy, Debug, PartialEq, Eq)]
pub struct WriteFault;

/// Writes all of the text, by as many writes as it takes. Takes no memory.
///
/// Errors: `WriteFault` where a write failed; the bytes taken are then a front of the text.
pub fn write_text<O: Sink>(sink: &mut O, text: &[u8]) -> Result<(), WriteFault>
    ensures whole { OnOk result (TookMore (O.taken sink.old) (O.taken sink.new) text.now) }
    ensures fault { OnErr result (CountRose (O.faults sink.old) (O.faults sink.new)) }
    ensures quiet { OnOk result (O.faults sink.new ≡ O.faults sink.old) }
    ensures front { TookFront (O.taken sink.old) (O.taken sink.new) text.now }
{
    let mut done = 0;
    while done < text.len() {
        match sink.write(&text[done..]) {
            Ok(n) => done += n,
            Err(_) => return Err(WriteFault),
        }
    }
    Ok(())
}
