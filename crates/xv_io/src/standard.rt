//! The trusted edge: a source and a sink over std's readers and writers.

ghost use Rattle.std.specs.Prelude.{◌≡◌, ◌<◌, ◌≤◌, true, false, length, IfOk, OnOk, OnErr};
ghost use Rattle.std.specs.Io.KnownBytes.{Keeps, ReadConsumes, WriteAppends};
ghost use Rattle.xv_base.specs.Calls.{next_count};

use crate::sink::Sink;
use crate::source::Source;
use std::io::{Read, Write};
use xv_base::{Failed, one_more};

/// The input of a std reader. It does not tell its bytes.
#[derive(Drop)]
pub struct StdSource<X> {
    reader: X,
    faults: u64,
}

impl<X> StdSource<X> {
    pub fn new(reader: X) -> StdSource<X>
        ensures reader { result.reader ≡ reader }
        ensures faults { result.faults ≡ 0 }
    {
        StdSource { reader, faults: 0 }
    }
}

impl<X: Read> Source for StdSource<X> {
    ghost use Rattle.std.specs.Prelude.{None};

    ghost left = { λ _. None };

    ghost faults = { λ s. s.faults };

    /// One read of std's, which gives what the reader has left. An error of it is a fault.
    fn read(&mut self, into: &mut [u8]) -> Result<usize, Failed>
        ensures fits { IfOk result (λ n. n ≤ length into.old) }
        ensures gives { ReadConsumes (X.remaining self.old.reader) (X.remaining self.new.reader) result into.new }
        ensures failed { OnErr result (self.new.faults ≡ next_count self.old.faults) }
        ensures quiet { OnOk result (self.new.faults ≡ self.old.faults) }
    {
        match self.reader.read(into) {
            Ok(n) => Ok(n),
            Err(_) => {
                self.faults = one_more(self.faults);
                Err(Failed)
            }
        }
    }
}

/// The output of a std writer. It does not tell its bytes. What the writer keeps back is not known, so it may be
/// all that was written since the last flush that did not fail.
#[derive(Drop)]
pub struct StdSink<X> {
    writer: X,
    faults: u64,
    unflushed: bool,
}

impl<X> StdSink<X> {
    pub fn new(writer: X) -> StdSink<X>
        ensures writer { result.writer ≡ writer }
        ensures faults { result.faults ≡ 0 }
        ensures unflushed { result.unflushed ≡ true }
    {
        StdSink {
            writer,
            faults: 0,
            unflushed: true,
        }
    }
}

impl<X: Write> Sink for StdSink<X> {
    ghost use Rattle.std.specs.Prelude.{None};

    ghost taken = { λ _. None };

    ghost faults = { λ s. s.faults };

    ghost keeps_back = { λ s. s.unflushed };

    /// One write of std's. An error of it is a fault, and so is a write that takes nothing.
    fn write(&mut self, bytes: &[u8]) -> Result<usize, Failed>
        ensures some { IfOk result (λ n. 0 < n) }
        ensures fits { IfOk result (λ n. n ≤ length bytes.now) }
        ensures takes { WriteAppends (X.contents self.old.writer) (X.contents self.new.writer) result bytes.now }
        ensures keeps { self.new.unflushed ≡ true }
        ensures failed { OnErr result (self.new.faults ≡ next_count self.old.faults) }
        ensures quiet { OnOk result (self.new.faults ≡ self.old.faults) }
    {
        self.unflushed = true;
        match self.writer.write(bytes) {
            Ok(n) if n > 0 => Ok(n),
            _ => {
                self.faults = one_more(self.faults);
                Err(Failed)
            }
        }
    }

    /// One flush of std's. An error of it is a fault.
    fn flush(&mut self) -> Result<(), Failed>
        ensures stays { Keeps (X.contents self.old.writer) (X.contents self.new.writer) }
        ensures all { OnOk result (self.new.unflushed ≡ false) }
        ensures failed { OnErr result (self.new.faults ≡ next_count self.old.faults) }
        ensures quiet { OnOk result (self.new.faults ≡ self.old.faults) }
    {
        match self.writer.flush() {
            Ok(()) => {
                self.unflushed = false;
                Ok(())
            }
            Err(_) => {
                self.faults = one_more(self.faults);
                Err(Failed)
            }
        }
    }
}
