//! Inputs to their ends and texts to theirs, in pieces, with calls that fail, and over std.

use std::io;
use std::io::{Read, Write};
use std::test::Fail;
use xv_base::Failed;
use xv_io::{
    MemSink, MemSource, ReadAll, Sink, Source, StdSink, StdSource, WriteFault, read_all, write_text,
};

#[test]
fn reads_all_or_says_why(rt: HostRuntime) -> Result<(), Fail> {
    let alloc = rt.alloc();
    let text = b"0123456789a";
    for (length, piece, fails, limit, want) in [
        (0, 1, 0, 0, Ok(0)),
        (10, 4, 0, 10, Ok(10)),
        (11, 4, 0, 10, Err(ReadAll::TooLong)),
        (11, 1, 2, 10, Err(ReadAll::ReadFault)),
        (3, 1, 4, 10, Err(ReadAll::ReadFault)),
    ] {
        let mut source = MemSource::new(alloc, &text[..length], piece, &[fails])?;
        match read_all(alloc, &mut source, limit) {
            Ok(bytes) => {
                assert_eq!(rt; Ok(bytes.len()), want);
                assert_eq!(rt; bytes.as_slice(), &text[..length]);
            }
            Err(why) => assert_eq!(rt; Err(why), want, "at {length} bytes"),
        }
    }
    Ok(())
}

#[test]
fn writes_a_text_or_a_front_of_it(rt: HostRuntime) -> Result<(), Fail> {
    let alloc = rt.alloc();
    let text = b"begin 0 done 1\n";
    for (room, piece, fails, want, taken) in [
        (15, 4, 0, Ok(()), text.as_slice()),
        (5, 15, 0, Err(WriteFault), b"begin".as_slice()),
        (15, 1, 2, Err(WriteFault), b"b".as_slice()),
    ] {
        let mut sink = MemSink::new(alloc, room, piece, &[fails])?;
        assert_eq!(rt; write_text(&mut sink, text), want);
        assert_eq!(rt; sink.bytes(), taken);
    }
    Ok(())
}

#[test]
fn numbers_writes_and_flushes_together(rt: HostRuntime) -> Result<(), Fail> {
    let mut sink = MemSink::new(rt.alloc(), 5, 5, &[2])?;
    assert_eq!(rt; sink.write(b"ab"), Ok(2));
    assert_eq!(rt; sink.flush(), Err(Failed));
    assert_eq!(rt; sink.flush(), Ok(()));
    assert_eq!(rt; sink.bytes(), b"ab".as_slice());
    Ok(())
}

#[test]
fn goes_over_std(rt: HostRuntime) -> Result<(), Fail> {
    let alloc = rt.alloc();
    let mut source = StdSource::new(b"abc".as_slice());
    assert_eq!(rt;
        read_all(alloc, &mut source, 3)?.as_slice(),
        b"abc".as_slice()
    );

    let mut endless = StdSource::new(io::repeat(7));
    let Err(why) = read_all(alloc, &mut endless, 100_000) else {
        return Err(Failed)?;
    };
    assert_eq!(rt; why, ReadAll::TooLong);

    let mut text = Vec::new(alloc);
    let mut sink = StdSink::new(&mut text);
    assert_eq!(rt; write_text(&mut sink, b"abc"), Ok(()));
    assert_eq!(rt; sink.flush(), Ok(()));
    assert_eq!(rt; text.as_slice(), b"abc".as_slice());

    let mut full = [0u8; 2];
    let mut sink = StdSink::new(full.as_mut_slice());
    assert_eq!(rt; write_text(&mut sink, b"abc"), Err(WriteFault));
    assert_eq!(rt; full.as_slice(), b"ab".as_slice());
    Ok(())
}

// A writer that counts its flushes.
#[derive(Drop)]
struct Flushes<'a>(&'a mut u32);

impl Write for Flushes<'_> {
    fn write(&mut self, bytes: &[u8]) -> io::Result<usize> {
        Ok(bytes.len())
    }

    fn flush(&mut self) -> io::Result<()> {
        *self.0 = self.0.saturating_add(1);
        Ok(())
    }
}

#[test]
fn hands_a_flush_on(rt: HostRuntime) {
    let mut count = 0;
    assert_eq!(rt; StdSink::new(Flushes(&mut count)).flush(), Ok(()));
    assert_eq!(rt; count, 1);
}

// A reader and a writer whose calls all fail.
#[derive(Drop)]
struct Broken;

impl Read for Broken {
    fn read(&mut self, _into: &mut [u8]) -> io::Result<usize> {
        Err(io::Error::from(io::ErrorKind::Other))
    }
}

impl Write for Broken {
    fn write(&mut self, _bytes: &[u8]) -> io::Result<usize> {
        Err(io::Error::from(io::ErrorKind::Other))
    }

    fn flush(&mut self) -> io::Result<()> {
        Err(io::Error::from(io::ErrorKind::Other))
    }
}

#[test]
fn tells_the_faults_of_std(rt: HostRuntime) {
    let mut source = StdSource::new(Broken);
    assert_eq!(rt; source.read(&mut [0; 4]), Err(Failed));
    assert_eq!(rt;
        read_all(rt.alloc(), &mut source, 3).err(),
        Some(ReadAll::ReadFault)
    );
    let mut sink = StdSink::new(Broken);
    assert_eq!(rt; sink.write(b"abc"), Err(Failed));
    assert_eq!(rt; write_text(&mut sink, b"abc"), Err(WriteFault));
    assert_eq!(rt; sink.flush(), Err(Failed));
}
