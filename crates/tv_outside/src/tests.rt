//! What no clause says: that calls succeed where memory is ample, and what std's own readers and writers do below.
//! The expected values are counted by hand.

ghost use Rattle.std.specs.Prelude.{◌<◌, ◌^◌};

use crate::{
    Failed, MemSink, MemSource, ReadEnd, Sink, Source, StdSink, StdSource, read_all, write_all,
};
use std::alloc::Global;
use std::fmt::Display;
use std::io;
use std::io::{ErrorKind, Read, Write};
use std::test::Fail;

// A write beyond the room takes what fits, and the next one fails.
fn fills(sink: &mut MemSink) -> bool {
    sink.write(b"abcdef") == Ok(4)
        && sink.write(b"") == Ok(0)
        && sink.faults() == 0
        && sink.write(b"ef") == Err(Failed)
        && sink.faults() == 1
}

#[test]
fn a_sink_takes_what_it_has_room_for(rt: HostRuntime) -> Result<(), Fail> {
    let mut sink = MemSink::new(rt.alloc(), 4, 10, Vec::new(rt.alloc()))?;
    assert!(rt; fills(&mut sink));
    assert!(rt; sink.bytes() == b"abcd".as_slice());
    Ok(())
}

// Whether the read gives these bytes.
fn gives(source: &mut MemSource, want: &[u8]) -> bool {
    let mut buf = [0; 32];
    source.read(&mut buf) == Ok(want.len()) && buf.starts_with(want)
}

#[test]
fn a_source_fails_at_the_listed_read_alone(rt: HostRuntime) -> Result<(), Fail> {
    let alloc = rt.alloc();
    let fails = vec![in alloc; 1]?;
    let mut source = MemSource::new(b"0123456789abcdefwxyz".to_vec(alloc)?, 16, fails);
    assert!(rt; gives(&mut source, b"0123456789abcdef"));
    assert!(rt; source.read(&mut [0; 32]) == Err(Failed) && source.faults() == 1);
    assert!(rt; gives(&mut source, b"wxyz"));
    assert!(rt; gives(&mut source, b"") && source.faults() == 1);
    Ok(())
}

// Whether all that is read, at most `limit` bytes, is this text.
fn reads<S: Source>(alloc: Global, source: &mut S, limit: usize, want: &[u8]) -> bool
    requires { limit < 2 ^ 32 }
{
    match read_all(alloc, source, limit) {
        Ok(bytes) => bytes.as_slice() == want,
        Err(_) => false,
    }
}

#[test]
fn reads_end_at_the_limit(rt: HostRuntime) -> Result<(), Fail> {
    let alloc = rt.alloc();
    let mut source = MemSource::new(b"abcdefgh".to_vec(alloc)?, 3, Vec::new(alloc));
    assert!(rt; read_all(alloc, &mut source, 4) == Err(ReadEnd::TooLong));
    assert!(rt; reads(alloc, &mut source, 3, b"fgh"));
    Ok(())
}

#[test]
fn reads_end_at_a_fault(rt: HostRuntime) -> Result<(), Fail> {
    let alloc = rt.alloc();
    let mut source = MemSource::new(b"abcdefgh".to_vec(alloc)?, 3, vec![in alloc; 1]?);
    assert!(rt; read_all(alloc, &mut source, 8) == Err(ReadEnd::Fault) && source.faults() == 1);
    assert!(rt; reads(alloc, &mut source, 8, b"defgh"));
    Ok(())
}

const TEXT: &[u8] = b"0123456789abcdefwxyz";

#[test]
fn writes_end_at_a_fault(rt: HostRuntime) -> Result<(), Fail> {
    let mut sink = MemSink::new(rt.alloc(), 32, 10, vec![in rt.alloc(); 1]?)?;
    assert!(rt; write_all(&mut sink, TEXT) == Err(Failed) && sink.faults() == 1);
    assert!(rt; sink.bytes() == b"0123456789".as_slice());
    Ok(())
}

// Two writes carry the text, so the third, which is listed, never comes.
#[test]
fn writes_offer_all_that_is_not_taken(rt: HostRuntime) -> Result<(), Fail> {
    let mut sink = MemSink::new(rt.alloc(), 32, 10, vec![in rt.alloc(); 2]?)?;
    assert!(rt; write_all(&mut sink, TEXT) == Ok(()));
    assert!(rt; sink.bytes() == TEXT);
    Ok(())
}

#[test]
fn std_readers_are_carried_over(rt: HostRuntime) {
    let mut source = StdSource::new(b"abc".as_slice());
    assert!(rt; reads(rt.alloc(), &mut source, 3, b"abc"));
}

#[test]
fn std_writers_are_carried_over(rt: HostRuntime) {
    let mut held = Vec::new(rt.alloc());
    assert!(rt; write_all(&mut StdSink::new(&mut held), b"abc") == Ok(()));
    assert!(rt; held.as_slice() == b"abc".as_slice());
}

// A reader and a writer of std that err `errs` times, then take nothing `stalls` times, then give or take three bytes. It
// counts how often it was asked, and a flush errs before anything was written, and always where the writer is closed.
#[derive(Drop)]
struct Shaky {
    errs: u32,
    stalls: u32,
    calls: u32,
    flushes: u32,
    written: bool,
    closed: bool,
}

fn failing_first(errs: u32, stalls: u32) -> Shaky {
    Shaky {
        errs,
        stalls,
        calls: 0,
        flushes: 0,
        written: false,
        closed: false,
    }
}

impl Read for Shaky {
    fn read(&mut self, buf: &mut [u8]) -> io::Result<usize> {
        self.calls = self.calls.saturating_add(1);
        let count = buf.len().min(3);
        // An error of std may leave anything in the buffer.
        buf[..count].fill(b'x');
        if self.calls <= self.errs {
            return Err(io::Error::from(ErrorKind::Interrupted));
        }
        Ok(count)
    }
}

impl Write for Shaky {
    fn write(&mut self, buf: &[u8]) -> io::Result<usize> {
        self.calls = self.calls.saturating_add(1);
        if self.calls <= self.errs {
            return Err(io::Error::from(ErrorKind::Interrupted));
        }
        self.written = true;
        if self.calls <= self.stalls {
            return Ok(0);
        }
        Ok(buf.len().min(3))
    }

    fn flush(&mut self) -> io::Result<()> {
        self.flushes = self.flushes.saturating_add(1);
        if self.written && !self.closed {
            Ok(())
        } else {
            Err(io::Error::from(ErrorKind::BrokenPipe))
        }
    }
}

// A read that fails and leaves the buffer alone, and one that gives three bytes: two calls of the source, and one fault.
fn gives_at_the_second_call(reader: &mut Shaky) -> bool {
    let mut source = StdSource::new(reader);
    let mut buf = [7; 4];
    source.read(&mut buf) == Err(Failed)
        && buf == [7; 4]
        && source.read(&mut buf) == Ok(3)
        && source.calls() == 2
        && source.faults() == 1
}

// A write that fails, and one that takes three bytes: two calls of the sink, and one fault.
fn takes_at_the_second_call(writer: &mut Shaky) -> bool {
    let mut sink = StdSink::new(writer);
    sink.write(b"abc") == Err(Failed)
        && sink.write(b"abcd") == Ok(3)
        && sink.calls() == 2
        && sink.faults() == 1
}

// One read is one call of the reader: the first, which errs, is Failed with one fault, and only the next one gives bytes.
#[test]
fn a_reader_that_errs_once_is_not_asked_again(rt: HostRuntime) {
    let mut reader = failing_first(1, 0);
    assert!(rt; gives_at_the_second_call(&mut reader));
    assert!(rt; reader.calls == 2);
}

// So is a write, whether the writer errs or takes nothing, and its flush comes after it.
#[test]
fn a_writer_that_errs_once_is_not_asked_again(rt: HostRuntime) {
    let mut writer = failing_first(1, 0);
    assert!(rt; takes_at_the_second_call(&mut writer));
    assert!(rt; writer.calls == 2 && writer.flushes == 1);
}

#[test]
fn a_writer_that_stalls_once_is_not_asked_again(rt: HostRuntime) {
    let mut writer = failing_first(0, 1);
    assert!(rt; takes_at_the_second_call(&mut writer));
    assert!(rt; writer.calls == 2 && writer.flushes == 2);
}

#[test]
fn a_flush_that_fails_is_a_fault(rt: HostRuntime) {
    let mut writer = failing_first(0, 0);
    writer.closed = true;
    assert!(rt; write_all(&mut StdSink::new(&mut writer), b"abc") == Err(Failed));
}

#[test]
fn a_reader_that_errs_ends_the_reading(rt: HostRuntime) {
    let mut source = StdSource::new(failing_first(1, 0));
    assert!(rt; read_all(rt.alloc(), &mut source, 3) == Err(ReadEnd::Fault));
}

fn says<T: Display>(alloc: Global, error: &T, text: &str) -> bool {
    match format!(in alloc; "{error}") {
        Ok(shown) => shown.as_str() == text,
        Err(_) => false,
    }
}

#[test]
fn errors_say_what_happened(rt: HostRuntime) {
    let alloc = rt.alloc();
    assert!(rt; says(alloc, &Failed, "a read or a write failed"));
    assert!(rt; says(alloc, &ReadEnd::TooLong, "the input is too long"));
    assert!(rt; says(alloc, &ReadEnd::Fault, "a read failed"));
    assert!(rt; says(alloc, &ReadEnd::Memory, "out of memory"));
}
