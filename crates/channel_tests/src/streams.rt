//! A reader that fails, and writers that take one byte, are interrupted or fail, as a source and a sink.
use gfx_base::{Failed, Sink, Source, write_all};
use gfx_streams::{StdSink, StdSource};
use std::io;
use std::io::{Error, ErrorKind, Read, Write};

/// A reader that gives its count of calls, is interrupted at the second and fails at the third.
#[derive(Drop)]
struct Counting {
    calls: u8,
}

impl Read for Counting {
    fn read(&mut self, buf: &mut [u8]) -> io::Result<usize> {
        self.calls = self.calls.saturating_add(1);
        if self.calls == 2 {
            return Err(Error::from(ErrorKind::Interrupted));
        }
        if self.calls == 3 {
            return Err(Error::from(ErrorKind::BrokenPipe));
        }
        if buf.is_empty() {
            return Ok(0);
        }
        buf[0] = self.calls;
        Ok(1)
    }
}

#[test]
fn a_failed_read_is_no_end(rt: HostRuntime) {
    let mut source = StdSource::new(Counting { calls: 0 });
    let mut buffer = [0; 4];
    assert_eq!(rt; source.read(&mut buffer), Ok(1));
    assert_eq!(rt; buffer[0], 1);
    assert_eq!(rt; source.read(&mut buffer), Err(Failed));
    assert_eq!(rt; source.read(&mut buffer), Ok(1));
    assert_eq!(rt; buffer[0], 4);
}

/// A writer that takes one byte a call, nothing at the fifth, and can't be flushed.
#[derive(Drop)]
struct Narrow {
    calls: u8,
}

impl Write for Narrow {
    fn write(&mut self, buf: &[u8]) -> io::Result<usize> {
        self.calls = self.calls.saturating_add(1);
        if self.calls == 5 {
            return Ok(0);
        }
        Ok(buf.len().min(1))
    }

    fn flush(&mut self) -> io::Result<()> {
        Err(Error::from(ErrorKind::BrokenPipe))
    }
}

#[test]
fn a_short_write_is_gone_on_with(rt: HostRuntime) {
    let mut sink = StdSink::new(Narrow { calls: 0 });
    assert_eq!(rt; write_all(&mut sink, b"four"), Ok(()));
    assert_eq!(rt; write_all(&mut sink, b"more"), Err(Failed));
    assert_eq!(rt; sink.flush(), Err(Failed));
}

/// A writer that is interrupted at its first call, fails at the third, takes all at each other one, and can be flushed
/// once.
#[derive(Drop)]
struct Breaking {
    calls: u8,
    flushed: bool,
}

impl Write for Breaking {
    fn write(&mut self, buf: &[u8]) -> io::Result<usize> {
        self.calls = self.calls.saturating_add(1);
        match self.calls {
            1 => Err(Error::from(ErrorKind::Interrupted)),
            3 => Err(Error::from(ErrorKind::BrokenPipe)),
            _ => Ok(buf.len()),
        }
    }

    fn flush(&mut self) -> io::Result<()> {
        if self.flushed {
            return Err(Error::from(ErrorKind::BrokenPipe));
        }
        self.flushed = true;
        Ok(())
    }
}

/// The sink of such a writer.
fn failing_sink() -> StdSink<Breaking> {
    StdSink::new(Breaking {
        calls: 0,
        flushed: false,
    })
}

#[test]
fn an_interrupted_write_is_tried_again(rt: HostRuntime) {
    let mut sink = failing_sink();
    assert_eq!(rt; sink.write(b"four"), Ok(4));
}

#[test]
fn a_failed_write_is_not_tried_again(rt: HostRuntime) {
    let mut sink = failing_sink();
    assert_eq!(rt; write_all(&mut sink, b"four"), Ok(()));
    assert_eq!(rt; write_all(&mut sink, b"more"), Err(Failed));
    assert_eq!(rt; write_all(&mut sink, b"last"), Ok(()));
}

#[test]
fn a_failed_flush_is_told(rt: HostRuntime) {
    let mut sink = failing_sink();
    assert_eq!(rt; sink.flush(), Ok(()));
    assert_eq!(rt; sink.flush(), Err(Failed));
}
