//! Writers that take part of the bytes, are interrupted, or fail.
use crate::{Sink, Stream};
use std::io;
use std::io::{ErrorKind, Write};

/// Takes one byte a call, and returns an error of its kind at each of the calls from `fails_from` on and before `fails_to`, counted
/// from 1. If it takes no byte, it returns 0 instead of an error.
#[derive(Drop)]
struct Narrow {
    bytes: Vec<u8>,
    calls: u32,
    fails_from: u32,
    fails_to: u32,
    kind: ErrorKind,
}

impl Narrow {
    fn new(rt: &HostRuntime, fails_from: u32, fails_to: u32, kind: ErrorKind) -> Narrow {
        Narrow {
            bytes: Vec::new(rt.alloc()),
            calls: 0,
            fails_from,
            fails_to,
            kind,
        }
    }
}

impl Write for Narrow {
    fn write(&mut self, buf: &[u8]) -> io::Result<usize> {
        match self.flush() {
            Ok(()) => self.bytes.write(&buf[..buf.len().min(1)]),
            Err(error) if error.kind() == ErrorKind::WriteZero => Ok(0),
            Err(error) => Err(error),
        }
    }

    fn flush(&mut self) -> io::Result<()> {
        self.calls = self.calls.saturating_add(1);
        if self.fails_from <= self.calls && self.calls < self.fails_to {
            return Err(io::Error::from(self.kind));
        }
        Ok(())
    }
}

const LINE: &[u8] = b"1,1/0 1,1/0\n";

// Writes the line. Returns whether that failed, what the stream says, and the writer.
fn written(narrow: Narrow) -> (bool, bool, Narrow) {
    let mut out = Stream::new(narrow);
    let is_err = out.write_all(LINE).is_err();
    (is_err, out.failed(), out.into_inner())
}

#[test]
fn an_interrupted_call_is_tried_again(rt: HostRuntime) {
    for (first, last) in [(1, 2), (3, 100_000), (12, 13)] {
        let narrow = Narrow::new(&rt, first, last, ErrorKind::Interrupted);
        let (is_err, failed, writer) = written(narrow);
        assert!(rt;
            !is_err && !failed && writer.bytes.as_slice() == LINE,
            "{first}"
        );
    }
}

// One that takes no byte, and one with an error: the writer is not called again, and has what it took before.
#[test]
fn a_call_that_fails_is_the_last(rt: HostRuntime) {
    for kind in [ErrorKind::WriteZero, ErrorKind::BrokenPipe] {
        for taken in 0..12u32 {
            let (is_err, failed, writer) = written(Narrow::new(&rt, taken + 1, u32::MAX, kind));
            assert!(rt; is_err && failed && writer.calls == taken + 1, "{taken}");
            assert!(rt;
                writer.bytes.as_slice() == &LINE[..taken as usize],
                "{taken}"
            );
        }
    }
}

#[test]
fn a_flush_that_fails_is_an_error(rt: HostRuntime) {
    let mut out = Stream::new(Narrow::new(&rt, 2, 3, ErrorKind::StorageFull));
    assert!(rt; out.write_all(b"a").is_ok() && !out.failed());
    assert!(rt; out.flush().is_err() && out.failed());
}
