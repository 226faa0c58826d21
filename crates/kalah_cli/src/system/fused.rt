//! A writer that is not called again after its first failure.
ghost use Rattle.std.specs.{Prelude.{◌≡◌, ◌≢◌, ◌↔◌, [], true, false, IfErr, IfOk, IsErr, OnOk}, IoError.{error_kind}, Io.{WritesAtMost, KnownBytes.{Keeps, WriteAppends}}};

use std::io;
use std::io::{ErrorKind, Write};

/// A writer that passes its calls on until one fails, or a write takes no byte. From then on each call returns an error, and the inner
/// writer is not called again. So what a buffer in front of it still holds when a write fails is not written later, when the buffer is
/// dropped. An interrupted call has not failed.
#[derive(Drop)]
pub(crate) struct Fused<W> {
    writer: W,
    has_failed: bool,
}

impl<W> Fused<W> {
    /// Makes the writer, with no failed call.
    pub(crate) fn new(writer: W) -> Fused<W>
        ensures writer { result.writer ≡ writer }
        ensures not_failed { result.has_failed ≡ false }
    {
        Fused {
            writer,
            has_failed: false,
        }
    }
}

impl<W: Write> Write for Fused<W> {
    ghost contents = { λ f. W.contents f.writer };

    fn write(&mut self, buf: &[u8]) -> io::Result<usize>
        ensures bound { WritesAtMost result buf.now }
        ensures bytes { WriteAppends (W.contents self.old.writer) (W.contents self.new.writer) result buf.now }
        ensures quiet { self.old.has_failed ≡ true → IsErr result × (self.new ≡ self.old) }
        ensures error { IfErr result (λ e. (self.new.has_failed ≡ true) ↔ (error_kind e ≢ ErrorKind.Interrupted)) }
        ensures taken { IfOk result (λ n. (self.new.has_failed ≡ true) ↔ ((n ≡ 0) × (buf.now ≢ []))) }
    {
        if self.has_failed {
            return Err(io::Error::from(ErrorKind::BrokenPipe));
        }
        let written = self.writer.write(buf);
        self.has_failed = match &written {
            Ok(taken) => *taken == 0 && !buf.is_empty(),
            Err(error) => error.kind() != ErrorKind::Interrupted,
        };
        written
    }

    fn flush(&mut self) -> io::Result<()>
        ensures bytes { Keeps (W.contents self.old.writer) (W.contents self.new.writer) }
        ensures quiet { self.old.has_failed ≡ true → IsErr result × (self.new ≡ self.old) }
        ensures error { IfErr result (λ e. (self.new.has_failed ≡ true) ↔ (error_kind e ≢ ErrorKind.Interrupted)) }
        ensures flushed { OnOk result (self.new.has_failed ≡ false) }
    {
        if self.has_failed {
            return Err(io::Error::from(ErrorKind::BrokenPipe));
        }
        let flushed = self.writer.flush();
        self.has_failed = match &flushed {
            Ok(()) => false,
            Err(error) => error.kind() != ErrorKind::Interrupted,
        };
        flushed
    }
}
