//! The standard output of the program.
ghost use Rattle.std.specs.{Prelude.{◌≡◌, ◌==◌, false, length}, Io.Buffered.{writer_buffer, writer_contents}};

use kalah_jobs::{Sink, write_pieces};
use std::io;
use std::io::{BufWriter, Write};

/// A sink that buffers bytes in blocks, in the buffer of its writer. It flushes them when the program is about to wait. So an answer is
/// seen as soon as nothing more is ready to be written. All is flushed if the buffer is empty.
#[derive(Drop)]
pub(crate) struct PromptStream<W: Write + Drop> {
    writer: BufWriter<W>,
    has_failed: bool,
}

impl<W: Write + Drop> PromptStream<W> {
    /// Makes the sink over a buffered writer, with no failed call.
    pub(crate) fn new(writer: BufWriter<W>) -> PromptStream<W>
        ensures writer { result.writer ≡ writer }
        ensures not_failed { result.has_failed ≡ false }
    {
        PromptStream {
            writer,
            has_failed: false,
        }
    }
}

impl<W: Write + Drop> Sink for PromptStream<W> {
    ghost state = { λ p. record {
      written = writer_contents W.contents p.writer;
      has_failed = p.has_failed;
      is_flushed = length (writer_buffer p.writer) == 0;
      may_buffer = false;
    } };

    #[inline(always)]
    fn write_all(&mut self, bytes: &[u8]) -> Result<(), io::Error> {
        let written = write_pieces(&mut self.writer, bytes);
        self.has_failed = written.is_err();
        written
    }

    fn flush(&mut self) -> Result<(), io::Error> {
        let flushed = self.writer.flush();
        self.has_failed = flushed.is_err();
        flushed
    }

    fn failed(&self) -> bool {
        self.has_failed
    }
}
