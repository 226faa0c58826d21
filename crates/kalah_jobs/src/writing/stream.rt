//! The sink over a writer.
ghost use Rattle.std.specs.{Prelude.{◌≡◌, ◌≤◌, false, true, IfOk, OnErr, OnOk, length, take}, Io.KnownBytes.{Appends, Keeps}};
ghost use Rattle.kalah_jobs.specs.Writing.Sink.{AppendsPrefix};

use crate::Sink;
use std::io;
use std::io::{ErrorKind, Write};

// Writes bytes by one call, and returns how many were written: none if it was interrupted.
#[inline(always)]
fn write_once<W: Write>(writer: &mut W, bytes: &[u8]) -> io::Result<usize>
    ensures within { IfOk result (λ taken. taken ≤ length bytes.now) }
    ensures adds { IfOk result (λ taken. Appends (W.contents writer.old) (W.contents writer.new) (take taken bytes.now)) }
    ensures keeps { OnErr result (Keeps (W.contents writer.old) (W.contents writer.new)) }
{
    match writer.write(bytes) {
        Ok(0) => Err(io::Error::from(ErrorKind::WriteZero)),
        Ok(taken) => Ok(taken),
        Err(error) if error.kind() == ErrorKind::Interrupted => Ok(0),
        Err(error) => Err(error),
    }
}

// Writes all the bytes as `write_pieces` does.
#[tactic(auto, using(crate::proofs::SinkLemmas::parts_written))]
#[cold]
#[inline(never)]
fn write_rest<W: Write>(writer: &mut W, bytes: &[u8]) -> io::Result<()>
    ensures adds { OnOk result
        (Appends (W.contents writer.old) (W.contents writer.new) bytes.now) }
    ensures start { AppendsPrefix (W.contents writer.old) (W.contents writer.new) bytes.now }
{
    let mut rest = bytes;
    for _ in 0..u64::MAX {
        if rest.is_empty() {
            return Ok(());
        }
        let taken = write_once(writer, rest)?;
        rest = &rest[taken..];
    }
    Err(io::Error::from(ErrorKind::Interrupted))
}

/// Writes all the bytes, in as many calls as the writer needs, and doesn't flush it. A call that was interrupted has taken
/// nothing, and is repeated (2^64 - 1 calls at most). It fails if another call fails, or takes no byte: then a prefix of the bytes was
/// written, and nothing else.
#[inline(always)]
pub fn write_pieces<W: Write>(writer: &mut W, bytes: &[u8]) -> io::Result<()>
    ensures adds { OnOk result
        (Appends (W.contents writer.old) (W.contents writer.new) bytes.now) }
    ensures start { AppendsPrefix (W.contents writer.old) (W.contents writer.new) bytes.now }
{
    if bytes.is_empty() {
        return Ok(());
    }
    // Mostly the first call takes all. A result that is passed on whole would be kept in memory, so it is tested, here and by callers.
    let taken = write_once(writer, bytes)?;
    if taken < bytes.len() {
        write_rest(writer, &bytes[taken..])?;
    }
    Ok(())
}

/// The sink over a writer, with that writer's bytes. It fails if a call of the writer returns an error, or if the writer takes no byte. An
/// interrupted write is repeated and is no error; an interrupted flush is one.
#[derive(Drop)]
pub struct Stream<W> {
    writer: W,
    has_failed: bool,
    // Whether the writer was flushed after the last bytes that it was given.
    is_flushed: bool,
}

impl<W> Stream<W> {
    /// Makes a stream with no failed call.
    pub fn new(writer: W) -> Stream<W>
        ensures writer { result.writer ≡ writer }
        ensures not_failed { result.has_failed ≡ false }
        ensures flushed { result.is_flushed ≡ true }
    {
        Stream {
            writer,
            has_failed: false,
            is_flushed: true,
        }
    }

    /// Returns the writer.
    pub fn into_inner(self) -> W
        ensures { result ≡ self.writer }
    {
        let Stream {
            writer,
            has_failed: _,
            is_flushed: _,
        } = self;
        writer
    }
}

impl<W: Write> Sink for Stream<W> {
    ghost state = { λ s. record {
      written = W.contents s.writer;
      has_failed = s.has_failed;
      is_flushed = s.is_flushed;
      may_buffer = true;
    } };

    fn write_all(&mut self, bytes: &[u8]) -> Result<(), io::Error> {
        let written = write_pieces(&mut self.writer, bytes);
        self.has_failed = written.is_err();
        self.is_flushed = false;
        written
    }

    fn flush(&mut self) -> Result<(), io::Error> {
        let flushed = self.writer.flush();
        self.has_failed = flushed.is_err();
        self.is_flushed = flushed.is_ok();
        flushed
    }

    // A wait is no reason to flush: a batch flushes the writer once, at its end.
    fn before_waiting(&mut self) {}

    fn failed(&self) -> bool {
        self.has_failed
    }
}

#[cfg(test)]
mod tests;
