//! The sinks that answers are written to: bytes go out in order until a call fails, and none after that. What writes a text to a sink
//! allocates nothing. If the sink has failed it is not called. If it fails, a prefix of the text was written, and nothing else.
ghost use Rattle.std.specs.{Prelude.{◌≡◌, ◌↔◌, [], true, false, OnOk, IsErr}, Io.KnownBytes.{Appends, Keeps}};
ghost use Rattle.kalah_jobs.specs.Writing.Sink.{AppendsPrefix, IsReady, SinkState, WasGiven};

use std::io;

/// Accepts bytes, in order, until a call fails. After that it must not be written to.
pub trait Sink {
    /// What a contract sees of the sink.
    ghost state: { Self → SinkState };

    /// Writes all the bytes, and nothing else. It fails exactly when the sink has failed
    /// afterwards; then a prefix of the bytes was written, and nothing else.
    fn write_all(&mut self, bytes: &[u8]) -> Result<(), io::Error>
        requires { (state self.old).has_failed ≡ false }
        ensures fails { IsErr result ↔ ((state self.new).has_failed ≡ true) }
        ensures adds { OnOk result (Appends (state self.old).written (state self.new).written bytes.now) }
        ensures start { AppendsPrefix (state self.old).written (state self.new).written bytes.now };

    /// Flushes what is still buffered, and writes nothing of its own. It fails exactly when
    /// the sink has failed afterwards; otherwise nothing is buffered any more.
    fn flush(&mut self) -> Result<(), io::Error>
        requires { (state self.old).has_failed ≡ false }
        ensures fails { IsErr result ↔ ((state self.new).has_failed ≡ true) }
        ensures hands_on { OnOk result ((state self.new).is_flushed ≡ true) }
        ensures keeps { Keeps (state self.old).written (state self.new).written };

    /// Announces that the caller is about to wait for what it will write next. Afterwards nothing is buffered, unless the sink has
    /// failed or may keep bytes while the caller waits (`may_buffer`). Nothing is written. By default it is a flush.
    fn before_waiting(&mut self)
        requires { (state self.old).has_failed ≡ false }
        ensures ready { IsReady (state self.new) }
        ensures keeps { Keeps (state self.old).written (state self.new).written }
    {
        let _ = self.flush();
    }

    /// Returns whether a call has failed.
    fn failed(&self) -> bool
        ensures { result ≡ (state self.now).has_failed };
}

/// Writes the bytes. If the sink has failed it is not called, and the bytes are dropped.
#[tactic(auto, using(crate::proofs::SinkLemmas::given_once, crate::proofs::SinkLemmas::given_after_failure))]
#[inline(always)]
pub fn write_unless_failed<O: Sink>(out: &mut O, bytes: &[u8])
    ensures { WasGiven O.state out.old out.new bytes.now }
{
    if !out.failed() {
        let _ = out.write_all(bytes);
    }
}

/// Flushes the sink. If it has failed it is not called.
#[tactic(auto, using(crate::proofs::SinkLemmas::flush_gives_nothing, crate::proofs::SinkLemmas::given_after_failure))]
pub fn flush_unless_failed<O: Sink>(out: &mut O)
    ensures given { WasGiven O.state out.old out.new [] }
    ensures all_flushed { (O.state out.new).has_failed ≡ false → (O.state out.new).is_flushed ≡ true }
{
    if !out.failed() {
        let _ = out.flush();
    }
}
