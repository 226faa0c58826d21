//! The bytes of a reader one by one. More is read only when all lines so far are answered, and the answers flushed.
ghost use Rattle.std.specs.{Prelude.{◌≡◌, ◌+◌, ◌-◌, ◌<◌, ◌^◌, [], true, false, None, IfErr, IfOk, OnErr, OnOk, length, option_to_list}, Io.{KnownBytes.{Consumes, IsAtEnd, Keeps}, Buffered.{reader_buffer, reader_remaining}}};
ghost use Rattle.kalah_jobs.specs.Asking.{AreAnswered, LeavesBy, start_of, unread};

use crate::asking::ask_fault::AskFault;
use crate::files::question::Question;
use crate::writing::sink::Sink;
use std::io::{BufRead, BufReader, ErrorKind, Read};
use std::snapshot::Snapshot;

/// Reads bytes once all lines that it gave are answered. There is no other way to its reader.
pub(crate) struct PromptReader<'a, I, O> {
    input: &'a mut BufReader<I>,
    question: Question,
    // The reader and the sink before the first line.
    first: Snapshot<BufReader<I>>,
    sink: Snapshot<O>,
    // How many more bytes it gives: none after a failed read.
    budget: u64,
}

impl<'a, I, O> Drop for PromptReader<'a, I, O> {
    fn drop(self)
        ensures { self.exit.0.now ≡ self.entry.input.now }
    {
        let Self {
            input: _,
            question: _,
            first: _,
            sink: _,
            budget: _,
        } = self;
    }
}

// Fills the buffer if it is empty. The caller has flushed the output. An interrupted read is repeated. After any other error no byte is
// given any more.
fn read_ahead<I: Read + Drop, O: Sink>(
    input: &mut BufReader<I>,
    budget: &mut u64,
    _out: &O,
) -> Result<(), AskFault>
    requires not_failed { (O.state _out.now).has_failed ≡ false }
    requires all_flushed { (O.state _out.now).is_flushed ≡ true }
    ensures keeps { Keeps (reader_remaining I.remaining input.old) (reader_remaining I.remaining input.new) }
    ensures filled { OnOk result ((reader_buffer input.new ≡ [] → IsAtEnd (reader_remaining I.remaining input.old))
        × (budget.new ≡ budget.old) × (0 < budget.new)) }
    ensures fault { IfErr result (λ fault. LeavesBy fault (O.state _out.now) budget.new) }
{
    for _ in 0..*budget {
        match input.fill_buf() {
            Ok(_) => return Ok(()),
            Err(error) if error.kind() == ErrorKind::Interrupted => {}
            Err(_) => break,
        }
    }
    *budget = 0;
    Err(AskFault::Read)
}

impl<'a, I: Read + Drop, O: Sink> PromptReader<'a, I, O> {
    /// Makes a prompt reader of a reader, of whose lines this is asked.
    pub(crate) fn new(
        input: &'a mut BufReader<I>,
        question: Question,
        out: &O,
    ) -> PromptReader<'a, I, O>
        ensures same_reference { result.input.ghost_name ≡ input.entry.ghost_name }
        ensures unread { result.input.now ≡ input.old }
        ensures start { start_of I.remaining O.state result
            ≡ record { question = question; before = reader_remaining I.remaining input.old; old = (O.state out.now).written } }
        ensures budget { result.budget ≡ 2 ^ 64 - 1 }
    {
        PromptReader {
            first: Snapshot::of(input),
            input,
            question,
            sink: Snapshot::of(out),
            budget: u64::MAX,
        }
    }

    /// Returns the next byte, or `None` at the end. All lines so far are answered. Before a read all output is flushed.
    pub(crate) fn next_byte(&mut self, out: &mut O) -> Result<Option<u8>, AskFault>
        requires answered { AreAnswered (start_of I.remaining O.state self.old) (unread I.remaining self.old) (O.state out.old).written }
        requires not_failed { (O.state out.old).has_failed ≡ false }
        ensures same_reference { self.new.input.ghost_name ≡ self.old.input.ghost_name }
        ensures start { start_of I.remaining O.state self.new ≡ start_of I.remaining O.state self.old }
        ensures keeps { Keeps (O.state out.old).written (O.state out.new).written }
        ensures taken { IfOk result (λ byte. Consumes (unread I.remaining self.old) (unread I.remaining self.new) (option_to_list byte)) }
        ensures end { IfOk result (λ byte. byte ≡ None → IsAtEnd (unread I.remaining self.old)) }
        ensures not_failed { OnOk result ((O.state out.new).has_failed ≡ false) }
        ensures counted { IfOk result (λ byte. self.new.budget + length (option_to_list byte) ≡ self.old.budget) }
        ensures untaken { OnErr result (Keeps (unread I.remaining self.old) (unread I.remaining self.new)) }
        ensures fault { IfErr result (λ fault. LeavesBy fault (O.state out.new) self.new.budget) }
    {
        if self.budget == 0 || self.input.buffer().is_empty() {
            if out.flush().is_err() {
                return Err(AskFault::Write);
            }
            read_ahead(self.input, &mut self.budget, out)?;
        }
        let [byte, ..] = *self.input.buffer() else {
            return Ok(None);
        };
        self.input.consume(1);
        self.budget -= 1;
        Ok(Some(byte))
    }
}
