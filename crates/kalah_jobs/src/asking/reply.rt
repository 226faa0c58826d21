//! The answer to one line.
ghost use Rattle.std.specs.Prelude.{◌≡◌, not, true, false};
ghost use Rattle.kalah_jobs.specs.{Asking.{is_last_read, reply, last_reply}, Writing.Sink.{WasGiven}, Files.Entry.{is_faulty}};

use crate::asking::line_head::LineHead;
use crate::asking::prompt_solver::{PromptSolver, takes_long};
use crate::files::entry::Entry;
use crate::files::question::Question;
use crate::writing::answer_line::write_joined_text;
use crate::writing::sink::{Sink, flush_unless_failed};

/// Writes the answer to a line, and a line feed, and returns whether the line was read.
pub(crate) fn write_reply<O: Sink>(
    line: &LineHead,
    question: Question,
    solver: &mut PromptSolver<'_>,
    out: &mut O,
) -> bool
    ensures given { WasGiven O.state out.old out.new (reply question line.now) }
    ensures read { result ≡ not (is_faulty line.now) }
{
    let entry = Entry::of_line(question, line.bytes());
    let is_read = !entry.is_faulty();
    if takes_long(&entry) {
        flush_unless_failed(out);
        if out.failed() {
            return is_read;
        }
    }
    let answer = solver.answer(&entry, out);
    write_joined_text(out, &answer);
    is_read
}

/// Writes the answer to what stands after the last line feed, if anything does, and flushes. Returns whether the line was
/// read, if there is one.
pub(crate) fn write_last_reply<O: Sink>(
    line: &LineHead,
    question: Question,
    solver: &mut PromptSolver<'_>,
    out: &mut O,
) -> bool
    ensures given { WasGiven O.state out.old out.new (last_reply question line.now) }
    ensures read { result ≡ is_last_read line.now }
    ensures all_flushed { (O.state out.new).has_failed ≡ false → (O.state out.new).is_flushed ≡ true }
{
    if line.bytes().is_empty() {
        flush_unless_failed(out);
        return true;
    }
    let is_read = write_reply(line, question, solver, out);
    flush_unless_failed(out);
    is_read
}
