//! Lines of a reader, answered as they come.
ghost use Rattle.std.specs.{Prelude.{◌≡◌, false, IfErr}, Io.Buffered.{reader_remaining}};
ghost use Rattle.kalah_jobs.specs.Asking.{AnswersLines, LeavesBy, start_of, unread};

use crate::asking::ask_fault::AskFault;
use crate::asking::line_head::LineHead;
use crate::asking::prompt_reader::PromptReader;
use crate::asking::prompt_solver::PromptSolver;
use crate::asking::reply::{write_last_reply, write_reply};
use crate::files::file_lines::LINE_FEED;
use crate::files::question::Question;
use crate::writing::sink::Sink;
use kalah_solve::Solver;
use std::io::{BufReader, Read};

// Answers the lines of a prompt reader, with the result of `answer_lines`.
#[tactic(auto, using(crate::proofs::AskingLemmas::answered_so_far))]
fn answer_each<I: Read + Drop, O: Sink>(
    input: &mut PromptReader<'_, I, O>,
    question: Question,
    solver: &mut PromptSolver<'_>,
    out: &mut O,
) -> Result<bool, AskFault>
    requires start { start_of I.remaining O.state input.old
        ≡ record { question = question; before = unread I.remaining input.old; old = (O.state out.old).written } }
    requires not_failed { (O.state out.old).has_failed ≡ false }
    ensures same_reference { input.new.input.ghost_name ≡ input.old.input.ghost_name }
    ensures lines { AnswersLines question (unread I.remaining input.old) (unread I.remaining input.new) (O.state out.old)
        (O.state out.new) result }
    // After a failed read the reader gives no further byte.
    ensures fault { IfErr result (λ fault. LeavesBy fault (O.state out.new) input.new.budget) }
{
    let mut line = LineHead::new();
    let mut all_read = true;
    while let Some(byte) = input.next_byte(out)? {
        if byte != LINE_FEED {
            line.push(byte);
            continue;
        }
        all_read &= write_reply(&line, question, solver, out);
        if out.failed() {
            return Err(AskFault::Write);
        }
        line = LineHead::new();
    }
    all_read &= write_last_reply(&line, question, solver, out);
    if out.failed() {
        return Err(AskFault::Write);
    }
    Ok(all_read)
}

/// Answers what is asked of each line of the reader, up to its end, and returns whether each line was read as a position. A line ends
/// as in a file of positions: with a line feed, or at the end if it isn't empty. Each answer is written as a batch writes it, without
/// the file's name and the line's number. Steps stand in one line, with `; ` between any two. Lines may be of any
/// number and length, up to 2^64 - 1 bytes in all: only the solver takes memory, and it keeps what it learns for later lines.
///
/// Before each read of the reader, all lines that it gave have been answered and the answers flushed. Answers are also flushed
/// before a position with many seeds is solved. An interrupted read is repeated.
///
/// Fails with `Read` if a read fails; then all earlier lines were answered. Fails with `Write` if a write fails; then nothing
/// more is read.
pub fn answer_lines<I: Read + Drop, O: Sink>(
    input: &mut BufReader<I>,
    question: Question,
    solver: &mut Solver,
    out: &mut O,
) -> Result<bool, AskFault>
    requires { (O.state out.old).has_failed ≡ false }
    ensures { AnswersLines question (reader_remaining I.remaining input.old) (reader_remaining I.remaining input.new)
        (O.state out.old) (O.state out.new) result }
{
    let mut reader = PromptReader::new(input, question, out);
    answer_each(&mut reader, question, &mut PromptSolver::new(solver), out)
}

#[cfg(test)]
mod tests;
