//! The entry of a line of a file: what the line says, and what is asked of it.
ghost use Rattle.std.specs.Prelude.{◌≡◌, ◌↔◌, IsTrue};
ghost use Rattle.kalah_jobs.specs.Files.Entry.{entry_asked, entry_for, is_faulty_entry};

use crate::files::question::Question;
use crate::line::line_fault::LineFault;
use crate::line::reading::read_line;
use kalah_rules::Board;

/// What a line of a file says, and what is asked of its position.
#[derive(Clone, Copy, Debug, PartialEq, Eq)]
pub enum Entry {
    /// The position that the line writes; its best move is asked.
    Position(Board),
    /// The position that the line writes; the value of each of its moves is asked.
    ValuesOf(Board),
    /// The position that the line writes, and the steps of its moves are asked.
    StepsOf(Board),
    /// Why the line is not read.
    Bad(LineFault),
}

impl Entry {
    /// Returns the entry of a line that writes this position, with this question.
    #[inline(always)]
    pub(crate) fn of_board(question: Question, board: Board) -> Entry
        ensures { result ≡ entry_asked question board }
    {
        match question {
            Question::BestMove => Entry::Position(board),
            Question::Values => Entry::ValuesOf(board),
            Question::Steps => Entry::StepsOf(board),
        }
    }

    /// Returns the entry of the line, with this question.
    #[tactic(auto, unfolding(crate::specs::Files::Entry::entry_for))]
    #[inline(always)]
    pub(crate) fn of_line(question: Question, line: &[u8]) -> Entry
        ensures { result ≡ entry_for question line.now }
    {
        match read_line(line) {
            Ok(board) => Entry::of_board(question, board),
            Err(fault) => Entry::Bad(fault),
        }
    }

    /// Returns whether the line is not read, so that it is answered by its fault.
    pub(crate) fn is_faulty(&self) -> bool
        ensures { result ≡ is_faulty_entry self.now }
    {
        match self {
            Entry::Position(_) | Entry::ValuesOf(_) | Entry::StepsOf(_) => false,
            Entry::Bad(_) => true,
        }
    }
}

// Returns whether two boards are equal.
#[tactic(auto, using(crate::proofs::FilesLemmas::same_boards))]
#[inline(always)]
fn is_same_board(p: &Board, q: &Board) -> bool
    ensures { IsTrue result ↔ (p.now ≡ q.now) }
{
    // For a proof: these calls promise the limits of a board, and within these houses with equal fields are equal.
    let _ = (p.m(), q.m());
    *p == *q
}

/// Returns whether two entries are equal.
pub(crate) fn is_same_entry(a: &Entry, b: &Entry) -> bool
    ensures { IsTrue result ↔ (a.now ≡ b.now) }
{
    match (a, b) {
        (Entry::Position(p), Entry::Position(q))
        | (Entry::ValuesOf(p), Entry::ValuesOf(q))
        | (Entry::StepsOf(p), Entry::StepsOf(q)) => is_same_board(p, q),
        (Entry::Bad(x), Entry::Bad(y)) => x == y,
        _ => false,
    }
}
