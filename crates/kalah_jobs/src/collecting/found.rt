//! What a solver finds for an entry.
ghost use Rattle.std.specs.Prelude.{◌≡◌};
ghost use Rattle.kalah_jobs.specs.{Writing.Answer.{answer_of}, Collecting.Found.{found_of}};

use crate::files::entry::Entry;
use crate::writing::answer::Answer;
use kalah_solve::{MoveValues, Solver, Verdict};

/// The part of an answer that is not in the entry. It has no board, so that an outcome has only one: its entry's.
#[derive(Clone, Copy)]
pub(crate) enum Found {
    // What the position is worth. For values and steps: that the game is over.
    Verdict(Verdict),
    // The value of each move.
    Values(MoveValues),
    // Nothing: the entry alone has the answer.
    Nothing,
}

impl Found {
    /// Solves an entry: finds what its answer needs beside the entry.
    #[tactic(auto, unfolding(crate::specs::Writing::Answer::answer_of))]
    #[inline(always)]
    pub(crate) fn solve(entry: &Entry, solver: &mut Solver) -> Found
        ensures { result ≡ found_of entry.now }
    {
        match entry {
            Entry::Position(board) => Found::Verdict(solver.solve(board)),
            Entry::ValuesOf(board) | Entry::StepsOf(board) if board.is_over() => {
                let margin = board.returns();
                Found::Verdict(Verdict::Over { margin })
            }
            Entry::ValuesOf(board) => Found::Values(solver.values(board)),
            Entry::StepsOf(_) | Entry::Bad(_) => Found::Nothing,
        }
    }

    /// Returns the answer to the entry that this was found for.
    #[tactic(auto, unfolding(crate::specs::Writing::Answer::answer_of))]
    #[inline(always)]
    pub(crate) fn answer(&self, entry: &Entry) -> Answer
        requires { self.now ≡ found_of entry.now }
        ensures { result ≡ answer_of entry.now }
    {
        match *self {
            Found::Verdict(Verdict::Best { margin, house }) => Answer::Best { margin, house },
            Found::Verdict(Verdict::Over { margin }) => Answer::Over { margin },
            Found::Values(values) => Answer::Values(values),
            Found::Nothing => match entry {
                Entry::StepsOf(board) => Answer::Steps(*board),
                Entry::Bad(fault) => Answer::Fault(*fault),
                Entry::Position(_) | Entry::ValuesOf(_) => unreachable!(),
            },
        }
    }
}
