//! A solver that is asked for the answer to a line once earlier answers are flushed, if that may take a while.
ghost use Rattle.std.specs.Prelude.{◌≡◌, ◌↔◌, IsTrue, true};
ghost use Rattle.kalah_jobs.specs.{Asking.{TakesLong}, Writing.Answer.{answer_of}};

use crate::collecting::found::Found;
use crate::files::entry::Entry;
use crate::writing::answer::Answer;
use crate::writing::sink::Sink;
use kalah_solve::Solver;

// The most seeds in houses of a position that is solved before earlier answers are flushed.
const QUICK_SEEDS: u8 = 9;

/// Answers lines once all that was written to a sink is flushed, if an answer may take a while. There is no other way to its solver.
#[derive(Drop)]
pub(crate) struct PromptSolver<'a> {
    solver: &'a mut Solver,
}

/// Returns whether the answer may take a while: the best move or values are asked, and the houses hold more than 9 seeds.
pub(crate) fn takes_long(entry: &Entry) -> bool
    ensures { IsTrue result ↔ TakesLong entry.now }
{
    match entry {
        Entry::Position(board) | Entry::ValuesOf(board) => board.houses().seeds() > QUICK_SEEDS,
        Entry::StepsOf(_) | Entry::Bad(_) => false,
    }
}

impl<'a> PromptSolver<'a> {
    /// Makes a prompt solver of a solver, which keeps what it has learned.
    pub(crate) fn new(solver: &'a mut Solver) -> PromptSolver<'a> {
        PromptSolver { solver }
    }

    /// Finds the answer to what a line asks. If that may take a while, all that was written is flushed.
    pub(crate) fn answer<O: Sink>(&mut self, entry: &Entry, _out: &O) -> Answer
        requires all_flushed { TakesLong entry.now → (O.state _out.now).is_flushed ≡ true }
        ensures { result ≡ answer_of entry.now }
    {
        Found::solve(entry, self.solver).answer(entry)
    }
}
