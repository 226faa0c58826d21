//! The solvers of `ask`, `play` and `show`.
ghost use Rattle.std.specs.Prelude.{◌≡◌, IfOk, true};
ghost use Rattle.kalah_solve.specs.{Solver.{EmptyTable.{HasEmptyTable}, MoveValues.{values_of}, Verdict.{IsVerdictInRange, StatesBestPlay, verdict_of}}, Table.Entries.{IsTableSize}};
ghost use Rattle.kalah_jobs.specs.Writing.{Sink.{WasGiven}, Picture.{picture_of}};
ghost use Rattle.kalah_cli.specs.Commands.GameSolver.{IsReached, begun};

use crate::commands::game::MoveForm;
use kalah_jobs::Sink;
use kalah_rules::Board;
use kalah_solve::{MoveValues, Solver, Table, Verdict};
use std::alloc::{AllocError, Global};
use std::snapshot::Snapshot;

/// Returns a solver with an empty table of this many entries. Fails with `AllocError` only if memory was refused.
pub(crate) fn new_solver(alloc: Global, table_entries: u32) -> Result<Solver, AllocError>
    requires { IsTableSize table_entries }
    ensures { IfOk result (HasEmptyTable table_entries) }
{
    Ok(Solver::new(Table::new(alloc, table_entries)?))
}

/// The solver of a game that is written move by move. It solves a position only once what comes before it is written and flushed. There
/// is no other way to it.
#[derive(Drop)]
pub(crate) struct GameSolver<O> {
    solver: Solver,
    /// How the moves of the game are written.
    pub(crate) form: MoveForm,
    // For clauses alone: the first position, and the sink before any of the game was written.
    first: Snapshot<Board>,
    sink: Snapshot<O>,
}

impl<O: Sink> GameSolver<O> {
    /// Returns a solver as `new_solver` makes it, for a game that begins with this board and is written in this form. Nothing of it is written
    /// yet. Fails with `AllocError` only if memory was refused.
    pub(crate) fn new(
        alloc: Global,
        table_entries: u32,
        board: &Board,
        form: MoveForm,
        out: &O,
    ) -> Result<GameSolver<O>, AllocError>
        requires { IsTableSize table_entries }
        ensures table { IfOk result (λ s. HasEmptyTable table_entries s.solver) }
        ensures begun { IfOk result (λ s. begun s ≡ record { form = form; first = board.now; sink = out.now }) }
    {
        Ok(GameSolver {
            solver: new_solver(alloc, table_entries)?,
            form,
            first: Snapshot::of(board),
            sink: Snapshot::of(out),
        })
    }

    /// Finds the best move of a board, as `Solver::solve` does. All that leads to the board is written and flushed: how its game begins,
    /// and each move.
    pub(crate) fn solve(&mut self, board: &Board, _out: &O) -> Verdict
        requires all_flushed { (O.state _out.now).is_flushed ≡ true }
        requires reached { IsReached O.state (begun self.old) _out.now board.now }
        ensures begun { begun self.new ≡ begun self.old }
        ensures verdict { result ≡ verdict_of board.now }
        ensures best_play { StatesBestPlay board.now result }
        ensures small { IsVerdictInRange result }
    {
        self.solver.solve(board)
    }

    /// Finds what each move of a board is worth, as `Solver::values` does. The picture of the board is written and flushed.
    pub(crate) fn values(&mut self, board: &Board, _out: &O) -> MoveValues
        requires all_flushed { (O.state _out.now).is_flushed ≡ true }
        requires shown { WasGiven O.state self.old.sink.value _out.now (picture_of board.now) }
        ensures begun { begun self.new ≡ begun self.old }
        ensures values { result ≡ values_of board.now }
    {
        self.solver.values(board)
    }
}
