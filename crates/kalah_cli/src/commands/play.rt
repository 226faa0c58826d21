//! `kalah play LINE`.
ghost use Rattle.std.specs.Prelude.{◌≡◌, IfErr, MatchResult, OnOk};
ghost use Rattle.kalah_solve.specs.Table.Entries.{IsTableSize};
ghost use Rattle.kalah_cli.specs.Commands.{Play.{FailsToBegin, MayBegin, play_output}, Printing.{IsPrinted}};

use crate::arguments::request::PlayCommand;
use crate::commands::game::{MoveForm, write_game};
use crate::commands::game_solver::GameSolver;
use crate::commands::moves::write_board;
use crate::exit::failure::Failure;
use kalah_jobs::Sink;
use kalah_rules::Board;
use std::alloc::Global;

/// Prints the game that best play leads to from a board, each move as soon as it is found. If a first house is given, its move comes
/// first, and then the game of best play after it.
///
/// Fails, and writes nothing, with `IllegalHouse` if that house may not be moved, or with `OutOfMemory` if memory was refused. Memory is
/// requested before anything is written, except for what the table takes as it grows.
#[inline(never)] // Only this command's stack holds its solver.
pub(crate) fn run_play<O: Sink>(
    alloc: Global,
    board: &Board,
    command: PlayCommand,
    out: &mut O,
) -> Result<(), Failure<'static>>
    requires { IsTableSize command.table_entries }
    ensures printed { MatchResult result (λ _. IsPrinted O.state out.old out.new (play_output command board.now))
        (λ _. out.new ≡ out.old) }
    ensures begins { OnOk result (MayBegin command.first board.now) }
    ensures failure { IfErr result (FailsToBegin command.first board.now) }
{
    match command.first {
        Some(house) if !board.is_legal(house) => return Err(Failure::IllegalHouse(house)),
        _ => {}
    }
    let form = MoveForm::Lines {
        boards: command.boards,
        values: command.values,
    };
    let Ok(mut solver) = GameSolver::new(alloc, command.table_entries, board, form, out) else {
        return Err(Failure::OUT_OF_MEMORY);
    };
    write_board(board, command.boards, out);
    write_game(&mut solver, board, command.first, out);
    Ok(())
}
