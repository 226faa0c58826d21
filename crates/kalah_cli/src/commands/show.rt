//! `kalah show LINE`.
ghost use Rattle.std.specs.Prelude.{◌≡◌, IsErr, MatchResult, false, true};
ghost use Rattle.kalah_solve.specs.{Solver.MoveValues.{values_of}, Table.Entries.{IsTableSize}};
ghost use Rattle.kalah_jobs.specs.Writing.{Sink.{WasGiven}, Picture.{picture_of}};
ghost use Rattle.kalah_cli.specs.Commands.{Show.{is_better, move_of_rank, rank_in, ranked_line, show_output, variation_lines}, Printing.{IsPrinted}, GameSolver.{ShowsValues, begun}};

use crate::arguments::request::ShowCommand;
use crate::commands::game::{MoveForm, write_game};
use crate::commands::game_solver::GameSolver;
use crate::exit::failure::Failure;
use kalah_jobs::{
    Sink, flush_unless_failed, write_picture, write_unless_failed, write_values,
    write_variation_start,
};
use kalah_rules::Board;
use kalah_solve::{MoveValue, MoveValues};
use std::alloc::Global;

fn draw_and_flush<O: Sink>(board: &Board, out: &mut O)
    ensures { IsPrinted O.state out.old out.new (picture_of board.now) }
{
    write_picture(out, board);
    flush_unless_failed(out);
}

// Returns whether the move of `v` is better than that of `w`: its value is greater, or the same, and its house is the lower-numbered one.
#[tactic(auto, unfolding(crate::specs::Commands::Show::is_better))]
fn is_better(v: MoveValue, w: MoveValue) -> bool
    ensures { result ≡ is_better v w }
{
    v.value > w.value || v.value == w.value && v.house < w.house
}

// Returns how many of the moves are better than this one.
fn rank_in(values: &MoveValues, value: MoveValue) -> u8
    ensures { result ≡ rank_in values.now value }
{
    let mut rank = 0;
    for i in 0..values.len() {
        if is_better(values.get(i), value) {
            rank += 1;
        }
    }
    rank
}

fn move_of_rank(values: &MoveValues, rank: u8) -> Option<MoveValue>
    ensures { result ≡ move_of_rank values.now rank }
{
    for i in 0..values.len() {
        let value = values.get(i);
        if rank_in(values, value) == rank {
            return Some(value);
        }
    }
    None
}

// Writes the line of the move of this rank, if there is one: its house, its value and the houses that are moved from it on, each as soon as
// it is found.
fn write_variation<O: Sink>(
    solver: &mut GameSolver<O>,
    board: &Board,
    values: &MoveValues,
    rank: u8,
    out: &mut O,
)
    requires values { values.now ≡ values_of board.now }
    requires shown { ShowsValues O.state (begun solver.old) board.now out.old }
    ensures begun { begun solver.new ≡ begun solver.old }
    ensures line { WasGiven O.state out.old out.new (ranked_line board.now rank) }
{
    let Some(value) = move_of_rank(values, rank) else {
        return;
    };
    write_variation_start(out, value);
    let step = board.apply(value.house);
    write_game(solver, step.board(), None, out);
    write_unless_failed(out, b"\n");
}

// Writes the line of each move, the best first.
fn write_variations<O: Sink>(
    solver: &mut GameSolver<O>,
    board: &Board,
    values: &MoveValues,
    out: &mut O,
)
    requires values { values.now ≡ values_of board.now }
    requires shown { ShowsValues O.state (begun solver.old) board.now out.old }
    ensures { WasGiven O.state out.old out.new (variation_lines board.now) }
{
    for rank in 0..values.len() {
        write_variation(solver, board, values, rank, out);
    }
}

// Draws a board, which is flushed before the search begins, and writes below it what each move is worth, and then, if asked for, the best
// play after each. If the output has failed, nothing is searched.
fn write_values_and_lines<O: Sink>(
    solver: &mut GameSolver<O>,
    board: &Board,
    lines: bool,
    out: &mut O,
)
    requires { begun solver.old ≡ record { form = MoveForm.Houses; first = board.now; sink = out.old } }
    ensures { IsPrinted O.state out.old out.new (show_output false lines board.now) }
{
    draw_and_flush(board, out);
    if out.failed() {
        return;
    }
    let values = solver.values(board, out);
    write_values(out, board, &values);
    if lines {
        write_variations(solver, board, &values, out);
    }
    flush_unless_failed(out);
}

/// Draws a board and, unless it is to be plain, writes below it what each move is worth and, if asked for, the best play after each. Fails
/// with `OutOfMemory`, and writes nothing, if memory was refused. A plain picture allocates nothing. Otherwise memory is requested before
/// anything is written, except for what the table takes as it grows.
#[inline(never)] // Only this command's stack holds its solver.
pub(crate) fn run_show<O: Sink>(
    alloc: Global,
    board: &Board,
    command: ShowCommand,
    out: &mut O,
) -> Result<(), Failure<'static>>
    requires { IsTableSize command.table_entries }
    ensures printed { MatchResult result (λ _. IsPrinted O.state out.old out.new (show_output command.plain command.lines board.now))
        (λ _. out.new ≡ out.old) }
    ensures searchless { command.plain ≡ true → IsErr result → ⊥ }
{
    if command.plain {
        draw_and_flush(board, out);
        return Ok(());
    }
    let Ok(mut solver) = GameSolver::new(alloc, command.table_entries, board, MoveForm::Houses, out)
    else {
        return Err(Failure::OUT_OF_MEMORY);
    };
    write_values_and_lines(&mut solver, board, command.lines, out);
    Ok(())
}
