//! A game, move by move.
ghost use Rattle.std.specs.Prelude.{◌≡◌, [], IfNone, IfSome, None, Some};
ghost use Rattle.kalah_jobs.specs.Writing.Sink.{WasGiven};
ghost use Rattle.kalah_cli.specs.Commands.{Game.{IsNextMove, game_played, game_text, move_text, printed_value}, Play.{MayBegin}, Printing.{IsPrinted}, GameSolver.{IsReached, begun}};

use crate::commands::game_solver::GameSolver;
use crate::commands::moves::write_move;
use kalah_jobs::{Sink, flush_unless_failed, write_next_house};
use kalah_rules::{Board, Step};
use kalah_solve::Verdict;

/// How the moves of a game are written.
#[derive(Clone, Copy)]
pub(crate) enum MoveForm {
    /// A line for each, with the value of the position that it is made in or without, and with the board after it drawn or not.
    Lines { boards: bool, values: bool },
    /// Their houses, in one line.
    Houses,
}

// Returns the value that a move of this form has, in a position with this margin of best play.
fn printed_value(form: MoveForm, margin: i32) -> Option<i32>
    ensures { result ≡ printed_value form margin }
{
    match form {
        MoveForm::Lines { values: true, .. } => Some(margin),
        _ => None,
    }
}

// Writes a move in this form, with its value or without.
fn write_in_form<O: Sink>(form: MoveForm, value: Option<i32>, house: u8, step: &Step, out: &mut O)
    ensures { WasGiven O.state out.old out.new (move_text form value house step.now) }
{
    match form {
        MoveForm::Lines { boards, .. } => write_move(house, step, value, boards, out),
        MoveForm::Houses => write_next_house(out, house),
    }
}

// The next move of a game, with its value if values are shown.
struct NextMove {
    house: u8,
    value: Option<i32>,
}

// Returns the next move of a game, or `None` if the game is over or the output has failed. It is that of house `first` if there is one,
// otherwise the best. The output is flushed before a search; house `first` without values needs none.
fn next_move<O: Sink>(
    solver: &mut GameSolver<O>,
    board: &Board,
    first: Option<u8>,
    out: &mut O,
) -> Option<NextMove>
    requires begins { MayBegin first board.now }
    requires reached { IsReached O.state (begun solver.old) out.old board.now }
    ensures begun { begun solver.new ≡ begun solver.old }
    ensures flushed { WasGiven O.state out.old out.new [] }
    ensures some { IfSome result (λ next. IsNextMove (begun solver.old).form first board.now next.value next.house) }
    ensures none { IfNone result
        (IsPrinted O.state out.old out.new (game_text (begun solver.old).form board.now (game_played first board.now))) }
{
    let form = solver.form;
    if let (Some(house), MoveForm::Lines { values: false, .. }) = (first, form) {
        return Some(NextMove { house, value: None });
    }
    flush_unless_failed(out);
    if out.failed() {
        return None;
    }
    match solver.solve(board, out) {
        Verdict::Over { .. } => None,
        Verdict::Best { margin, house } => Some(NextMove {
            house: first.unwrap_or(house),
            value: printed_value(form, margin),
        }),
    }
}

/// Writes the moves of a game from a board on, each as soon as it is found: the move of house `first`, if there is one, and then those of
/// best play. If the output has failed, none is sought.
pub(crate) fn write_game<O: Sink>(
    solver: &mut GameSolver<O>,
    board: &Board,
    first: Option<u8>,
    out: &mut O,
)
    requires begins { MayBegin first board.now }
    requires reached { IsReached O.state (begun solver.old) out.old board.now }
    ensures begun { begun solver.new ≡ begun solver.old }
    ensures printed { IsPrinted O.state out.old out.new (game_text (begun solver.old).form board.now (game_played first board.now)) }
{
    let (mut reached, mut first) = (*board, first);
    while let Some(NextMove { house, value }) = next_move(solver, &reached, first, out) {
        let step = reached.apply(house);
        write_in_form(solver.form, value, house, &step, out);
        reached = *step.board();
        first = None;
    }
}
