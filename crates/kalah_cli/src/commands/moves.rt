//! `kalah moves LINE`.
ghost use Rattle.kalah_jobs.specs.Writing.Sink.{WasGiven};
ghost use Rattle.kalah_cli.specs.Commands.{Moves.{board_lines, move_lines, moves_output}, Printing.{IsPrinted}};

use kalah_jobs::{Sink, flush_unless_failed, write_picture, write_step};
use kalah_rules::{Board, Step};

/// Draws the board, if boards are drawn.
#[tactic(auto, using(kalah_jobs::proofs::SinkLemmas::given_none))]
pub(crate) fn write_board<O: Sink>(board: &Board, boards: bool, out: &mut O)
    ensures { WasGiven O.state out.old out.new (board_lines boards board.now) }
{
    if boards {
        write_picture(out, board);
    }
}

/// Writes the line of a move, and below it the board after it, if boards are drawn.
pub(crate) fn write_move<O: Sink>(
    house: u8,
    step: &Step,
    value: Option<i32>,
    boards: bool,
    out: &mut O,
)
    ensures { WasGiven O.state out.old out.new (move_lines boards value house step.now) }
{
    write_step(out, house, step, value);
    write_board(step.board(), boards, out);
}

/// Prints each legal move of a board, houses in ascending order, and draws the board after each if boards are drawn. It allocates nothing.
pub(crate) fn write_moves<O: Sink>(board: &Board, boards: bool, out: &mut O)
    ensures { IsPrinted O.state out.old out.new (moves_output boards board.now) }
{
    let moves = board.legal();
    for i in 0..moves.len() {
        let house = moves.get(i);
        write_move(house, &board.apply(house), None, boards, out);
    }
    flush_unless_failed(out);
}
