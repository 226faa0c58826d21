//! What each move is worth, below the picture of a board.
ghost use Rattle.std.specs.Prelude.{◌≡◌, ◌≤◌, ◌+◌, ◌-◌, ◌*◌, ◌∷◌, [], ◌++◌, drop, length};
ghost use Rattle.kalah_rules.specs.{Limits.{most_houses}, Position.{IsMarginInRange}};
ghost use Rattle.kalah_solve.specs.Solver.MoveValues.{values_of};
ghost use Rattle.kalah_jobs.specs.{Files.Lines.{line_feed}, Writing.{Sink.{WasGiven}, ValuesLine.{AreMoveValues, AscendFrom, value_column, value_columns, values_line}}};

use crate::writing::picture::COLUMN_WIDTH;
use crate::writing::sink::Sink;
use crate::writing::stack_text::{ROOM, StackText};
use kalah_rules::Board;
use kalah_solve::{MoveValue, MoveValues};

// Puts the value of a move, at the right of a column, in front of the text.
fn prepend_value_column(text: &mut StackText, value: MoveValue)
    requires small { IsMarginInRange value.value }
    requires room { length text.old + 11 ≤ ROOM }
    ensures column { text.new ≡ value_column value.value ++ text.old }
    ensures longer { length text.new ≡ COLUMN_WIDTH + length text.old }
{
    let end = text.len() + COLUMN_WIDTH;
    text.prepend_margin(i32::from(value.value));
    text.prepend_blanks(end - text.len());
}

// Puts the values from place `i` on in front of the text, each in the column of its house. `filled` columns come before them.
fn prepend_value_columns(text: &mut StackText, values: &MoveValues, i: u8, filled: u8)
    requires room { length text.old + COLUMN_WIDTH * (most_houses + 1) + 11 ≤ ROOM }
    requires within { i ≤ length values.now }
    requires filled { filled ≤ most_houses + 1 }
    requires ascend { AscendFrom filled (drop i values.now) }
    requires small { AreMoveValues (drop i values.now) }
    ensures columns { text.new ≡ value_columns filled (drop i values.now) ++ text.old }
    ensures short { length text.new ≤ length text.old + COLUMN_WIDTH * (most_houses + 1 - filled) }
{
    if i == values.len() {
        return;
    }
    let value = values.get(i);
    prepend_value_columns(text, values, i + 1, value.house + 1);
    prepend_value_column(text, value);
    text.prepend_blanks(COLUMN_WIDTH * usize::from(value.house - filled));
}

// Returns the line below the picture of a board with these values.
#[tactic(auto, using(crate::proofs::TextLemmas::have_columns))]
fn line_below(board: &Board, values: &MoveValues) -> StackText
    requires { values.now ≡ values_of board.now }
    ensures { result ≡ values_line board.now ++ line_feed ∷ [] }
{
    let mut text = StackText::of("\n");
    if board.is_over() {
        text.prepend_margin(board.returns());
        text.prepend("over, margin ");
    } else {
        prepend_value_columns(&mut text, values, 0, 0);
    }
    text
}

/// Writes the line below the picture of a board. It has what each move is worth, from `values`, at the right of the column of its
/// house. Nothing stands below a house that may not be moved, or after the last value. If the game is over, the line is
/// `over, margin M`.
pub fn write_values<W: Sink>(out: &mut W, board: &Board, values: &MoveValues)
    requires { values.now ≡ values_of board.now }
    ensures { WasGiven W.state out.old out.new (values_line board.now ++ line_feed ∷ []) }
{
    line_below(board, values).write_to(out);
}
