//! Positions drawn as boards.
ghost use Rattle.std.specs.Prelude.{◌≡◌, ◌≤◌, ◌+◌, ◌*◌, ◌++◌, length};
ghost use Rattle.kalah_jobs.specs.Writing.{Sink.{WasGiven}, Picture.{column_text, house_in, houses_line, picture_of}};
ghost use Rattle.kalah_rules.specs.{Limits.{most_houses}, Position.{side_length}};

use crate::writing::player::Player;
use crate::writing::sink::Sink;
use crate::writing::stack_text::{ROOM, StackText};
use kalah_rules::Board;

/// The bytes of a column.
pub(crate) const COLUMN_WIDTH: usize = 4;

// Puts a number, right-aligned in a column, in front of the text.
#[tactic(auto, using(crate::proofs::TextLemmas::u8_length))]
fn prepend_column(text: &mut StackText, number: u8)
    requires { length text.old + COLUMN_WIDTH ≤ ROOM }
    ensures column { text.new ≡ column_text number ++ text.old }
    ensures longer { length text.new ≡ COLUMN_WIDTH + length text.old }
{
    let end = text.len() + COLUMN_WIDTH;
    text.prepend_number(u64::from(number));
    text.prepend_blanks(end - text.len());
}

// Returns the house that a player has in a column.
fn house_in(player: Player, board: &Board, column: u8) -> u8
    requires low { 1 ≤ column }
    requires high { column ≤ side_length board.now }
    ensures house { result ≡ house_in player board.now column }
    ensures low { 1 ≤ result }
    ensures high { result ≤ side_length board.now }
{
    match player {
        Player::Mover => column,
        Player::Other => board.m() + 1 - column,
    }
}

// Puts an empty column and a player's houses, a column each, in front of the text.
fn prepend_houses(text: &mut StackText, board: &Board, player: Player)
    requires { length text.old + COLUMN_WIDTH * (1 + most_houses) ≤ ROOM }
    ensures houses { text.new ≡ houses_line player board.now ++ text.old }
    ensures longer { length text.new ≡ COLUMN_WIDTH + COLUMN_WIDTH * side_length board.now + length text.old }
{
    let mut column = board.m();
    while column > 0 {
        prepend_column(text, player.seeds(board, house_in(player, board, column)));
        column -= 1;
    }
    text.prepend_blanks(COLUMN_WIDTH);
}

// Returns the picture of a board.
#[tactic(auto, unfolding(crate::specs::Writing::Picture::picture_of))]
fn picture(board: &Board) -> StackText
    ensures { result ≡ picture_of board.now }
{
    let m = usize::from(board.m());
    let mut text = StackText::of("\n");
    prepend_houses(&mut text, board, Player::Mover);
    text.prepend("\n");
    prepend_column(&mut text, board.own_store());
    text.prepend_blanks(COLUMN_WIDTH * m);
    prepend_column(&mut text, board.other_store());
    text.prepend("\n");
    prepend_houses(&mut text, board, Player::Other);
    text
}

/// Draws a board in three lines. The first has the houses of the opponent, from the last to the first. The second has the stores,
/// with the mover's at the right. The third has the houses of the mover, from the first to the last. Each number is right-aligned in
/// a column of four bytes.
pub fn write_picture<W: Sink>(out: &mut W, board: &Board)
    ensures { WasGiven W.state out.old out.new (picture_of board.now) }
{
    picture(board).write_to(out);
}
