//! Positions and steps as text.
ghost use Rattle.std.specs.Prelude.{◌≡◌, ◌<◌, ◌≤◌, ◌+◌, ◌*◌, ◌∷◌, [], ◌++◌, IfOk, drop, length, string_bytes};
ghost use Rattle.kalah_jobs.specs.{Writing.{Sink.{WasGiven}, Player.{houses_of, store_of}, PositionText.{side_text, line_text_of, word_of_step, step_text_of}, Variation.{value_suffix}}, Files.Lines.{line_feed}, Line.Line.{Reads}};
ghost use Rattle.kalah_rules.specs.{Limits.{most_in_store}, Position.{IsWithinLimits, side_length}};

use crate::writing::player::Player;
use crate::writing::sink::Sink;
use crate::writing::stack_text::{ROOM, StackText};
use kalah_rules::{Board, Rule, Step};
use std::alloc::{AllocError, Global};

// The most bytes of a side: 3 for each of six houses and for the store, and what stands between them.
const MOST_SIDE_BYTES: usize = 27;

// The most bytes of a board: two sides, a space between them, and a suffix of 2.
const MOST_BOARD_BYTES: usize = 57;

// The most bytes of a step: 3 for the house, a board, 5 for the word, and two spaces.
const MOST_STEP_BYTES: usize = 67;

// Puts a player's houses after the first `i`, a slash and the player's store in front of the text.
fn prepend_side(text: &mut StackText, board: &Board, player: Player, i: u8)
    requires within { i < side_length board.now }
    requires room { length text.old + MOST_SIDE_BYTES ≤ ROOM }
    ensures side { text.new ≡ side_text (drop i (houses_of player board.now)) (store_of player board.now) ++ text.old }
    ensures short { length text.new + 4 * i ≤ length text.old + 3 + 4 * side_length board.now }
{
    let m = board.m();
    let seeds = player.seeds(board, i + 1);
    if i + 1 == m {
        text.prepend_u8(player.store(board));
        text.prepend("/");
        return text.prepend_u8(seeds);
    }
    prepend_side(text, board, player, i + 1);
    text.prepend(",");
    text.prepend_u8(seeds);
}

// Puts the line that writes a board in front of the text.
#[tactic(auto, unfolding(crate::specs::Writing::PositionText::line_text_of))]
fn prepend_board(text: &mut StackText, board: &Board)
    requires { length text.old + MOST_BOARD_BYTES ≤ ROOM }
    ensures limits { IsWithinLimits board.now }
    ensures line { text.new ≡ line_text_of board.now ++ text.old }
    ensures short { length text.new ≤ length text.old + MOST_BOARD_BYTES }
{
    if let Rule::EmptyCapture = board.rule() {
        text.prepend(" e");
    }
    prepend_side(text, board, Player::Other, 0);
    text.prepend(" ");
    prepend_side(text, board, Player::Mover, 0);
}

/// Returns the line that writes a board, as `read_line` reads it: `1,1/0 1,1/0`, with ` e` at its end if the rule is
/// `Rule::EmptyCapture`. Both stores must be at most 99, as in every board that was read.
///
/// Fails with `AllocError` only if memory was refused.
pub fn line_text(alloc: Global, board: &Board) -> Result<String, AllocError>
    requires own_low { board.now.own_store ≤ most_in_store }
    requires other_low { board.now.other_store ≤ most_in_store }
    ensures text { IfOk result (λ text. string_bytes text ≡ line_text_of board.now) }
    ensures read_back { IfOk result (λ text. Reads (string_bytes text) board.now) }
{
    let mut text = StackText::new();
    prepend_board(&mut text, board);
    String::from_str(alloc, text.as_str())
}

// Returns the word of a step.
fn word_of_step(step: &Step) -> &'static str
    ensures word { result.now ≡ word_of_step step.now }
    ensures short { length result.now ≤ 5 }
{
    match step {
        Step::Again(_) => "again",
        Step::Turn(_) => "turn",
        Step::Over(_) => "over",
    }
}

// Puts the text of a move in front of the text.
#[tactic(auto, unfolding(crate::specs::Writing::PositionText::step_text_of))]
fn prepend_step(text: &mut StackText, h: u8, step: &Step)
    requires { length text.old + MOST_STEP_BYTES ≤ ROOM }
    ensures step { text.new ≡ step_text_of h step.now ++ text.old }
    ensures short { length text.new ≤ length text.old + MOST_STEP_BYTES }
{
    text.prepend(word_of_step(step));
    text.prepend(" ");
    prepend_board(text, step.board());
    text.prepend(" ");
    text.prepend_u8(h);
}

/// Returns the text of a move, followed by `end`.
pub(crate) fn text_of_step(h: u8, step: &Step, end: &str) -> StackText
    requires { length end.now ≤ 1 }
    ensures text { result ≡ step_text_of h step.now ++ end.now }
    ensures short { length result ≤ MOST_STEP_BYTES + 1 }
{
    let mut text = StackText::of(end);
    prepend_step(&mut text, h, step);
    text
}

/// Returns the text of a move: the house, the board after it and `again`, `turn` or `over`, as `1 1,1/0 0,2/0 turn`. The board is
/// written as by `line_text`, with stores of up to three digits.
///
/// Fails with `AllocError` only if memory was refused.
pub fn step_text(alloc: Global, h: u8, step: &Step) -> Result<String, AllocError>
    ensures { IfOk result (λ text. string_bytes text ≡ step_text_of h step.now) }
{
    String::from_str(alloc, text_of_step(h, step, "").as_str())
}

// Returns a space and the value, if there is one, and a line feed.
fn line_end(value: Option<i32>) -> StackText
    ensures end { result ≡ value_suffix value ++ line_feed ∷ [] }
    ensures short { length result ≤ 1 + 11 + 1 }
{
    let mut text = StackText::of("\n");
    if let Some(value) = value {
        text.prepend_margin(value);
        text.prepend(" ");
    }
    text
}

/// Writes the text of a move, as `step_text` returns it, a space and the value, if there is one, and a line feed.
pub fn write_step<W: Sink>(out: &mut W, h: u8, step: &Step, value: Option<i32>)
    ensures { WasGiven W.state out.old out.new (step_text_of h step.now ++ (value_suffix value ++ line_feed ∷ [])) }
{
    let mut text = line_end(value);
    prepend_step(&mut text, h, step);
    text.write_to(out);
}
