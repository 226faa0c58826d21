//! The steps of a position, a line each or all in one line.
ghost use Rattle.std.specs.{Prelude.{◌≡◌, ◌≤◌, ◌∷◌, [], ◌++◌, if◌then◌else◌, Contains, IfOk, OnOk, codes, length, map, string_bytes}, List.{join_with_byte}};
ghost use Rattle.kalah_rules.specs.Play.{legal_houses};
ghost use Rattle.kalah_jobs.specs.{Files.Lines.{line_feed}, Writing.{Answer.{house_step_text, in_one_line, steps_texts}, Sink.{WasGiven}}, declared.writing.answer_line.TheConstants.{MOST_PLACE_BYTES}};

use crate::writing::named_text::write_named;
use crate::writing::position_text::text_of_step;
use crate::writing::sink::{Sink, write_unless_failed};
use crate::writing::stack_text::StackText;
use kalah_rules::Board;
use std::alloc::{AllocError, Global};

/// Writes a line for each legal house of a board, in ascending order: the name, the place and the text of its move. If there is none,
/// it writes an empty line.
pub(crate) fn write_steps<W: Sink>(out: &mut W, name: &str, place: &str, board: &Board)
    requires { length place.now ≤ MOST_PLACE_BYTES }
    ensures { WasGiven W.state out.old out.new
        (join_with_byte line_feed (map (λ text. (name.now ++ place.now) ++ text) (steps_texts board.now)) ++ line_feed ∷ []) }
{
    let moves = board.legal();
    let count = moves.len();
    if count == 0 {
        return write_unless_failed(out, b"\n");
    }
    for i in 0..count {
        let h = moves.get(i);
        let mut text = text_of_step(h, &board.apply(h), "\n");
        text.prepend(place);
        write_named(out, name, &mut text);
    }
}

/// Appends a line to the text: a line feed before it if it isn't the first, the name and the rest of the line.
pub(crate) fn push_line(
    text: &mut String,
    is_first: bool,
    name: &str,
    rest: &str,
) -> Result<(), AllocError>
    ensures { OnOk result (string_bytes text.new
        ≡ string_bytes text.old ++ ((if is_first then [] else line_feed ∷ []) ++ (name.now ++ rest.now))) }
{
    if !is_first {
        text.push_str("\n")?;
    }
    text.push_str(name)?;
    text.push_str(rest)
}

/// Returns a line for each legal house of a board, in ascending order: the name, the place and the text of its move. Between any two
/// stands a line feed.
pub(crate) fn text_of_steps(
    alloc: Global,
    name: &str,
    place: &str,
    board: &Board,
) -> Result<String, AllocError>
    requires { length place.now ≤ MOST_PLACE_BYTES }
    ensures { IfOk result (λ text. string_bytes text
        ≡ join_with_byte line_feed (map (λ text. (name.now ++ place.now) ++ text) (steps_texts board.now))) }
{
    let mut text = String::new(alloc);
    let moves = board.legal();
    for i in 0..moves.len() {
        let h = moves.get(i);
        let mut step = text_of_step(h, &board.apply(h), "");
        step.prepend(place);
        push_line(&mut text, i == 0, name, step.as_str())?;
    }
    Ok(text)
}

// Returns the text of a move, and before it `; ` if it isn't the first.
fn next_text(is_first: bool, board: &Board, h: u8) -> StackText
    requires { Contains (legal_houses board.now) h }
    ensures { result ≡ (if is_first then [] else codes "; ") ++ house_step_text board.now h }
{
    let mut text = text_of_step(h, &board.apply(h), "");
    if !is_first {
        text.prepend("; ");
    }
    text
}

/// Writes the text of the move of each legal house of a board, in ascending order, with `; ` between any two, and a line feed.
pub(crate) fn write_steps_in_line<W: Sink>(out: &mut W, board: &Board)
    ensures { WasGiven W.state out.old out.new (in_one_line (steps_texts board.now) ++ line_feed ∷ []) }
{
    let moves = board.legal();
    for i in 0..moves.len() {
        next_text(i == 0, board, moves.get(i)).write_to(out);
    }
    write_unless_failed(out, b"\n");
}
