//! Position lines read.
ghost use Rattle.std.specs.Prelude.{◌≡◌, ◌≤◌, length, IfOk, IfErr, IfSome, IfNone, Ok, Some, None};
ghost use Rattle.kalah_rules.specs.{Limits.{most_in_store}, Position.{Position}};
ghost use Rattle.kalah_jobs.specs.{Line.{Line.{without_cr, Reads, HasFault}, Reading.{admitted, reading_of_text, reading_of, rule_of_suffix, position_of_text}, Side.{AreSidesOf}}, Limits.{most_line_bytes}, Writing.PositionText.{line_text_of}};

#[cfg(test)]
mod tests;

use crate::limits::MOST_LINE_BYTES;
use crate::line::line_fault::LineFault;
use crate::line::side::Side;
use kalah_rules::{Board, MOST_HOUSES, Rule};

// Returns the line without one CR at its end, if it has one.
#[inline(always)]
#[tactic(auto, using(crate::proofs::LineLemmas::ends_of_lines))]
fn drop_cr(line: &[u8]) -> &[u8]
    ensures { result.now ≡ without_cr line.now }
{
    match line.split_last() {
        Some((last, text)) if *last == b'\r' => text,
        _ => line,
    }
}

// Returns the rule that the suffix of a line, which stands after the second side, names.
fn read_rule(suffix: &[u8]) -> Option<Rule>
    ensures { result ≡ rule_of_suffix suffix.now }
{
    match suffix {
        [] => Some(Rule::Classic),
        [b' ', b'e'] => Some(Rule::EmptyCapture),
        _ => None,
    }
}

// Returns the board of two sides and a rule. If it is not within the limits, fails with `Houses` if the sides differ or are too
// long, otherwise with `Seeds`.
#[inline(always)]
fn board_of(own: &Side, other: &Side, rule: Rule) -> Result<Board, LineFault>
    ensures { (p : Position) → AreSidesOf p own.now other.now rule → result ≡ admitted p }
{
    if own.left_out == 0 && other.left_out == 0 {
        let board = Board::of_rows(&own.kept, own.store, &other.kept, other.store, rule);
        if let Some(board) = board {
            return Ok(board);
        }
    }
    let houses = own.len();
    if houses != other.len() || houses > MOST_HOUSES {
        return Err(LineFault::Houses);
    }
    Err(LineFault::Seeds)
}

// Returns the position that a text writes by two sides, with one space between them, and the suffix of its rule, or its fault.
#[tactic(auto, unfolding(crate::specs::Line::Reading::position_of_text))]
#[inline(always)]
fn read_sides(text: &[u8]) -> Option<Result<Board, LineFault>>
    requires { length text.now ≤ most_line_bytes }
    ensures read { IfSome result (λ read. (p : Position) × ((read ≡ admitted p) × (position_of_text text.now ≡ Some p))) }
    ensures none { IfNone result (position_of_text text.now ≡ None) }
{
    let (own, rest) = Side::read(text)?;
    let [b' ', rest @ ..] = rest else {
        return None;
    };
    let (other, rest) = Side::read(rest)?;
    let rule = read_rule(rest)?;
    Some(board_of(&own, &other, rule))
}

// Returns the position of a line whose CR is dropped, or its first fault.
#[inline(always)]
fn read_text(text: &[u8]) -> Result<Board, LineFault>
    ensures { result ≡ reading_of_text text.now }
{
    if text.len() > MOST_LINE_BYTES {
        return Err(LineFault::Long);
    }
    match read_sides(text) {
        Some(read) => read,
        None if text.is_empty() => Err(LineFault::Empty),
        None => Err(LineFault::Shape),
    }
}

/// Returns the position that a line writes, such as `1,1/0 1,1/0`. The line has the mover's houses, separated by commas, a slash, the
/// mover's store, one space, and the opponent's side in the same form. A line that ends in a space and `e` is played under
/// `Rule::EmptyCapture`, any other under `Rule::Classic`. A number is `0`, or one or two digits that do not start with
/// `0`. One CR at the end is dropped first.
///
/// Fails with the first fault that holds, in the order of `LineFault`, if the line writes no position within the limits.
#[inline(always)]
pub fn read_line(bytes: &[u8]) -> Result<Board, LineFault>
    // A position that is read is the one that the line writes, within the limits, and the line is its text.
    ensures reads { IfOk result (λ p. Reads bytes.now p) }
    ensures text { IfOk result (λ p. without_cr bytes.now ≡ line_text_of p) }
    // Both stores have at most two digits, so the board may be written by `line_text`.
    ensures stores { IfOk result (λ p. (p.own_store ≤ most_in_store) × (p.other_store ≤ most_in_store)) }
    // Every line that writes such a position is read.
    ensures every { (p : Position) → Reads bytes.now p → result ≡ Ok p }
    // Any other line has a first fault, and that is the answer.
    ensures fault { IfErr result (λ fault. HasFault bytes.now fault) }
    ensures exact { result ≡ reading_of bytes.now }
{
    read_text(drop_cr(bytes))
}
