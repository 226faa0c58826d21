//! The margin of best play by its definition: every game that the rules allow is played to its end, with no table and
//! no window. It has no contract, so that it owes nothing to what the proofs say. It is slow, but simple enough that a faster
//! search can be tested against it.
use crate::solver::Verdict;
use kalah_rules::{Board, Step};

// More moves than a game has with as few seeds as in the tests.
const MOST_MOVES: u32 = 10_000;

// Returns the margin of best play after the move of house `h`, for the player who makes that move, or `None` if the house
// may not be moved. The game ends in fewer than `most` moves.
fn value_of_move(board: &Board, h: u8, most: u32) -> Option<i32> {
    if most == 0 || !board.is_legal(h) {
        return None;
    }
    let (next, passes) = match board.apply(h) {
        Step::Over(end) => (end, false),
        Step::Again(next) => (next, false),
        Step::Turn(next) => (next, true),
    };
    let mut worth = None;
    if next.is_over() {
        worth = Some(next.returns());
    } else {
        for h in 1..7 {
            worth = worth.max(value_of_move(&next, h, most - 1));
        }
    }
    match worth {
        Some(margin) if passes => margin.checked_neg(),
        _ => worth,
    }
}

/// Returns what `Solver::solve` must answer.
pub(crate) fn solve(board: &Board) -> Verdict {
    if board.is_over() {
        return Verdict::Over {
            margin: board.returns(),
        };
    }
    let mut best = None;
    let mut house = 0;
    for h in 1..7 {
        let value = value_of_move(board, h, MOST_MOVES);
        if value > best {
            house = h;
            best = value;
        }
    }
    Verdict::Best {
        margin: best.unwrap_or(i32::MIN),
        house,
    }
}
