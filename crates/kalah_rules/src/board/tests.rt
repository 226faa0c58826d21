//! Boards: moves, ends, margins and limits.
use crate::Rule::{self, Classic, EmptyCapture};
use crate::{Board, Houses, Step};
use End::{Again, Over, Turn};
use std::process::Abort;

// The seeds in two houses and in the store of each side, the mover's first.
type Sides = [[u8; 3]; 2];

// Returns a board of one or two houses a side.
fn board(rt: &impl Abort, m: u8, rule: Rule, [own, other]: &Sides) -> Board {
    let own_row = [own[0], own[1], 0, 0, 0, 0];
    let other_row = [other[0], other[1], 0, 0, 0, 0];
    let board = Board::new(m, own_row, own[2], other_row, other[2], rule);
    board.expect(rt, "beyond the limits")
}

// How a move ends.
#[derive(Clone, Copy)]
enum End {
    Again,
    Turn,
    Over,
}

fn step_of(end: End, next: Board) -> Step {
    match end {
        Again => Step::Again(next),
        Turn => Step::Turn(next),
        Over => Step::Over(next),
    }
}

// Positions of each kind of move: houses a side, rule and sides, a house, how its move ends, and the sides then.
#[rattlefmt::skip]
static MOVES: [(u8, Rule, Sides, u8, End, Sides); 9] = [
    (2, Classic, [[1, 1, 0], [1, 1, 0]], 1, Turn, [[1, 1, 0], [0, 2, 0]]),
    (2, Classic, [[1, 1, 0], [1, 1, 0]], 2, Again, [[1, 0, 1], [1, 1, 0]]),
    (2, EmptyCapture, [[1, 1, 0], [1, 1, 0]], 1, Turn, [[1, 1, 0], [0, 2, 0]]),
    (2, EmptyCapture, [[1, 1, 0], [1, 1, 0]], 2, Again, [[1, 0, 1], [1, 1, 0]]),
    // A lap ends in the lifted house and captures, by either rule.
    (1, Classic, [[3, 0, 0], [3, 0, 0]], 1, Over, [[0, 0, 6], [0, 0, 0]]),
    (1, EmptyCapture, [[3, 0, 0], [3, 0, 0]], 1, Over, [[0, 0, 6], [0, 0, 0]]),
    // Many laps.
    (1, Classic, [[8, 0, 0], [8, 0, 0]], 1, Turn, [[11, 0, 0], [2, 0, 3]]),
    // An empty house across is captured by one rule alone.
    (2, Classic, [[1, 0, 0], [0, 2, 0]], 1, Turn, [[0, 2, 0], [0, 1, 0]]),
    (2, EmptyCapture, [[1, 0, 0], [0, 2, 0]], 1, Over, [[0, 0, 1], [0, 0, 2]]),
];

/// Asserts what each of the moves leads to.
pub(crate) fn assert_moves(rt: &impl Abort) {
    for (m, rule, sides, h, end, next) in &MOVES {
        let start = board(rt, *m, *rule, sides);
        let next = step_of(*end, board(rt, *m, *rule, next));
        assert!(rt;
            start.is_legal(*h) && start.apply(*h) == next,
            "{start:?} {h}"
        );
    }
}

// Returns whether these houses, in this order, and no others may be moved, and the game is over if there are none.
fn has_moves(board: &Board, want: &[u8]) -> bool {
    let moves = board.legal();
    for h in 0..8 {
        if board.is_legal(h) != want.contains(&h) {
            return false;
        }
    }
    for i in 0..moves.len() {
        if want.get(usize::from(i)) != Some(&moves.get(i)) {
            return false;
        }
    }
    usize::from(moves.len()) == want.len() && board.is_over() == want.is_empty()
}

const ONES: [u8; 6] = [1, 1, 0, 0, 0, 0];

// Houses a side, rule, and houses and store of each side; the houses that may be moved, and the final margin of a game that is over.
#[rattlefmt::skip]
static POSITIONS: [(u8, Rule, [u8; 6], u8, [u8; 6], u8, &[u8], Option<i32>); 7] = [
    (2, Classic, ONES, 0, ONES, 0, &[1, 2], None),
    (2, EmptyCapture, ONES, 0, ONES, 0, &[1, 2], None),
    (2, EmptyCapture, [1, 2, 0, 0, 0, 0], 9, [3, 4, 0, 0, 0, 0], 5, &[1, 2], None),
    (6, Classic, [1, 0, 2, 0, 0, 3], 0, [0, 0, 0, 0, 0, 1], 0, &[1, 3, 6], None),
    (2, Classic, [0; 6], 3, [1, 2, 0, 0, 0, 0], 4, &[], Some(-4)),
    (2, EmptyCapture, [0; 6], 3, [1, 2, 0, 0, 0, 0], 4, &[], Some(-4)),
    (1, Classic, [31, 0, 0, 0, 0, 0], 99, [0; 6], 0, &[], Some(130)),
];

fn margin(board: &Board) -> Option<i32> {
    if board.is_over() {
        Some(board.returns())
    } else {
        None
    }
}

/// Asserts houses, stores, moves and margin of each of the positions.
pub(crate) fn assert_positions(rt: &impl Abort) {
    for (m, rule, own, own_store, other, other_store, moves, end) in &POSITIONS {
        let board = Board::new(*m, *own, *own_store, *other, *other_store, *rule);
        let board = board.expect(rt, "beyond the limits");
        assert!(rt;
            has_moves(&board, moves) && margin(&board) == *end,
            "{board:?}"
        );
        assert!(rt;
            (board.own_store(), board.other_store()) == (*own_store, *other_store),
            "{board:?}"
        );
        let houses = Houses::new(*m, *own, *other, *rule);
        assert!(rt; Some(board.houses()) == houses, "{board:?}");
    }
}

#[test]
fn another_move_with_no_seeds_left_ends_the_game(rt: HostRuntime) {
    let start = board(&rt, 1, Classic, &[[1, 0, 99], [1, 0, 99]]);
    assert!(rt; start.is_legal(1));
    let step = start.apply(1);
    let swept = step.board();
    assert!(rt; step == Step::Over(*swept) && margin(swept) == Some(0));
    assert!(rt; (swept.own_store(), swept.other_store()) == (100, 100));
}

const SECOND: [u8; 6] = [0, 1, 0, 0, 0, 0];

// Houses a side, and houses and store of each side, beyond the limits.
static BEYOND: [(u8, [u8; 6], u8, [u8; 6], u8); 8] = [
    (0, [0; 6], 0, [0; 6], 0),
    (7, [0; 6], 0, [0; 6], 0),
    (1, SECOND, 0, [0; 6], 0),
    (1, [0; 6], 0, SECOND, 0),
    (6, [31, 1, 0, 0, 0, 0], 0, [0; 6], 0),
    (1, [0; 6], 100, [0; 6], 0),
    (1, [0; 6], 0, [0; 6], 100),
    (2, [16; 6], 0, [16; 6], 0),
];

/// Asserts that there is no board beyond the limits.
pub(crate) fn assert_limits(rt: &impl Abort, rule: Rule) {
    assert!(rt; Board::new(1, [0; 6], 99, [0; 6], 99, rule).is_some());
    for (m, own, own_store, other, other_store) in &BEYOND {
        let board = Board::new(*m, *own, *own_store, *other, *other_store, rule);
        assert!(rt; board.is_none(), "{board:?}");
    }
}

#[test]
fn moves_lead_to_positions(rt: HostRuntime) {
    assert_moves(&rt);
}

#[test]
fn positions_have_their_houses_moves_and_margin(rt: HostRuntime) {
    assert_positions(&rt);
}

#[test]
fn limits_are_kept(rt: HostRuntime) {
    assert_limits(&rt, Classic);
}
