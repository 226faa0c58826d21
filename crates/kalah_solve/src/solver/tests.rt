//! Verdicts and values of worked positions, and verdicts beside those of a plain recursion.
use super::*;
use crate::search::Search;
use crate::solver::move_values::{MoveValue, MoveValues};
use crate::tests::{houses_of, plain, table_of};
use kalah_rules::Rule::{self, Classic, EmptyCapture};
use std::process::Abort;

/// A solver with this table, into which the search puts every answer if it `keeps_all`.
pub(crate) fn solver_with(table: Table, keeps_all: bool) -> Solver {
    if keeps_all {
        Solver {
            search: Search::with_all_entries(table),
        }
    } else {
        Solver::new(table)
    }
}

/// Up to three houses a side; the last number of each side is its store.
pub(crate) type Position = (u8, [u8; 4], [u8; 4], Rule);

fn board_of(rt: &impl Abort, (m, own, other, rule): &Position) -> Board {
    let own_houses = [own[0], own[1], own[2], 0, 0, 0];
    let other_houses = [other[0], other[1], other[2], 0, 0, 0];
    let board = Board::new(*m, own_houses, own[3], other_houses, other[3], *rule);
    board.expect(rt, "beyond the limits")
}

// The margin of best play and its house, or 0 for a game that is over.
fn verdict(margin: i32, house: u8) -> Verdict {
    if house == 0 {
        Verdict::Over { margin }
    } else {
        Verdict::Best { margin, house }
    }
}

/// A position, the margin of best play and its house, or 0 for a game that is over.
pub(crate) type Worked = (Position, i32, u8);

/// Worked positions. The two that stand twice are solved again after positions with the same houses and another store or rule. The last
/// ones take so much work that an answer is kept, and differ in their rule or stores alone.
pub(crate) static WORKED: [Worked; 28] = [
    ((1, [1, 0, 0, 0], [1, 0, 0, 0], Classic), 0, 1),
    ((1, [2, 0, 0, 0], [2, 0, 0, 0], Classic), -2, 1),
    ((1, [3, 0, 0, 0], [3, 0, 0, 0], Classic), 6, 1),
    ((1, [4, 0, 0, 0], [4, 0, 0, 0], Classic), -2, 1),
    ((1, [5, 0, 0, 0], [5, 0, 0, 0], Classic), 2, 1),
    ((1, [6, 0, 0, 0], [6, 0, 0, 0], Classic), 0, 1),
    ((2, [1, 1, 0, 0], [1, 1, 0, 0], Classic), 2, 2),
    ((2, [5, 0, 0, 0], [1, 0, 0, 0], Classic), 2, 1),
    ((2, [1, 1, 0, 0], [0, 1, 0, 0], Classic), 1, 1),
    ((2, [1, 0, 0, 0], [0, 2, 0, 0], Classic), 1, 1),
    ((2, [0, 0, 0, 3], [1, 2, 0, 4], Classic), -4, 0),
    ((1, [0, 0, 0, 0], [0, 0, 0, 0], Classic), 0, 0),
    ((1, [15, 0, 0, 99], [0, 0, 0, 0], Classic), 114, 0),
    ((1, [31, 0, 0, 99], [0, 0, 0, 0], Classic), 130, 0),
    ((1, [8, 0, 0, 0], [7, 0, 0, 0], Classic), -9, 1),
    ((1, [8, 0, 0, 0], [8, 0, 0, 0], Classic), 0, 1),
    ((1, [16, 0, 0, 0], [15, 0, 0, 0], Classic), 7, 1),
    ((2, [1, 1, 0, 9], [1, 1, 0, 4], Classic), 7, 2),
    ((2, [1, 1, 0, 0], [1, 1, 0, 0], Classic), 2, 2),
    ((2, [1, 0, 0, 0], [0, 2, 0, 0], EmptyCapture), -1, 1),
    ((2, [1, 0, 0, 0], [0, 2, 0, 0], Classic), 1, 1),
    ((2, [1, 1, 0, 0], [0, 1, 0, 0], EmptyCapture), 1, 1),
    ((1, [3, 0, 0, 0], [3, 0, 0, 0], EmptyCapture), 6, 1),
    ((1, [0, 0, 0, 0], [0, 0, 0, 0], EmptyCapture), 0, 0),
    ((3, [4, 1, 4, 0], [3, 3, 2, 0], Classic), 3, 1),
    ((3, [4, 1, 4, 0], [3, 3, 2, 0], EmptyCapture), 9, 1),
    ((3, [4, 1, 4, 9], [3, 3, 2, 4], Classic), 8, 1),
    ((3, [4, 1, 4, 9], [3, 3, 2, 4], EmptyCapture), 14, 1),
];

/// Positions that differ in their stores alone.
pub(crate) static SAME_HOUSES: [Worked; 2] = [
    ((2, [1, 1, 0, 0], [1, 1, 0, 0], Classic), 2, 2),
    ((2, [1, 1, 0, 9], [1, 1, 0, 4], Classic), 7, 2),
];

// Fails unless this is what was found at the position.
fn assert_found(rt: &impl Abort, board: &Board, found: Verdict, wanted: Verdict) {
    assert!(rt; found == wanted, "{board:?}: {found:?}");
}

/// The verdicts, in order.
pub(crate) fn solves(rt: &impl Abort, solver: &mut Solver, positions: &[Worked]) {
    for (position, margin, house) in positions {
        let board = board_of(rt, position);
        assert_found(rt, &board, solver.solve(&board), verdict(*margin, *house));
    }
}

// Of long positions that differ in their stores alone only the first is solved.
#[test]
fn the_plain_recursion_solves_worked_positions(rt: HostRuntime) {
    for (position, margin, house) in &WORKED {
        let board = board_of(&rt, position);
        if board.m() < 3 || board.own_store() == 0 {
            assert_found(&rt, &board, plain::solve(&board), verdict(*margin, *house));
        }
    }
}

// Each position with two houses a side and at most four seeds has the verdict of the plain recursion.
fn agrees_with_plain(rt: &impl Abort, solver: &mut Solver, rule: Rule) {
    for a in 0..5u8 {
        for b in 0..5 - a {
            for c in 0..5 - a - b {
                for d in 0..5 - a - b - c {
                    let board = board_of(rt, &(2, [a, b, 0, 0], [c, d, 0, 0], rule));
                    assert_found(rt, &board, solver.solve(&board), plain::solve(&board));
                }
            }
        }
    }
}

#[test]
fn solves_with_each_table(rt: HostRuntime) {
    for capacity in [1, 4, 65_536] {
        for keeps_all in [false, true] {
            solves(
                &rt,
                &mut solver_with(table_of(&rt, capacity), keeps_all),
                &WORKED,
            );
            let mut solver = solver_with(table_of(&rt, capacity), keeps_all);
            agrees_with_plain(&rt, &mut solver, Classic);
            agrees_with_plain(&rt, &mut solver, EmptyCapture);
        }
    }
}

// Whether the search in this window finds this answer, and the houses are then known to be worth `lo` to `hi`.
fn leaves(
    rt: &impl Abort,
    search: &mut Search,
    window: Window,
    answer: i32,
    lo: i8,
    hi: i8,
) -> bool {
    let houses = houses_of(rt, 1, [3, 0, 0, 0, 0, 0], [3, 0, 0, 0, 0, 0]);
    let found = search.clamped_worth(&houses, window);
    let known = search.table.look_up(&houses).expect(rt, "no entry");
    found == answer && known.lo == lo && known.hi == hi
}

#[test]
fn windows_leave_intervals(rt: HostRuntime) {
    let search = &mut Search::with_all_entries(table_of(&rt, 100));
    assert!(rt; leaves(&rt, search, Window { lo: -2, hi: 2 }, 2, 2, 31));
    assert!(rt; leaves(&rt, search, Window { lo: 7, hi: 9 }, 7, 2, 7));
    assert!(rt; leaves(&rt, search, Window::whole(), 6, 6, 6));
}

// Positions, and the values of their houses from the first on.
static VALUES: [(Position, &[i16]); 6] = [
    ((2, [1, 1, 0, 0], [1, 1, 0, 0], Classic), &[-2, 2]),
    ((2, [1, 1, 0, 9], [1, 1, 0, 4], Classic), &[3, 7]),
    ((1, [2, 0, 0, 0], [2, 0, 0, 0], Classic), &[-2]),
    ((2, [0, 0, 0, 3], [1, 2, 0, 4], Classic), &[]),
    ((2, [1, 0, 0, 0], [0, 2, 0, 0], Classic), &[1]),
    ((2, [1, 0, 0, 0], [0, 2, 0, 0], EmptyCapture), &[-1]),
];

// Whether these are the values of the houses from the first on.
fn are_values(values: &MoveValues, want: &[i16]) -> bool {
    for i in 0..values.len() {
        let MoveValue { house, value } = values.get(i);
        if house != i + 1 || want.get(usize::from(i)) != Some(&value) {
            return false;
        }
    }
    usize::from(values.len()) == want.len()
}

#[test]
fn values_of_worked_positions_are_known(rt: HostRuntime) {
    let mut solver = Solver::new(table_of(&rt, 1));
    for (position, want) in &VALUES {
        let board = board_of(&rt, position);
        let values = solver.values(&board);
        assert!(rt; are_values(&values, want), "{board:?}: {values:?}");
    }
}
