//! The number of nodes of the search (`rt test -- nodes` prints it), and what it keeps of them.
use super::*;
use crate::tests::{houses_of, table_of};
use std::alloc::Global;
use std::io::Print;
use std::process::Abort;

// Houses a side, the houses of the mover and of the opponent, and what they are worth.
type Position = (u8, [u8; 6], [u8; 6], i32);

// Games as they begin.
static STARTS: [Position; 5] = [
    (2, [7, 7, 0, 0, 0, 0], [7, 7, 0, 0, 0, 0], 8),
    (3, [5, 5, 5, 0, 0, 0], [5, 5, 5, 0, 0, 0], 6),
    (4, [3, 3, 3, 3, 0, 0], [3, 3, 3, 3, 0, 0], 6),
    (5, [3, 3, 3, 3, 3, 0], [3, 3, 3, 3, 3, 0], 6),
    (6, [2, 2, 2, 2, 2, 2], [2, 2, 2, 2, 2, 2], 6),
];

// Positions with many seeds.
static HARD: [Position; 3] = [
    (6, [2, 2, 4, 1, 1, 0], [1, 5, 4, 5, 4, 2], 11),
    (5, [3, 4, 0, 3, 4, 0], [2, 2, 4, 3, 3, 0], 8),
    (6, [3, 4, 1, 4, 2, 2], [4, 1, 0, 1, 3, 2], 9),
];

// Positions with 12 seeds.
static SMALL: [Position; 8] = [
    (6, [1, 2, 1, 0, 0, 0], [3, 1, 1, 2, 0, 1], -2),
    (6, [1, 2, 1, 2, 1, 1], [1, 0, 0, 0, 1, 2], 8),
    (6, [1, 1, 0, 1, 1, 1], [1, 2, 1, 1, 1, 1], 0),
    (5, [4, 1, 1, 0, 1, 0], [1, 0, 3, 1, 0, 0], 4),
    (6, [0, 1, 1, 0, 2, 3], [0, 0, 2, 1, 2, 0], 0),
    (6, [1, 0, 3, 3, 2, 0], [0, 1, 0, 1, 1, 0], 6),
    (6, [0, 0, 1, 3, 2, 1], [0, 0, 1, 1, 3, 0], 8),
    (5, [1, 2, 0, 0, 2, 0], [2, 2, 2, 1, 0, 0], -2),
];

// Searches the positions in order: each has its worth, all take this number of nodes, within 5 %, and then this number of slots is laid
// out. Prints the nodes.
fn search_all(
    rt: &(impl Abort + AllocGlobal + Print),
    positions: &[Position],
    expected: u64,
    slots: usize,
) {
    let mut search = Search::new(table_of(rt, 65_536));
    for (m, own, other, worth) in positions {
        let houses = houses_of(rt, *m, *own, *other);
        let found = search.clamped_worth(&houses, Window::whole());
        assert!(rt; found == *worth, "{houses:?}: {found}");
    }
    let nodes = search.nodes();
    println!(rt; "{nodes} nodes").expect(rt, "no output");
    assert!(rt;
        nodes.abs_diff(expected) < expected / 20,
        "{nodes} nodes, not {expected}"
    );
    assert!(rt; search.table.slots.len() == slots);
}

#[test]
fn positions_take_few_nodes(rt: HostRuntime) {
    search_all(&rt, &STARTS, 58_977, 65_536);
    search_all(&rt, &HARD, 214_767, 65_536);
    search_all(&rt, &SMALL, 428, 8_192);
}

// Houses with that many seeds get no slot, and neither search gives them an entry.
#[test]
fn answers_after_few_nodes_get_no_entry(rt: HostRuntime) {
    let mut search = Search::new(table_of(&rt, 1));
    let houses = houses_of(&rt, 1, [16, 0, 0, 0, 0, 0], [15, 0, 0, 0, 0, 0]);
    for _ in 0..2u8 {
        assert!(rt; search.clamped_worth(&houses, Window::whole()) == 7);
        assert!(rt; search.table.look_up(&houses).is_none());
    }
}

#[test]
fn slots_are_laid_out_once(rt: HostRuntime) {
    let mut search = Search::new(table_of(&rt, 65_536));
    let houses = houses_of(&rt, 6, SMALL[1].1, SMALL[1].2);
    search.table.grow();
    // The mover wins 10 of the 12 seeds.
    let _ = search.bound_by_search::<6>(&houses, 10);
    assert!(rt; search.known_seeds(&houses).least == 10);
    search.table.grow();
    assert!(rt; search.known_seeds(&houses).least == 10);
}
