//! Numbers of ways to play on, to each depth.
use crate::Board;
use crate::Rule::{self, Classic, EmptyCapture};

// The ways to each depth from two seeds in each of twelve houses.
static WAYS: [(Rule, [u64; 8]); 2] = [
    (Classic, [1, 6, 35, 180, 855, 3737, 15420, 60541]),
    (EmptyCapture, [1, 6, 35, 180, 855, 3724, 15239, 58994]),
];

#[test]
fn ways_of_each_depth_are_counted(rt: HostRuntime) {
    for (rule, counts) in &WAYS {
        let board = Board::new(6, [2; 6], 0, [2; 6], 0, *rule).expect(&rt, "beyond the limits");
        for depth in 0..8u8 {
            let ways = board.ways(depth);
            assert!(rt; ways == counts[depth as usize], "{depth}: {ways}");
        }
    }
}

#[test]
fn ways_behind_a_move_are_counted_without_it(rt: HostRuntime) {
    let fives = [5, 5, 5, 0, 0, 0];
    let board = Board::new(3, fives, 0, fives, 0, Classic).expect(&rt, "beyond the limits");
    for (h, ways) in [(1, 18), (2, 21), (3, 21)] {
        assert!(rt; board.is_legal(h) && board.ways_by(h, 3) == ways, "{h}");
    }
}
