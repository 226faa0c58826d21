//! `Solver::values`: the search for each move.
ghost use Rattle.std.specs.Prelude.{◌≡◌, Contains};
ghost use Rattle.kalah_rules.specs.{Position.{IsMarginInRange}, Play.{legal_houses}};
ghost use Rattle.kalah_solve.specs.Solver.{Worth.{worth, value_of_move}, MoveValues.{move_value, values_of, AreValuesByBestPlay}};

use super::{Solver, worth_of_board};
use crate::solver::move_values::{MoveValue, MoveValues};
use kalah_rules::{Board, Step};
use std::alloc::Allocator;

impl<A: Allocator + Clone> Solver<A> {
    /// Returns the value of each legal move to the player to move, with the houses in ascending order. It is the margin that the move gets
    /// in best play. The list is empty if the game is over. The moves share what the table learns.
    pub fn values(&mut self, board: &Board) -> MoveValues
        ensures values { result ≡ values_of board.now }
        ensures best_play { AreValuesByBestPlay board.now result }
    {
        let moves = board.legal();
        let mut values = MoveValues::none();
        for i in (0..moves.len()).rev() {
            values.prepend(self.move_value(board, moves.get(i)));
        }
        values
    }

    // Returns house `h` with the value of its move.
    fn move_value(&mut self, board: &Board, h: u8) -> MoveValue
        requires { Contains (legal_houses board.now) h }
        ensures { result ≡ move_value board.now h }
    {
        MoveValue {
            house: h,
            value: self.value_of_move(board, h) as i16,
        }
    }

    // Returns the margin of best play after the move of house `h`, for the player who makes that move.
    fn value_of_move(&mut self, board: &Board, h: u8) -> i32
        requires { Contains (legal_houses board.now) h }
        ensures value { result ≡ value_of_move board.now h }
        ensures small { IsMarginInRange result }
    {
        match board.apply(h) {
            Step::Over(end) => end.returns(),
            Step::Again(next) => self.worth(&next),
            Step::Turn(next) => -self.worth(&next),
        }
    }

    // Returns the margin of best play of the position.
    fn worth(&mut self, board: &Board) -> i32
        ensures worth { result ≡ worth board.now }
        ensures small { IsMarginInRange result }
    {
        if board.is_over() {
            return board.returns();
        }
        let worth = self.houses_worth(&board.houses());
        worth_of_board(worth, board)
    }
}
