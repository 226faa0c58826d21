//! The solver: the worth of positions, by a search with a table.
ghost use Rattle.std.specs.Prelude.{◌≡◌, IfOk, false};
ghost use Rattle.kalah_rules.specs.Position.{is_over, storeless, houses_in, AreWithinLimits, IsWithinLimits, IsMarginInRange};
ghost use Rattle.kalah_solve.specs.{Solver.{Worth.{best_house, houses_worth, worth}, Verdict.{verdict_of, StatesBestPlay, IsVerdictInRange}, EmptyTable.{HasEmptyTable}}, Table.Entries.{IsTableSize}, Bounds.Won.{won}};

pub(crate) mod laws;
pub(crate) mod move_values;
#[cfg(test)]
pub(crate) mod tests;
mod values;

use crate::bounds::seed_bounds::won_of;
use crate::bounds::window::Window;
use crate::search::Search;
use crate::table::Table;
use kalah_rules::{Board, House, Houses};
use std::alloc::{AllocError, Allocator, Global};
use std::sync::Arc;

/// The worth of a position to the player to move, and the house that attains it.
#[derive(Clone, Copy, Debug, PartialEq, Eq)]
pub enum Verdict {
    /// The margin of best play, -130 to 130, and the lowest-numbered best house, 1 to 6.
    Best { margin: i32, house: u8 },
    /// The margin of a game that is over, -130 to 130.
    Over { margin: i32 },
}

// Returns the margin of best play of the position, whose houses have this worth.
#[inline(always)]
fn worth_of_board(of_houses: i32, board: &Board) -> i32
    requires houses { of_houses ≡ houses_worth (houses_in board.now) }
    requires limits { IsWithinLimits board.now }
    ensures worth { result ≡ worth board.now }
    ensures small { IsMarginInRange result }
{
    of_houses + (board.own_store() as i32 - board.other_store() as i32)
}

/// Computes what positions are worth, by a search that keeps what it learns in a table for later positions. If there is no memory for an
/// entry, it is left out.
#[derive(Drop)]
pub struct Solver<A: Allocator + Clone = Global> {
    search: Search<A>,
}

impl<A: Allocator + Clone> Solver<A> {
    /// Makes a solver with this table. The table decides how long an answer takes, never what it is.
    pub fn new(table: Table<A>) -> Solver<A>
        ensures { result.search.table ≡ table }
    {
        Solver {
            search: Search::new(table),
        }
    }

    /// Makes a solver with an empty table of its own, with room for `capacity` entries, 1 to 1,048,576. The two share what they learn of
    /// endings, with each other and with the solvers made from either, also if they run in different threads.
    ///
    /// Fails with `AllocError` only if memory was refused.
    pub fn sharing_endings(&self, alloc: A, capacity: u32) -> Result<Solver<A>, AllocError>
        requires { IsTableSize capacity }
        ensures { IfOk result (HasEmptyTable capacity) }
    {
        let endings = Arc::try_clone(&self.search.table.endings)?;
        let table = Table::with_endings(alloc, capacity, endings)?;
        Ok(Solver::new(table))
    }

    /// Returns what the position is worth to the player to move. That is the final margin of a game that is over, otherwise the margin
    /// of best play with the lowest-numbered best house.
    // Inlined, since each line needs one call.
    #[inline(always)]
    pub fn solve(&mut self, board: &Board) -> Verdict
        ensures verdict { result ≡ verdict_of board.now }
        ensures best_play { StatesBestPlay board.now result }
        ensures small { IsVerdictInRange result }
    {
        if board.is_over() {
            return Verdict::Over {
                margin: board.returns(),
            };
        }
        let houses = board.houses();
        let worth = self.houses_worth(&houses);
        let beta = won_of(worth, houses.seeds());
        let house = self.best_house(&houses, beta);
        let margin = worth_of_board(worth, board);
        Verdict::Best { margin, house }
    }

    // Returns what houses are worth to the player to move, by a search in the whole window.
    fn houses_worth(&mut self, houses: &Houses) -> i32
        requires limits { AreWithinLimits houses.now }
        requires going { is_over (storeless houses.now) ≡ false }
        ensures { result ≡ houses_worth houses.now }
    {
        self.search.clamped_worth(houses, Window::whole())
    }

    // Returns the lowest-numbered house that wins as many seeds as best play. If all but the last fall short, it is the last.
    // Inlined, since a call would take longer where there is one move.
    #[inline(always)]
    fn best_house(&mut self, houses: &Houses, beta: u8) -> u8
        requires going { is_over (storeless houses.now) ≡ false }
        requires beta { beta ≡ won houses.now }
        ensures { result ≡ best_house (storeless houses.now) }
    {
        let moves = houses.legal();
        let last = moves.len() - 1;
        for i in 0..last {
            let h = moves.get(i);
            if self.search.move_reaches(houses, House::new(h), beta) {
                return h;
            }
        }
        moves.get(last)
    }
}
