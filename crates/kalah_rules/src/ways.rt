//! The numbers of ways to play on.
ghost use Rattle.std.specs.Prelude.{◌≡◌, ◌≤◌, ◌<◌, ◌^◌, Contains};
ghost use Rattle.kalah_rules.specs.{Position.{storeless}, Play.{legal_houses}, Limits.{most_depth, most_houses}, Ways.{ways, ways_by}};

#[cfg(test)]
mod tests;

use crate::board::Board;
use crate::houses::Houses;
use crate::houses::house::House;
use crate::houses::sowing_table::SowingTable;
use crate::step::HousesStep;

impl Houses {
    // Returns the number of ways to play on for `depth` moves.
    #[cycle(ways)]
    fn ways(&self, sowings: &SowingTable, depth: u8) -> u64
        requires { depth ≤ most_depth }
        ensures ways { result ≡ ways depth (storeless self.now) }
        ensures small { result ≤ most_houses ^ depth }
    {
        if depth == 0 {
            return 1;
        }
        if self.is_over() {
            return 0;
        }
        let mut sum = 0;
        for h in 1..self.m() + 1 {
            if self.own(h) > 0 {
                sum += self.ways_by(sowings, h, depth - 1);
            }
        }
        sum
    }

    // Returns the number of ways to play on for `depth` moves, 0 to 19, after the move of house `h`. That isn't played if no move is to
    // follow. Inlined, so that the last moves are counted without a call.
    #[inline(always)]
    #[cycle(ways)]
    fn ways_by(&self, sowings: &SowingTable, h: u8, depth: u8) -> u64
        requires legal { Contains (legal_houses (storeless self.now)) h }
        requires depth { depth < most_depth }
        ensures ways { result ≡ ways_by depth (storeless self.now) h }
        ensures small { result ≤ most_houses ^ depth }
    {
        if depth == 0 {
            return 1;
        }
        let _side = self.m(); // For a clause: the houses are within the limits.
        match self.play_with(sowings, House::new(h)) {
            HousesStep::Over { .. } => 0,
            HousesStep::Again { next, .. } | HousesStep::Turn { next, .. } => next.ways(
                sowings, depth,
            ),
        }
    }
}

impl Board {
    /// Returns the number of ways to play on for `depth` moves, 0 to 20: sequences of exactly `depth` moves by the rules. If the game is
    /// over, there is one way to play no move, and no other.
    #[tactic(auto, using(crate::proofs::WaysLemmas::ways_of_houses))]
    pub fn ways(&self, depth: u8) -> u64
        requires { depth ≤ most_depth }
        ensures ways { result ≡ ways depth self.now }
        ensures small { result ≤ most_houses ^ depth }
    {
        let sowings = SowingTable::new();
        self.houses().ways(&sowings, depth)
    }

    /// Returns the number of ways to play on for `depth` moves, 0 to 19, after the move of house `h`, which must be legal. That move
    /// itself isn't counted in `depth`.
    pub fn ways_by(&self, h: u8, depth: u8) -> u64
        requires legal { Contains (legal_houses self.now) h }
        requires depth { depth < most_depth }
        ensures ways { result ≡ ways_by depth self.now h }
        ensures small { result ≤ most_houses ^ depth }
    {
        let sowings = SowingTable::new();
        self.houses().ways_by(&sowings, h, depth)
    }
}
